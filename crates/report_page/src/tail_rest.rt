//! The page after the document, its second piece. Made of clients/report/tail.html by clients/report/page_parts, and not to be edited.

/// Bytes of clients/report/tail.html.
pub(crate) const TAIL_REST: &str = r##"
// Tables.
function part(title, says, ...inside) {
  return make("div", { class: "part" }, make("h3", {}, title), says && make("p", { class: "said" }, says), inside);
}
function triedPart(loop) {
  const rows = (loop.tried || [loop.evidence]).map(it => Object.assign([it.interval, it.outcome, evidence(loop, it)], { taken: it.outcome === "kernel" }));
  return part(loop.tried ? "Tried intervals" : "Last interval", null, make("div", { class: "scroll", "data-part": "tried" },
    table(["interval", "outcome", "evidence"], rows, ["n", "", ""])));
}
function unitPart(loop) {
  const ii = loop.kernel ? loop.kernel.ii : loop.mii, places = new Map((loop.kernel ? loop.kernel.units : []).map((name, at) => [name, at]));
  const held = name => loop.kernel.slots.filter(it => it.unit === places.get(name)).length;
  const share = (name, count) => count + ", " + (places.has(name) ? percentOf(loop.kernel, places.get(name), count) : 0) + " %";
  if (isOfProblems) return problemUnits(loop, held, share);
  const all = [...loop.units, ...[...places.keys()].filter(name => !loop.units.some(it => it.name === name)).map(name => ({ name, uses: 0,
    users: [] }))];
  const rows = all.map(it => {
    const inKernel = loop.kernel ? held(it.name) : null;
    const bar = make("span", { class: "bar", "aria-hidden": "true" },
      make("i", { style: "width:" + Math.min(100, 100 * (inKernel === null ? it.uses : inKernel) / ii) + "%" }));
    const users = it.users.map(user => nameOf(loop, user.operation) + (user.uses > 1 ? "*" + user.uses : "")).join(" ");
    return [make("span", { class: "mono" }, it.name), it.uses + (it.full ? " full" : ""),
      ...(inKernel === null ? [] : [make("span", { class: "whole" }, bar, share(it.name, inKernel))]),
      make("span", { class: "mono" }, users)];
  });
  const heads = ["unit", "bound", ...(loop.kernel ? ["kernel"] : []), "operations"];
  return part("Units", "In how many cycles of an iteration each is held: as the bound counts it, with the operations of that count"
    + (loop.kernel ? ", and in the kernel." : "."), make("div", { class: "scroll", "data-part": "units" }, table(heads, rows)), loop.set && setSays(loop.set));
}
// The fullest set of units. Without recurrences an unrolled body comes near the fraction.
function setSays({ units, rows, need }) {
  const isWhole = rows % units.length === 0, each = isWhole ? cycles(rows / units.length) : rows + "/" + units.length + " cycles";
  return make("p", { class: "said", "data-part": "set" }, "The fullest set of units is " + listed(units) + ", with " + counted(rows, "row") + " on "
    + counted(units.length, "unit") + ": " + each + ", need " + need + ". No schedule has an interval below " + need
    + (isWhole ? "." : "; as far as units go, an unrolled body would come near " + each + " an iteration."));
}
function problemUnits(loop, held, share) {
  const rows = loop.units.map(({ name, full }) => {
    const count = loop.kernel && held(name), bar = loop.kernel && make("span", { class: "bar", "aria-hidden": "true" },
      make("i", { style: "width:" + 100 * count / loop.kernel.ii + "%" }));
    return [make("span", { class: "mono" }, name), full ? "full" : "", ...(loop.kernel ? [make("span", { class: "whole" }, bar, share(name, count))] : [])];
  });
  return part("Units", "Full are those that the bound of " + cycles(loop.resources) + " is due to." + (loop.kernel ? " In the kernel each is held in so many cycles of a turn." : ""),
    make("div", { class: "scroll named", "data-part": "units" }, table(["unit", "bound", ...(loop.kernel ? ["kernel"] : [])], rows)));
}
function filePart(loop) {
  const { kernel, values, files } = loop, initial = kernel ? kernel.initial : [];
  const rows = files.map((file, at) => {
    const its = values.filter(it => it.file === at), mono = words => make("span", { class: "mono" }, words);
    const before = initial.filter(it => values[it.value].file === at).map((it, at) => [at ? ", " : "",
      make("span", { class: "whole" }, file.name + "." + it.register + " = " + values[it.value].name + " @" + it.distance)]);
    return [mono(file.name), file.registers === null ? "unallotted" : file.registers, ...(kernel ? [kernel.files[at].max_live] : []),
      mono(its.map(it => it.name).join(" ")), ...(initial.length ? [mono(before)] : [])];
  });
  const says = [initial.length > 0 && "Before the first turn some registers have to hold values of earlier iterations: x @2 is the value x of 2 iterations before the first one.",
    kernel && kernel.unroll > 1 && "The body is repeated " + kernel.unroll + " times, so that each instance of an unallotted value has a name of its own."].filter(it => it);
  const heads = ["file", "registers", ...(kernel ? ["MaxLive"] : []), "values", ...(initial.length ? ["before the first turn"] : [])];
  return part("Register files", says.join(" "), make("div", { class: "scroll named", "data-part": "files" }, table(heads, rows, ["", "n", kernel ? "n" : ""])));
}
function circuitPart(loop) {
  if (!loop.circuit) return part("Critical circuit", circuitSays(loop));
  const { delay, distance, needs } = loop.circuit, it = edgeTable(loop, loop.circuit.edges.map(at => loop.edges[at]));
  it.append(make("tfoot", {}, make("tr", { class: "taken" },
    ["sum", "", "needs " + needs, delay, distance].map((text, at) => make("td", { class: at > 2 ? "n" : null }, text)))));
  return part("Critical circuit", null, make("div", { class: "scroll", "data-part": "circuit" }, it));
}
function factsOf(loop) {
  const kernel = loop.kernel, operations = loop.operations.length;
  const facts = kernel ? [[kernel.ii, "interval, in cycles" + (isLeast(kernel) ? ": least possible" : "")],
    [kernel.held_by, kernel.held_by === "neither" ? "bound holds it" : "hold" + (kernel.held_by.endsWith("s") || kernel.held_by === "both" ? "" : "s") + " it"]]
    : [["none", "interval up to " + loop.failed_to], [loop.cause, "cause at " + loop.failed_to]];
  facts.push([loop.mii, "MII"], [loop.resources, "ResMII, by units"], [loop.recurrences, "RecMII, by recurrences"]);
  if (kernel) facts.push([kernel.stages, kernel.stages === 1 ? "stage" : "stages"], [spanOf(loop), "cycles an iteration"],
    ...(kernel.extra_turns === undefined ? [] : [[turnsOf(kernel), "turns for N iterations"]]),
    ...kernel.files.filter(it => it.values.length || !it.name).map(it => [it.max_live + (it.registers === null ? "" : " of " + it.registers),
      it.name ? "live in " + cut(it.name) : "registers live"]),
    ...(kernel.need === undefined || !kernel.values.length ? [] : [[(kernel.need ?? "over 256") + " of " + kernel.registers, "registers needed"]]));
  if (kernel && kernel.unroll) facts.push([kernel.unroll, kernel.unroll === 1 ? "copy of the body" : "copies of the body"]);
  facts.push([operations, operations === 1 ? "operation" : "operations"]);
  return make("ul", { class: "facts" }, facts.map(([number, says]) => make("li", {}, make("b", {}, number), make("span", {}, says))));
}
function sectionOf(loop) {
  const files = loop.kernel ? loop.kernel.files.filter(it => it.values.length || !it.name) : [];
  const charts = loop.kernel ? [kernelChart(loop), files.map(it => registerChart(loop, it)), iterationChart(loop)] : [];
  return make("section", { class: "loop", "aria-labelledby": ONE + "-" + loop.name, "data-loop": loop.name },
    make("h2", { id: ONE + "-" + loop.name, tabindex: -1 }, loop.name), make("p", { class: "summary" }, summary(loop)), factsOf(loop),
    make("div", { class: "charts" }, charts, graphChart(loop), make("div", { class: "stack" }, (loop.tried || loop.evidence) && triedPart(loop), loop.values && filePart(loop), unitPart(loop),
      circuitPart(loop))));
}

// The list of loops.
const MOST = 4;
const ratioOf = loop => loop.kernel ? loop.kernel.ii / loop.mii : Infinity;
const intervalOf = loop => loop.kernel ? loop.kernel.ii : Infinity;
const holderOf = loop => loop.kernel ? loop.kernel.held_by : loop.cause;
const heldBy = loop => "held by " + holderOf(loop) + (holderOf(loop) === "neither" ? " bound" : "");
const ORDERS = { file: () => 0, ratio: (a, b) => ratioOf(b) - ratioOf(a) || 0, interval: (a, b) => intervalOf(b) - intervalOf(a) || 0,
  name: (a, b) => (a.name < b.name ? -1 : 1) };
function entryOf(loop, most) {
  const ratio = loop.kernel ? Math.min(ratioOf(loop), MOST) : 0, says = loop.kernel ? loop.kernel.ii + " / " + loop.mii : "no " + ANSWER;
  const spoken = loop.kernel ? loop.name + ", interval " + loop.kernel.ii + ", MII " + loop.mii + ", " + heldBy(loop) : loop.name
    + ", no " + ANSWER + " up to " + loop.failed_to + ", " + loop.cause;
  const bar = make("span", { class: "ratio" + (loop.kernel ? "" : " none"), "aria-hidden": "true" }, loop.kernel
    && [make("i", { style: "width:" + 100 / most + "%" }), make("i", { style: "width:" + 100 * (ratio - 1) / most + "%" })]);
  const link = make("a", { href: "#" + ONE + "-" + encodeURIComponent(loop.name), "aria-label": spoken, title: heldBy(loop), tabindex: -1 },
    make("span", { class: "name" }, make("span", {}, loop.name), make("span", {}, says)), bar);
  return make("li", {}, link);
}
const loops = isOfProblems ? whole.problems.map(ofProblem) : (whole.loops || []).map(ofLoop), byName = new Map(loops.map(it => [it.name, it]));
const list = byId("list"), main = byId("main"), tip = byId("tip"), entries = new Map(), links = () => [...list.querySelectorAll("a")];
let shown = loops; // those that the filter leaves, in their order
let drawing = 0; // which call of `show` is at work
let pointed = null; // the mark that the tip tells of

function relist() {
  const words = byId("filter").value.toLowerCase().split(/\s+/).filter(it => it);
  const fits = it => words.every(word => (it.name + " " + holderOf(it) + (it.kernel ? "" : " no " + ANSWER)).toLowerCase().includes(word));
  shown = loops.filter(fits).sort(ORDERS[byId("order").value]);
  list.replaceChildren(...shown.map(it => entries.get(it)));
  byId("shown").textContent = shown.length === loops.length ? "" : counted(shown.length, ONE) + " of " + loops.length;
  if (!list.querySelector('a[tabindex="0"]') && shown.length) stopAt(entries.get(shown[0]).firstChild);
}
// One entry is a stop of the tab key, also of those that the filter leaves out.
function stopAt(entry) {
  for (const it of entries.values()) it.firstChild.tabIndex = -1;
  entry.tabIndex = 0;
}
// The first loop is drawn at once. The others follow by and by, so that the page answers meanwhile, unless something else is to be shown.
function drawNext(what, mine) {
  const section = sectionOf(what[0]);
  main.append(section);
  seeGraph(section.querySelector("[data-chart=graph] .scroll"));
  main.setAttribute("aria-busy", what.length > 1);
  if (what.length > 1) setTimeout(() => mine === drawing && drawNext(what.slice(1), mine));
}
function show(what, isAsked) {
  const mine = ++drawing; // (what was under way ends)
  heat(null);
  main.replaceChildren();
  main.setAttribute("aria-busy", false);
  widest = clamp(520, main.clientWidth - 90, 2400);
  if (what.length) drawNext(what, mine);
  for (const it of entries.values()) it.firstChild.removeAttribute("aria-current");
  if (what.length === 1) {
    const entry = entries.get(what[0]).firstChild;
    stopAt(entry);
    entry.setAttribute("aria-current", "true");
    if (entry.isConnected) entry.scrollIntoView({ block: "nearest" });
  }
  window.scrollTo(0, 0);
  if (isAsked && what.length) main.querySelector("h2").focus();
}
function addressed() {
  try {
    return decodeURIComponent(location.hash.replace("#" + ONE + "-", ""));
  } catch (fault) {
    return ""; // (a % that stands for no byte)
  }
}
// Shows what the address says after #, or the first loop.
function follow(isAsked) {
  if (location.hash === "#all") return show(shown, isAsked);
  const loop = byName.get(addressed());
  if (loop || !isAsked) show(loop ? [loop] : loops.slice(0, 1), isAsked);
}
// What is told of an operation is told beside the pointer or the focus, and the operation stands out in all charts of its loop.
function heat(node) {
  for (const it of document.querySelectorAll(".hot")) it.classList.remove("hot");
  for (const it of document.querySelectorAll(".quiet")) it.classList.remove("quiet");
  const place = node && node.dataset.op, section = node && node.closest("section");
  tip.hidden = !node || !tips.has(node);
  if (!section) return;
  const near = ["op", "from", "to"].map(it => "[data-" + it + '="' + place + '"]').join(", ");
  for (const it of section.querySelectorAll(near)) it.classList.add("hot");
  section.querySelector(".graph").classList.add("quiet");
  if (tip.hidden) return;
  tip.textContent = tips.get(node);
  pointed = node;
  beside();
}
function beside() {
  const box = pointed.getBoundingClientRect(), own = tip.getBoundingClientRect();
  tip.style.left = clamp(4, box.left, Math.max(innerWidth - own.width - 4, 4)) + "px";
  tip.style.top = (box.bottom + own.height + 10 < innerHeight ? box.bottom + 6 : Math.max(box.top - own.height - 6, 4)) + "px";
}
function walk(event) {
  const all = links(), at = all.indexOf(document.activeElement);
  const to = { ArrowDown: at + 1, ArrowUp: at - 1, Home: 0, End: all.length - 1 }[event.key];
  if (to === undefined || !all[to]) return;
  event.preventDefault();
  stopAt(all[to]);
  all[to].focus();
}
// A table that is wider than paper is made smaller there. (A drawing is anyway.)
function fitPaper() {
  for (const it of document.querySelectorAll(".scroll")) it.style.setProperty("--fit", Math.min(1, 660 / it.scrollWidth));
}
function listen() {
  main.addEventListener("mouseover", event => heat(event.target.closest("[data-op]")));
  main.addEventListener("mouseleave", () => heat(null));
  main.addEventListener("focusin", event => heat(event.target.closest("[data-op]")));
  main.addEventListener("focusout", () => heat(null));
  list.addEventListener("keydown", walk);
  byId("filter").addEventListener("input", relist);
  byId("order").addEventListener("change", relist);
  byId("all").addEventListener("click", () => (location.hash === "#all" ? show(shown, true) : (location.hash = "all")));
  addEventListener("scroll", () => tip.hidden || beside(), { capture: true, passive: true });
  addEventListener("keydown", event => event.key === "Escape" && heat(null));
  addEventListener("hashchange", () => follow(true));
  addEventListener("beforeprint", fitPaper);
}
function start() {
  const most = greatest(loops.map(it => it.kernel ? Math.min(ratioOf(it), MOST) : 1), 1);
  for (const it of loops) entries.set(it, entryOf(it, most));
  byId("counts").textContent = counted(loops.length, ONE) + ", "
    + (whole.failed ? whole.met + " with a " + ANSWER + ", " + whole.failed + " without" : loops.length ? "each with a " + ANSWER : "nothing to show");
  document.title = (loops.length === 1 ? loops[0].name : counted(loops.length, ONE)) + " \u2013 Modsched report";
  if (isOfProblems) {
    document.querySelector(".skip").textContent = "Skip to the problem";
    byId("side").setAttribute("aria-label", "Problems");
    document.querySelector(".both span").textContent = "problem";
  }
  listen();
  relist();
  follow(false);
}
if (whole.version === 1) start();
else main.append(make("p", {}, "The document of this page has the version " + whole.version + ", which the page does not know."));
document.documentElement.dataset.ready = Math.round(performance.now());
})();
</script>
</body>
</html>
"##;

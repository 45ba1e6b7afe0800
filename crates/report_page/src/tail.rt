//! The page after the document, its first piece. Made of clients/report/tail.html by clients/report/page_parts, and not to be edited.

/// Bytes of clients/report/tail.html.
pub(crate) const TAIL: &str = r#"</script>
<script>
(function () {
"use strict";
const SPACE = "http://www.w3.org/2000/svg";
const COLOURS = 8;
const CHAR = 7.3; // pixels of a character of the charts' font
const tips = new WeakMap();
const byId = id => document.getElementById(id);

// Elements. Children are elements, texts and numbers; null and false are left out.
function filled(node, attributes, inside) {
  for (const [key, value] of Object.entries(attributes || {})) if (value !== null && value !== false) node.setAttribute(key, value);
  for (const it of inside.flat(Infinity)) if (it !== null && it !== false && it !== undefined) node.append(it instanceof Node ? it : String(it));
  return node;
}
const make = (name, attributes, ...inside) => filled(document.createElement(name), attributes, inside);
const draw = (name, attributes, ...inside) => filled(document.createElementNS(SPACE, name), attributes, inside);
const rect = (x, y, width, height, attributes) => draw("rect", { x, y, width, height, ...attributes });
const letters = (x, y, text, attributes) => draw("text", { x, y, ...attributes }, text);
const range = count => Array.from({ length: count }, (_, at) => at);
const clamp = (least, it, most) => Math.max(least, Math.min(it, most));
const greatest = (numbers, least) => numbers.reduce((a, b) => Math.max(a, b), least);
const colour = stage => "c" + stage % COLOURS;
const roomOf = number => 6.7 * String(number).length; // pixels of a number beside a chart
const cut = (text, most = 28) => text.length > most ? text.slice(0, most - 1) + "\u2026" : text;

// What the page shows: loops, or scheduling problems, which are shown as loops are. Here a loop is either. A file of registers has its values; a loop has one
// file, without a name.
const whole = JSON.parse(byId("document").textContent), isOfProblems = "problems" in whole;
const ONE = isOfProblems ? "problem" : "loop", ANSWER = isOfProblems ? "solution" : "kernel";
const ofLoop = loop => {
  for (const it of loop.operations) Object.assign(it, { word: it.opcode, done: it.latency });
  const kernel = loop.kernel;
  if (kernel) Object.assign(kernel, kernel.figures);
  if (kernel) kernel.files = [{ name: "", at: 0, registers: kernel.registers, need: kernel.need, live: kernel.live, max_live: kernel.max_live,
    values: kernel.values.map(it => ({ ...it, name: loop.operations[it.operation].name })) }];
  return loop;
};
const ofProblem = problem => {
  const { kernel, values } = problem;
  for (const it of problem.operations) Object.assign(it, { word: it.kind, done: it.latency, makes: [] });
  values.forEach((it, at) => {
    const maker = problem.operations[it.operation];
    maker.makes.push({ ...it, ...(kernel ? kernel.values[at] : {}) });
    maker.done = Math.max(maker.done, it.lands);
  });
  if (kernel) kernel.files = problem.files.map((file, at) => ({ ...file, ...kernel.files[at], at,
    values: values.map((it, place) => ({ ...it, ...kernel.values[place] })).filter(it => it.file === at) }));
  return problem;
};

// Words.
const counted = (count, one, many) => count + " " + (count === 1 ? one : many || one + "s");
const cycles = count => counted(count, "cycle");
const neededRegisters = count => count === null ? "more than 256 registers" : counted(count, "register");
const nameOf = (loop, place) => loop.operations[place].name;
function listed(words, most = 8) {
  const shown = words.length > most ? [...words.slice(0, most - 1), counted(words.length - most + 1, "other")] : words;
  return shown.length < 2 ? shown.join("") : shown.slice(0, -1).join(", ") + " and " + shown[shown.length - 1];
}
const names = (loop, places) => listed(places.map(place => nameOf(loop, place)));
const kindOf = (loop, edge) => edge.value === undefined ? edge.kind : edge.kind + " " + loop.values[edge.value].name;
const signed = (edge, word) => (word || edge.kind !== "value" ? (word || edge.kind) + " " : "") + edge.delay
  + (edge.distance ? " @" + edge.distance : "");

// What an operation's mark tells, part by part.
function told(loop, place) {
  const it = loop.operations[place];
  const parts = [it.name + ": " + it.word + ", operation " + place];
  if (loop.kernel) {
    parts.push("issued in cycle " + it.time + ": stage " + it.stage + ", row " + it.row, "alternative " + it.alternative);
    if (!it.makes) parts.push("lands " + cycles(it.latency) + " later, in cycle " + (it.time + it.latency));
    if (it.slack !== undefined) parts.push("slack " + cycles(it.slack));
  } else if (!it.makes) parts.push("latency " + cycles(it.latency), "height " + it.height);
  return it.makes ? [...parts, ...toldOfProblem(loop, it)] : parts;
}
function toldOfProblem(loop, it) {
  const made = it.makes.map(value => "makes " + value.name + ", which lands in " + loop.files[value.file].name + (value.lands ? " " + cycles(value.lands) + " later" : " at once")
    + (loop.kernel ? ", in cycle " + (it.time + value.lands) : ""));
  const used = ["reads", "writes"].filter(word => loop.kernel && it[word].length).map(word => word + " " + listed(it[word]));
  return ["latency " + cycles(it.latency), ...made, ...used];
}
// Makes an element tell of an operation, by the tip and to screen readers, and reachable by the arrow keys.
function mark(node, place, parts) {
  tips.set(node, parts.join("\n"));
  return filled(node, { "data-op": place, tabindex: -1, "aria-label": parts.join(", "), role: node.namespaceURI === SPACE ? "img" : null }, []);
}

function evidence(loop, it) {
  const which = it.outcome === "kernel" ? "" : names(loop, it.operations);
  if (it.file !== undefined) return "no register of " + loop.files[it.file].name + " is left for the value " + loop.values[it.value].name;
  switch (it.outcome) {
    case "kernel": return "a kernel of " + counted(it.stages, "stage");
    case "table": return which + " collides with itself by each of its alternatives";
    case "budget": return "when all placements were made, " + which + " had no place";
    case "stages": return which + " would be issued in cycle " + it.time + ", in stage 64 or later";
    default: return "no register is left for " + which + ", which lives from cycle " + it.first + " to cycle " + it.last
      + (it.need === undefined ? "" : "; all values need " + neededRegisters(it.need));
  }
}
// The bound by units counts one choice of alternatives; that units need so much is sure where a set of units does.
const isSure = loop => Boolean(loop.set) && loop.set.need === loop.resources;
function unitsNeed(loop, they = "units") {
  const full = loop.units.filter(it => it.full);
  const told = full.map(it => it.name + (it.users ? " (" + names(loop, it.users.map(user => user.operation)) + ")" : ""));
  const counts = they === "they" ? "it counts " : "the bound by units counts ";
  return (isSure(loop) ? they + " need " : counts) + cycles(loop.resources) + ", by " + listed(told, isOfProblems ? 8 : 3);
}
function recurrencesNeed(loop, they = "recurrences") {
  if (!loop.circuit) return "no recurrence needs more than 1 cycle";
  const { delay, distance } = loop.circuit;
  return they + " need " + cycles(loop.recurrences) + ", since a circuit of dependences takes " + cycles(delay) + " over " + counted(distance, "iteration")
    + " (" + circuitNames(loop) + ")";
}
function circuitNames(loop) {
  const edges = loop.circuit.edges.map(at => loop.edges[at]);
  const all = [nameOf(loop, edges[0].from), ...edges.map(it => nameOf(loop, it.to))];
  return (all.length > 9 ? [...all.slice(0, 7), "..", all[all.length - 1]] : all).join(" \u2192 ");
}
function whyHeld(loop) {
  const held = loop.kernel.held_by, before = loop.tried && loop.tried[loop.tried.length - 2];
  if (held === "neither") return "That is above " + loop.mii + ", the greater of its bounds: " + unitsNeed(loop) + "; " + recurrencesNeed(loop) + ".";
  if (held === "units") return (isSure(loop) ? "Units hold it: " : "The bound by units holds it: ") + unitsNeed(loop, "they") + "; " + recurrencesNeed(loop) + ".";
  if (held === "recurrences") return "Recurrences hold it: " + recurrencesNeed(loop, "they") + "; " + unitsNeed(loop) + ".";
  if (held === "both") return "Units and recurrences hold it: " + unitsNeed(loop) + "; " + recurrencesNeed(loop) + ".";
  if (held === "one cycle") return "No interval is shorter than one cycle: " + unitsNeed(loop) + "; " + recurrencesNeed(loop) + ".";
  const word = { registers: "Registers hold", table: "A reservation table holds", budget: "The budget holds",
    stages: "The number of stages holds" }[held];
  return word + " it above " + loop.mii + ", the greater of its bounds: at " + before.interval + ", " + evidence(loop, before) + ".";
}
function summary(loop) {
  const kernel = loop.kernel, span = spanOf(loop);
  if (!kernel) return [
    make("b", {}, isOfProblems && loop.mii === loop.failed_to ? "The interval " + loop.mii + " gives no solution."
      : "No interval from " + loop.mii + " to " + loop.failed_to + " gives a " + ANSWER + "."), " At " + loop.failed_to + ", "
      + evidence(loop, loop.evidence || loop.tried[loop.tried.length - 1]) + ". Its bounds: " + unitsNeed(loop) + "; " + recurrencesNeed(loop) + "."];
  return [
    make("b", {}, "A new iteration begins every " + (kernel.ii === 1 ? "cycle" : cycles(kernel.ii)) + "."), " " + whyHeld(loop)
      + (isLeast(kernel) && kernel.held_by !== "one cycle" ? " No schedule that keeps the dependences and the units has a shorter interval." : "")
      + " An iteration takes "
      + cycles(span) + " and goes through " + counted(kernel.stages, "stage") + ", so that "
        + (kernel.stages === 1 ? "one is" : "up to " + kernel.stages + " are")
      + " under way at a time. " + (kernel.extra_turns === undefined ? "" : "N iterations take " + turnsOf(kernel) + " turns. ")
      + kernel.files.filter(it => it.values.length || !it.name).map(fileSays).join(" ")
      + (kernel.unroll > 1 ? " With " + kernel.unroll + " copies of the body each instance of a value has a name of its own." : "")];
}
const isLeast = kernel => kernel.least_possible === true;
const turnsOf = kernel => "N" + (kernel.extra_turns ? " + " + kernel.extra_turns : "");
function fileSays({ name, registers, max_live: most, values, need }) {
  if (registers === null) return "At most " + counted(most, "instance") + " of values in " + name + (most === 1 ? " is" : " are") + " live at once.";
  return "At most " + most + " of " + counted(registers, "rotating register") + (name ? " of " + name : "") + (most === 1 ? " holds" : " hold") + " a value at once."
    + (need === undefined || !values.length ? "" : " The schedule needs " + neededRegisters(need) + ".");
}
const spanOf = loop => loop.kernel ? loop.kernel.cycles || greatest(loop.operations.map(it => it.time + it.done), 1) : 0;

// How wide a chart may be before it is scrolled, in pixels.
let widest = 0;

// Parts of the page.
function table(heads, rows, classes = []) {
  const head = heads.map((it, at) => make("th", { scope: "col", class: classes[at] }, it));
  const body = rows.map(row => make("tr", { class: row.taken ? "taken" : null }, row.map((it, at) => make("td", { class: classes[at] }, it))));
  return make("table", {}, make("thead", {}, make("tr", {}, head)), make("tbody", {}, body));
}
// What opens is made when it is opened.
function opening(says, build) {
  const it = make("details", {}, make("summary", {}, says));
  it.addEventListener("toggle", () => it.open && it.children.length < 2 && it.append(make("div", { class: "scroll" }, build())));
  return it;
}
function figure(loop, kind, title, says, chart, key, alternative, part = "") {
  const id = kind + part + "-" + loop.name;
  const scroll = make("div", { class: "scroll" }, chart);
  const isLong = kind === "kernel" ? loop.kernel.ii > 16 : chart.getAttribute("height") > 520;
  const it = make("figure", { class: isLong ? "long" : null, "aria-labelledby": id, "data-chart": kind }, make("figcaption", {}, make("h3", { id }, title), make("p", {}, says)),
    scroll, key, alternative);
  scroll.addEventListener("scroll", () => stick(scroll), { passive: true });
  rove(it, kind === "iteration" ? 0.01 : 2.5);
  return it;
}
function stick(scroll) {
  for (const it of scroll.querySelectorAll(".stuck")) {
    it.style.transform = "translate(" + (it.dataset.x ? scroll.scrollLeft : 0) + "px," + (it.dataset.y ? scroll.scrollTop : 0) + "px)";
  }
}
const stuck = (x, y, ...inside) => draw("g", { class: "stuck", "data-x": x ? 1 : null, "data-y": y ? 1 : null }, inside);
const swatch = (drawn, says) => make("li", {}, draw("svg", { width: 22, height: 14, "aria-hidden": "true" }, drawn), says);
function stageKey(count, ...others) {
  const stages = range(Math.min(count, COLOURS)).map(it => swatch(rect(1, 1, 20, 12, { class: "box " + colour(it) }), "stage " + it));
  const again = count > COLOURS && make("li", {}, "and so on, with the same " + COLOURS + " colours again");
  return make("ul", { class: "key" }, stages, again, others);
}
// One mark of a chart is a stop of the tab key; arrow keys go on from there.
function rove(chart, across) {
  const marks = () => [...chart.querySelectorAll("[data-op][tabindex]")];
  const first = chart.querySelector("[data-op][tabindex]");
  if (first) first.setAttribute("tabindex", 0);
  chart.addEventListener("focusin", event => {
    const now = event.target.closest("[data-op][tabindex]");
    if (!now) return;
    for (const it of chart.querySelectorAll('[data-op][tabindex="0"]')) it.setAttribute("tabindex", -1);
    now.setAttribute("tabindex", 0);
  });
  chart.addEventListener("keydown", event => {
    const now = event.target.closest("[data-op][tabindex]");
    const next = now && following(marks(), now, event.key, across);
    if (!next) return;
    event.preventDefault();
    next.focus();
  });
}
function following(marks, now, key, across) {
  const at = marks.indexOf(now);
  if (key === "ArrowRight") return marks[at + 1];
  if (key === "ArrowLeft") return marks[at - 1];
  if (key === "Home") return marks[0];
  if (key === "End") return marks[marks.length - 1];
  if (key !== "ArrowDown" && key !== "ArrowUp") return null;
  const middle = it => { const box = it.getBoundingClientRect(); return [box.x + box.width / 2, box.y + box.height / 2]; };
  const [x, y] = middle(now), sign = key === "ArrowDown" ? 1 : -1;
  let best = null, least = Infinity;
  for (const it of marks) {
    const [itsX, itsY] = middle(it), along = (itsY - y) * sign, cost = along + across * Math.abs(itsX - x);
    if (along > 1 && cost < least) [best, least] = [it, cost];
  }
  return best;
}

// In how many hundredths of the interval a unit is held in so many rows, rounded down.
const percentOf = ({ ii, percent }, unit, rows) => percent ? percent[unit] : Math.floor(100 * rows / ii);
// The kernel: rows by units. Where a great interval has rows without operations, they are drawn as one.
function kernelChart(loop) {
  const { ii, units, slots, idle_units: idle } = loop.kernel, files = loop.kernel.files.filter(it => it.values.length || !it.name);
  const taken = range(ii).map(() => []), uses = units.map(() => 0);
  for (const it of slots) { taken[it.row][it.unit] = it.operation; uses[it.unit]++; }
  const head = units.map((unit, at) => make("th", { scope: "col", abbr: unit, title: unit + " is held in " + uses[at] + " of " + cycles(ii) },
    make("span", { class: "unit" }, cut(unit).split("_").flatMap((word, at) => (at ? ["_", make("wbr"), word] : word))),
    make("span", { class: "bar" }, make("i", { style: "width:" + 100 * uses[at] / ii + "%" })), make("span", { class: "percent" }, percentOf(loop.kernel, at, uses[at]) + " %")));
  const rows = [];
  for (let row = 0; row < ii; row++) {
    let end = row;
    while (ii > 96 && end < ii && !taken[end].length) end++;
    if (end - row > 3) {
      rows.push(make("tr", {}, make("th", { scope: "row" }, row + " to " + (end - 1)),
        make("td", { class: "gap", colspan: units.length }, "no operation"),
        files.map(({ live }) => make("td", { class: "live" }, "up to " + greatest(live.slice(row, end), 0)))));
      row = end - 1;
    } else rows.push(make("tr", { "data-row": row }, make("th", { scope: "row" }, row),
      units.map((_, at) => slotCell(loop, row, units[at], taken[row][at])),
      files.map(({ live, max_live: most }) => make("td", { class: "live" + (live[row] === most && most ? " most" : "") }, live[row]))));
  }
  const lives = files.map(it => make("th", { scope: "col" }, "live" + (it.name ? " in " + cut(it.name) : "")));
  const chart = make("table", { class: "kernel" + (files.length > 1 ? " files" : "") }, make("thead", {}, make("tr", {}, make("th", { scope: "col" }, "row"), head,
    lives)), make("tbody", {}, rows));
  const says = "Which operation takes each unit in each cycle of a turn. The small number is its stage."
    + (slots.some(it => loop.operations[it.operation].row !== it.row) ? " Slanted: the unit is held after the row of the issue." : "")
    + (idle ? " " + counted(idle, "unit") + " of the machine " + (idle === 1 ? "has" : "have") + " no operation." : "");
  const key = stageKey(loop.kernel.stages, swatch(rect(1, 5, 14, 4, { style: "fill:var(--meter)" }), "share of the interval in which the unit is held"),
    files.length > 0 && make("li", {}, files.every(it => it.registers !== null) ? "live: registers with a value" : "live: instances of values"));
  return figure(loop, "kernel", "Kernel: " + cycles(ii) + " by " + counted(units.length, "unit"), says, chart, key, null);
}
function slotCell(loop, row, unit, place) {
  if (place === undefined) return make("td");
  const it = loop.operations[place], isIssued = it.row === row;
  const cell = make("td", { class: "slot " + colour(it.stage) + (isIssued ? "" : " held"), "data-unit": unit }, make("span", { class: "its" }, it.name), make("sub", {}, it.stage));
  const [first, ...rest] = told(loop, place);
  return mark(cell, place, [first, unit + " in row " + row + (isIssued ? "" : ", held after its issue"), ...rest]);
}

// One iteration over its stages, and the next two.
function iterationChart(loop) {
  const { ii, stages } = loop.kernel, ops = loop.operations, span = spanOf(loop);
  const order = range(ops.length).sort((a, b) => ops[a].time - ops[b].time || a - b);
  const total = Math.max(span + 2 * ii, stages * ii), longest = greatest(ops.map(it => cut(it.name).length + cut(it.word).length + 1), isOfProblems ? 6 : 0);
  const left = 18 + CHAR * longest, top = 36, high = 20, cell = clamp(Math.min(4, 6000 / total), (widest - left - 10) / total, 24);
  const width = left + total * cell + Math.max(8, roomOf(total) / 2 + 2), height = top + high * order.length + 6, x = cycle => left + cycle * cell;
  const box = (cycle, y, attributes) => rect(x(cycle), y + 3, Math.max(cell - 1, 2), high - 6, { rx: 2, ...attributes });
  const bands = range(Math.ceil(total / ii)).map(it => rect(x(it * ii), 0, Math.min(ii, total - it * ii) * cell, height,
    { class: it % 2 ? "bandB" : "bandA" }));
  const ghosts = [], bars = [], labels = [];
  order.forEach((place, at) => {
    const it = ops[place], y = top + high * at;
    for (const later of [2, 1]) ghosts.push(box(it.time + later * ii, y,
      { class: "ghost " + colour(it.stage), "data-ghost": later, "data-op": place }));
    const tail = it.done > 1 && rect(x(it.time + 1) - 1, y + 8, (it.done - 1) * cell, 4, { class: "tail" });
    bars.push(mark(draw("g", {}, tail, box(it.time, y, { class: "box " + colour(it.stage) })), place, told(loop, place)));
    labels.push(draw("text", { x: 6, y: y + 14, "data-op": place }, cut(it.name) + " ", draw("tspan", { class: "soft" }, cut(it.word))));
  });
  const wide = ii * cell, every = Math.ceil(18 / wide);
  const heads = range(stages).filter(it => it % every === 0).map(it => letters(x(it * ii) + 3, 13, (wide > 56 ? "stage " : "") + it,
    { class: "soft" }));
  const step = [1, 2, 5, 10, 20, 50, 100, 200, 500, 1000, 2000, 5000].find(it => it * cell >= Math.max(26, roomOf(total) + 6)) || 10000;
  const ticks = range(Math.ceil(total / step)).map(it => letters(x(it * step) + cell / 2, 29, it * step, { class: "soft", "text-anchor": "middle" }));
  const chart = draw("svg", { width, height, viewBox: "0 0 " + width + " " + height, role: "group", "aria-label": "Iteration chart" }, bands,
    range(stages + 1).map(it => draw("line", { class: "grid", x1: x(it * ii), x2: x(it * ii), y1: 0, y2: height })), ghosts, bars,
    stuck(1, 0, rect(0, 0, left - 4, height, { class: "back" }), labels), stuck(0, 1, rect(0, 0, width, top - 3, { class: "bandB" }), heads, ticks),
    stuck(1, 1, rect(0, 0, left - 4, top - 3, { class: "bandB" }), letters(6, 13, "stage", { class: "soft" }),
      letters(6, 29, "cycle", { class: "soft" })));
  const says = "Each operation in the cycle of its issue, by time. What is dashed are the same operations of the next two iterations, " + cycles(ii)
    + " and " + cycles(2 * ii) + " later." + (hasSlack(loop) ? " The slack of an operation is by how many cycles the dependences let it be issued later with all others where they are, and"
    + " the iteration takes no longer. A unit may be taken then." : "");
  const key = stageKey(stages, swatch(rect(1, 1, 20, 12, { class: "ghost c0" }), "later iterations"),
    swatch(rect(1, 5, 20, 4, { class: "tail" }), isOfProblems ? "until the last result lands" : "until the result lands"));
  return figure(loop, "iteration", "One iteration: " + cycles(span) + ", " + counted(stages, "stage"), says, chart, key,
    opening("Operations as a table", () => operationTable(loop)));
}
const hasSlack = loop => loop.operations.some(it => it.slack !== undefined);
function operationTable(loop) {
  if (isOfProblems) return problemTable(loop);
  const keys = ["name", "opcode", "latency", "height", ...(loop.kernel ? ["time", "stage", "row", "alternative"] : []), ...(hasSlack(loop) ? ["slack"] : [])];
  return table(["operation", ...keys], loop.operations.map((it, at) => [at, ...keys.map(key => it[key])]),
    ["n", ...keys.map(key => ({ name: "mono", opcode: "" })[key] ?? "n")]);
}

function problemTable(loop) {
  const rows = loop.operations.map((it, at) => [at, it.name, it.word, it.latency].concat(loop.kernel
    ? [it.time, it.stage, it.row, it.alternative, it.reads.join(" "), it.writes.join(" ")] : []));
  return table(["operation", "name", "kind", "latency"].concat(loop.kernel ? ["time", "stage", "row", "alternative", "reads", "writes"] : []), rows,
    ["n", "mono", "mono", "n", "n", "n", "n", "n", "mono", "mono"]);
}

// Lifetimes folded over the turn: a line for each register, by row. In the turn in which a value is in its fold f its register has the name `register + f`.
// Values of a file that is not rotating have lines of their own, as many as instances of them live at once.
function foldsOf(kernel, file) {
  const folds = [];
  let lines = 0; // of the values before this one
  for (const it of file.values) {
    for (let fold = Math.floor(it.first / kernel.ii); fold * kernel.ii <= it.last; fold++) {
      const from = Math.max(it.first - fold * kernel.ii, 0), to = Math.min(it.last - fold * kernel.ii, kernel.ii - 1);
      const [line, says] = file.registers === null ? [lines + fold % it.copies, copyLabel(it, fold)] : registerLabel(file, it, fold);
      folds.push({ it, fold, from, to, line, label: says, begins: it.first >= fold * kernel.ii, ends: it.last < (fold + 1) * kernel.ii });
    }
    lines += it.copies || 0;
  }
  return folds.sort((a, b) => a.line - b.line || a.from - b.from);
}
const copyLabel = ({ name, copies }, fold) => cut(name, 20) + (copies > 1 ? " (" + (fold % copies + 1) + " of " + copies + ")" : "");
function registerLabel({ name, registers }, it, fold) {
  const register = (it.register + fold) % registers;
  return [register, (name ? cut(name, 16) + "." : "r") + register];
}
function registerChart(loop, file) {
  const { ii } = loop.kernel, { live, max_live: most, registers, need } = file;
  const folds = foldsOf(loop.kernel, file), lanes = [...new Set(folds.map(it => it.line))], labels = new Map(folds.map(it => [it.line, it.label]));
  const longest = greatest(folds.map(it => it.it.name.length), 3), fitting = Math.max(300 / ii, CHAR * longest + 14);
  const left = Math.max(92, 22 + CHAR * greatest(folds.map(it => it.label.length), 0)), top = 84, high = 20, base = 50;
  const cell = clamp(Math.min(14, 6000 / ii), Math.min(fitting, (widest - left - 8) / ii), 160);
  const width = left + ii * cell + Math.max(8, roomOf(ii) / 2 + 2), height = top + high * lanes.length + 4, x = row => left + row * cell;
  const tall = it => 38 * it / Math.max(most, 1), isMost = it => it > 0 && it === most;
  const levels = live.map((it, row) => rect(x(row) + 0.5, base - tall(it), Math.max(cell - 1, 0.5), tall(it), { class: "level", "data-live": it }));
  const counts = live.map((it, row) => cell >= Math.max(18, roomOf(most) + 4) && letters(x(row) + cell / 2, 64, it, { class: isMost(it) ? "most-text" : "soft",
    "text-anchor": "middle" }));
  const step = Math.ceil(Math.max(24, roomOf(ii) + 6) / cell), ticks = range(ii).filter(it => it % step === 0).map(it => letters(x(it) + cell / 2, 78, it,
    { class: "soft", "text-anchor": "middle" }));
  const bars = folds.map(it => foldBar(file, it, x(it.from) + 1, top + high * lanes.indexOf(it.line) + 2, (it.to - it.from + 1) * cell - 2,
    high - 4));
  const chart = draw("svg", { width, height, viewBox: "0 0 " + width + " " + height, role: "group", "aria-label": "Live ranges" + (file.name && " in " + file.name) },
    lanes.map((_, at) => rect(0, top + high * at, width, high, { class: at % 2 ? "bandA" : "bandB" })),
      range(ii + 1).filter(it => it % Math.ceil(10 / cell) === 0).map(it => draw("line",
      { class: "grid", x1: x(it), x2: x(it), y1: top, y2: height })), bars,
    stuck(0, 1, rect(0, 0, width, top, { class: "back" }), levels, most > 0
      && draw("line", { class: "most-line", x1: left, x2: x(ii), y1: base - 38, y2: base - 38 }), counts, ticks),
    stuck(1, 0, lanes.map((it, at) => [rect(0, top + high * at, left - 4, high, { class: at % 2 ? "bandA" : "bandB" }),
      letters(left - 12, top + high * at + 14, labels.get(it), { "text-anchor": "end" })])),
    stuck(1, 1, rect(0, 0, left - 4, top, { class: "back" }), letters(6, base - 34, "MaxLive " + most, { class: "most-text" }),
      letters(6, 64, "live", { class: "soft" }), letters(6, 78, "row", { class: "soft" })));
  const says = !folds.length ? "No operation makes a value, so that no register is in use." : registers === null ? unallottedSays(file)
    : "Which value each register holds in each row of the turn, by the name that the turn gives it. "
    + "A value that lives on goes to the next higher name at the end of the turn. "
    + counted(lanes.length, "name") + " of " + registers + (lanes.length === 1 ? " is" : " are") + " in use; " + most + (most === 1 ? " is" : " are")
      + " live at once at the most (MaxLive)." + (need === undefined ? "" : " The least number of registers with which this schedule has an allotment is "
      + (need === null ? "more than 256." : need + "."));
  const alternative = opening("Live ranges as a table", () => table(["value", "first cycle", "last cycle", "cycles", registers === null ? "copies" : "register"],
    file.values.map(it => [it.name, it.first, it.last, it.last - it.first + 1, registers === null ? it.copies : it.register]), ["mono", "n", "n", "n", "n"]));
  const title = "Live ranges " + (file.name ? "in " + file.name + " " : "") + "over the turn: MaxLive " + most + (registers === null ? "" : " of " + registers);
  return figure(loop, "registers", title, says, chart, stageKey(1 + greatest(folds.map(it => it.fold), 0)), alternative, file.name && "-" + file.at);
}
function unallottedSays({ name, max_live: most }) {
  return "Which value lives in each row of the turn. Values in " + name + " are allotted to no registers; one of which several instances live at once has as many lines. "
    + counted(most, "instance") + (most === 1 ? " is" : " are") + " live at once at the most (MaxLive).";
}
function foldBar(file, { it, fold, from, to, label: line, begins, ends }, x, y, width, height) {
  const l = begins ? 4 : 0, r = ends ? 4 : 0, w = Math.max(width, 2), name = it.name, room = Math.floor((w - 8) / CHAR);
  const path = "M" + (x + l) + " " + y + "H" + (x + w - r) + "q" + r + " 0 " + r + " " + r + "V" + (y + height - r) + "q0 " + r + " " + -r + " " + r
    + "H" + (x + l) + "q" + -l + " 0 " + -l + " " + -l + "V" + (y + l) + "q0 " + -l + " " + l + " " + -l + "Z";
  const text = name.length <= room ? name : room > 3 ? name.slice(0, room - 1) + "\u2026" : "";
  const held = file.registers === null ? counted(it.copies, "copy", "copies") : "register " + (file.name && file.name + ".") + it.register + " of iteration 0";
  const parts = [name + " lives from cycle " + it.first + " to cycle " + it.last, held, (file.registers === null ? "here " : "here " + line + ", ")
    + "rows " + from + " to " + to
    + (fold ? ", of the iteration that began " + counted(fold, "turn") + " before" : "")];
  return mark(draw("g", { "data-value": name }, draw("path", { d: path, class: "box " + colour(fold) }), text
    && letters(x + 5, y + height - 4, text, { "pointer-events": "none" })), it.operation, parts);
}

// The dependences, in rows by time. A layer is a part of a row that fits the page's width; an edge that goes past layers has a bend in each.
const ROW = 34, APART = 30, MANY = 500, FEW = 28;
// The earliest cycles by the dependences within one iteration, which go from operations to later ones.
const asapOf = loop => {
  const at = loop.operations.map(() => 0), within = loop.edges.filter(it => !it.distance).sort((a, b) => a.from - b.from);
  for (const edge of within) at[edge.to] = Math.max(at[edge.to], at[edge.from] + edge.delay);
  return at;
};
function drawnEdges(loop) {
  const critical = new Set(loop.circuit ? loop.circuit.edges : []);
  const all = loop.edges.map((edge, at) => ({ ...edge, at, critical: critical.has(at) }));
  if (all.length <= MANY) return besides(all);
  const values = all.filter(it => it.kind === "value" && !it.critical), room = loop.values ? Math.max(MANY - critical.size, 0) : values.length;
  const shown = new Set(values.slice(0, room));
  return besides(all.filter(it => it.critical || shown.has(it)));
}
// Edges between the same two operations stand beside each other. Each has its place among them: how many there are, and from 0 its own.
function besides(edges) {
  const pairs = new Map(), pairOf = it => it.from + " " + it.to;
  for (const it of edges) pairs.set(pairOf(it), [...(pairs.get(pairOf(it)) || []), it]);
  for (const its of pairs.values()) its.forEach((it, place) => Object.assign(it, { place, places: its.length }));
  return edges;
}
function layersOf(loop, nodes) {
  const byTime = new Map(), layers = [];
  for (const it of nodes) byTime.set(it.time, [...(byTime.get(it.time) || []), it]);
  for (const time of [...byTime.keys()].sort((a, b) => a - b)) {
    const row = byTime.get(time), parts = Math.ceil(row.reduce((sum, it) => sum + it.room + 14, 0) / widest);
    for (const part of range(parts)) layers.push({ time, items: row.slice(Math.ceil(part * row.length / parts),
      Math.ceil((part + 1) * row.length / parts)) });
  }
  layers.forEach((layer, at) => layer.items.forEach(it => { it.layer = at; }));
  return layers;
}
const link = (a, b) => { a.near.push(b); b.near.push(a); };
// Where there are many, edges that leave one operation the same way have their bends in common, but for those of the critical circuit.
function bend(edge, nodes, layers, shared, isFew) {
  const from = nodes[edge.from], to = nodes[edge.to], sign = Math.sign(to.layer - from.layer), chain = [from];
  for (let at = from.layer + sign; sign && at !== to.layer; at += sign) {
    const key = [edge.from, at, edge.distance > 0, edge.critical || isFew ? edge.at : ""].join(" ");
    if (!shared.has(key)) {
      const it = { layer: at, room: 5, wide: 0, near: [], x: 0 };
      shared.set(key, it);
      layers[at].items.push(it);
      link(chain[chain.length - 1], it);
    }
    chain.push(shared.get(key));
  }
  if (sign) link(chain[chain.length - 1], to);
  edge.chain = [...chain, to];
}
const apart = (it, other) => (it.room + other.room) / 2 + (it.wide || other.wide ? 12 : 7);
// Orders each layer by the middle of what its items are linked to, then moves them there as far as there is room.
function arrange(layers) {
  const middle = (it, side) => {
    const near = it.near.filter(other => side === 0 || Math.sign(other.layer - it.layer) === side);
    return near.length ? near.reduce((sum, other) => sum + other.x, 0) / near.length : it.x;
  };
  const pack = ({ items }) => {
    items.forEach((it, at) => { it.x = at ? items[at - 1].x + apart(items[at - 1], it) : 0; });
    const half = items.length ? items[items.length - 1].x / 2 : 0;
    for (const it of items) it.x -= half;
  };
  layers.forEach(pack);
  for (const round of range(14)) {
    for (const layer of round % 2 ? [...layers].reverse() : layers) {
      const at = new Map(layer.items.map(it => [it, middle(it, round % 2 ? 1 : -1)]));
      layer.items.sort((a, b) => at.get(a) - at.get(b));
      pack(layer);
    }
  }
  for (const round of range(16)) for (const layer of round % 2 ? [...layers].reverse() : layers) settle(layer.items,
    layer.items.map(it => middle(it, 0)));
}
function settle(items, wanted) {
  const low = [...wanted], high = [...wanted];
  for (let at = 1; at < items.length; at++) low[at] = Math.max(low[at], low[at - 1] + apart(items[at - 1], items[at]));
  for (let at = items.length - 2; at >= 0; at--) high[at] = Math.min(high[at], high[at + 1] - apart(items[at], items[at + 1]));
  items.forEach((it, at) => { it.x = (low[at] + high[at]) / 2; });
}
// Where a label may stand: on the curves between layers, first on the middle one, or on the last one where others may be shared.
function spotsOf(points, isShared) {
  const count = points.length / 2, first = isShared ? count - 1 : Math.floor((count - 1) / 2);
  const parts = range(count).sort((a, b) => Math.abs(a - first) - Math.abs(b - first)).map(it => it * 2);
  return parts.flatMap(part => [0.5, 0.35, 0.65, 0.22, 0.78].map(t => {
    const [[x1, y1], [x2, y2]] = [points[part], points[part + 1]], u = 1 - t;
    return [x1 + (x2 - x1) * (3 * t * t - 2 * t * t * t), u * u * u * y1 + 3 * u * t * (y1 + y2) / 2 + t * t * t * y2 + 4];
  }));
}
// The first spot at which a label meets neither an operation nor another label, on its edge or else beside it, the nearest first. None is on the axis.
function freeSpot(spots, text, anchor, taken, farthest) {
  const wide = 7 * text.length + 5, near = spots.slice(0, 25), least = 80 + (anchor ? 0 : wide / 2);
  const beside = range(farthest).flatMap(far => [1, -1].flatMap(side => near.map(([x, y]) => [x + side * (wide / 2 + 4 + far * wide), y])));
  const boxes = [...near, ...beside].map(([x, y]) => [Math.max(x, least), y]).map(([x, y]) => [anchor ? x : x - wide / 2, y - 9, wide, 11, x, y]);
  const meets = ([x, y, w, h]) => taken.some(([x2, y2, w2, h2]) => x < x2 + w2 && x2 < x + w && y < y2 + h2 && y2 < y + h);
  const box = boxes.find(it => !meets(it)) || boxes[0];
  taken.push(box);
  return box.slice(4);
}
function pathOf(edge, layers, isShared) {
  const [from, to] = [edge.chain[0], edge.chain[edge.chain.length - 1]], y = it => layers[it.layer].y;
  if (from === to) {
    const x = from.x + from.wide / 2, middle = y(from) + ROW / 2, [far, farthest] = [edge.place, edge.places - 1].map(it => 22 + it * Math.min(7, 26 / edge.places));
    return { d: "M" + x + " " + (middle - 7) + "c" + far + " -14 " + far + " 28 2 15",
      spots: [[x + 1, y(from) - 3], ...[8, 19, 30].map(below => [x + 0.75 * farthest + 6, y(from) + below])], anchor: "start" };
  }
  const step = it => Math.min(7, 0.3 * it.wide / edge.places) * (edge.place - (edge.places - 1) / 2);
  if (from.layer === to.layer) {
    const low = y(from) + ROW, middle = (from.x + to.x) / 2, [x, toX] = [from.x + step(from), to.x + step(to)];
    return { d: "M" + x + " " + low + "C" + x + " " + (low + 24) + " " + toX + " " + (low + 26) + " " + toX + " " + (low + 2),
      spots: [[middle, low + 22], [middle, low + 11]] };
  }
  const isDown = to.layer > from.layer, shift = isDown ? 0 : 0.3;
  const points = edge.chain.flatMap(it => {
    if (it === from) return [[it.x + it.wide * shift + step(it), y(it) + (isDown ? ROW : 0)]];
    if (it === to) return [[it.x + it.wide * shift + step(it), y(it) + (isDown ? -2 : ROW + 2)]];
    return isDown ? [[it.x, y(it)], [it.x, y(it) + ROW]] : [[it.x, y(it) + ROW], [it.x, y(it)]];
  });
  const steps = points.slice(1).map(([x, y], at) => {
    const [beforeX, beforeY] = points[at], half = (beforeY + y) / 2;
    return "C" + [beforeX, half, x, half, x, y].map(it => Math.round(it * 10) / 10).join(" ");
  });
  return { d: "M" + points[0].join(" ") + steps.join(""), spots: spotsOf(points, isShared && !edge.critical) };
}
function placed(loop, edges) {
  const asap = loop.kernel ? null : asapOf(loop), loops = new Set(edges.filter(it => it.from === it.to).map(it => it.from));
  const nodes = loop.operations.map((it, place) => {
    const wide = Math.max(CHAR * cut(it.name).length, 6.4 * cut(it.word).length) + 14;
    return { place, time: asap ? asap[place] : it.time, wide, room: wide + (loops.has(place) ? 52 : 0), near: [], x: 0 };
  });
  const layers = layersOf(loop, nodes);
  const shared = new Map();
  for (const edge of edges) bend(edge, nodes, layers, shared, edges.length <= FEW);
  arrange(layers);
  let y = 14;
  layers.forEach((layer, at) => {
    const after = at && layer.time - layers[at - 1].time;
    layer.y = y += at ? ROW + APART + 6 * clamp(0, after - 1, 4) : 0;
  });
  const all = layers.flatMap(it => it.items), least = Math.min(...all.map(it => it.x - it.room / 2));
  for (const it of all) it.x += 104 - least;
  return { nodes, layers, width: greatest(all.map(it => it.x + it.room / 2), 0) + 48, height: y + ROW + 34 };
}
// The curves of edges, their labels, and where the last of these ends.
function edgeMarks(edges, nodes, layers, arrow) {
  const few = edges.length <= FEW, lines = [], sums = [], taken = nodes.map(it => [it.x - it.wide / 2, layers[it.layer].y, it.wide, ROW]);
  for (const edge of [...edges].sort((a, b) => b.critical - a.critical)) {
    const path = pathOf(edge, layers, !few), [x, y] = freeSpot(path.spots, signed(edge), path.anchor, taken, few ? 40 : 5), aside = edge.critical ? "" : " aside",
      hidden = few || edge.critical ? "" : " late";
    const ends = { "data-from": edge.from, "data-to": edge.to, "data-edge": edge.at };
    lines.push(draw("path", { d: path.d, class: "edge" + (edge.distance ? " later" : "") + (edge.critical ? " crit" : "") + aside,
      "marker-end": "url(#" + arrow + (edge.critical ? "-critical" : "") + ")", ...ends }));
    sums.push(letters(x, y, signed(edge), { class: "sum" + (edge.critical ? " critical" : "") + hidden + aside, "text-anchor": path.anchor
      || "middle", ...ends }));
  }
  return { lines, sums, end: greatest(taken.map(([x, , wide]) => x + wide), 0) };
}
function graphChart(loop) {
  const edges = drawnEdges(loop), { nodes, layers, width: least, height } = placed(loop, edges), arrow = "arrow-" + loops.indexOf(loop);
  const { lines, sums, end } = edgeMarks(edges, nodes, layers, arrow), width = Math.max(least, end + 6);
  const heads = ["", " critical"].map(kind => draw("marker",
    { id: arrow + (kind && "-critical"), viewBox: "0 0 8 8", refX: 7, refY: 4, markerWidth: 8, markerHeight: 8, markerUnits: "userSpaceOnUse",
    orient: "auto" }, draw("path", { d: "M0 0L8 4L0 8Z", class: "tip" + kind })));
  const bands = [], axis = [];
  layers.forEach((layer, at) => {
    const from = at ? layer.y - APART / 2 : 0, to = at + 1 < layers.length ? layers[at + 1].y - APART / 2 : height;
    const stage = loop.kernel && Math.floor(layer.time / loop.kernel.ii), before = at && layers[at - 1].time;
    const band = { class: loop.kernel && stage % 2 ? "bandB" : "bandA" };
    bands.push(rect(0, from, width, to - from + 0.5, band));
    if (at && before === layer.time) return void axis.push(rect(0, from, 76, to - from + 0.5, band));
    axis.push(rect(0, from, 76, to - from + 0.5, band), letters(6, layer.y + 14, "cycle " + layer.time, { class: "soft" }));
    if (loop.kernel && (!at || Math.floor(before / loop.kernel.ii) !== stage)) axis.push(letters(6, layer.y + 28, "stage " + stage,
      { class: "soft", style: "font-weight:700" }));
  });
  const byPlace = [...nodes].sort((a, b) => a.layer - b.layer || a.x - b.x).map(it => graphNode(loop, it, layers[it.layer].y));
  const drawn = draw("g", { class: "graph" }, lines.sort((a, b) => a.classList.contains("crit") - b.classList.contains("crit")), byPlace, sums);
  const chart = draw("svg", { width, height, viewBox: "0 0 " + width + " " + height, role: "group", "aria-label": "Dependence graph" },
    draw("defs", {}, heads), bands, drawn, stuck(1, 0, axis));
  return graphFigure(loop, chart, drawn, edges.length);
}
// A graph that is wider than its window begins at its critical circuit, or at its first operation.
function seeGraph(scroll) {
  const first = scroll.querySelector("path.crit") || scroll.querySelector("g[data-op]"), box = first && first.getBBox();
  if (box) scroll.scrollTo(box.x + box.width / 2 - scroll.clientWidth / 2, Math.max(0, box.y - scroll.clientHeight / 2));
}
function graphNode(loop, it, y) {
  const operation = loop.operations[it.place], edges = loop.edges.filter(edge => edge.to === it.place || edge.from === it.place);
  const waits = edges.filter(edge => edge.to === it.place).map(edge => signed(edge, kindOf(loop, edge)) + " from " + nameOf(loop, edge.from));
  const fill = loop.kernel ? colour(operation.stage) : "back";
  return mark(draw("g", {}, rect(it.x - it.wide / 2, y, it.wide, ROW, { rx: 4, class: "box " + fill }),
    letters(it.x, y + 15, cut(operation.name), { "text-anchor": "middle" }),
    letters(it.x, y + 28, cut(operation.word), { "text-anchor": "middle", style: "font-size:10.5px" })), it.place,
      [...told(loop, it.place), waits.length ? "waits for: " + listed(waits) : "waits for nothing"]);
}
function circuitSays(loop) {
  if (!loop.circuit) return "No circuit of dependences needs an interval of more than 1 cycle.";
  const edges = loop.circuit.edges.map(at => loop.edges[at]), { delay, distance, needs } = loop.circuit;
  const quotient = distance > 1 ? delay + " / " + distance + (delay % distance ? ", rounded up to " : " = ") : "";
  const sum = (numbers, whole) => numbers.length > 1 ? "s are " + numbers.join(" + ").replace(/\+ -/g, "- ") + " = " + whole : " is " + whole;
  if (edges.length > 8) return "The critical circuit, in bold, has " + edges.length + " edges: " + circuitNames(loop) + ". Its delays add up to " + delay
    + " and its distances to " + distance + ", so that it needs an interval of " + quotient + needs + ".";
  return "The critical circuit, in bold, is " + circuitNames(loop) + ". Its delay" + sum(edges.map(it => it.delay), delay) + " and its distance"
    + sum(edges.map(it => it.distance), distance)
    + ", so that it needs an interval of " + quotient + needs + ".";
}
function graphFigure(loop, chart, drawn, shown) {
  const left = loop.edges.length - shown, kinds = ["value", "memory", "anti", "output", "order"].filter(kind => loop.edges.some(it => it.kind === kind));
  const says = circuitSays(loop)
    + (kinds.length ? " Dashed edges go to a later iteration. A label is the delay in cycles, and after the @ the distance in iterations." : "")
    + (loop.kernel ? "" : " For want of a schedule the rows are the earliest cycles by the dependences within one iteration.")
    + (left ? " " + counted(left, "dependence") + (isOfProblems ? " " : " through memory ") + (left === 1 ? "is" : "are")
      + " left out of the picture and stand in the table." : "");
  const alternative = opening(counted(loop.edges.length, "dependence") + " as a table" + (kinds.length ? " (" + kinds.join(", ") + ")" : ""), () => edgeTable(loop, loop.edges));
  const only = loop.circuit && make("label", {}, make("input", { type: "checkbox" }), " the critical circuit alone");
  if (only) only.firstChild.addEventListener("change", event => drawn.classList.toggle("only", event.target.checked));
  return figure(loop, "graph", "Dependences: " + counted(loop.edges.length, "edge") + " of " + counted(loop.operations.length, "operation"), says,
    chart, only && make("div", { class: "tools" }, only), alternative);
}
function edgeTable(loop, edges) {
  return table(["from", "to", "kind", "delay", "distance"], edges.map(it => [it.from + " " + nameOf(loop, it.from), it.to + " " + nameOf(loop, it.to),
    kindOf(loop, it), it.delay, it.distance]), ["mono", "mono", "", "n", "n"]);
}
"#;

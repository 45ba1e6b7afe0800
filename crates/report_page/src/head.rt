//! The page before the document. Made of clients/report/head.html by clients/report/page_parts, and not to be edited.

/// Bytes of clients/report/head.html.
pub(crate) const HEAD: &str = r##"<!doctype html>
<html lang="en">
<head>
<meta charset="utf-8">
<meta name="viewport" content="width=device-width, initial-scale=1">
<meta name="color-scheme" content="light dark">
<meta http-equiv="Content-Security-Policy" content="default-src 'none'; style-src 'unsafe-inline'; script-src 'unsafe-inline'; img-src data:">
<title>Modsched report</title>
<link rel="icon" href="data:,">
<style>
:root {
  --page: #ffffff; --panel: #f5f7f9; --band: #eef2f6; --text: #161b21; --soft: #4d5863; --line: #d3dae1; --shape: #56616d;
  --link: #0b57b0; --bad: #b3261e; --warm: #9a4a00; --meter: #4d79b8; --rest: #dfe5eb; --hot: #000000;
  --s0: #bcd5f5; --s1: #fbd3a4; --s2: #bfe3b4; --s3: #f3bccb; --s4: #d8c8f0; --s5: #b0e0dd; --s6: #f0e096; --s7: #dccfc0;
  --mono: ui-monospace, "SF Mono", "DejaVu Sans Mono", Menlo, Consolas, monospace;
}
@media screen and (prefers-color-scheme: dark) {
  :root {
    --page: #14181d; --panel: #1c2229; --band: #222a33; --text: #e8edf2; --soft: #a9b5c1; --line: #37424d; --shape: #93a1af;
    --link: #8cbcff; --bad: #ff9a90; --warm: #ffb96b; --meter: #6f9fe0; --rest: #323c47; --hot: #ffffff;
    --s0: #2c5085; --s1: #7c4a10; --s2: #2d6030; --s3: #7f3450; --s4: #573f85; --s5: #1c615f; --s6: #635708; --s7: #5e4c3a;
  }
}
* { box-sizing: border-box; }
html { scroll-padding-top: 1rem; }
body { margin: 0; background: var(--page); color: var(--text); font: 15px/1.5 system-ui, "Segoe UI", Roboto, "DejaVu Sans", sans-serif; }
h1, h2, h3 { line-height: 1.25; margin: 0; }
h1 { font-size: 1.05rem; }
h2 { font-size: 1.6rem; font-family: var(--mono); overflow-wrap: anywhere; }
h2:focus { outline: none; }
h3 { font-size: 1rem; }
a { color: var(--link); }
p { margin: .4rem 0; max-width: 75rem; overflow-wrap: break-word; }
code, .mono { font-family: var(--mono); font-size: .92em; }
:focus-visible { outline: 3px solid var(--link); outline-offset: 1px; }
.skip { position: absolute; left: -99rem; }
.skip:focus { left: .5rem; top: .5rem; background: var(--page); padding: .5rem; z-index: 9; }
.silent { position: absolute; width: 1px; height: 1px; overflow: hidden; clip-path: inset(50%); white-space: nowrap; }
#frame { display: grid; grid-template-columns: 17.5rem minmax(0, 1fr); min-height: 100vh; }
#side { position: sticky; top: 0; height: 100vh; display: flex; flex-direction: column; background: var(--panel); border-right: 1px solid var(--line); }
#side > div { padding: .8rem .8rem .6rem; border-bottom: 1px solid var(--line); }
#side label { display: block; font-size: .82rem; color: var(--soft); margin-top: .5rem; }
#side input, #side select { width: 100%; font: inherit; font-size: .9rem; padding: .25rem .4rem; color: var(--text); background: var(--page); border: 1px solid var(--shape); border-radius: 4px; }
.both { display: flex; justify-content: space-between; margin: .5rem 0 0; font-size: .78rem; color: var(--soft); }
#counts, #shown { font-size: .85rem; color: var(--soft); margin: .2rem 0 0; }
#list { list-style: none; margin: 0; padding: .3rem 0; overflow-y: auto; flex: 1; }
#list a { display: block; padding: .3rem .8rem .4rem; color: inherit; text-decoration: none; border-left: 4px solid transparent; }
#list a:hover { background: var(--band); }
#list a:focus-visible { outline-offset: -3px; }
#list a[aria-current] { background: var(--band); border-left-color: var(--link); }
#list .name { display: flex; justify-content: space-between; gap: .5rem; font-family: var(--mono); font-size: .85rem; }
#list .name span:first-child { overflow: hidden; text-overflow: ellipsis; }
#list .name span:last-child { color: var(--soft); white-space: nowrap; }
.ratio { display: flex; height: 6px; margin-top: .25rem; }
.ratio i { display: block; background: var(--meter); }
.ratio i + i { background: var(--warm); }
.ratio.none { border: 1px dashed var(--bad); }
main { padding: 1.2rem 1.6rem 3rem; min-width: 0; outline: none; }
section.loop { content-visibility: auto; contain-intrinsic-size: auto 2500px; }
section.loop + section.loop { margin-top: 2.5rem; border-top: 3px solid var(--line); padding-top: 1.5rem; }
.facts { display: flex; flex-wrap: wrap; gap: .5rem; margin: .8rem 0; padding: 0; list-style: none; }
.facts li { background: var(--panel); border: 1px solid var(--line); border-radius: 6px; padding: .2rem .6rem .3rem; }
.facts b { display: block; font-size: 1.15rem; line-height: 1.3; font-variant-numeric: tabular-nums; }
.facts span { font-size: .8rem; color: var(--soft); }
.charts { display: flex; flex-wrap: wrap; gap: 1rem; align-items: flex-start; }
.charts > * { flex: 1 1 auto; }
.stack { display: flex; flex-flow: row wrap; gap: 1rem; flex: 1 1 27rem; min-width: 0; align-items: flex-start; }
.stack > * { flex: 1 1 24rem; }
.stack .scroll { max-height: 24rem; }
.part h3 { margin-bottom: .4rem; }
.part .said { margin: -.3rem 0 .5rem; }
.part .scroll + .said { margin: .55rem 0 0; }
.whole { white-space: nowrap; }
figure, .part { margin: 0; max-width: 100%; min-width: min(100%, 24rem); background: var(--panel); border: 1px solid var(--line); border-radius: 8px; padding: .8rem .9rem .9rem; }
figure { display: flex; flex-direction: column; }
figcaption { margin-bottom: .6rem; }
figcaption p, .said { font-size: .87rem; color: var(--soft); margin: .15rem 0 0; max-width: 46rem; width: 0; min-width: 100%; }
.scroll { overflow: auto; max-height: min(80vh, 54rem); background: var(--page); border: 1px solid var(--line); border-radius: 4px; width: fit-content; max-width: 100%; scroll-padding: 48px 70px 8px 100px; }
.scroll svg { display: block; }
.key { width: 0; min-width: 100%; display: flex; flex-wrap: wrap; gap: .2rem .9rem; font-size: .82rem; color: var(--soft); margin: .55rem 0 0; padding: 0; list-style: none; }
.key li { display: flex; align-items: center; gap: .35rem; }
.key svg { flex: none; }
details { margin-top: .6rem; font-size: .9rem; }
summary { cursor: pointer; color: var(--link); width: fit-content; }
details .scroll { margin-top: .4rem; max-height: 26rem; }
.more { margin-top: 1.2rem; }
table { border-collapse: separate; border-spacing: 0; font-size: .87rem; font-variant-numeric: tabular-nums; }
th, td { padding: .22rem .6rem; text-align: left; border-bottom: 1px solid var(--line); vertical-align: top; }
th { font-weight: 600; white-space: nowrap; }
thead th { position: sticky; top: 0; z-index: 2; background: var(--band); }
td.n, th.n { text-align: right; }
.named td:first-child { min-width: 5rem; max-width: 18rem; overflow-wrap: anywhere; }
tr.taken td { font-weight: 600; }
.bar { display: inline-block; width: 4rem; height: .6rem; background: var(--rest); vertical-align: middle; margin-right: .4rem; }
.bar i { display: block; height: 100%; background: var(--meter); }
table.kernel { font-family: var(--mono); font-size: 12px; }
table.kernel th, table.kernel td { padding: 0 .5rem; height: 24px; line-height: 23px; border-right: 1px solid var(--line); white-space: nowrap; text-align: center; vertical-align: middle; max-width: 12.5rem; overflow: hidden; text-overflow: ellipsis; }
table.kernel .its { display: inline-block; max-width: 10.4rem; overflow: hidden; text-overflow: ellipsis; vertical-align: bottom; }
table.kernel tbody th { position: sticky; left: 0; z-index: 1; background: var(--band); text-align: right; }
table.kernel thead th:first-child { left: 0; z-index: 3; }
table.kernel thead th { height: 40px; line-height: 1.25; white-space: normal; min-width: 3.4rem; padding-top: .25rem; padding-bottom: .2rem; }
table.kernel thead .bar { display: block; width: 100%; min-width: 2rem; height: 5px; margin: 3px 0 0; }
table.kernel thead .percent { display: block; margin-top: 2px; font-size: 10.5px; font-weight: 400; color: var(--soft); white-space: nowrap; }
table.kernel td.slot { box-shadow: inset 0 0 0 1px var(--shape); cursor: default; }
table.kernel td.held { font-style: italic; box-shadow: inset 0 0 0 1px var(--line), inset 3px 0 0 var(--shape); }
table.kernel td.slot sub { font-size: 9.5px; vertical-align: baseline; margin-left: .3em; font-style: normal; }
table.kernel td.live { position: sticky; right: 0; background: var(--band); text-align: right; border-left: 1px solid var(--line); }
table.kernel thead th:last-child { right: 0; z-index: 3; }
table.kernel td.most { font-weight: 700; color: var(--bad); }
table.kernel.files td.live:not(:last-child) { position: static; }
table.kernel td.gap { color: var(--soft); font-style: italic; text-align: left; }
.c0 { background: var(--s0); fill: var(--s0); } .c1 { background: var(--s1); fill: var(--s1); }
.c2 { background: var(--s2); fill: var(--s2); } .c3 { background: var(--s3); fill: var(--s3); }
.c4 { background: var(--s4); fill: var(--s4); } .c5 { background: var(--s5); fill: var(--s5); }
.c6 { background: var(--s6); fill: var(--s6); } .c7 { background: var(--s7); fill: var(--s7); }
svg text { font: 12px var(--mono); fill: var(--text); }
svg .soft { fill: var(--soft); font-size: 11px; }
svg .box { stroke: var(--shape); stroke-width: 1; }
svg .tail { fill: var(--shape); opacity: .55; }
svg .ghost { fill-opacity: .45; stroke: var(--shape); stroke-width: 1; stroke-dasharray: 2.5 2.5; }
svg .bandA { fill: var(--page); } svg .bandB { fill: var(--band); }
svg .back { fill: var(--page); } svg .grid { stroke: var(--line); stroke-width: 1; }
svg .edge { fill: none; stroke: var(--shape); stroke-width: 1.1; opacity: .8; }
svg .later { stroke-dasharray: 5 4; }
svg .crit { stroke: var(--bad); stroke-width: 2.8; opacity: 1; }
svg .tip { fill: var(--shape); } svg .tip.critical { fill: var(--bad); }
svg .sum { font-size: 11px; paint-order: stroke; stroke: var(--page); stroke-width: 3.5px; fill: var(--soft); }
svg .sum.critical { fill: var(--bad); font-weight: 700; }
svg .level { fill: var(--meter); }
svg .most-line { stroke: var(--bad); stroke-width: 1.5; stroke-dasharray: 5 3; }
svg .most-text { fill: var(--bad); font-weight: 700; font-size: 11px; }
svg [data-op]:focus { outline: none; }
svg [data-op]:focus-visible .box, svg [data-op]:focus-visible.box { stroke: var(--link); stroke-width: 3.5; }
.hot .box, .box.hot { stroke: var(--hot); stroke-width: 2.5; }
td.slot.hot { box-shadow: inset 0 0 0 2px var(--hot) !important; }
svg .edge.hot { stroke: var(--hot); stroke-width: 2.2; opacity: 1; }
svg .edge.crit.hot { stroke: var(--bad); stroke-width: 3.4; }
svg .quiet .edge:not(.hot):not(.crit) { opacity: .15; }
svg .sum.late { visibility: hidden; } svg .sum.late.hot { visibility: visible; }
svg .only .edge.aside, svg .only .tip.aside, svg .only .sum.aside { display: none; }
#tip { position: fixed; z-index: 20; pointer-events: none; max-width: 24rem; background: var(--text); color: var(--page); font-size: .84rem; line-height: 1.4; padding: .35rem .6rem; border-radius: 5px; white-space: pre-line; overflow-wrap: anywhere; }
.tools { display: flex; gap: .6rem; flex-wrap: wrap; align-items: center; font-size: .87rem; margin-top: .45rem; }
.tools select, .tools button, #all { font: inherit; font-size: .87rem; color: var(--text); background: var(--page); border: 1px solid var(--shape); border-radius: 4px; padding: .15rem .5rem; cursor: pointer; }
#all { margin-top: .6rem; width: 100%; }
@media (max-width: 60rem) {
  #frame { display: block; }
  #side { position: static; height: auto; border-right: 0; border-bottom: 1px solid var(--line); }
  #list { max-height: 14rem; }
  main { padding: 1rem; }
}
@media print {
  #frame { display: block; }
  #side, .skip, details, .tools, #tip { display: none !important; }
  main { padding: 0; }
  body { font-size: 11pt; }
  * { print-color-adjust: exact; -webkit-print-color-adjust: exact; }
  .scroll { overflow: visible; max-height: none; border: 0; }
  .scroll > table { zoom: var(--fit, 1); }
  .scroll svg { max-width: 100%; height: auto; }
  .stuck { transform: none !important; }
  .kernel th, .kernel td { position: static !important; }
  .charts, .stack { display: block; }
  figure, .part { break-inside: avoid-page; margin-bottom: 1rem; }
  figure.long { break-inside: auto; }
  figcaption { break-after: avoid; }
  section.loop { content-visibility: visible; }
  section.loop + section.loop { break-before: page; border: 0; }
}
</style>
</head>
<body>
<a class="skip" href="#main">Skip to the loop</a>
<div id="frame">
<nav id="side" aria-label="Loops">
<div>
<h1>Modsched report</h1>
<p id="counts"></p>
<label for="filter">Filter by name or by what holds it</label>
<input id="filter" type="search" autocomplete="off" spellcheck="false">
<label for="order">Order</label>
<select id="order">
<option value="file">as in the file</option>
<option value="ratio">interval over MII, greatest first</option>
<option value="interval">interval, greatest first</option>
<option value="name">name</option>
</select>
<button id="all" type="button">Show all of these</button>
<p id="shown" role="status"></p>
<p class="both" aria-hidden="true"><span>loop</span><span>interval / MII</span></p>
</div>
<ol id="list"></ol>
</nav>
<main id="main" tabindex="-1"><noscript><p>This page draws its charts by a script in itself, which this browser does not run. The document with all numbers stands in the page as JSON.</p></noscript></main>
</div>
<div id="tip" aria-hidden="true" hidden></div>
<script type="application/json" id="document">
"##;

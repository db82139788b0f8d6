//! The fixed text of a page before the run's JSON: colours, and the elements that its script fills. It loads nothing from elsewhere.

pub(crate) const HEAD: &str = "<!DOCTYPE html>
<html lang='en'>
<head>
<meta charset='utf-8'>
<meta name='viewport' content='width=device-width, initial-scale=1'>
<title>Multipath TCP run</title>
<style>
:root { color-scheme: light dark; --paper: #ffffff; --ink: #1d2127; --soft: #5d6673; --line: #d5dae1; --band: #f4f6f8; --loss: #d81e1e; --ack: #8a93a0; --dark: #000000; --blue: #0072b2; }
@media (prefers-color-scheme: dark) { :root:not([data-theme=light]) { --paper: #14171b; --ink: #e6e9ed; --soft: #9aa4b1; --line: #343b45; --band: #1c2127; --loss: #ff5c5c; --ack: #7d8794; --dark: #ffffff; --blue: #3f9edb; } }
:root[data-theme=dark] { color-scheme: dark; --paper: #14171b; --ink: #e6e9ed; --soft: #9aa4b1; --line: #343b45; --band: #1c2127; --loss: #ff5c5c; --ack: #7d8794; --dark: #ffffff; --blue: #3f9edb; }
:root[data-theme=light] { color-scheme: light; }
* { box-sizing: border-box; }
body { margin: 0 auto; padding: 16px 20px 40px; max-width: 1500px; background: var(--paper); color: var(--ink); font: 14px/1.45 system-ui, sans-serif; }
h1 { font-size: 20px; margin: 0 0 2px; }
h2 { font-size: 15px; margin: 22px 0 4px; }
p { margin: 2px 0; color: var(--soft); }
#bar { position: sticky; top: 0; z-index: 2; display: flex; flex-wrap: wrap; gap: 6px 18px; align-items: center; margin: 10px 0 0; padding: 8px 0; background: var(--paper); border-bottom: 1px solid var(--line); }
fieldset { display: flex; flex-wrap: wrap; gap: 2px 10px; align-items: center; margin: 0; padding: 0; border: 0; }
legend { float: left; padding: 0 8px 0 0; color: var(--soft); }
label { display: inline-flex; gap: 4px; align-items: center; white-space: nowrap; cursor: pointer; }
label input { margin: 0; }
label svg { width: 22px; height: 10px; }
button { font: inherit; min-width: 30px; padding: 1px 9px; color: var(--ink); background: var(--band); border: 1px solid var(--line); border-radius: 5px; cursor: pointer; }
.chart { display: block; width: 100%; user-select: none; cursor: crosshair; touch-action: pan-y; }
.chart text { fill: var(--ink); font-size: 12px; }
.chart .soft { fill: var(--soft); }
.chart .mark { font-size: 11px; paint-order: stroke; stroke: var(--paper); stroke-width: 3px; }
.grid { stroke: var(--line); stroke-width: 1; fill: none; }
.rail { stroke: var(--soft); stroke-width: 1.5; }
.s { fill: none; stroke-width: 1.4; }
.s.a { stroke-opacity: 0.55; stroke-width: 1; }
.p { stroke-width: 3; }
.p.again { stroke-width: 1.2; }
.loss { stroke: var(--loss); stroke-width: 2; fill: none; }
.acks { stroke: var(--ack); stroke-width: 1.4; fill: none; }
.found { stroke: var(--ink); stroke-width: 4; stroke-opacity: 0.45; fill: none; stroke-linecap: round; }
.drag { fill: var(--ink); fill-opacity: 0.12; }
#tip { position: fixed; z-index: 3; display: none; max-width: 560px; padding: 6px 9px; pointer-events: none; background: var(--paper); border: 1px solid var(--soft); border-radius: 6px; box-shadow: 0 2px 10px #0004; font: 12px/1.4 ui-monospace, monospace; overflow-wrap: anywhere; }
#tip b { font-weight: 600; }
table { border-collapse: collapse; font-variant-numeric: tabular-nums; }
th, td { padding: 2px 12px 2px 0; text-align: right; white-space: nowrap; border-bottom: 1px solid var(--line); }
th { color: var(--soft); font-weight: 500; }
.wide { overflow-x: auto; }
pre { margin: 4px 0; padding: 8px 10px; background: var(--band); border-radius: 6px; overflow-x: auto; font: 12px/1.4 ui-monospace, monospace; }
</style>
</head>
<body>
<h1 id='title'></h1>
<p id='about'></p>
<div id='bar'>
<fieldset id='paths'><legend>Paths</legend></fieldset>
<fieldset id='kinds'><legend>Segments</legend></fieldset>
<fieldset><legend>Time</legend><button id='in' title='Zoom in (+)'>+</button><button id='out' title='Zoom out (-)'>&minus;</button><button id='fit' title='The whole run (0)'>all</button><button id='theme' title='Light or dark'>light/dark</button></fieldset>
</div>
<div id='charts'></div>
<h2>Totals by path and direction</h2>
<div class='wide'><table id='totals'></table></div>
<h2>Script</h2>
<pre id='script'></pre>
<div id='tip'></div>
<script type='application/json' id='run'>";

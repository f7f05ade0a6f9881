//! The part of a page before its data: its markup and its style.

/// The head of a page. It requests nothing over the network, and its policy forbids such requests.
pub const HEAD: &str = r##"<!doctype html>
<html lang="en">
<head>
<meta charset="utf-8">
<meta name="viewport" content="width=device-width, initial-scale=1">
<meta name="color-scheme" content="light dark">
<meta http-equiv="Content-Security-Policy"
  content="default-src 'none'; style-src 'unsafe-inline'; script-src 'unsafe-inline'">
<title>Syntax tree</title>
<style>
:root {
  --row: 20px;
  --paper: #ffffff; --raised: #f3f4f6; --line: #c9ced6; --ink: #1f2328; --faint: #5b636d;
  --mark: #cfe4ff; --mark-edge: #0757b8; --hit: #fff0b8; --wrong: #b3141c; --wrong-paper: #ffe9e9;
  --keyword: #8a1a5b; --string: #0a6640; --number: #0550ae; --comment: #5b636d; --name: #1f2328;
  --lifetime: #8a4600; --mark-sign: #4d545c; --node: #0b5c7a;
  --function: #6b3fa0; --type: #8a4b08; --field: #155e75; --parameter: #5f4b00; --macro: #9c2a10;
}
@media (prefers-color-scheme: dark) {
  :root {
    --paper: #14171c; --raised: #1e232b; --line: #3a424e; --ink: #e3e7ec; --faint: #9aa4b1;
    --mark: #1d4273; --mark-edge: #8fc1ff; --hit: #4f4415; --wrong: #ff9a96; --wrong-paper: #3b1a1c;
    --keyword: #ff9bd0; --string: #86d9a5; --number: #8fc1ff; --comment: #9aa4b1; --name: #e3e7ec;
    --lifetime: #ffb877; --mark-sign: #b3bbc6; --node: #7fd0ea;
    --function: #c9a6ff; --type: #f0c674; --field: #7fd6e0; --parameter: #d9c77e; --macro: #ff9d82;
  }
}
* { box-sizing: border-box; }
html, body { height: 100%; margin: 0; }
body {
  display: grid; grid-template-rows: auto minmax(0, 1fr) auto; grid-template-columns: minmax(0, 1fr);
  background: var(--paper); color: var(--ink); font: 14px/20px system-ui, sans-serif;
}
header {
  display: flex; flex-wrap: wrap; align-items: center; gap: 6px 14px;
  padding: 6px 12px; background: var(--raised); border-bottom: 1px solid var(--line);
}
#place { margin: 0; overflow: hidden; white-space: nowrap; text-overflow: ellipsis; }
h1, h2 { margin: 0; font-size: 14px; line-height: 20px; }
h1 { font-family: ui-monospace, monospace; overflow-wrap: anywhere; }
form { display: flex; flex-wrap: wrap; align-items: center; gap: 6px; margin-left: auto; }
input, button {
  font: inherit; color: inherit; background: var(--paper);
  border: 1px solid var(--line); border-radius: 4px; padding: 2px 8px;
}
button { cursor: pointer; }
:focus-visible { outline: 2px solid var(--mark-edge); outline-offset: -2px; }
.faint { color: var(--faint); }
main {
  display: grid; min-height: 0;
  grid-template-columns: minmax(0, var(--text-share, 50fr)) 7px minmax(0, var(--tree-share, 50fr));
}
#text, #tree { overflow: auto; position: relative; font: 13px/20px ui-monospace, monospace; }
#divider { background: var(--raised); border: solid var(--line); border-width: 0 1px; cursor: col-resize; }
#divider { touch-action: none; }
#lines { min-width: 100%; width: max-content; }
.block { white-space: pre; tab-size: 4; padding-left: 64px; content-visibility: auto; contain: strict; }
.line, .note { position: relative; height: var(--row); }
.line::before {
  content: attr(data-number); position: absolute; left: -64px; width: 52px;
  text-align: right; color: var(--faint); user-select: none;
}
.note { color: var(--wrong); user-select: none; cursor: pointer; font-style: italic; }
.k { color: var(--keyword); font-weight: 600; }
.s { color: var(--string); }
.n { color: var(--number); }
.c { color: var(--comment); font-style: italic; }
.i { color: var(--name); }
.f { color: var(--function); }
.t { color: var(--type); }
.d { color: var(--field); }
.a { color: var(--parameter); }
.m { color: var(--macro); }
.l { color: var(--lifetime); }
.p { color: var(--mark-sign); }
.e { color: var(--wrong); text-decoration: underline wavy; }
.gap { visibility: hidden; }
.on { background: var(--mark); }
#rows { position: relative; min-width: 100%; width: max-content; }
.item { position: absolute; left: 0; min-width: 100%; height: var(--row); padding-right: 12px; white-space: pre; }
.item { cursor: default; }
.item .fold { display: inline-block; width: 16px; text-align: center; color: var(--faint); cursor: pointer; }
.item .kind { color: var(--node); }
.item.leaf .kind { color: var(--faint); }
.item .short { color: var(--faint); }
.item .said { color: var(--wrong); font-style: italic; }
.item.wrong .kind { color: var(--wrong); }
.item.hit { background: var(--hit); }
.item[aria-selected='true'] { background: var(--mark); box-shadow: inset 2px 0 var(--mark-edge); }
footer { border-top: 1px solid var(--line); background: var(--raised); padding: 4px 12px; }
#messages { margin: 0; padding: 0; max-height: 25vh; overflow: auto; list-style: none; }
#messages button {
  border: 0; background: none; padding: 0 4px; text-align: left; color: var(--wrong);
  font: 13px/20px ui-monospace, monospace;
}
#messages li.chosen { background: var(--wrong-paper); }
@media (max-width: 720px) {
  main {
    grid-template-columns: minmax(0, 1fr);
    grid-template-rows: minmax(0, var(--text-share, 50fr)) 11px minmax(0, var(--tree-share, 50fr));
  }
  #divider { border-width: 1px 0; cursor: row-resize; }
  form { margin-left: 0; }
}
@media (forced-colors: active) {
  .on, .item[aria-selected='true'] { outline: 1px solid Highlight; }
}
</style>
</head>
<body>
<header>
<h1 id="name"></h1>
<span id="counts" class="faint"></span>
<button type="button" id="less" title="Folds the tree to its upper levels">Fold</button>
<button type="button" id="more" title="Unfolds the whole tree">Unfold</button>
<label><input type="checkbox" id="trivia" checked> White space and comments</label>
<form id="search" role="search">
<label for="kind">Kind</label>
<input id="kind" list="kinds" size="18" autocomplete="off" spellcheck="false" placeholder="FN, _EXPR, ..">
<datalist id="kinds"></datalist>
<button type="submit">Next</button>
<button type="button" id="previous">Previous</button>
<output id="found" class="faint" for="kind"></output>
</form>
</header>
<main>
<section id="text" role="group" aria-label="Text, by tokens: the arrow keys go from token to token" tabindex="0">
<div id="lines"></div>
</section>
<div id="divider" role="separator" tabindex="0" aria-label="Share of the text" aria-controls="text"
  aria-valuemin="10" aria-valuemax="90" aria-valuenow="50"></div>
<section id="tree" role="tree" aria-label="Syntax tree" tabindex="0"><div id="rows" role="presentation"></div></section>
</main>
<footer>
<p id="place" role="status" class="faint">The arrow keys go on in either half, and a slash searches for a kind.</p>
<h2 id="headline"></h2>
<ol id="messages" aria-labelledby="headline"></ol>
<noscript>The text and its tree are drawn by a script, and this reader runs none.</noscript>
</footer>
<script type="application/json" id="data">"##;

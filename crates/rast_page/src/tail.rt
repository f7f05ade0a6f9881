//! The part of a page after its data: the script that draws it.

/// The tail of a page. Data are shown as text alone, never as markup.
pub const TAIL: &str = r##"</script>
<script>
'use strict';
const byId = (id) => document.getElementById(id);
const ROW = 20;
const LINES_IN_BLOCK = 40;
const LONGEST_LINE = 2000;
const MOST_ROWS = 700000;
const MOST_LISTED = 2000;

// The tree's items, nodes and tokens, in the order of the text. An item's children are those after it up to `end`.
const data = JSON.parse(byId('data').textContent);
byId('data').remove();
const steps = data.steps;
let count = 0;
for (let i = 1; i < steps.length; i += steps[i] + 1) {
  if (steps[i] > 0) count += 1;
}
const names = [];
const kindOf = new Uint16Array(count);
const isLeaf = new Uint8Array(count);
const isOpen = new Uint8Array(count);
const parentOf = new Int32Array(count);
const endOf = new Int32Array(count);
const depthOf = new Uint32Array(count);
const nthOf = new Uint32Array(count);
const childrenOf = new Uint32Array(count);
const startOf = new Uint32Array(count);
const stopOf = new Uint32Array(count);
const byteOf = new Uint32Array(count);
const saidIn = new Uint32Array(count);
const saidAt = new Map();

function bytesOf(piece) {
  let bytes = piece.length;
  for (let i = 0; i < piece.length; i += 1) {
    const unit = piece.charCodeAt(i);
    if (unit > 0x7f) bytes += unit > 0x7ff && (unit < 0xd800 || unit > 0xdfff) ? 2 : 1;
  }
  return bytes;
}

const leaves = [];
let allBytes = 0;
const text = (() => {
  const numbers = new Map();
  const pieces = [];
  let item = 0, open = -1, depth = 0, at = 0, byte = 0;
  for (let i = 1; i < steps.length; i += steps[i] + 1) {
    if (steps[i] === 0) {
      endOf[open] = item;
      stopOf[open] = at;
      open = parentOf[open];
      depth -= 1;
      continue;
    }
    const name = steps[i + 1];
    let kind = numbers.get(name);
    if (kind === undefined) {
      kind = names.push(name) - 1;
      numbers.set(name, kind);
    }
    kindOf[item] = kind;
    parentOf[item] = open;
    depthOf[item] = depth;
    startOf[item] = at;
    byteOf[item] = byte;
    if (open >= 0) {
      childrenOf[open] += 1;
      nthOf[item] = childrenOf[open];
    } else {
      nthOf[item] = 1;
    }
    if (steps[i] === 1) {
      open = item;
      depth += 1;
    } else {
      const piece = steps[i + 2];
      pieces.push(piece);
      leaves.push(item);
      isLeaf[item] = 1;
      at += piece.length;
      byte += bytesOf(piece);
      stopOf[item] = at;
      endOf[item] = item + 1;
    }
    item += 1;
  }
  allBytes = byte;
  return pieces.join('');
})();
data.steps = null;

function colourOf(name) {
  if (name === 'WHITESPACE') return '';
  if (name.endsWith('COMMENT') || name === 'SHEBANG' || name === 'FRONTMATTER') return 'c';
  if (name === 'IDENT') return 'i';
  if (name === 'LIFETIME_IDENT') return 'l';
  if (name === 'ERROR') return 'e';
  if (name.endsWith('_KW')) return 'k';
  if (name.endsWith('_NUMBER')) return 'n';
  if (name.endsWith('STRING') || name === 'CHAR' || name === 'BYTE') return 's';
  return 'p';
}
const colours = names.map(colourOf);
const isTrivia = names.map((name) => name === 'WHITESPACE' || name === 'COMMENT');

// What an identifier is, by the node of the name it is, and by the node of the use it is.
const NAMED = {
  FN: 'f', STRUCT: 't', ENUM: 't', UNION: 't', TRAIT: 't', TYPE_ALIAS: 't', TYPE_PARAM: 't', VARIANT: 't',
  RECORD_FIELD: 'd', SELF_PARAM: 'a', MACRO_RULES: 'm', MACRO_DEF: 'm',
};
const USED = { FIELD_EXPR: 'd', RECORD_EXPR_FIELD: 'd', RECORD_PAT_FIELD: 'd', METHOD_CALL_EXPR: 'f' };
const PATH_OF = { PATH_TYPE: 't', RECORD_EXPR: 't', TUPLE_STRUCT_PAT: 't', RECORD_PAT: 't', MACRO_CALL: 'm' };
const nameOf = (item) => (item < 0 ? '' : names[kindOf[item]]);

function pathColour(segment) {
  const path = parentOf[segment];
  const user = parentOf[path];
  if (nameOf(user) !== 'PATH_EXPR') return PATH_OF[nameOf(user)] || 'i';
  return nameOf(parentOf[user]) === 'CALL_EXPR' && nthOf[user] === 1 ? 'f' : 'i';
}
function leafColour(leaf) {
  const own = colours[kindOf[leaf]];
  if (own !== 'i') return own;
  const node = parentOf[leaf], around = node < 0 ? -1 : parentOf[node];
  if (nameOf(node) === 'NAME') {
    if (nameOf(around) === 'IDENT_PAT') return nameOf(parentOf[around]) === 'PARAM' ? 'a' : 'i';
    return NAMED[nameOf(around)] || 'i';
  }
  if (nameOf(node) !== 'NAME_REF') return 'i';
  return nameOf(around) === 'PATH_SEGMENT' ? pathColour(around) : USED[nameOf(around)] || 'i';
}
const stopByteOf = (item) => {
  const next = endOf[item];
  return next < count ? byteOf[next] : allBytes;
};
// An item with its range in bytes, as `rast` prints it.
const rangeOf = (item) => nameOf(item) + '@' + byteOf[item] + '..' + stopByteOf(item);

// The last index of a sorted list whose value is at most this one, or 0.
function lastUpTo(length, valueAt, value) {
  let low = 0, high = length - 1;
  while (low < high) {
    const middle = (low + high + 1) >> 1;
    if (valueAt(middle) <= value) low = middle;
    else high = middle - 1;
  }
  return low;
}
const leafIndexAt = (place) => lastUpTo(leaves.length, (k) => startOf[leaves[k]], place);
const leafIndexAtByte = (byte) => lastUpTo(leaves.length, (k) => byteOf[leaves[k]], byte);

// The lines as they are drawn: a long one is cut. `numbers` has 0 where a cut line goes on, `lineNumbers` the
// line's number there too, and `columns` how many characters of the line come before.
const lineStarts = [0];
const numbers = [1];
const columns = [0];
const lineNumbers = [1];
(() => {
  let number = 1, column = 0;
  for (let at = 0; at < text.length;) {
    const feed = text.indexOf('\n', at);
    const stop = feed < 0 ? text.length : feed;
    while (stop - at > LONGEST_LINE) {
      const start = at;
      at += LONGEST_LINE;
      const unit = text.charCodeAt(at);
      if (unit >= 0xdc00 && unit <= 0xdfff) at += 1;
      column += Array.from(text.slice(start, at)).length;
      lineStarts.push(at);
      numbers.push(0);
      columns.push(column);
      lineNumbers.push(number);
    }
    if (feed < 0) break;
    at = feed + 1;
    number += 1;
    column = 0;
    lineStarts.push(at);
    numbers.push(number);
    columns.push(0);
    lineNumbers.push(number);
  }
})();
const lineAt = (place) => lastUpTo(lineStarts.length, (k) => lineStarts[k], place);
const lineStop = (line) => (line + 1 < lineStarts.length ? lineStarts[line + 1] : text.length);

// How many columns a part of the text takes at most: a tab has four, and what may be wide two.
function columnsOf(start, stop) {
  let columns = stop - start;
  for (let i = start; i < stop; i += 1) {
    const unit = text.charCodeAt(i);
    if (unit === 9) columns += 3;
    else if (unit >= 0x1100) columns += 1;
  }
  return columns;
}
function counted(n, what) {
  return n.toLocaleString('en') + ' ' + what + (n === 1 ? '' : 's');
}

// A place as the numbers of its line and of the character in it, from 1.
function placeName(place) {
  const line = lineAt(place);
  const column = columns[line] + Array.from(text.slice(lineStarts[line], place)).length + 1;
  return lineNumbers[line] + ':' + column;
}

// The messages: the item at whose place each is, and the line under which it is shown.
const messages = [];
const notesOf = new Map();
for (let i = 1; i < data.messages.length; i += 2) {
  const byte = data.messages[i];
  const said = data.messages[i + 1];
  let item = 0, place = 0;
  if (leaves.length > 0) {
    item = leaves[leafIndexAtByte(byte)];
    place = byteOf[item] === byte ? startOf[item] : stopOf[item];
  }
  const line = lineAt(place);
  const message = { item, place, said, line };
  messages.push(message);
  if (!notesOf.has(line)) notesOf.set(line, []);
  notesOf.get(line).push(message);
  if (!saidAt.has(item)) saidAt.set(item, []);
  saidAt.get(item).push(said);
  saidIn[item] += 1;
}
for (let item = count - 1; item > 0; item -= 1) saidIn[parentOf[item]] += saidIn[item];

function piece(className, content) {
  const span = document.createElement('span');
  span.className = className;
  span.textContent = content;
  return span;
}

// The text: blocks of lines, whose heights are known. Only those near the view have their tokens coloured.
let chosen = 0;
const textPane = byId('text');
const blocks = [];
const blockTops = [];
const drawn = new Set();

function lineRow(line) {
  const row = document.createElement('div');
  row.className = 'line';
  if (numbers[line] > 0) row.dataset.number = numbers[line];
  const start = lineStarts[line];
  let stop = lineStop(line);
  if (stop > start && text[stop - 1] === '\n') stop -= 1;
  row.place = stop;
  for (let k = leafIndexAt(start); k < leaves.length && startOf[leaves[k]] < stop; k += 1) {
    const leaf = leaves[k];
    const piece = text.slice(Math.max(start, startOf[leaf]), Math.min(stop, stopOf[leaf]));
    if (piece === '') continue;
    const span = document.createElement('span');
    span.className = leafColour(leaf);
    span.title = rangeOf(leaf);
    span.item = leaf;
    span.textContent = piece;
    row.append(span);
  }
  if (start === stop) row.append(document.createElement('br'));
  return row;
}
function noteRow(message) {
  const row = document.createElement('div');
  row.className = 'note';
  row.message = message;
  const before = piece('gap', text.slice(lineStarts[message.line], message.place));
  before.setAttribute('aria-hidden', 'true');
  row.append(before, '^ ' + message.said);
  return row;
}
function markBlock(block) {
  const start = startOf[chosen], stop = stopOf[chosen];
  const all = stop - start === text.length;
  for (const span of block.querySelectorAll('.line span')) {
    const leaf = span.item;
    span.classList.toggle('on', !all && startOf[leaf] >= start && stopOf[leaf] <= stop);
  }
}
function drawBlock(block) {
  block.textContent = '';
  for (let line = block.first; line < block.last; line += 1) {
    block.append(lineRow(line));
    for (const message of notesOf.get(line) || []) block.append(noteRow(message));
  }
  drawn.add(block);
  markBlock(block);
}
function plainBlock(block) {
  drawn.delete(block);
  block.textContent = text.slice(lineStarts[block.first], lineStop(block.last - 1));
}
function layText() {
  const lines = byId('lines');
  let top = 0, widest = 0;
  const watch = new IntersectionObserver((entries) => {
    for (const entry of entries) {
      if (entry.isIntersecting && !drawn.has(entry.target)) drawBlock(entry.target);
      else if (!entry.isIntersecting && drawn.has(entry.target)) plainBlock(entry.target);
    }
  }, { root: textPane, rootMargin: '600px 0px' });
  for (let first = 0; first < lineStarts.length; first += LINES_IN_BLOCK) {
    const block = document.createElement('div');
    block.className = 'block';
    block.first = first;
    block.last = Math.min(first + LINES_IN_BLOCK, lineStarts.length);
    let rows = 0;
    for (let line = first; line < block.last; line += 1) {
      const notes = notesOf.get(line) || [];
      rows += 1 + notes.length;
      widest = Math.max(widest, columnsOf(lineStarts[line], lineStop(line)));
      for (const note of notes) {
        widest = Math.max(widest, columnsOf(lineStarts[line], note.place) + note.said.length + 4);
      }
    }
    block.style.height = rows * ROW + 'px';
    blockTops.push(top);
    top += rows * ROW;
    blocks.push(block);
    plainBlock(block);
    watch.observe(block);
  }
  lines.style.minWidth = 'calc(' + (widest + 4) + 'ch + 80px)';
  lines.append(...blocks);
}
// Where a line begins, in pixels from the top of the text.
function topOfLine(line) {
  const number = Math.floor(line / LINES_IN_BLOCK);
  let top = blockTops[number];
  for (let k = blocks[number].first; k < line; k += 1) top += (1 + (notesOf.get(k) || []).length) * ROW;
  return top;
}
function bringIntoView(pane, top, height) {
  if (top < pane.scrollTop || top + height > pane.scrollTop + pane.clientHeight) {
    pane.scrollTop = Math.max(0, top - pane.clientHeight / 3);
  }
}

// The tree: only the rows in view are in the document.
const treePane = byId('tree');
const treeRows = byId('rows');
const rows = new Int32Array(count);
let rowCount = 0;
let hits = new Uint8Array(0);

let showsTrivia = true;
function layTree() {
  rowCount = 0;
  for (let item = 0; item < count;) {
    if (showsTrivia || !isTrivia[kindOf[item]] || item === chosen) {
      rows[rowCount] = item;
      rowCount += 1;
    }
    item = isOpen[item] ? item + 1 : endOf[item];
  }
  treeRows.style.height = rowCount * ROW + 'px';
  drawTree();
}
const rowOf = (item) => lastUpTo(rowCount, (k) => rows[k], item);

// Opens the upper levels, as many as give at most so many rows, and one at least.
function openLevels(most) {
  const widths = [];
  for (let item = 0; item < count; item += 1) widths[depthOf[item]] = (widths[depthOf[item]] || 0) + 1;
  let levels = 1, total = (widths[0] || 0) + (widths[1] || 0);
  while (levels + 1 < widths.length && total + widths[levels + 1] <= most) {
    levels += 1;
    total += widths[levels];
  }
  for (let item = 0; item < count; item += 1) isOpen[item] = !isLeaf[item] && depthOf[item] < levels ? 1 : 0;
}
function short(item) {
  const most = isLeaf[item] ? 60 : 40;
  const whole = text.slice(startOf[item], Math.min(stopOf[item], startOf[item] + most));
  const more = stopOf[item] - startOf[item] > most ? '\u2026' : '';
  return isLeaf[item] ? JSON.stringify(whole) + more : whole.replace(/\s+/g, ' ') + more;
}
function itemRow(index) {
  const item = rows[index];
  const folds = !isLeaf[item] && childrenOf[item] > 0;
  const row = document.createElement('div');
  const name = names[kindOf[item]];
  row.className = 'item';
  row.classList.toggle('leaf', isLeaf[item] === 1);
  row.classList.toggle('wrong', name === 'ERROR');
  row.classList.toggle('hit', hits[kindOf[item]] === 1);
  row.id = 'item-' + item;
  row.title = rangeOf(item);
  row.item = item;
  row.setAttribute('role', 'treeitem');
  row.setAttribute('aria-level', depthOf[item] + 1);
  row.setAttribute('aria-posinset', nthOf[item]);
  row.setAttribute('aria-setsize', parentOf[item] < 0 ? 1 : childrenOf[parentOf[item]]);
  row.setAttribute('aria-selected', item === chosen ? 'true' : 'false');
  if (folds) row.setAttribute('aria-expanded', isOpen[item] ? 'true' : 'false');
  row.style.top = index * ROW + 'px';
  row.style.paddingLeft = 4 + Math.min(depthOf[item], 200) * 14 + 'px';
  const fold = piece('fold', folds ? (isOpen[item] ? '\u25be' : '\u25b8') : '');
  fold.setAttribute('aria-hidden', 'true');
  row.append(fold, piece('kind', name));
  if (isLeaf[item]) row.append(' ', piece(leafColour(item), short(item)));
  else if (!isOpen[item] && folds) row.append(' ', piece('short', short(item)));
  if (saidAt.has(item)) row.append(' ', piece('said', '^ ' + saidAt.get(item).join('; ')));
  else if (!isOpen[item] && saidIn[item] > 0) row.append(' ', piece('said', counted(saidIn[item], 'message')));
  return row;
}
function drawTree() {
  const first = Math.max(0, Math.floor(treePane.scrollTop / ROW) - 10);
  const last = Math.min(rowCount, Math.ceil((treePane.scrollTop + treePane.clientHeight) / ROW) + 10);
  const list = [];
  for (let index = first; index < last; index += 1) list.push(itemRow(index));
  treeRows.replaceChildren(...list);
  const own = byId('item-' + chosen);
  if (own) treePane.setAttribute('aria-activedescendant', own.id);
  else treePane.removeAttribute('aria-activedescendant');
}
function setOpen(item, open) {
  if (isLeaf[item] || childrenOf[item] === 0) return;
  isOpen[item] = open ? 1 : 0;
  if (!open && chosen > item && chosen < endOf[item]) choose(item, treePane);
  layTree();
}

// Marks an item on both sides. The side from which it was chosen moves only where the place is out of view.
function choose(item, from) {
  chosen = item;
  let opened = false;
  for (let up = parentOf[item]; up >= 0; up = parentOf[up]) {
    if (!isOpen[up]) {
      isOpen[up] = 1;
      opened = true;
    }
  }
  if (opened || (!showsTrivia && isTrivia[kindOf[item]])) layTree();
  bringIntoView(treePane, rowOf(item) * ROW, ROW);
  drawTree();
  if (from !== textPane) bringIntoView(textPane, topOfLine(lineAt(startOf[item])), ROW);
  for (const block of drawn) markBlock(block);
  byId('place').textContent = rangeOf(item) + ' at ' + placeName(startOf[item]) + ': ' + short(item);
  for (const entry of byId('messages').children) entry.className = entry.item === item ? 'chosen' : '';
}

function listMessages() {
  const list = byId('messages');
  byId('headline').textContent = messages.length === 0 ? 'No messages' : counted(messages.length, 'message');
  for (const message of messages.slice(0, MOST_LISTED)) {
    const entry = document.createElement('li');
    const button = document.createElement('button');
    button.type = 'button';
    button.textContent = placeName(message.place) + ' ' + message.said;
    button.addEventListener('click', () => choose(message.item, null));
    entry.item = message.item;
    entry.append(button);
    list.append(entry);
  }
  if (messages.length > MOST_LISTED) {
    const entry = document.createElement('li');
    entry.textContent = messages.length - MOST_LISTED + ' more stand under their lines';
    list.append(entry);
  }
}

// The kinds that a search finds.
let found = [];
function searchKinds() {
  const asked = byId('kind').value.trim().toUpperCase();
  const exact = names.includes(asked);
  hits = Uint8Array.from(names, (name) => (asked !== '' && (exact ? name === asked : name.includes(asked)) ? 1 : 0));
  found = [];
  if (asked !== '') for (let item = 0; item < count; item += 1) if (hits[kindOf[item]]) found.push(item);
  byId('found').textContent = asked === '' ? '' : found.length === 0 ? 'none' : found.length + ' found';
  drawTree();
}
function goToFound(forward) {
  if (found.length === 0) return;
  const upTo = lastUpTo(found.length, (k) => found[k], chosen);
  let next;
  if (forward) next = found[upTo] > chosen ? upTo : (upTo + 1) % found.length;
  else next = found[upTo] < chosen ? upTo : (upTo + found.length - 1) % found.length;
  choose(found[next], null);
  byId('found').textContent = next + 1 + ' of ' + found.length;
}

function treeKey(key) {
  const index = rowOf(chosen);
  const page = Math.max(1, Math.floor(treePane.clientHeight / ROW) - 1);
  if (key === 'ArrowDown') return rows[Math.min(index + 1, rowCount - 1)];
  if (key === 'ArrowUp') return rows[Math.max(index - 1, 0)];
  if (key === 'PageDown') return rows[Math.min(index + page, rowCount - 1)];
  if (key === 'PageUp') return rows[Math.max(index - page, 0)];
  if (key === 'Home') return rows[0];
  if (key === 'End') return rows[rowCount - 1];
  if (key === 'ArrowRight') {
    if (childrenOf[chosen] > 0 && isOpen[chosen]) return chosen + 1;
    setOpen(chosen, true);
    return chosen;
  }
  if (key === 'ArrowLeft') {
    if (!isOpen[chosen]) return Math.max(parentOf[chosen], 0);
    setOpen(chosen, false);
    return chosen;
  }
  if (key === 'Enter' || key === ' ') {
    setOpen(chosen, !isOpen[chosen]);
    return chosen;
  }
  return -1;
}
const isBlank = (leaf) => colours[kindOf[leaf]] === '';
function textKey(key) {
  if (leaves.length === 0) return -1;
  let k = leafIndexAt(startOf[chosen]);
  if (key === 'ArrowRight' || key === 'ArrowLeft') {
    const by = key === 'ArrowRight' ? 1 : -1;
    if (!isLeaf[chosen] && by > 0) k -= 1;
    do k += by; while (k >= 0 && k < leaves.length && isBlank(leaves[k]));
    return k < 0 || k >= leaves.length ? chosen : leaves[k];
  }
  if (key === 'ArrowDown' || key === 'ArrowUp') {
    const by = key === 'ArrowDown' ? 1 : -1;
    const own = lineAt(startOf[chosen]);
    const column = startOf[chosen] - lineStarts[own];
    for (let line = own + by; line >= 0 && line < lineStarts.length; line += by) {
      const start = lineStarts[line], stop = lineStop(line);
      for (let at = leafIndexAt(Math.max(start, Math.min(start + column, stop - 1))); at >= 0; at -= 1) {
        const leaf = leaves[at];
        if (stopOf[leaf] <= start) break;
        if (!isBlank(leaf) && startOf[leaf] < stop && startOf[leaf] >= start) return leaf;
      }
      for (let at = leafIndexAt(start); at < leaves.length && startOf[leaves[at]] < stop; at += 1) {
        if (startOf[leaves[at]] >= start && !isBlank(leaves[at])) return leaves[at];
      }
    }
    return chosen;
  }
  if (key === 'Home') return leaves[0];
  if (key === 'End') return leaves[leaves.length - 1];
  return -1;
}
function onKey(pane, itemFor) {
  pane.addEventListener('keydown', (event) => {
    if (event.altKey || event.ctrlKey || event.metaKey || count === 0) return;
    const item = itemFor(event.key);
    if (item < 0) return;
    event.preventDefault();
    choose(item, null);
  });
}

// The divider between the halves: dragged, or moved by the arrow keys.
const divider = byId('divider');
const isNarrow = matchMedia('(max-width: 720px)');
let share = 50;
function divide(percent) {
  share = Math.round(Math.min(90, Math.max(10, percent)));
  const main = divider.parentElement;
  main.style.setProperty('--text-share', share + 'fr');
  main.style.setProperty('--tree-share', 100 - share + 'fr');
  divider.setAttribute('aria-valuenow', share);
}
divider.addEventListener('pointerdown', (event) => {
  divider.setPointerCapture(event.pointerId);
  event.preventDefault();
});
divider.addEventListener('pointermove', (event) => {
  if (!divider.hasPointerCapture(event.pointerId)) return;
  const all = divider.parentElement.getBoundingClientRect();
  divide(isNarrow.matches ? ((event.clientY - all.top) / all.height) * 100
    : ((event.clientX - all.left) / all.width) * 100);
});
divider.addEventListener('keydown', (event) => {
  const by = { ArrowLeft: -5, ArrowUp: -5, ArrowRight: 5, ArrowDown: 5 }[event.key];
  if (by === undefined) return;
  event.preventDefault();
  divide(share + by);
});

byId('name').textContent = data.file;
document.title = data.file + ': syntax tree';
byId('counts').textContent = counted(leaves.length, 'token') + ', ' + counted(count - leaves.length, 'node');
for (const name of [...names].sort()) {
  const option = document.createElement('option');
  option.value = name;
  byId('kinds').append(option);
}
listMessages();
layText();
openLevels(60);
layTree();
treePane.addEventListener('scroll', () => requestAnimationFrame(drawTree), { passive: true });
new ResizeObserver(drawTree).observe(treePane);
treePane.addEventListener('click', (event) => {
  const row = event.target.closest('.item');
  if (!row) return;
  if (event.target.className === 'fold') setOpen(row.item, !isOpen[row.item]);
  else choose(row.item, treePane);
});
treePane.addEventListener('dblclick', (event) => {
  const row = event.target.closest('.item');
  if (row) setOpen(row.item, !isOpen[row.item]);
});
textPane.addEventListener('click', (event) => {
  const at = event.target;
  const note = at.closest('.note');
  const line = at.closest('.line');
  if (note) choose(note.message.item, textPane);
  else if (at.item !== undefined) choose(at.item, textPane);
  else if (line && leaves.length > 0) choose(leaves[leafIndexAt(line.place)], textPane);
});
onKey(treePane, treeKey);
onKey(textPane, textKey);
byId('less').addEventListener('click', () => { openLevels(60); layTree(); });
byId('more').addEventListener('click', () => { openLevels(MOST_ROWS); layTree(); });
byId('trivia').addEventListener('change', (event) => {
  showsTrivia = event.target.checked;
  layTree();
});
byId('kind').addEventListener('input', searchKinds);
byId('search').addEventListener('submit', (event) => { event.preventDefault(); goToFound(true); });
byId('previous').addEventListener('click', () => goToFound(false));
document.addEventListener('keydown', (event) => {
  if (event.key !== '/' || event.target === byId('kind')) return;
  event.preventDefault();
  byId('kind').focus();
});
</script>
</body>
</html>
"##;

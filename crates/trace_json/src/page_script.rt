//! The fixed text of a page behind the run's JSON: the script that draws the run.

pub(crate) const TAIL: &str = "</script>
<script>
'use strict';
const byId = id => document.getElementById(id);
const run = JSON.parse(byId('run').textContent);
const lines = run.script.paths;
const escaped = words => String(words).replace(/[&<>]/g, sign => ({ '&': '&amp;', '<': '&lt;', '>': '&gt;' })[sign]);
const grouped = number => Number(number).toLocaleString('en-US');

// ---- colours: the eight of Okabe and Ito, dashed from path 8 on
const COLOURS = ['var(--blue)', '#E69F00', '#009E73', '#CC79A7', '#56B4E9', '#D55E00', '#B8A900', 'var(--dark)'];
const colour = path => COLOURS[path % 8];
const dashes = path => path % 16 < 8 ? '' : ` stroke-dasharray='5 3'`;
const other = side => side === 'a' ? 'b' : 'a';
const upper = side => side.toUpperCase();

// ---- what each segment is
const KINDS = [
  ['handshake', 'handshake'], ['data', 'data'], ['again', 'data again'], ['ack', 'ACK alone'],
  ['signal', 'signals'], ['close', 'FIN, RST, DATA_FIN'],
];
const SIGNALS = ['ADD_ADDR', 'REMOVE_ADDR', 'MP_PRIO', 'MP_FAIL'];
const ENDS = ['MP_FASTCLOSE', 'MP_TCPRST'];

// Places that were carried, as ranges that neither meet nor overlap.
class Places {
  constructor() { this.ranges = []; }
  // Whether some place in this range was carried; from now on all are.
  carry(from, to) {
    let low = 0, high = this.ranges.length;
    while (low < high) {
      const middle = (low + high) >> 1;
      if (this.ranges[middle][1] < from) low = middle + 1; else high = middle;
    }
    let last = low, again = false;
    const whole = [from, to];
    while (last < this.ranges.length && this.ranges[last][0] <= to) {
      const range = this.ranges[last++];
      if (range[0] < to && from < range[1]) again = true;
      whole[0] = Math.min(whole[0], range[0]);
      whole[1] = Math.max(whole[1], range[1]);
    }
    this.ranges.splice(low, last - low, whole);
    return again;
  }
}

function kindOf(segment) {
  const names = segment.options.map(option => option.name), flags = segment.flags || '';
  if (/[FR]/.test(flags) || names.some(name => ENDS.includes(name))) return 'close';
  if (segment.length > 0) return segment.again ? 'again' : 'data';
  if (flags.includes('S') || names.includes('MP_CAPABLE') || names.includes('MP_JOIN')) return 'handshake';
  if (segment.options.some(option => option.name === 'DSS' && option.fin)) return 'close';
  return names.some(name => SIGNALS.includes(name)) ? 'signal' : 'ack';
}

// The word beside a segment.
function wordOf(segment) {
  const flags = segment.flags || '', names = segment.options.map(option => option.name);
  const words = [];
  if (flags.includes('S')) words.push(flags.includes('.') ? 'SYN/ACK' : 'SYN');
  if (flags.includes('F')) words.push('FIN');
  if (flags.includes('R')) words.push('RST');
  if (segment.options.some(option => option.name === 'DSS' && option.fin)) words.push('DATA_FIN');
  words.push(...names.filter(name => name !== 'DSS' && (name.startsWith('MP_') || SIGNALS.includes(name))));
  if (segment.fate.stripped) words.push('(stripped)');
  if (segment.fate.altered) words.push('(altered)');
  return words.join(' ');
}

const carried = { a: new Places(), b: new Places() };
run.segments.forEach(segment => {
  Object.assign(segment, segment.data, { ticks: segment.fate.ticks, lost: ['lost', 'queue full'].includes(segment.fate.arrival) });
  segment.again = segment.length > 0 && segment.place !== null
    && carried[segment.from].carry(segment.place, segment.place + segment.length);
  segment.kind = kindOf(segment);
  segment.word = wordOf(segment);
});
const deaths = run.script.events.filter(event => event.event === 'die' && event.tick <= run.end);
const deathOf = path => deaths.find(death => death.path === path);
const lastTick = run.segments.reduce((last, segment) => Math.max(last, segment.tick, ...segment.ticks), 0);
const whole = { from: 0, to: Math.max(10, lastTick, ...deaths.map(death => death.tick)) * 1.02 };

// ---- what is shown
const shown = { paths: new Set(lines.keys()), kinds: new Set(KINDS.map(kind => kind[0])), from: whole.from, to: whole.to };
const isShown = segment => shown.paths.has(segment.path) && shown.kinds.has(segment.kind);
const MARGIN = { left: 128, right: 18 };
let width = 1000;
const x = tick => MARGIN.left + (tick - shown.from) / (shown.to - shown.from) * (width - MARGIN.left - MARGIN.right);
const tickAt = at => shown.from + (at - MARGIN.left) / (width - MARGIN.left - MARGIN.right) * (shown.to - shown.from);
const octetsFrom = side => run.totals.filter(row => row.from === side).reduce((sum, row) => sum + row.octets.new, 0);
const isWithin = (from, to) => to >= shown.from && from <= shown.to;

// Marks at 1, 2 or 5 times a power of ten, so many at most.
function marks(from, to, most) {
  const least = Math.max((to - from) / most, 1e-9), power = Math.pow(10, Math.floor(Math.log10(least)));
  const step = Math.max(1, [1, 2, 5, 10].map(times => times * power).find(size => size >= least));
  const all = [];
  for (let at = Math.ceil(from / step) * step; at <= to; at += step) all.push(at);
  return all;
}

function timeAxis(top, bottom) {
  const lines = marks(shown.from, shown.to, Math.max(2, (width - MARGIN.left) / 90)).map(at =>
    `<path class='grid' d='M${x(at)} ${top}V${bottom}'/><text class='soft' x='${x(at)}' y='${bottom + 15}' text-anchor='middle'>${grouped(at)}</text>`);
  return lines.join('') + `<text class='soft' x='${MARGIN.left - 26}' y='${bottom + 15}' text-anchor='end'>ms</text>`;
}

const cross = (at, y) => `M${at - 4} ${y - 4}l8 8m0 -8l-8 8`;
const clipped = inner => `<g clip-path='url(#within)'>${inner}</g>`;
const clip = (top, bottom) => `<clipPath id='within'><rect x='${MARGIN.left}' y='${top}' width='${width - MARGIN.left - MARGIN.right}' height='${bottom - top}'/></clipPath>`;

// ---- a stream: places over ticks
function streamOf(side) {
  const payloads = run.segments.map((segment, index) => ({ segment, index }))
    .filter(one => one.segment.from === side && one.segment.length > 0 && one.segment.place !== null);
  const top = payloads.reduce((most, one) => Math.max(most, one.segment.place + one.segment.length), 0);
  const height = 300, base = height - 24, hits = [];
  const draw = () => {
    const seen = payloads.filter(({ segment }) => isShown(segment) && isWithin(segment.tick, segment.tick));
    const [from, to] = placesOf(seen, top);
    const scale = place => base - (place - from) / (to - from) * (base - 12);
    let inner = timeAxis(12, base), strokes = '', losses = '';
    inner += marks(from, to, 6).map(place =>
      `<path class='grid' d='M${MARGIN.left} ${scale(place)}H${width - MARGIN.right}'/><text class='soft' x='${MARGIN.left - 8}' y='${scale(place) + 4}' text-anchor='end'>${grouped(place)}</text>`).join('');
    hits.length = 0;
    for (const { segment, index } of seen) {
      const at = x(segment.tick), low = scale(segment.place), high = Math.min(scale(segment.place + segment.length), low - 2);
      hits.push({ x1: at, y1: low, x2: at, y2: high, index });
      strokes += segment.again
        ? `<rect class='p again' x='${at - 2.5}' y='${high}' width='5' height='${low - high}' fill='none' stroke='${colour(segment.path)}'/>`
        : `<path class='p' d='M${at} ${low}V${high}' stroke='${colour(segment.path)}'${dashes(segment.path)}/>`;
      if (segment.lost) losses += cross(at, (low + high) / 2);
    }
    const acks = acknowledgedOf(side, scale);
    const dead = deaths.filter(death => shown.paths.has(death.path)).map(death => deathMark(death, 12, base)).join('');
    return { height, inner: clip(6, base + 1) + inner + clipped(`<path class='acks' d='${acks}'/>${strokes}<path class='loss' d='${losses}'/>${dead}`) };
  };
  const title = `${upper(side)} to ${upper(other(side))}: ${grouped(octetsFrom(side))} octets`;
  if (payloads.length === 0) return { title: `${upper(side)} to ${upper(other(side))}`, sentence: `${upper(side)} sends no payload.` };
  return { title, sentence: `Places of the stream, in octets, by the time at which they are sent. Hollow: sent again.${run.segments.some(one => one.from !== side && one.acknowledged !== null) ? ' Grey: Data ACKs, when they are sent.' : ''} Red cross: lost.`, draw, hits };
}

// The places that are shown: all of them, or where one looks closer those of the payloads that are seen, and a few more.
function placesOf(seen, top) {
  if (seen.length === 0 || shown.to - shown.from > (whole.to - whole.from) * 0.99) return [0, Math.max(top, 1)];
  const from = seen.reduce((least, one) => Math.min(least, one.segment.place), top);
  const to = seen.reduce((most, one) => Math.max(most, one.segment.place + one.segment.length), 0), more = Math.ceil((to - from) / 20);
  return [Math.max(0, from - more), to + more];
}

// The staircase of what the other side acknowledges.
function acknowledgedOf(side, scale) {
  let words = '', most = -1;
  for (const segment of run.segments) {
    if (segment.from === side || segment.acknowledged === null || segment.acknowledged <= most) continue;
    words += most < 0 ? `M${x(segment.tick)} ${scale(segment.acknowledged)}` : `H${x(segment.tick)}V${scale(segment.acknowledged)}`;
    most = segment.acknowledged;
  }
  return words === '' ? '' : words + `H${x(whole.to)}`;
}

function deathMark(death, top, bottom) {
  const at = x(death.tick), right = at > width - 120;
  return `<path d='M${at} ${top}V${bottom}' stroke='${colour(death.path)}' stroke-width='1.5' stroke-dasharray='2 3'/>`
    + `<text class='mark' x='${right ? at - 5 : at + 5}' y='${top + 11}' text-anchor='${right ? 'end' : 'start'}'>path ${death.path} dies</text>`;
}

// ---- the segments of each path, from side to side
function sequences() {
  const lane = lines.length > 4 ? 78 : 104, foot = 24, hits = [];
  const draw = () => {
    const paths = [...lines.keys()].filter(path => shown.paths.has(path));
    const height = Math.max(paths.length, 1) * lane + foot;
    let inner = clip(0, height) + timeAxis(4, height - foot);
    hits.length = 0;
    paths.forEach((path, place) => { inner += laneOf(path, place * lane + 22, (place + 1) * lane - 20, hits); });
    return { height, inner };
  };
  return { title: 'Segments by path', sentence: 'Each segment from when one side sends it to when it arrives at the other. Thin: ACK alone. Dashed: sent again. Red cross: lost. Drag over a time to zoom in, double-click for all of it.', draw, hits };
}

function laneOf(path, yA, yB, hits) {
  const line = lines[path], death = deathOf(path), end = death ? death.tick : whole.to;
  const words = [];
  words.push(`<text x='4' y='${yA + 4}' font-weight='600'>path ${path}</text><path d='M60 ${yA}H84' stroke='${colour(path)}' stroke-width='4'${dashes(path)}/>`);
  words.push(`<text class='soft' x='4' y='${yA + 20}'>${line.delay} ms, mss ${line.mss}</text>`);
  if (yB - yA > 50 && (line.join > 0 || line.backup)) words.push(`<text class='soft' x='4' y='${yA + 36}'>${line.join > 0 ? 'from ' + grouped(line.join) : ''}${line.backup ? ' backup' : ''}</text>`);
  words.push(`<text class='soft' x='${MARGIN.left - 8}' y='${yA + 4}' text-anchor='end'>A</text><text class='soft' x='${MARGIN.left - 8}' y='${yB + 4}' text-anchor='end'>B</text>`);
  let inner = `<path class='rail' d='M${x(line.join)} ${yA}H${x(end)}M${x(line.join)} ${yB}H${x(end)}'/>`, losses = '';
  const named = [];
  run.segments.forEach((segment, index) => {
    if (segment.path !== path || !isShown(segment)) return;
    const drawn = arrowOf(segment, yA, yB);
    if (!isWithin(segment.tick, drawn.last)) return;
    inner += `<path class='s ${segment.kind === 'ack' ? 'a' : 'd'}' data-segment='${index}' d='${drawn.words}' stroke='${colour(path)}'${segment.again ? ` stroke-dasharray='6 3'` : ''}/>`;
    losses += drawn.loss;
    drawn.parts.forEach(part => hits.push({ ...part, index }));
    if ((segment.word !== '' || segment.length > 0) && isWithin(segment.tick, segment.tick)) named.push(segment);
  });
  const taken = { a: [], b: [] };
  if (death) {
    inner += deathMark(death, yA - 16, yB + 12);
    taken.a.push([x(death.tick) - 8, x(death.tick) + 80]);
  }
  return words.join('') + clipped(inner + `<path class='loss' d='${losses}'/>` + namesOf(named, yA, yB, taken));
}

// The line of a segment: to each of its arrivals; half-way where it is lost; to the end of the run where it is under way.
function arrowOf(segment, yA, yB) {
  const [y1, y2] = segment.from === 'a' ? [yA, yB] : [yB, yA], x1 = x(segment.tick), parts = [];
  let words = '', loss = '', last = segment.tick;
  const delay = lines[segment.path].delay;
  const ends = segment.ticks.length > 0 ? segment.ticks.map(tick => [tick, y2]) : [[segment.tick + delay / 2, (y1 + y2) / 2]];
  for (const [tick, y] of ends) {
    const x2 = x(tick);
    words += `M${x1} ${y1}L${x2} ${y}`;
    parts.push({ x1, y1, x2, y2: y });
    last = Math.max(last, tick);
    if (segment.lost) loss += cross(x2, y);
  }
  return { words, parts, loss, last };
}

// The payloads of segments in octets: all alike, or of so many at most.
function lengthsOf(group) {
  const lengths = group.map(segment => segment.length).filter(length => length > 0), most = Math.max(...lengths);
  if (lengths.length === 1) return grouped(most);
  return `${lengths.length} x ${lengths.every(length => length === most) ? '' : 'up to '}${grouped(most)}`;
}

// Words beside segments, those of payloads last, and none over another one. Payloads of one side and tick share theirs.
function namesOf(named, yA, yB, taken) {
  const groups = new Map();
  for (const segment of named) {
    const key = [segment.from, segment.tick, segment.length > 0].join(), group = groups.get(key);
    if (group) group.push(segment); else groups.set(key, [segment]);
  }
  let words = '';
  for (const group of [...groups.values()].sort((one, two) => (one[0].length > 0) - (two[0].length > 0))) {
    const first = group[0], octets = group.reduce((sum, segment) => sum + segment.length, 0);
    const word = [...new Set(group.map(segment => segment.word).filter(word => word !== '')), ...octets > 0 ? [lengthsOf(group)] : []].join(' ');
    const from = x(first.tick) + 2, to = from + word.length * 6.6 + 6;
    if (to > width - MARGIN.right || taken[first.from].some(range => range[0] < to && from < range[1])) continue;
    taken[first.from].push([from, to]);
    words += `<text class='mark' x='${from}' y='${first.from === 'a' ? yA - 5 : yB + 13}'>${escaped(word)}</text>`;
  }
  return words;
}

// ---- all charts
const charts = [streamOf('a'), streamOf('b'), sequences()];
charts.forEach(chart => {
  const part = document.createElement('section');
  part.innerHTML = `<h2>${chart.title}</h2><p>${chart.sentence}</p>`;
  if (chart.draw) {
    chart.svg = document.createElementNS('http://www.w3.org/2000/svg', 'svg');
    chart.svg.setAttribute('class', 'chart');
    part.append(chart.svg);
    listen(chart);
  }
  byId('charts').append(part);
});

function drawAll() {
  width = Math.max(480, byId('charts').clientWidth);
  for (const chart of charts.filter(chart => chart.draw)) {
    const { height, inner } = chart.draw();
    chart.svg.setAttribute('viewBox', `0 0 ${width} ${height}`);
    chart.svg.innerHTML = inner.replaceAll('#within', '#within' + charts.indexOf(chart)).replace(`id='within'`, `id='within${charts.indexOf(chart)}'`) + `<path class='found'/><rect class='drag'/>`;
  }
}

let waiting = false;
function redraw() {
  if (waiting) return;
  waiting = true;
  requestAnimationFrame(() => { waiting = false; drawAll(); });
}

function zoom(from, to) {
  const least = 4, span = Math.min(whole.to - whole.from, Math.max(least, to - from));
  shown.from = Math.min(Math.max(whole.from, (from + to - span) / 2), whole.to - span);
  shown.to = shown.from + span;
  redraw();
}
function zoomBy(times, at = (shown.from + shown.to) / 2) { zoom(at - (at - shown.from) * times, at + (shown.to - at) * times); }

// ---- the mouse: words of the nearest segment, a range of ticks, a wheel
function nearest(chart, px, py) {
  let found = null, least = 8;
  for (const hit of chart.hits) {
    const dx = hit.x2 - hit.x1, dy = hit.y2 - hit.y1, length = dx * dx + dy * dy;
    const part = length === 0 ? 0 : Math.max(0, Math.min(1, ((px - hit.x1) * dx + (py - hit.y1) * dy) / length));
    const away = Math.hypot(px - hit.x1 - part * dx, py - hit.y1 - part * dy);
    if (away < least) { least = away; found = hit; }
  }
  return found;
}

function tell(chart, event, hit) {
  const tip = byId('tip'), mark = chart.svg.querySelector('.found');
  mark.setAttribute('d', hit ? `M${hit.x1} ${hit.y1}L${hit.x2} ${hit.y2}` : '');
  tip.style.display = hit ? 'block' : 'none';
  if (!hit) return;
  const segment = run.segments[hit.index];
  tip.innerHTML = `<b>segment ${segment.number} of ${upper(segment.from)} on path ${segment.path}</b><br>${escaped(segment.text)}`;
  tip.style.left = Math.min(event.clientX + 14, innerWidth - tip.offsetWidth - 8) + 'px';
  tip.style.top = (event.clientY + 18 + tip.offsetHeight > innerHeight ? event.clientY - tip.offsetHeight - 10 : event.clientY + 18) + 'px';
}

function listen(chart) {
  let begun = null;
  const place = event => {
    const box = chart.svg.getBoundingClientRect(), times = width / box.width;
    return [(event.clientX - box.left) * times, (event.clientY - box.top) * times];
  };
  chart.svg.addEventListener('pointerdown', event => { begun = place(event)[0]; chart.svg.setPointerCapture(event.pointerId); });
  chart.svg.addEventListener('pointermove', event => {
    const [px, py] = place(event), area = chart.svg.querySelector('.drag');
    if (begun === null) return tell(chart, event, nearest(chart, px, py));
    for (const [name, value] of [['x', Math.min(begun, px)], ['y', 0], ['width', Math.abs(px - begun)], ['height', chart.svg.viewBox.baseVal.height]]) area.setAttribute(name, value);
  });
  chart.svg.addEventListener('pointerup', event => {
    const [px] = place(event), from = begun;
    begun = null;
    if (from !== null && Math.abs(px - from) > 6) zoom(tickAt(Math.min(px, from)), tickAt(Math.max(px, from)));
    else redraw();
  });
  chart.svg.addEventListener('pointerleave', event => tell(chart, event, null));
  chart.svg.addEventListener('dblclick', () => zoom(whole.from, whole.to));
  chart.svg.addEventListener('wheel', event => {
    if (!event.ctrlKey) return;
    event.preventDefault();
    zoomBy(event.deltaY > 0 ? 1.25 : 0.8, tickAt(place(event)[0]));
  }, { passive: false });
}

// ---- filters, buttons, keys
function choice(parent, words, set, value) {
  const label = document.createElement('label');
  label.innerHTML = `<input type='checkbox' checked> ${words}`;
  label.firstChild.addEventListener('change', event => { event.target.checked ? set.add(value) : set.delete(value); redraw(); });
  parent.append(label);
}
lines.forEach((_, path) => choice(byId('paths'), `<svg viewBox='0 0 22 10'><path d='M0 5H22' stroke='${colour(path)}' stroke-width='4'${dashes(path)}/></svg>${path}`, shown.paths, path));
KINDS.forEach(([kind, words]) => {
  const count = run.segments.filter(segment => segment.kind === kind).length;
  if (count > 0) choice(byId('kinds'), `${words} (${grouped(count)})`, shown.kinds, kind);
});
byId('in').onclick = () => zoomBy(0.5);
byId('out').onclick = () => zoomBy(2);
byId('fit').onclick = () => zoom(whole.from, whole.to);
byId('theme').onclick = () => {
  const root = document.documentElement, dark = root.dataset.theme ? root.dataset.theme === 'dark' : matchMedia('(prefers-color-scheme: dark)').matches;
  root.dataset.theme = dark ? 'light' : 'dark';
};
addEventListener('keydown', event => {
  const step = (shown.to - shown.from) / 5;
  if (event.key === '+') zoomBy(0.5);
  if (event.key === '-') zoomBy(2);
  if (event.key === '0') zoom(whole.from, whole.to);
  if (event.key === 'ArrowLeft') zoom(shown.from - step, shown.to - step);
  if (event.key === 'ArrowRight') zoom(shown.from + step, shown.to + step);
});
addEventListener('resize', redraw);

// ---- words around the charts
const lost = run.segments.filter(segment => segment.lost).length;
byId('title').textContent = `A to B: ${grouped(octetsFrom('a'))} octets, B to A: ${grouped(octetsFrom('b'))} octets, in ${grouped(lastTick)} ms`;
byId('about').textContent = `${lines.length} ${lines.length === 1 ? 'path' : 'paths'}, ${grouped(run.segments.length)} segments, ${grouped(lost)} lost; checksums of data ${run.script.checksum ? 'on' : 'off'}; `
  + `key of A ${run.keys.a}, token ${run.tokens.a}; key of B ${run.keys.b}, token ${run.tokens.b}`;
const COLUMNS = [['path', row => row.path], ['from', row => upper(row.from)], ['segments', row => row.segments], ['octets', row => row.octets.all],
  ['new', row => row.octets.new], ['again', row => row.octets.again], ['moved', row => row.octets.moved], ['lost segments', row => row.lost],
  ['first/ms', row => row.first], ['last/ms', row => row.last], ['smoothed rtt/ms', row => row.rate.rtt], ['cwnd/B', row => row.rate.window]];
const cell = value => value === null ? '-' : typeof value === 'number' ? grouped(value) : value;
byId('totals').innerHTML = `<tr>${COLUMNS.map(column => `<th>${column[0]}</th>`).join('')}</tr>`
  + run.totals.map(row => `<tr>${COLUMNS.map(column => `<td>${cell(column[1](row))}</td>`).join('')}</tr>`).join('');

// The lines of the script, with seed and buffer also where these are the defaults.
const way = side => side + other(side);
function scriptLine(event) {
  const { path, from, side, id, tick } = event;
  switch (event.event) {
    case 'strip-all': return `strip-all ${path} ${way(from)} ${tick}`;
    case 'die': return `die ${path} ${tick}`;
    case 'prio': return `prio ${path} ${side} ${tick} ${event.on ? 'on' : 'off'}`;
    case 'add': case 'remove': return `${event.event} ${side} ${id} ${tick}`;
    case 'fastclose': return `fastclose ${side} ${tick}`;
    case 'rate': return `rate ${path} ${way(from)} ${event.octets} ${event.queue}`;
    case 'loss': return `loss ${path} ${way(from)} ${event.parts}`;
    case 'jitter': return `jitter ${path} ${way(from)} ${event.ticks}`;
    default: return `${event.event} ${path} ${way(from)} ${event.number}${event.ticks === null ? '' : ' ' + event.ticks}`;
  }
}
byId('script').textContent = [
  `seed ${BigInt(run.script.seed)}`, ...run.script.checksum ? ['checksum on'] : [], ...run.script.short ? ['short on'] : [], `buffer ${run.script.buffer}`,
  ...lines.map((line, path) => `path ${path} mss ${line.mss} delay ${line.delay}${line.join > 0 ? ' join ' + line.join : ''}${line.backup ? ' backup' : ''}`),
  ...run.script.events.map(scriptLine),
].join(String.fromCharCode(10));
drawAll();
</script>
</body>
</html>
";

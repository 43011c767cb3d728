//! The server's own page. `build/page` writes this file from `examples/map/index.html`: change that one.

/// The bytes of the page.
pub const PAGE: &[u8] = br##"<!DOCTYPE html>
<html lang="en">
<head>
<meta charset="utf-8">
<meta name="viewport" content="width=device-width, initial-scale=1">
<meta http-equiv="Content-Security-Policy" content="default-src 'none'; script-src 'unsafe-inline';
  style-src 'unsafe-inline'; connect-src 'self'; img-src data:; form-action 'none'; base-uri 'none'">
<link rel="icon" href="data:,">
<title>Fudrask map</title>
<style>
:root { color-scheme: light dark; --back: #f7f7f4; --ink: #1c2126; --soft: #5c6670; --grid: #e0e3dc;
  --area: #6b5ca8; --enter: #00734d; --exit: #b34700; --bad: #b3261e; }
@media (prefers-color-scheme: dark) {
  :root { --back: #171b1e; --ink: #e6e9ea; --soft: #98a2aa; --grid: #2a3137;
    --area: #a99be0; --enter: #4fd1a1; --exit: #ffab66; --bad: #ff8a80; }
}
* { box-sizing: border-box; margin: 0; font: inherit; }
body { height: 100vh; display: flex; color: var(--ink); background: var(--back); font: 14px/1.4 system-ui, sans-serif; }
main { flex: 1; position: relative; }
canvas { position: absolute; width: 100%; height: 100%; touch-action: none; cursor: grab; }
aside { width: 21rem; padding: .8rem 1rem; display: flex; flex-direction: column; gap: .6rem;
  border-left: 1px solid var(--grid); overflow: auto; }
h1, h2, .bad, .enter, .exit { font-weight: 600; }
form { display: grid; grid-template-columns: 3rem 1fr 1rem 1fr; gap: .25rem .5rem; align-items: center; }
.wide { grid-column: 2 / 5; }
.row { display: flex; gap: .6rem; }
input[type=text] { width: 100%; padding: .1rem .4rem; border: 1px solid var(--soft); }
button { padding: .1rem .7rem; }
#keys { flex: none; max-height: 9rem; overflow: auto; }
form h2 { grid-column: 1 / 5; }
#keys label { display: block; }
#log { flex: 1 0 8rem; overflow: auto; list-style: none; padding: 0; }
p, li { overflow-wrap: anywhere; }
.soft { color: var(--soft); }
.bad { color: var(--bad); }
.enter { color: var(--enter); }
.exit { color: var(--exit); }
@media (max-width: 700px) {
  body { flex-direction: column; height: auto; }
  main { flex: none; height: 60vh; }
  aside { width: auto; }
}
</style>
</head>
<body>
<main>
<canvas id="map" tabindex="0" role="application"
  aria-label="Map. Arrow keys move it, plus and minus zoom, 0 shows all."></canvas>
</main>
<aside>
<h1>Fudrask map</h1>
<p id="state" role="status"></p>
<p id="counts" class="soft"></p>
<div id="keys" role="group" aria-label="Keys that are shown"></div>
<p id="about" class="soft">Click on an object to see its fields, elsewhere to take the place into the form.
Drag with Shift for an area.</p>
<form id="object">
  <h2>An object</h2>
  <label for="key">Key</label><input type="text" id="key" class="wide" value="fleet">
  <label for="id">Id</label><input type="text" id="id" class="wide" value="truck1">
  <label for="x">x</label><input type="text" id="x" value="0">
  <label for="y">y</label><input type="text" id="y" value="0">
  <div class="wide row"><button>Set</button><button type="button" id="del">Delete</button></div>
</form>
<form id="fence">
  <h2>A fence</h2>
  <label for="name">Name</label><input type="text" id="name" class="wide" value="yard">
  <label for="watched">Key</label><input type="text" id="watched" class="wide" value="fleet">
  <label for="area">Area</label><input type="text" id="area" class="wide" value="BOUNDS 0 0 10 10"
    title="BOUNDS miny minx maxy maxx, CIRCLE y x meters, OBJECT geojson, or GET key id">
  <div class="wide row"><button>Set</button><button type="button" id="delchan">Delete</button></div>
</form>
<p id="said" role="status"></p>
<div class="row">
  <h2>Events</h2><button id="pause">Pause</button>
  <label><input type="checkbox" id="quiet"> inside, outside too</label>
</div>
<ol id="log"></ol>
</aside>
<script>
"use strict";
const WORLD = 1e9;    // coordinates go so far either way
const FOLLOWED = 8;   // so many keys are followed unasked, each over a connection of its own
const LINES = 200;    // of the log
const WORDS = 60;     // so many texts are written on the map at most
const LOOK = 2000, RETRY = 1000, LOST = 10000, FLASH = 2500;    // milliseconds
const COLOURS = ["#1a86c8", "#d55e00", "#009e73", "#cc79a7"];
// Patterns of the names of all channels but those of live fences, which begin with "live/": "[^l]*", "l", "l[^i]*" ..
const NAMES = [..."live/"].map((letter, at) => ["live/".slice(0, at), letter])
  .flatMap(([front, letter]) => [front, `${front}[^${letter}]*`]).slice(1);

const element = id => document.getElementById(id);
const valueOf = id => element(id).value;
const show = (id, text, look = "soft") => Object.assign(element(id), { textContent: text, className: look });

// RESP2: a request is an array of bulk strings, and each message of the server is one frame.
const encoder = new TextEncoder(), decoder = new TextDecoder("utf-8", { ignoreBOM: true });
class Refusal { constructor(text) { this.text = text; } }

function requestOf(words) {
  const bulks = words.map(word => `$${encoder.encode(word).length}\r\n${word}\r\n`);
  return encoder.encode(`*${words.length}\r\n${bulks.join("")}`);
}

function frameOf(bytes) {
  let at = 0;
  const textTo = end => decoder.decode(bytes.subarray(at, end));
  function frame() {
    const end = bytes.indexOf(13, at), line = textTo(end), rest = line.slice(1), count = Number(rest);
    at = end + 2;
    if (line[0] === "+") return rest;
    if (line[0] === "-") return new Refusal(rest);
    if (line[0] === ":") return count;
    if (count < 0) return null;
    if (line[0] === "*") return Array.from({ length: count }, frame);
    const bulk = textTo(at + count);
    at += count + 2;
    return bulk;
  }
  return frame();
}

// A connection. Frames that nobody waits for go to `heard`.
class Link {
  constructor(ended, heard) {
    this.waiting = [];
    this.early = [];
    this.socket = new WebSocket(`${location.protocol.replace("http", "ws")}//${location.host}/`);
    this.socket.binaryType = "arraybuffer";
    this.socket.onopen = () => this.early.splice(0).forEach(it => this.socket.send(it));
    this.socket.onclose = ended;
    this.socket.onmessage = ({ data }) => (this.waiting.shift() || heard)(frameOf(new Uint8Array(data)));
  }
  send(...words) {
    const bytes = requestOf(words.map(String));
    this.socket.readyState === WebSocket.OPEN ? this.socket.send(bytes) : this.early.push(bytes);
  }
  // The reply, of a connection on which nothing comes unasked.
  ask(...words) {
    this.send(...words);
    return new Promise(reply => this.waiting.push(reply));
  }
  close() {
    this.socket.onclose = this.socket.onmessage = null;
    this.socket.close();
  }
}

// What is shown: which keys there are and whether they are wanted, of each its objects by id, and the areas by the
// names of their channels.
const keys = new Map(), objects = new Map(), areas = new Map(), events = [];
let session, retry, connected = false, picked = null, moves = 0, fresh = [], paused = false;

// GeoJSON as shapes. Each is lines of positions; those of a face are its rings.
function shapesOf(it, shapes = []) {
  const put = (kind, lines) => shapes.push({ kind, lines });
  const places = it?.coordinates;
  switch (it?.type) {
    case "Feature": shapesOf(it.geometry, shapes); break;
    case "FeatureCollection": it.features.forEach(part => shapesOf(part, shapes)); break;
    case "GeometryCollection": it.geometries.forEach(part => shapesOf(part, shapes)); break;
    case "Point": put("dot", [[places]]); break;
    case "MultiPoint": places.forEach(place => put("dot", [[place]])); break;
    case "LineString": put("line", [places]); break;
    case "MultiLineString": put("line", places); break;
    case "Polygon": put("face", places); break;
    case "MultiPolygon": places.forEach(rings => put("face", rings)); break;
  }
  return shapes;
}

// The area that ends the words of a channel. A channel for objects that come near each other has none.
function areaOf(words) {
  const [a, b, c, d] = words.slice(-4).map(Number);
  if (["CIRCLE", "POINT"].includes(words.at(-4))) {
    return [{ kind: "circle", lines: [[[c - d, b - d], [c + d, b + d]]], middle: [c, b], radius: d }];
  }
  if (words.at(-5) === "BOUNDS") return [{ kind: "face", lines: [[[b, a], [d, a], [d, c], [b, c], [b, a]]] }];
  return words.at(-2) === "OBJECT" ? shapesOf(JSON.parse(words.at(-1))) : [];
}

// A thing with the least box round it: left, bottom, right, top.
function boxed(shapes) {
  const box = [Infinity, Infinity, -Infinity, -Infinity];
  for (const { lines } of shapes) for (const line of lines) for (const [x, y] of line) widen(box, [x, y, x, y]);
  return { shapes, box };
}

function widen(box, [left, bottom, right, top]) {
  box[0] = Math.min(box[0], left);
  box[1] = Math.min(box[1], bottom);
  box[2] = Math.max(box[2], right);
  box[3] = Math.max(box[3], top);
}

// Puts an object where it is now. `at` is the moment at which the page heard of it, `drawn` that of the first picture.
function put(key, id, geometry, fields) {
  const it = boxed(shapesOf(geometry)), ids = objects.get(key) || new Map();
  const [left, bottom, right, top] = it.box, x = Math.floor((left + right) / 2), y = Math.floor((bottom + top) / 2);
  objects.set(key, ids.set(id, { ...it, x, y, fields, at: Date.now(), drawn: 0, flash: ids.get(id)?.flash }));
  redraw();
}

// The connections of one time: one that asks, one that hears the channels, and one for each key that is followed.
// That is a live fence on the whole plane, which the server takes away with its connection. When one of them ends all
// do, and are made anew.
class Session {
  constructor() {
    this.lives = new Map();
    this.asks = this.open(() => {});
    this.tells = this.open(frame => this.told(frame));
    this.tells.send("PSUBSCRIBE", ...NAMES);
    this.timer = setInterval(() => this.tick(), LOOK);
    this.look();
  }

  open(heard) { return new Link(() => this.end("The server is gone, or takes no more callers."), heard); }

  listeners() { return [this.tells, ...[...this.lives.values()].map(live => live.link)]; }

  close() {
    clearInterval(this.timer);
    [this.asks, ...this.listeners()].forEach(link => link.close());
    connected = false;
  }

  end(why) {
    this.close();
    show("state", `Not connected. ${why} Trying again every second.`, "bad");
    retry = setTimeout(connect, RETRY);
    redraw();
  }

  // The server may end a connection that stands still, so each asks now and then.
  tick() {
    if (this.looking && Date.now() - this.looking > LOST) return this.end("The server does not answer.");
    this.listeners().forEach(link => link.send("PING"));
    this.look();
    about();
    const count = all().length - areas.size, pace = Math.round(moves * 1000 / LOOK);
    show("counts", `${count} objects, ${areas.size} channels, ${pace} moves a second`);
    moves = 0;
  }

  // Sees which keys and channels there are.
  async look() {
    if (this.looking) return;
    const start = this.looking = Date.now();
    const [found, channels] = await Promise.all([this.asks.ask("KEYS", "*"), this.asks.ask("CHANS", "*")]);
    this.looking = 0;
    if (!connected) show("state", `Connected to ${location.host}.`, "enter");
    connected = true;
    if (refused(found) || refused(channels)) return;
    const names = new Set(channels.map(([name]) => name));
    for (const [name, key, words] of channels) {
      const text = words.join(" ");
      if (name.startsWith("live/") || areas.get(name)?.text === text) continue;
      areas.set(name, { ...boxed(areaOf(words)), key, text });
    }
    for (const name of areas.keys()) if (!names.has(name)) areas.delete(name);
    const there = new Set(found);
    for (const key of keys.keys()) if (!there.has(key)) this.leave(key), keys.delete(key);
    for (const key of found) if (!keys.has(key)) keys.set(key, [...keys.values()].filter(Boolean).length < FOLLOWED);
    // Whoever takes all channels away takes ours, too.
    for (const [key, live] of this.lives) if (live.since < start && !names.has(live.name)) this.leave(key);
    for (const [key, wanted] of keys) if (wanted && !this.lives.has(key)) this.follow(key);
    listKeys();
    redraw();
  }

  follow(key) {
    const live = { since: Infinity, touched: new Set() };
    this.lives.set(key, live);
    live.link = this.open(frame => this.heard(key, live, frame));
    live.link.send("WITHIN", key, "FENCE", "DETECT", "inside", "BOUNDS", -WORLD, -WORLD, WORLD, WORLD);
  }

  leave(key) {
    this.lives.get(key)?.link.close();
    this.lives.delete(key);
    objects.delete(key);
  }

  // A frame of a live fence: `:1` or a refusal, the confirmation, a reply to PING, or a payload.
  heard(key, live, frame) {
    if (refused(frame) || frame === 1 || frame === "PONG") return;
    if (Array.isArray(frame)) {
      Object.assign(live, { name: frame[1], since: Date.now() });
      return this.scan(key, live);
    }
    const told = JSON.parse(frame);
    live.touched.add(told.id);
    moves++;
    if (told.command === "set") return put(key, told.id, told.object, told.fields);
    live.fewer = true;
    live.none ||= told.command === "drop";
    told.command === "drop" ? objects.delete(key) : objects.get(key)?.delete(told.id);
    redraw();
  }

  // Reads all objects of a key. What the live fence tells meanwhile is newer. Where the key goes, or objects go while
  // several pages come, of which one may lack another object then, it is read once more.
  async scan(key, live) {
    let found, cursor = 0, limit = 2000, tries = 3, again = true;
    while (cursor || again && tries-- > 0) {
      if (!cursor) {
        found = new Map();
        live.touched.clear();
        live.fewer = live.none = false;
      }
      const page = await this.asks.ask("SCAN", key, "CURSOR", cursor, "LIMIT", limit);
      if (this.lives.get(key) !== live) return;
      if (page instanceof Refusal && limit > 1) {
        limit >>= 1;    // the reply is too long
        tries += cursor ? 0 : 1;
        continue;
      }
      if (refused(page)) return;
      for (const [id, ...it] of page[1]) found.set(id, it);
      cursor = page[0];
      again = live.none || live.fewer && found.size > page[1].length;
    }
    const ids = objects.get(key) || new Map();
    for (const id of ids.keys()) if (!found.has(id) && !live.touched.has(id)) ids.delete(id);
    for (const [id, [text, fields]] of found) {
      if (!live.touched.has(id)) put(key, id, JSON.parse(text), fieldsOf(fields));
    }
    redraw();
  }

  // A frame of the channels: a confirmation, a reply to PING, or a message.
  told(frame) {
    if (refused(frame) || frame[0] !== "pmessage") return;
    const it = { at: Date.now(), ...JSON.parse(frame[3]) };
    if (it.detect === "roam") it.detect = it.nearby ? "nearby" : "faraway";
    const quiet = ["inside", "outside"].includes(it.detect);
    if (quiet && !element("quiet").checked) return;
    for (const list of [events, fresh]) list.push(it) > 5000 && list.splice(0, 1000);
    if (!areas.has(it.hook)) this.look();
    const flash = { text: it.detect || it.command, until: it.at + FLASH };
    for (const lit of [areas.get(it.hook), objects.get(it.key)?.get(it.id)]) if (lit && !quiet) lit.flash = flash;
    redraw();
  }
}

function refused(reply) {
  if (reply instanceof Refusal) show("said", `The server refuses: ${reply.text}`, "bad");
  return reply instanceof Refusal;
}

const fieldsOf = (list = []) => Object.fromEntries(list.flatMap((name, at) => at % 2 ? [] : [[name, list[at + 1]]]));
const wordsOf = fields => Object.entries(fields || {}).map(([name, value]) => `${name} ${value}`).join(", ");

// Tells of the object that was clicked on. Its fields are asked for: no fence tells of a change of fields alone.
async function about() {
  if (!picked || !connected) return;
  const [key, id] = picked, reply = await session.asks.ask("GET", key, id, "WITHFIELDS");
  if (picked?.[1] !== id || refused(reply)) return;
  const it = objects.get(key)?.get(id);
  if (it && reply) it.fields = fieldsOf(reply[1]);
  const place = it ? `at x ${it.x}, y ${it.y}` : "(not shown)";
  show("about", `${id} of ${key} ${reply ? `${place}: ${wordsOf(fieldsOf(reply[1])) || "no fields"}` : "is gone"}.`);
  redraw();
}

// It is made anew only where keys came or went, so that a box keeps the focus.
function listKeys() {
  const list = element("keys"), names = [...keys.keys()].slice(0, 100), text = JSON.stringify(names);
  if (list.dataset.names === text) return;
  list.dataset.names = text;
  list.replaceChildren(...names.map(key => {
    const [label, box, mark] = ["label", "input", "span"].map(it => document.createElement(it));
    Object.assign(box, { type: "checkbox", checked: keys.get(key) });
    mark.textContent = " \u25a0 ";
    mark.style.color = colourOf(key);
    box.onchange = () => {
      keys.set(key, box.checked);
      if (!box.checked) session.leave(key);
      session.look();
      redraw();
    };
    label.append(box, mark, key);
    return label;
  }));
}

const colourOf = key => COLOURS[[...keys.keys()].indexOf(key) % 4];

// The log, newest first.
const VERBS = {
  enter: "enters", exit: "leaves", cross: "crosses", inside: "is inside", outside: "is outside",
  del: "is gone from", drop: "(all of it) is gone from", nearby: "comes near", faraway: "goes away from",
};

function lineOf(it) {
  const line = document.createElement("li"), verb = document.createElement("span"), other = it.nearby || it.faraway;
  verb.className = it.detect;
  verb.textContent = VERBS[it.detect || it.command];
  const time = new Date(it.at).toTimeString().slice(0, 8);
  line.append(`${time} ${it.id ?? it.key} `, verb, other ? ` ${other.id} (${it.hook})` : ` ${it.hook}`);
  return line;
}

function log() {
  if (paused) element("pause").textContent = `Go on (${fresh.length} new)`;
  if (paused || !fresh.length) return;
  const list = element("log");
  list.prepend(...fresh.splice(0).slice(-LINES).reverse().map(lineOf));
  while (list.children.length > LINES) list.lastChild.remove();
}

// The map: y goes up. It shows all until somebody moves it.
const canvas = element("map"), pen = canvas.getContext("2d"), view = { x: 0, y: 0, scale: 1, steered: false };
let due = false, pause = 0, words = 0, width = 1, height = 1, frame = null;
const ink = { back: "", ink: "", soft: "", grid: "", area: "", enter: "", exit: "" };

const across = x => (x - view.x) * view.scale + width / 2;
const down = y => height / 2 - (y - view.y) * view.scale;
const placeOf = (left, top) => [(left - width / 2) / view.scale + view.x, (height / 2 - top) / view.scale + view.y];
const isIn = ({ box: [left, bottom, right, top] }) =>
  across(left) >= 0 && across(right) <= width && down(top) >= 0 && down(bottom) <= height;
const isSeen = ({ box: [left, bottom, right, top] }) =>
  across(left) <= width && across(right) >= 0 && down(top) <= height && down(bottom) >= 0;
const all = () => [...areas.values(), ...[...objects.values()].flatMap(ids => [...ids.values()])];

// Where a picture takes long, the next one waits three times as long, so that messages need not.
function redraw() {
  if (!due) setTimeout(requestAnimationFrame, pause, draw);
  due = true;
}

function fit() {
  const box = [Infinity, Infinity, -Infinity, -Infinity];
  all().forEach(it => widen(box, it.box));
  if (box[0] > box[2]) return;
  Object.assign(view, { x: (box[0] + box[2]) / 2, y: (box[1] + box[3]) / 2 });
  view.scale = Math.min(width / Math.max(box[2] - box[0], 8), height / Math.max(box[3] - box[1], 8)) * .85;
}

function move(right, up, factor = 1, left = width / 2, top = height / 2) {
  const [x, y] = placeOf(left, top);
  view.scale = Math.min(Math.max(view.scale * factor, 1e-7), 200);
  view.x = x - (left - width / 2 - right) / view.scale;
  view.y = y - (height / 2 - top - up) / view.scale;
  view.steered = true;
  redraw();
}

function grid() {
  const rough = 90 / view.scale, power = 10 ** Math.floor(Math.log10(rough));
  const step = Math.max(1, power * [1, 2, 5, 10].find(it => it * power >= rough));
  const [left, bottom] = placeOf(0, height), [right, top] = placeOf(width, 0);
  Object.assign(pen, { strokeStyle: ink.grid, fillStyle: ink.soft, lineWidth: 1 });
  for (let x = Math.ceil(left / step) * step; x <= right; x += step) {
    pen.strokeRect(across(x), -9, 0, height + 18);
    pen.fillText(x, across(x) + 3, height - 5);
  }
  for (let y = Math.ceil(bottom / step) * step; y <= top; y += step) {
    pen.strokeRect(-9, down(y), width + 18, 0);
    pen.fillText(y, 4, down(y) - 3);
  }
}

// Draws shapes. A dot is a square, which takes half the time of a circle.
function paint(shapes, colour, line, cover) {
  Object.assign(pen, { strokeStyle: colour, fillStyle: colour, lineWidth: line });
  for (const { kind, lines, middle, radius } of shapes) {
    if (kind === "dot") {
      pen.fillRect(across(lines[0][0][0]) - 3.5, down(lines[0][0][1]) - 3.5, 7, 7);
      continue;
    }
    pen.beginPath();
    if (kind === "circle") pen.arc(across(middle[0]), down(middle[1]), radius * view.scale, 0, 7);
    else for (const places of lines) places.forEach(([x, y], at) => pen[at ? "lineTo" : "moveTo"](across(x), down(y)));
    pen.globalAlpha = kind === "line" ? 0 : cover;
    pen.fill("evenodd");
    pen.globalAlpha = 1;
    pen.stroke();
  }
}

function write(text, left, top, colour) {
  if (++words > WORDS) return;
  Object.assign(pen, { strokeStyle: ink.back, fillStyle: colour, lineWidth: 3 });
  pen.strokeText(text, left, top);
  pen.fillText(text, left, top);
}

// What has just happened is drawn in a colour, as a square that is full where it enters, and in words.
function drawObject(key, id, it, now, colour, named) {
  const left = it.flash?.until - now, lit = left > 0, chosen = picked?.[0] === key && picked[1] === id;
  const [x, y] = [across(it.x), down(it.y)];
  if (lit) {
    pen.fillStyle = pen.strokeStyle = ink[it.flash.text] || ink.ink;
    pen.lineWidth = 3;
    it.flash.text === "enter" ? pen.fillRect(x - 9, y - 9, 18, 18) : pen.strokeRect(x - 9, y - 9, 18, 18);
  }
  paint(it.shapes, colour, 2, .2);
  if (chosen) {
    pen.strokeStyle = ink.ink;
    pen.beginPath();
    pen.arc(x, y, 12, 0, 7);
    pen.stroke();
  }
  if (left > FLASH / 2 || chosen || named) write(lit ? `${id}: ${it.flash.text}` : id, x + 11, y - 5, ink.ink);
  if (chosen || named > 1) write(wordsOf(it.fields), x + 11, y + 9, ink.soft);
}

function drawArea(name, { shapes, box, flash }, now) {
  const lit = flash?.until > now, colour = lit && ink[flash.text] || ink.area;
  paint(shapes, colour, lit ? 4 : 1.5, lit ? .3 : .1);
  if (shapes.length) write(lit ? `${name}: ${flash.text}` : name, across(box[0]) + 4, down(box[3]) - 6, colour);
}

function draw() {
  due = false;
  words = 0;
  const now = Date.now(), start = performance.now(), things = all();
  setTimeout(() => { pause = Math.min(3 * (performance.now() - start), 150); });
  if (!view.steered && (things.length !== view.count || !things.every(isIn))) fit();
  view.count = things.length;
  pen.setTransform(devicePixelRatio, 0, 0, devicePixelRatio, 0, 0);
  pen.clearRect(0, 0, width, height);
  pen.font = "12px system-ui, sans-serif";
  canvas.style.opacity = connected ? 1 : .4;
  grid();
  const count = things.filter(isSeen).length, named = count > 200 ? 0 : count > 60 ? 1 : 2;
  for (const [name, area] of areas) if (isSeen(area)) drawArea(name, area, now);
  for (const [key, ids] of objects) {
    const colour = colourOf(key);
    for (const [id, it] of ids) {
      if (isSeen(it)) drawObject(key, id, it, now, colour, named);
      it.drawn ||= now;
    }
  }
  if (frame) pen.strokeRect(...frame);
  log();
  if (things.some(it => it.flash?.until > now)) redraw();
}

function resize() {
  ({ clientWidth: width, clientHeight: height } = canvas);
  Object.assign(canvas, { width: width * devicePixelRatio, height: height * devicePixelRatio });
  const style = getComputedStyle(document.documentElement);
  for (const it in ink) ink[it] = style.getPropertyValue(`--${it}`);
  redraw();
}

const fill = values => Object.entries(values).forEach(([id, value]) => { element(id).value = value; });

// Picks the object next to a place of the canvas, or takes the place into the form.
function pick(left, top) {
  let best = 12;
  picked = null;
  for (const [key, ids] of objects) for (const [id, it] of ids) {
    const far = Math.hypot(across(it.x) - left, down(it.y) - top);
    if (far < best) [best, picked] = [far, [key, id]];
  }
  const it = picked && objects.get(picked[0]).get(picked[1]), [x, y] = placeOf(left, top).map(Math.round);
  fill({ x: it ? it.x : x, y: it ? it.y : y });
  if (it) fill({ key: picked[0], id: picked[1] });
  about();
  redraw();
}

canvas.onpointerdown = ({ offsetX, offsetY, shiftKey, pointerId }) => {
  canvas.setPointerCapture(pointerId);
  let last = [offsetX, offsetY], far = 0;
  canvas.onpointermove = ({ offsetX: left, offsetY: top }) => {
    far += Math.hypot(left - last[0], top - last[1]);
    if (shiftKey) frame = [offsetX, offsetY, left - offsetX, top - offsetY];
    else if (far > 4) move(last[0] - left, top - last[1]);
    last = [left, top];
    redraw();
  };
  canvas.onpointerup = canvas.onpointercancel = () => {
    canvas.onpointermove = canvas.onpointerup = null;
    if (frame) {
      const [x, y] = placeOf(offsetX, offsetY).map(Math.round), [u, v] = placeOf(...last).map(Math.round);
      fill({ area: `BOUNDS ${Math.min(y, v)} ${Math.min(x, u)} ${Math.max(y, v)} ${Math.max(x, u)}` });
      frame = null;
      redraw();
    } else if (far <= 4) pick(offsetX, offsetY);
  };
};
canvas.addEventListener("wheel", event => {
  event.preventDefault();
  move(0, 0, Math.exp(-event.deltaY * (event.deltaMode ? .05 : .0015)), event.offsetX, event.offsetY);
}, { passive: false });
canvas.onkeydown = ({ key, ctrlKey }) => {
  const step = { ArrowLeft: [-60, 0], ArrowRight: [60, 0], ArrowUp: [0, 60], ArrowDown: [0, -60],
    "+": [0, 0, 1.3], "-": [0, 0, 1 / 1.3] }[key];
  if (key === "0") Object.assign(view, { steered: false, count: 0 });
  if (ctrlKey || !step && key !== "0") return true;
  step ? move(...step) : redraw();
  return false;
};
matchMedia("(prefers-color-scheme: dark)").onchange = resize;
new ResizeObserver(resize).observe(canvas);

// The forms. What is wrong with the words, the server says.
async function order(...words) {
  if (!connected) return show("said", "Not connected.", "bad");
  const reply = await session.asks.ask(...words);
  if (!refused(reply)) show("said", `The server answers: ${reply}`);
  session.look();
}

function areaWords() {
  const text = valueOf("area").trim(), [first, ...rest] = text.split(/\s+/);
  return /^object$/i.test(first) ? [first, text.slice(first.length).trim()] : [first, ...rest];
}

element("object").onsubmit = () => {
  order("SET", valueOf("key"), valueOf("id"), "POINT", valueOf("y"), valueOf("x"));
  return false;
};
element("del").onclick = () => order("DEL", valueOf("key"), valueOf("id"));
element("fence").onsubmit = () => {
  const head = ["SETCHAN", valueOf("name"), "WITHIN", valueOf("watched"), "FENCE", "DETECT", "enter,exit,cross"];
  order(...head, ...areaWords());
  return false;
};
element("delchan").onclick = () => order("DELCHAN", valueOf("name"));
element("pause").onclick = () => {
  paused = !paused;
  element("pause").textContent = "Pause";
  log();
};

// For tests: what the page shows, as copies.
Object.defineProperty(window, "fudrask", { value: Object.freeze({
  get connected() { return connected; },
  get positions() {
    const places = ids => [...ids].map(([id, { x, y, at, drawn }]) => [id, { x, y, at, drawn }]);
    return Object.fromEntries([...objects].map(([key, ids]) => [key, Object.fromEntries(places(ids))]));
  },
  get areas() { return [...areas.keys()]; },
  get events() { return events.map(it => ({ ...it })); },
}) });

function connect() {
  clearTimeout(retry);
  session = new Session();
}

// A browser may keep a page that was left, connections and all, to show it again.
window.onpagehide = () => session?.close();
window.onpageshow = connect;
</script>
</body>
</html>
"##;

//! The fixed part of the page. `tools/fixed_page` writes this file from `recorder/record/page.html`.

/// What stands before the data.
pub const FIXED_BEGIN: &str = r###"<!DOCTYPE html>
<html lang="en">
<head>
<meta charset="utf-8">
<meta name="viewport" content="width=device-width, initial-scale=1">
<title>Report</title>
<style>
:root {
    color-scheme: light dark;
    --page: #ffffff; --panel: #f4f6f8; --line: #d5dae0; --text: #1b2128; --faint: #5c6773;
    --call: #3f7fd1; --wait: #e29a2d; --request: #93b7e4; --arrow: #177f6c; --meet: #8250c4; --mark: #d1242f; --base: #c3cad2;
    --good: #1a7f37; --bad: #cf222e; --open: #9a6700;
}
@media (prefers-color-scheme: dark) {
    :root {
        --page: #14181d; --panel: #1d232a; --line: #36404a; --text: #e3e8ee; --faint: #9aa6b2;
        --call: #5b97e6; --wait: #d8932c; --request: #3c5d86; --arrow: #45b8a0; --meet: #ab86e4; --mark: #ff6a72; --base: #47525e;
        --good: #4cc266; --bad: #ff7b72; --open: #d9a53b;
    }
}
* { box-sizing: border-box; }
body { margin: 0; background: var(--page); color: var(--text); font: 15px/1.45 system-ui, sans-serif; }
main { max-width: 1280px; margin: 0 auto; padding: 20px; }
h1 { font-size: 20px; margin: 0 0 4px; overflow-wrap: anywhere; }
h2 { font-size: 16px; margin: 26px 0 8px; }
p.about { margin: 0 0 14px; color: var(--faint); }
.verdict { display: inline-block; padding: 5px 12px; border: 2px solid; border-radius: 6px; font-weight: 600; overflow-wrap: anywhere; }
.good { color: var(--good); } .bad { color: var(--bad); } .open { color: var(--open); }
pre, code { font: 13px/1.5 ui-monospace, monospace; }
.finding { border: 1px solid var(--line); border-left: 4px solid var(--base); border-radius: 4px; margin: 8px 0; }
.finding { background: var(--panel); padding: 6px 12px; }
.finding.is-bad { border-left-color: var(--bad); } .finding.is-open { border-left-color: var(--open); }
.finding pre { margin: 0; white-space: pre-wrap; overflow-wrap: anywhere; }
.finding pre:first-child { font-weight: 600; }
.bar { display: flex; flex-wrap: wrap; gap: 8px; align-items: center; margin-bottom: 8px; }
.bar input { flex: 1 1 220px; max-width: 380px; }
button, input { font: inherit; color: inherit; background: var(--page); }
button, input { border: 1px solid var(--line); border-radius: 5px; padding: 4px 10px; }
button:hover { background: var(--panel); }
:focus-visible { outline: 2px solid var(--call); outline-offset: 1px; }
.key { display: inline-flex; gap: 5px; align-items: center; color: var(--faint); font-size: 13px; margin-right: 8px; }
.key i { width: 18px; height: 10px; border-radius: 2px; display: inline-block; }
#frame { border: 1px solid var(--line); border-radius: 5px; overflow: hidden; }
canvas { display: block; width: 100%; cursor: grab; touch-action: pan-y; }
#told { min-height: 44px; margin: 8px 0 0; padding: 6px 12px; background: var(--panel); border-radius: 4px; }
#told { white-space: pre-wrap; overflow-wrap: anywhere; }
.table { overflow-x: auto; }
table { border-collapse: collapse; font-size: 14px; }
th, td { padding: 3px 12px 3px 0; text-align: left; border-bottom: 1px solid var(--line); white-space: nowrap; }
.run td { white-space: normal; border-bottom: 0; border-left: 2px solid var(--line); padding: 2px 10px; min-width: 150px; }
.run th { padding: 2px 10px; } .run .step { background: var(--panel); } .run .chooses { border-left-color: var(--meet); }
.run .stuck { border-left-color: var(--bad); color: var(--bad); }
td.number, th.number { text-align: right; font-variant-numeric: tabular-nums; }
svg text { fill: var(--text); font: 13px system-ui, sans-serif; }
svg .node { fill: var(--panel); stroke: var(--bad); stroke-width: 2; }
svg .over { stroke: var(--faint); stroke-dasharray: 4 3; }
svg .edge { stroke: var(--bad); stroke-width: 2; fill: none; }
svg .tip { fill: var(--bad); }
</style>
</head>
<body>
<main>
<h1 id="title"></h1>
<p class="about" id="about"></p>
<p><span class="verdict" id="verdict"></span></p>
<section id="cycle" hidden><h2>Who waits for whom</h2></section>
<section id="run" hidden><h2>A run that deadlocks</h2></section>
<section id="findings" hidden><h2>What was found</h2></section>
<section id="timeline" hidden>
<h2>Timeline</h2>
<div class="bar">
<input id="search" type="search" placeholder="Search a call, file or line" aria-label="Search a call, file or line">
<button id="next">Next</button><span id="hits" class="key"></span>
<button id="in" title="Zoom in (+)">+</button><button id="out" title="Zoom out (-)">&minus;</button>
<button id="fit" title="All (0)">All</button>
</div>
<div class="bar" id="keys"></div>
<div id="frame"><canvas id="canvas" tabindex="0" aria-label="A row for each rank; the tables below have the same in words"></canvas></div>
<pre id="told" aria-live="polite">Wheel or + and - zoom, dragging or arrow keys move, a click on a bar says what it is.</pre>
</section>
<section id="tables"></section>
</main>
<script type="application/json" id="data">"###;

/// What stands behind the data.
pub const FIXED_END: &str = r###"</script>
<script>
"use strict";
const data = {
    ...{title: "", about: "", verdict: "", tone: "", findings: [], waiting: [], waits: [], run: [], bars: [], arrows: [], tables: []},
    ...JSON.parse(document.getElementById("data").textContent),
};
const element = (id) => document.getElementById(id);
const made = (name, text, kind) => {
    const it = document.createElement(name);
    if (text !== undefined) it.textContent = text;
    if (kind) it.className = kind;
    return it;
};

// The texts that colljob and wzrun write, as parts of the page: objects of `colljob explain --format json`, trace events, tables

function addExplained(objects) {
    const last = objects.find((it) => it.reason === "explained");
    const stuck = new Map(objects.filter((it) => it.reason === "waits").map((it) => [it.rank, it]));
    [data.verdict, data.tone] = [last.headline, last.status === 0 ? "good" : "bad"];
    const ranks = [...stuck.keys()].sort((a, b) => a - b), edges = new Map();
    for (const rank of ranks) {
        const it = stuck.get(rank), lines = it.requests.flatMap((request) => request.lacks.map((lack) => lackWords(request, lack)));
        data.findings.push({words: `rank ${rank} ${stand(it)}`, lines, tone: "bad"});
        for (const lack of it.requests.flatMap((request) => request.lacks)) edges.set(`${rank} ${lack.rank}`, [rank, lack.rank]);
    }
    const shown = last.shortest && last.shortest.length ? last.shortest : ranks;
    const wordsOf = (it) => it ? stand(it).replace("waits in ", "") : "";
    data.waiting = shown.map((rank) => ({rank, words: wordsOf(stuck.get(rank)), over: !stuck.has(rank)}));
    data.waits = [...edges.values()].filter((it) => shown.includes(it[0]) && shown.includes(it[1]));
    const passes = objects.filter((it) => it.reason === "passes");
    if (passes.length) data.run = [...runOf(passes), ...ranks.map((rank) => stopOf(stuck.get(rank)))];
}

// A run, step by step: the lines of one rank that don't depend on time are one step.
function runOf(passes) {
    const steps = [];
    for (const {rank, line, completes} of passes) {
        const before = steps[steps.length - 1], words = line === null ? "its end" : `line ${line}`;
        if (completes) steps.push({rank, kind: "chooses", words: `${words} completes ${requestWords(completes)}`});
        else if (!before || before.rank !== rank || !before.first) steps.push({rank, kind: "", first: line, words});
        else before.words = `lines ${before.first} to ${line === null ? "its end" : line}`;
    }
    return steps;
}

const requestWords = (requests) => requests.length ? `request${requests.length > 1 ? "s" : ""} ${requests.join(", ")}` : "nothing";

// The unwritten `waitall` at a rank's end has no line.
const stand = ({line, command}) => line === null ? "waits at its end" : `waits in line ${line}: ${command}`;

function stopOf({rank, line, command, requests}) {
    const lacks = [...new Set(requests.flatMap((request) => request.lacks.map((lack) => lack.rank)))];
    const words = stand({line, command});
    return {rank, kind: "stuck", words: lacks.length ? `${words}, lacks rank ${lacks.join(", ")}` : words};
}

function lackWords(request, lack) {
    const behind = lack.behind ? `, whose line ${lack.line} stands behind line ${lack.behind}` : "";
    return `  for request ${request.req}, ${request.kind}, line ${request.line}: lacks rank ${lack.rank}${behind}`;
}

// Each process of the events is a rank, each thread a row of it.
function addEvents(events) {
    data.bars = events.map(barOf);
    addMeetings(events);
    addMessages(events.filter((it) => it.cat === "message").sort((a, b) => a.ts - b.ts));
    const ranks = new Map();
    for (const event of events) {
        const row = ranks.get(event.pid) || {bars: 0, busy: 0, waiting: 0};
        row.bars += 1;
        row[event.cat === "wait" ? "waiting" : "busy"] += event.dur;
        ranks.set(event.pid, row);
    }
    const millis = (micros) => (micros / 1000).toLocaleString("en", {minimumFractionDigits: 3, maximumFractionDigits: 3});
    const cells = ([rank, row]) => [String(rank), row.bars.toLocaleString("en"), millis(row.busy), millis(row.waiting)];
    const rows = [...ranks].sort((a, b) => a[0] - b[0]).map(cells);
    data.tables.push({title: "By rank", note: "Milliseconds.", head: ["rank", "bars", "under way", "waiting"], rows});
    data.about = `${ranks.size} ranks, ${data.bars.length.toLocaleString("en")} bars`;
}

function barOf(event) {
    const said = event.args || {}, isWait = event.cat === "wait", end = event.ts + event.dur;
    const at = said.at ? String(said.at).replace(/.*\//, "") : said.line ? `line ${said.line}` : "";
    const told = Object.entries(said).filter(([name]) => !["at", "completed at", "line"].includes(name));
    const words = told.map(([name, value]) => `${name} ${value}`).join(", "), kind = isWait ? "call" : "request";
    return [event.pid, event.tid || 0, event.ts, end, kind, event.name, at, words, isWait ? end : event.ts];
}

function grouped(things, keyOf) {
    const groups = new Map();
    for (const it of things) {
        const key = JSON.stringify(keyOf(it));
        if (!groups.has(key)) groups.set(key, []);
        groups.get(key).push(it);
    }
    return [...groups.values()];
}

// The arrows from the last member of a collective to those that waited for it.
function addMeetings(events) {
    const communicator = (said) => said.communicator ?? said.comm ?? null;
    const isMember = ({cat, args}) => cat !== "wait" && args && (args.place ?? null) !== null && communicator(args) !== null;
    const members = events.filter(isMember);
    for (const group of grouped(members, ({args}) => [communicator(args), args.place, args.start])) {
        const last = group.reduce((latest, it) => it.ts > latest.ts ? it : latest);
        for (const it of group) {
            const arrow = [last.pid, last.ts, it.pid, Math.min(last.ts, it.ts + it.dur), "meet"];
            if (it.pid !== last.pid && last.ts > it.ts) data.arrows.push(arrow);
        }
    }
}

// The arrows of messages: those of one pair, tag and communicator are received in their order. A receive for any rank or tag has none.
function addMessages(events) {
    const isReceive = (it) => /recv(_init)?$/i.test(it.name);
    const known = events.filter((it) => it.args.other >= 0 && !it.name.includes("Sendrecv"));
    const keyOf = (it) => [it.args.communicator, ...(isReceive(it) ? [it.args.other, it.pid] : [it.pid, it.args.other]), it.args.tag];
    for (const group of grouped(known, keyOf)) {
        const receives = group.filter(isReceive);
        group.filter((it) => !isReceive(it)).slice(0, receives.length).forEach((sent, at) => {
            const got = receives[at];
            data.arrows.push([sent.pid, sent.ts, got.pid, Math.max(got.ts + got.dur, sent.ts), "message"]);
        });
    }
}

const isRow = (line) => /^\s*(\d+|all)\s+([\d.]+|-)\s+\S/.test(line);

// Tables in lines: after a line of words, lines whose numbers stand below the ends of these.
function addTables(text) {
    const lines = [...text.split("\n"), ""];
    let title = "Statistics";
    lines.forEach((line, number) => {
        const words = line.trim().replace("wzrun: ", "");
        if (words.endsWith(":")) title = words[0].toUpperCase() + words.slice(1, -1);
        else if (words && !isRow(line) && isRow(lines[number + 1])) {
            const below = lines.slice(number + 1);
            data.tables.push(tableOf(title, line, below.slice(0, below.findIndex((it) => !isRow(it)))));
        }
    });
}

// A table whose head is cut where the first row's numbers end; what stands behind them is a column of words.
function tableOf(title, head, lines) {
    const numbers = lines[0].match(/^(\s*(all|[\d.]+|-)(?=\s|$))+/)[0];
    const ends = [...numbers.matchAll(/\S+/g)].map((it) => it.index + it[0].length);
    const last = ends[ends.length - 1], hasRest = lines[0].trimEnd().length > last;
    const cells = ends.map((end, at) => head.slice(at ? ends[at - 1] : 0, end).trim());
    const rows = lines.map((line) => {
        const words = line.trim().split(/\s+/);
        return [...words.slice(0, ends.length), ...(hasRest ? [words.slice(ends.length).join(" ")] : [])];
    });
    return {title, note: "", head: [...cells, ...(hasRest ? [head.slice(last).trim() || "collective"] : [])], rows};
}

if (data.program) data.title = `${data.program} ${data.file}`;
if (data.timeline) {
    addEvents(JSON.parse(data.timeline).traceEvents.filter((it) => it.ph === "X"));
    if (!data.verdict) [data.verdict, data.tone] = ["the run ended well", "good"];
}
if (data.explained) addExplained(data.explained.split("\n").filter((line) => line.trim()).map((line) => JSON.parse(line)));
if (data.stats) addTables(data.stats);

// What was found

document.title = data.title;
element("title").textContent = data.title;
element("about").textContent = data.about;
element("verdict").textContent = data.verdict;
element("verdict").classList.add(data.tone);
for (const finding of data.findings) {
    const box = made("div", undefined, "finding " + ({bad: "is-bad", open: "is-open"}[finding.tone] || ""));
    box.append(made("pre", finding.words));
    if (finding.lines.length) box.append(made("pre", finding.lines.join("\n")));
    element("findings").append(box);
    element("findings").hidden = false;
}

// The picture of who waits for whom

const drawn = (name, attributes, text) => {
    const it = document.createElementNS("http://www.w3.org/2000/svg", name);
    for (const [key, value] of Object.entries(attributes)) it.setAttribute(key, value);
    if (text !== undefined) it.textContent = text;
    return it;
};

function drawCycle(nodes, edges) {
    const many = nodes.length, size = many > 16 ? 12 : 24, radius = Math.max(70, many * size * 0.55);
    const room = many > 16 ? 20 : 16 + 7.5 * nodes.reduce((longest, it) => Math.max(longest, it.words.length), 0);
    const width = 2 * (radius + size + room), height = 2 * radius + 2 * size + 30;
    const picture = drawn("svg", {viewBox: `0 0 ${width} ${height}`, width: width, role: "img", style: "max-width:100%;height:auto"});
    picture.append(drawn("title", {}, edges.map((it) => `rank ${it[0]} waits for rank ${it[1]}`).join(", ")));
    const place = new Map();
    nodes.forEach((node, number) => {
        const turn = -Math.PI / 2 + 2 * Math.PI * number / many;
        const far = many === 1 ? 0 : radius;
        place.set(node.rank, [width / 2 + far * Math.cos(turn), height / 2 + far * Math.sin(turn)]);
    });
    for (const [from, to] of edges) drawEdge(picture, place.get(from), place.get(to), size);
    for (const node of nodes) {
        const [x, y] = place.get(node.rank), right = x >= width / 2 - 1;
        picture.append(drawn("circle", {cx: x, cy: y, r: size, class: "node" + (node.over ? " over" : "")}));
        picture.append(drawn("text", {x: x, y: y + 5, "text-anchor": "middle"}, node.rank));
        const beside = {x: x + (right ? size + 6 : -size - 6), y: y + 5, "text-anchor": right ? "start" : "end"};
        if (many <= 16) picture.append(drawn("text", beside, node.words));
    }
    element("cycle").append(picture);
    element("cycle").hidden = false;
}

function drawEdge(picture, from, to, size) {
    if (from === to) {
        const [x, y, near] = [from[0], from[1], size * 0.7];
        const path = `M ${x - near} ${y - near} C ${x - 60} ${y - 80} ${x + 60} ${y - 80} ${x + near} ${y - near}`;
        picture.append(drawn("path", {class: "edge", d: path}));
        return;
    }
    // Bent to one side, so that two ranks that wait for each other have two arrows.
    const [dx, dy] = [to[0] - from[0], to[1] - from[1]], length = Math.hypot(dx, dy), bend = Math.min(40, length * 0.18);
    const middle = [(from[0] + to[0]) / 2 - dy / length * bend, (from[1] + to[1]) / 2 + dx / length * bend];
    const near = (a, b, by) => {
        const far = Math.hypot(b[0] - a[0], b[1] - a[1]);
        return [a[0] + (b[0] - a[0]) / far * by, a[1] + (b[1] - a[1]) / far * by];
    };
    const begin = near(from, middle, size), end = near(to, middle, size + 8), tip = near(to, middle, size);
    picture.append(drawn("path", {class: "edge", d: `M ${begin} Q ${middle} ${end}`}));
    const side = [(tip[1] - end[1]) * 0.6, (end[0] - tip[0]) * 0.6];
    const corners = [tip, [end[0] + side[0], end[1] + side[1]], [end[0] - side[0], end[1] - side[1]]];
    picture.append(drawn("polygon", {class: "tip", points: corners.join(" ")}));
}

if (data.waits.length) drawCycle(data.waiting, data.waits);

// The picture of a run: a column for each rank, in the order of its steps

function drawRun(steps) {
    const ranks = [...new Set(steps.map((it) => it.rank))].sort((a, b) => a - b);
    const shown = made("table", undefined, "run"), head = made("tr"), stops = steps.filter((it) => it.kind === "stuck");
    for (const rank of ranks) head.append(made("th", `rank ${rank}`));
    shown.append(head);
    const addRow = (cells) => {
        const row = made("tr");
        for (const rank of ranks) {
            const step = cells.find((it) => it.rank === rank);
            row.append(made("td", step ? step.words : "", step ? `step ${step.kind}` : ""));
        }
        shown.append(row);
    };
    for (const step of steps) if (step.kind !== "stuck") addRow([step]);
    if (stops.length) addRow(stops);
    const frame = made("div", undefined, "table");
    frame.append(shown);
    element("run").append(frame);
    element("run").hidden = false;
}

if (data.run.length) drawRun(data.run);

// Tables

for (const table of data.tables) {
    const section = element("tables");
    section.append(made("h2", table.title));
    if (table.note) section.append(made("p", table.note, "about"));
    const shown = made("table"), head = made("tr");
    const hasNumbers = (column) => table.rows.every((row) => row[column] === "" || /^[-\d.,]+$/.test(row[column]));
    const isNumber = table.head.map((_, column) => table.rows.length > 0 && hasNumbers(column));
    table.head.forEach((word, column) => head.append(made("th", word, isNumber[column] ? "number" : "")));
    shown.append(head);
    for (const row of table.rows) {
        const line = made("tr");
        row.forEach((word, column) => line.append(made("td", word, isNumber[column] ? "number" : "")));
        shown.append(line);
    }
    const frame = made("div", undefined, "table");
    frame.append(shown);
    section.append(frame);
}

// The timeline. A bar has its rank, row, begin, end, kind, name, place, words, and the end of its waiting.

const canvas = element("canvas"), context = canvas.getContext("2d");
const [RANK, ROW, BEGIN, END, KIND, NAME, PLACE, WORDS, WAITED] = [0, 1, 2, 3, 4, 5, 6, 7, 8];
const LEFT = 70, TOP = 24, MOST_HEIGHT = 4000;
const bars = data.bars, rowsOf = new Map();
let first = 0, last = 1, height = 200, rowHeight = 26, hits = [], hit = -1, chosen = -1, rowTops = new Map();

for (const bar of bars) {
    rowsOf.set(bar[RANK], Math.max(rowsOf.get(bar[RANK]) || 0, bar[ROW] + 1));
}
const least = bars.reduce((found, bar) => Math.min(found, bar[BEGIN]), Infinity);
const most = bars.reduce((found, bar) => Math.max(found, bar[END]), -Infinity);

function layOut() {
    const rows = [...rowsOf.values()].reduce((sum, it) => sum + it, 0);
    rowHeight = Math.max(8, Math.min(26, (MOST_HEIGHT - TOP) / Math.max(1, rows)));
    let top = TOP;
    for (const rank of [...rowsOf.keys()].sort((a, b) => a - b)) {
        rowTops.set(rank, top);
        top += rowsOf.get(rank) * rowHeight + 6;
    }
    height = top + 4;
}

const x = (time) => LEFT + (time - first) / (last - first) * (canvas.clientWidth - LEFT - 8);
const timeAt = (at) => first + (at - LEFT) / (canvas.clientWidth - LEFT - 8) * (last - first);
const y = (bar) => rowTops.get(bar[RANK]) + bar[ROW] * rowHeight;
const shade = (name) => getComputedStyle(document.documentElement).getPropertyValue("--" + name).trim();

function timeWords(micros) {
    const size = Math.abs(micros);
    if (size >= 1e6) return `${+(micros / 1e6).toFixed(3)} s`;
    return size >= 1e3 ? `${+(micros / 1e3).toFixed(3)} ms` : `${+micros.toFixed(1)} µs`;
}

function drawAxis(colors) {
    const span = last - first, step = 10 ** Math.floor(Math.log10(span / 4));
    const unit = span / step > 20 ? 5 * step : span / step > 8 ? 2 * step : step;
    context.fillStyle = colors.faint;
    context.strokeStyle = colors.line;
    context.textAlign = "center";
    for (let time = least + Math.ceil((first - least) / unit) * unit; time <= last; time += unit) {
        const words = timeWords(time - least), room = context.measureText(words).width / 2;
        if (x(time) + room <= canvas.clientWidth) context.fillText(words, x(time), 12);
        context.beginPath();
        context.moveTo(x(time), TOP - 6);
        context.lineTo(x(time), height);
        context.stroke();
    }
}

function drawRanks(colors) {
    context.textAlign = "right";
    for (const [rank, top] of rowTops) {
        context.fillStyle = colors.text;
        if (rowHeight > 11 || rank % 4 === 0) context.fillText(`rank ${rank}`, LEFT - 8, top + Math.min(rowHeight, 26) / 2 + 4);
        context.strokeStyle = colors.base;
        context.beginPath();
        context.moveTo(LEFT, top + rowHeight / 2);
        context.lineTo(canvas.clientWidth - 8, top + rowHeight / 2);
        context.stroke();
    }
}

// The hatching of time waited, so that colour alone doesn't say it.
function hatch(colors) {
    const tile = document.createElement("canvas");
    tile.width = tile.height = 6;
    const paint = tile.getContext("2d");
    paint.fillStyle = colors.wait;
    paint.fillRect(0, 0, 6, 6);
    paint.strokeStyle = colors.page;
    paint.globalAlpha = 0.45;
    paint.beginPath();
    paint.moveTo(-1, 7);
    paint.lineTo(7, -1);
    paint.stroke();
    return context.createPattern(tile, "repeat");
}

function drawBar(bar, number, colors, pattern, isDim) {
    const begin = Math.max(LEFT, x(bar[BEGIN])), end = Math.min(canvas.clientWidth - 8, x(bar[END]));
    if (end < LEFT || begin > canvas.clientWidth - 8) return;
    const top = y(bar) + 2, tall = rowHeight - 4, wide = Math.max(1, end - begin), waited = Math.max(begin, Math.min(end, x(bar[WAITED])));
    context.globalAlpha = isDim ? 0.2 : 1;
    context.fillStyle = bar[KIND] === "request" ? colors.request : colors.call;
    context.fillRect(begin, top, wide, tall);
    if (bar[WAITED] > bar[BEGIN]) {
        context.fillStyle = pattern;
        context.fillRect(begin, top, Math.max(1, waited - begin), tall);
    }
    if (bar[KIND] === "stuck") {
        context.strokeStyle = colors.bad;
        context.lineWidth = 2;
        context.strokeRect(begin + 1, top, wide - 2, tall);
        context.lineWidth = 1;
    }
    if (wide > 40 && rowHeight > 14) {
        context.fillStyle = bar[KIND] === "request" ? colors.text : colors.page;
        context.textAlign = "left";
        context.save();
        context.beginPath();
        context.rect(begin, top, wide - 4, tall);
        context.clip();
        context.fillText(bar[NAME].replace("MPI_", ""), begin + 4, top + tall / 2 + 4);
        context.restore();
    }
    context.globalAlpha = 1;
    if (number === chosen || number === hits[hit]) {
        context.strokeStyle = colors.mark;
        context.lineWidth = 3;
        context.strokeRect(begin, top - 1, wide, tall + 2);
        context.lineWidth = 1;
    }
}

function drawArrows(colors) {
    for (const [from, begin, to, end, kind] of data.arrows) {
        if (end < first || begin > last || !rowTops.has(from) || !rowTops.has(to)) continue;
        const a = [x(begin), rowTops.get(from) + rowHeight / 2], b = [x(end), rowTops.get(to) + rowHeight / 2];
        if (Math.hypot(b[0] - a[0], b[1] - a[1]) < 4) continue;
        context.strokeStyle = context.fillStyle = kind === "message" ? colors.arrow : colors.meet;
        context.globalAlpha = data.arrows.length > 2000 && last - first > (most - least) / 4 ? 0.25 : 0.8;
        context.beginPath();
        context.moveTo(...a);
        context.lineTo(...b);
        context.stroke();
        const turn = Math.atan2(b[1] - a[1], b[0] - a[0]);
        context.beginPath();
        context.moveTo(...b);
        context.lineTo(b[0] - 8 * Math.cos(turn - 0.4), b[1] - 8 * Math.sin(turn - 0.4));
        context.lineTo(b[0] - 8 * Math.cos(turn + 0.4), b[1] - 8 * Math.sin(turn + 0.4));
        context.fill();
        context.globalAlpha = 1;
    }
}

function draw() {
    const scale = window.devicePixelRatio || 1, wide = canvas.clientWidth;
    canvas.style.height = height + "px";
    canvas.width = wide * scale;
    canvas.height = height * scale;
    context.setTransform(scale, 0, 0, scale, 0, 0);
    context.font = "12px system-ui, sans-serif";
    const names = "page line text faint call wait request arrow meet mark base bad".split(" ");
    const colors = Object.fromEntries(names.map((name) => [name, shade(name)]));
    const pattern = hatch(colors), found = new Set(hits);
    drawAxis(colors);
    drawRanks(colors);
    context.save();
    context.beginPath();
    context.rect(LEFT, 0, wide - LEFT - 8, height);
    context.clip();
    bars.forEach((bar, number) => drawBar(bar, number, colors, pattern, hits.length > 0 && !found.has(number)));
    drawArrows(colors);
    context.restore();
}

function show(begin, end) {
    const span = Math.max((most - least) / 1e6, 0.001, end - begin);
    [first, last] = [begin, begin + span];
    draw();
}

function zoom(by, at) {
    const middle = at === undefined ? (first + last) / 2 : at;
    show(middle - (middle - first) * by, middle + (last - middle) * by);
}

function tell(number) {
    chosen = number;
    const bar = bars[number];
    const waited = bar[WAITED] > bar[BEGIN] ? `, of which it waited ${timeWords(Math.min(bar[END], bar[WAITED]) - bar[BEGIN])}` : "";
    const when = `from ${timeWords(bar[BEGIN] - least)} for ${timeWords(bar[END] - bar[BEGIN])}${waited}`;
    const lines = [`rank ${bar[RANK]}: ${bar[NAME]}, ${bar[PLACE]}`, when, ...(bar[WORDS] ? [bar[WORDS]] : [])];
    element("told").textContent = lines.join("\n");
    draw();
}

function barAt(event) {
    const frame = canvas.getBoundingClientRect(), near = 3 * (last - first) / canvas.clientWidth;
    const at = timeAt(event.clientX - frame.left), down = event.clientY - frame.top;
    let found = -1;
    bars.forEach((bar, number) => {
        if (bar[BEGIN] - near <= at && at <= bar[END] + near && y(bar) <= down && down < y(bar) + rowHeight) found = number;
    });
    return found;
}

function search() {
    const word = element("search").value.trim().toLowerCase();
    hits = [];
    const wordsOf = (bar) => `rank ${bar[RANK]} ${bar[NAME]} ${bar[PLACE]} ${bar[WORDS]}`.toLowerCase();
    if (word) bars.forEach((bar, number) => { if (wordsOf(bar).includes(word)) hits.push(number); });
    hit = -1;
    element("hits").textContent = word ? `${hits.length} found` : "";
    draw();
}

function next() {
    if (!hits.length) return;
    hit = (hit + 1) % hits.length;
    const bar = bars[hits[hit]], span = last - first;
    element("hits").textContent = `${hit + 1} of ${hits.length}`;
    if (bar[BEGIN] < first || bar[END] > last) [first, last] = [bar[BEGIN] - span / 3, bar[BEGIN] + span * 2 / 3];
    tell(hits[hit]);
}

function begin() {
    element("timeline").hidden = false;
    const meanings = {call: "in a call", wait: "waiting in a call", request: "a request under way", base: "elsewhere", arrow: "a message"};
    meanings.meet = "the last member of a collective, to those that waited";
    for (const [name, words] of Object.entries(meanings)) {
        const key = made("span", words, "key"), color = made("i");
        color.style.background = `var(--${name})`;
        if (name === "base") color.style.height = "2px";
        key.prepend(color);
        element("keys").append(key);
    }
    layOut();
    const all = () => show(least - (most - least) * 0.01, most + (most - least) * 0.01);
    let drag = null;
    const turned = (event) => { event.preventDefault(); zoom(event.deltaY > 0 ? 1.25 : 0.8, timeAt(event.offsetX)); };
    canvas.addEventListener("wheel", turned, {passive: false});
    canvas.addEventListener("pointerdown", (event) => {
        drag = {x: event.clientX, first, last, moved: false};
        canvas.setPointerCapture(event.pointerId);
    });
    canvas.addEventListener("pointermove", (event) => {
        if (!drag) return;
        drag.moved = drag.moved || Math.abs(event.clientX - drag.x) > 3;
        const by = (event.clientX - drag.x) / (canvas.clientWidth - LEFT - 8) * (drag.last - drag.first);
        if (drag.moved) show(drag.first - by, drag.last - by);
    });
    canvas.addEventListener("pointerup", (event) => {
        const number = drag && !drag.moved ? barAt(event) : -1;
        drag = null;
        if (number >= 0) tell(number);
    });
    canvas.addEventListener("keydown", (event) => {
        const by = (last - first) / 8, left = () => show(first - by, last - by), right = () => show(first + by, last + by);
        const moves = {"+": () => zoom(0.8), "=": () => zoom(0.8), "-": () => zoom(1.25), "0": all, ArrowLeft: left, ArrowRight: right};
        if (moves[event.key]) { moves[event.key](); event.preventDefault(); }
    });
    element("in").onclick = () => zoom(0.5);
    element("out").onclick = () => zoom(2);
    element("fit").onclick = all;
    element("next").onclick = next;
    element("search").addEventListener("input", search);
    element("search").addEventListener("keydown", (event) => { if (event.key === "Enter") next(); });
    window.addEventListener("resize", draw);
    window.matchMedia("(prefers-color-scheme: dark)").addEventListener("change", draw);
    all();
}

if (bars.length) begin();
document.documentElement.dataset.drawn = bars.length;
</script>
</body>
</html>
"###;

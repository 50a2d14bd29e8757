//! The script of the page.

/// The contents of the page's element `script`. It puts all that the server tells into the page as text.
pub(crate) const PAGE_SCRIPT: &str = r##"
"use strict";
/* Milliseconds: between two questions, until an answer, and of the rates that are kept. */
const PERIOD = 1000, LIMIT = 4000, KEPT = 300000;
const space = new URLSearchParams(location.search).get("space");
const at = (id) => document.getElementById(id);
const open = new Set();
let rates = [], last = null, heard = null, shown = null, workers = [];

function make(tag, text, kind) {
  const made = document.createElement(tag);
  if (text !== undefined) made.textContent = text;
  if (kind) made.className = kind;
  return made;
}
function draw(tag, attributes, text) {
  const made = document.createElementNS("http://www.w3.org/2000/svg", tag);
  for (const [name, value] of Object.entries(attributes)) made.setAttribute(name, value);
  if (text !== undefined) made.textContent = text;
  return made;
}
function span(seconds) {
  if (seconds === undefined) return "";
  const s = Math.floor(seconds);
  if (s < 60) return s + " s";
  if (s < 3600) return Math.floor(s / 60) + " min " + s % 60 + " s";
  if (s < 86400) return Math.floor(s / 3600) + " h " + Math.floor(s % 3600 / 60) + " min";
  return Math.floor(s / 86400) + " d " + Math.floor(s % 86400 / 3600) + " h";
}
const title = (w) => "worker " + w.id + (w.as ? " (" + w.as + ")" : "");
const titles = (list) => list.map(title).join(", ");
const command = (w) => "rme ask " + (space ? "--space " + space + " " : "") + "finish " + w.id;

/* All that a worker keeps waiting, in turn. */
function behind(w) {
  const found = [], look = [w.id];
  while (look.length) {
    const by = look.pop();
    for (const other of workers)
      if (other.blocked_by === by && !found.includes(other)) { found.push(other); look.push(other.id); }
  }
  return found.sort((a, b) => a.id - b.id);
}

/* An element is replaced only if it says something else, so that a selection and the focus stay. */
function put(place, parts) {
  const fresh = make("div");
  fresh.append(...parts);
  if (fresh.innerHTML !== place.innerHTML) place.replaceChildren(...fresh.childNodes);
}

function finishItem(w) {
  const kept = behind(w), item = make("li", undefined, w.stance === "held" ? "" : "waits");
  const does = w.stance === "held" ? " is down and owns " : " is down and waits for ";
  const head = make("p");
  head.append(make("strong", title(w) + does + w.lock, "bad"), " for " + span(w.seconds) + ".");
  const last = make("p");
  last.append("Finish it: ", make("code", command(w)));
  item.append(head, make("p", kept.length ? "Keeps waiting: " + titles(kept) + "." : "Nobody waits for it."), last);
  return item;
}

function showFinish() {
  const rank = (w) => (w.stance === "held" ? 0 : 1);
  const down = workers.filter((w) => !w.attached && (w.stance === "held" || w.stance === "climb"));
  down.sort((a, b) => rank(a) - rank(b) || behind(b).length - behind(a).length || (b.seconds || 0) - (a.seconds || 0));
  put(at("finish"), down.length ? down.map(finishItem) : [make("li", "Nothing: no worker is down with a job.", "good")]);
  at("finish-count").textContent = down.length ? " (" + down.length + ")" : "";
  const dead = down.filter((w) => w.stance === "held").length;
  document.title = (dead ? "(" + dead + " dead) " : "") + "rme" + (space ? " " + space : "");
}

function cell(row, label, text, kind) {
  const made = make("td", text, kind);
  made.dataset.label = label;
  row.append(made);
  return made;
}

function lockRow(lock, index, rate) {
  const row = make("tr", undefined, "lock"), owner = workers[lock.owner];
  const name = cell(row, "Lock", undefined), button = make("button", lock.name);
  button.type = "button";
  button.id = "lock-" + index;
  button.setAttribute("aria-expanded", String(open.has(lock.name)));
  button.setAttribute("aria-controls", "tree-" + index);
  name.append(button);
  cell(row, "Owner", owner ? title(owner) : "nobody", owner ? "" : "quiet");
  cell(row, "State", owner ? (owner.attached ? "lives" : "DEAD") : "free",
    owner ? (owner.attached ? "good" : "bad") : "quiet");
  cell(row, "For", owner ? span(owner.seconds) : "");
  cell(row, "Waiting", String(workers.filter((w) => w.stance === "climb" && w.lock === lock.name).length), "number");
  cell(row, "Jobs", String(lock.sections), "number");
  cell(row, "Jobs/s", rate === undefined ? "" : rate.toFixed(rate < 10 ? 1 : 0), "number");
  return row;
}

function treeRow(lock, index) {
  const row = make("tr", undefined, "detail"), place = make("td"), view = make("div", undefined, "tree");
  place.colSpan = 7;
  view.id = "tree-" + index;
  view.tabIndex = 0;
  view.setAttribute("role", "group");
  view.setAttribute("aria-label", "The tree of the lock " + lock.name);
  view.append(tree(lock));
  place.append(view);
  row.append(place);
  return row;
}

function showLocks(locks, perLock) {
  const focus = document.activeElement && document.activeElement.id;
  const rows = [];
  shown = { locks, perLock };
  const order = locks.map((lock, index) => [lock, index]);
  const rank = ([lock]) => (lock.owner === null ? 2 : workers[lock.owner] && workers[lock.owner].attached ? 1 : 0);
  order.sort((a, b) => rank(a) - rank(b) || a[1] - b[1]);
  for (const [lock, index] of order) {
    rows.push(lockRow(lock, index, perLock.get(lock.name)));
    if (open.has(lock.name)) rows.push(treeRow(lock, index));
  }
  const scrolled = [...document.querySelectorAll(".tree")].map((place) => [place.id, place.scrollLeft]);
  put(at("locks"), rows);
  for (const [id, left] of scrolled) if (at(id)) at(id).scrollLeft = left;
  if (focus && at(focus) && document.activeElement !== at(focus)) at(focus).focus();
}

/* The places of a tree of nodes 1, 2 and so on, with two below each, and a leaf for each worker. */
function places() {
  let leaves = 2;
  while (leaves < workers.length + 1) leaves *= 2;
  const height = Math.log2(leaves), step = 74, top = 30, level = 64;
  const depth = (node) => Math.floor(Math.log2(node));
  /* The first and the last worker under a node; the last leaves are nobody's. */
  const first = (node) => (node << (height - depth(node))) - leaves;
  const end = (node) => Math.min(first(node) + 2 ** (height - depth(node)), workers.length) - 1;
  return {
    leaves, width: step * workers.length, height: top + level * height + 60,
    isEmpty: (node) => first(node) >= workers.length,
    x: (node) => step * ((first(node) + end(node)) / 2 + 0.5),
    y: (node) => top + level * depth(node),
  };
}

/* Who holds each node, and how: a waiting worker its path up to below the node where its and its blocker's paths meet. */
function holders(lock, leaves) {
  const held = new Map();
  const hold = (w, end, kind) => {
    for (let node = leaves + w.id; node > end; node >>= 1) held.set(node, { w, kind });
  };
  const meet = (a, b) => { while (a !== b) { if (a > b) a >>= 1; else b >>= 1; } return a; };
  for (const w of workers) {
    if (w.stance === "climb" && w.lock === lock.name)
      hold(w, w.blocked_by === undefined ? (leaves + w.id) >> 1 : meet(leaves + w.id, leaves + w.blocked_by), "climbs");
  }
  const owner = workers[lock.owner];
  if (owner) hold(owner, 0, owner.attached ? "owns" : "owns-dead");
  return held;
}

function drawEdges(svg, at, held) {
  for (let node = 2; node < 2 * at.leaves; node++) {
    if (at.isEmpty(node)) continue;
    const below = held.get(node), above = held.get(node >> 1), both = below && above && below.w === above.w;
    svg.append(draw("line", { x1: at.x(node), y1: at.y(node), x2: at.x(node >> 1), y2: at.y(node >> 1),
      class: "edge" + (both ? " " + below.kind : "") }));
  }
}

function drawNodes(svg, at, held) {
  for (let node = 1; node < at.leaves; node++) {
    if (at.isEmpty(node)) continue;
    const has = held.get(node);
    svg.append(draw("circle", { cx: at.x(node), cy: at.y(node), r: 16, class: "node" + (has ? " " + has.kind : "") }));
    svg.append(draw("text", { x: at.x(node), y: at.y(node) + 4, "text-anchor": "middle", class: has ? "" : "quiet" },
      has ? String(has.w.id) : "free"));
  }
}

function drawLeaves(svg, at, held) {
  for (const w of workers) {
    const node = at.leaves + w.id, has = held.get(node), x = at.x(node), y = at.y(node);
    svg.append(draw("rect", { x: x - 33, y: y - 14, width: 66, height: 28, rx: 4,
      class: "leaf" + (has ? " " + has.kind : "") }));
    svg.append(draw("text", { x, y: y + 4, "text-anchor": "middle" }, "worker " + w.id));
    svg.append(draw("text", { x, y: y + 28, "text-anchor": "middle", class: "quiet" },
      has ? (has.kind === "climbs" ? "waits" : "inside") : ""));
    svg.append(draw("text", { x, y: y + 42, "text-anchor": "middle", class: "quiet" }, has && !w.attached ? "down" : ""));
  }
}

/* The tree of a lock: the owner holds the nodes from its leaf up to the root. */
function tree(lock) {
  const at = places(), held = holders(lock, at.leaves);
  const svg = draw("svg", { width: at.width, height: at.height, role: "img" });
  svg.append(draw("title", {}, "The tree of the lock " + lock.name + ": who holds its nodes"));
  drawEdges(svg, at, held);
  drawNodes(svg, at, held);
  drawLeaves(svg, at, held);
  return svg;
}

function showWaiting() {
  const waiting = workers.filter((w) => w.stance === "climb");
  waiting.sort((a, b) => (b.seconds || 0) - (a.seconds || 0));
  const rows = waiting.map((w) => {
    const row = make("tr"), by = workers[w.blocked_by];
    cell(row, "Worker", title(w) + (w.attached ? "" : ", down"), w.attached ? "" : "bad");
    cell(row, "Lock", w.lock);
    cell(row, "Waits for", by ? title(by) + (by.attached ? "" : ", down") : "its turn", by && !by.attached ? "bad" : "");
    cell(row, "For", span(w.seconds));
    return row;
  });
  put(at("waiting"), rows);
  at("waiting-table").classList.toggle("hide", !rows.length);
  at("no-waiting").classList.toggle("hide", !!rows.length);
}

function showRates(now) {
  rates = rates.filter((it) => now - it.now <= KEPT);
  const most = Math.max(0, ...rates.map((it) => it.rate)), scale = most || 1;
  const line = rates.map((it) => (600 - 600 * (now - it.now) / KEPT).toFixed(1) + ","
    + (114 - 104 * it.rate / scale).toFixed(1));
  at("rate-line").setAttribute("points", line.join(" "));
  const latest = rates.length ? rates[rates.length - 1].rate : 0;
  at("rate-now").textContent = latest.toFixed(1) + " jobs a second now; at most " + most.toFixed(1)
    + " in the last 5 minutes, as far as this page was open.";
}

/* The jobs a second of each lock since the last status, and of all. */
function measure(status, now) {
  const perLock = new Map();
  if (last && now > last.now) {
    let all = 0;
    for (const lock of status.locks) {
      const was = last.jobs.get(lock.name);
      if (was === undefined || lock.sections < was) continue;
      const rate = (lock.sections - was) * 1000 / (now - last.now);
      perLock.set(lock.name, rate);
      all += rate;
    }
    rates.push({ now, rate: all });
  }
  last = { now, jobs: new Map(status.locks.map((lock) => [lock.name, lock.sections])) };
  return perLock;
}

function show(status, now) {
  workers = status.workers.map((w, id) => Object.assign({ id }, w));
  const perLock = measure(status, now);
  heard = now;
  at("epoch").textContent = (space ? "space " + space + ", " : "") + "epoch " + status.epoch
    + (status.leader === undefined ? "" : ", leader " + status.leader + ", term " + status.term);
  showFinish();
  showLocks(status.locks, perLock);
  showWaiting();
  showRates(now);
}

function showState(why) {
  const gone = why !== null;
  at("gone").classList.toggle("hide", !gone);
  at("data").classList.toggle("gone-data", gone);
  at("live").textContent = gone ? "not live" : "live";
  at("live").className = gone ? "bad" : "good";
  at("old").textContent = gone && heard !== null
    ? "What stands below is " + span((performance.now() - heard) / 1000) + " old." : "";
  if (!gone) return;
  const text = "The server is gone: " + why + ".";
  if (at("why").textContent !== text) at("why").textContent = text;
  document.title = "(gone) rme" + (space ? " " + space : "");
}

async function turn() {
  const stop = new AbortController(), timer = setTimeout(() => stop.abort(), LIMIT);
  try {
    const address = "status" + (space ? "?space=" + encodeURIComponent(space) : "");
    const answer = await fetch(address, { cache: "no-store", signal: stop.signal });
    if (answer.status === 404) {
      at("space").classList.remove("hide");
      throw new Error(space ? "it has no space " + space : "it has no status, or needs the name of a space");
    }
    if (!answer.ok) throw new Error("it answers " + answer.status);
    const status = await answer.json();
    show(status, performance.now());
    at("space").classList.add("hide");
    showState(null);
  } catch (fault) {
    showState(fault.name === "AbortError" ? "it does not answer" : fault instanceof TypeError
      ? "nobody answers at this address" : fault.message);
  } finally {
    clearTimeout(timer);
    setTimeout(turn, PERIOD);
  }
}

at("locks").addEventListener("click", (event) => {
  const row = event.target.closest("tr.lock"), button = row && row.querySelector("button");
  /* A press on the row that ends a selection of its text opens nothing. */
  if (!row || (event.target !== button && String(getSelection()))) return;
  const name = button.textContent;
  if (!open.delete(name)) open.add(name);
  button.focus();
  showLocks(shown.locks, shown.perLock);
});
at("space-go").addEventListener("click", goToSpace);
at("space-name").addEventListener("keydown", (event) => { if (event.key === "Enter") goToSpace(); });
function goToSpace() {
  location.search = "?space=" + encodeURIComponent(at("space-name").value);
}
turn();
"##;

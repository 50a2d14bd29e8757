//! The style of the page.

/// The contents of the page's element `style`.
pub(crate) const PAGE_STYLE: &str = r##"
:root { color-scheme: light dark; --back: #ffffff; --card: #f4f5f7; --text: #16181d; --quiet: #59606c;
  --line: #d3d7de; --bad: #b3261e; --bad-back: #fdecea; --good: #1d6f42; --warn: #8a5a00; --mark: #1f5fa8; }
@media (prefers-color-scheme: dark) { :root { --back: #14161a; --card: #1e2127; --text: #e8eaee;
  --quiet: #a5acb8; --line: #383d47; --bad: #ff8a80; --bad-back: #3a1c1a; --good: #7fd6a4; --warn: #f0bf66;
  --mark: #8ab8f0; } }
* { box-sizing: border-box; }
body { margin: 0 auto; max-width: 1280px; padding: 16px; background: var(--back); color: var(--text);
  font: 16px/1.45 system-ui, "DejaVu Sans", sans-serif; }
header { display: flex; flex-wrap: wrap; gap: 4px 16px; align-items: baseline; overflow-wrap: anywhere; }
h1 { font-size: 1.35rem; margin: 0; }
h2 { font-size: 1.05rem; margin: 24px 0 8px; }
p { margin: 4px 0; }
.quiet { color: var(--quiet); }
.bad { color: var(--bad); font-weight: 600; }
.good { color: var(--good); }
.warn { color: var(--warn); }
#gone { border: 2px solid var(--bad); background: var(--bad-back); border-radius: 6px; padding: 8px 12px;
  margin: 12px 0; font-weight: 600; }
.gone-data { opacity: .45; }
ul { list-style: none; margin: 0; padding: 0; }
#finish li { border-left: 4px solid var(--bad); background: var(--bad-back); border-radius: 0 6px 6px 0;
  padding: 8px 12px; margin: 8px 0; overflow-wrap: anywhere; }
#finish li.waits { border-color: var(--warn); background: var(--card); }
code { font: 0.95em ui-monospace, "DejaVu Sans Mono", monospace; background: var(--back);
  border: 1px solid var(--line); border-radius: 4px; padding: 1px 5px; user-select: all; }
table { border-collapse: collapse; width: 100%; }
th { text-align: left; font-weight: 600; color: var(--quiet); font-size: .9rem; }
th, td { padding: 6px 10px 6px 0; border-bottom: 1px solid var(--line); vertical-align: top;
  overflow-wrap: anywhere; }
th.number, td.number { text-align: right; font-variant-numeric: tabular-nums; }
tbody tr.lock { cursor: pointer; }
tbody tr.lock:hover { background: var(--card); }
button { font: inherit; color: var(--mark); background: none; border: 0; padding: 2px 0; cursor: pointer;
  text-align: left; overflow-wrap: anywhere; }
button:focus-visible, a:focus-visible, input:focus-visible, .tree:focus-visible { outline: 3px solid var(--mark); outline-offset: 2px; }
button::before { content: "▸ "; }
button[aria-expanded=true]::before { content: "▾ "; }
.tree { width: 0; min-width: 100%; overflow-x: auto; padding: 8px 0; }
svg text { fill: var(--text); font: 12px system-ui, "DejaVu Sans", sans-serif; }
svg .quiet { fill: var(--quiet); }
svg .edge { stroke: var(--line); stroke-width: 1.5; }
svg .owns { stroke: var(--good); stroke-width: 4; }
svg .owns-dead { stroke: var(--bad); stroke-width: 4; }
svg .climbs { stroke: var(--warn); stroke-width: 4; }
svg .node { fill: var(--back); stroke: var(--quiet); stroke-width: 1.5; }
svg .node.owns, svg .leaf.owns { stroke: var(--good); stroke-width: 2.5; }
svg .node.owns-dead, svg .leaf.owns-dead { stroke: var(--bad); stroke-width: 2.5; }
svg .node.climbs, svg .leaf.climbs { stroke: var(--warn); stroke-width: 2.5; }
svg .leaf { fill: var(--card); stroke: var(--line); stroke-width: 1.5; }
#rates { width: 100%; height: 140px; display: block; background: var(--card); border-radius: 6px; }
.ends { display: flex; justify-content: space-between; font-size: .9rem; }
#rates polyline { fill: none; stroke: var(--mark); stroke-width: 2; vector-effect: non-scaling-stroke; }
.hide { display: none; }
input { font: inherit; color: inherit; background: var(--back); border: 1px solid var(--line);
  border-radius: 4px; padding: 4px 8px; }
#space button { border: 1px solid var(--line); border-radius: 4px; padding: 4px 12px; }
#space button::before { content: none; }
@media (max-width: 640px) {
  body { padding: 10px; }
  thead { position: absolute; width: 1px; height: 1px; overflow: hidden; clip-path: inset(50%); }
  table, tbody, tr, td { display: block; }
  tr { border-bottom: 1px solid var(--line); padding: 6px 0; }
  td, td.number { border: 0; padding: 2px 0 2px 108px; text-align: left; min-height: 1.6em; position: relative; }
  td::before { content: attr(data-label); position: absolute; left: 0; width: 100px; color: var(--quiet);
    font-size: .9rem; font-weight: 400; }
  tr.detail td { padding-left: 0; }
}
"##;

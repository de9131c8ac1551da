//! The texts of the page that never change, and what a browser may do with it.

/// What the page may load and run: its own style and script, named by their SHA-256 digests, and
/// requests to the server that it came from.
pub(crate) const PAGE_POLICY: &str =
    "default-src 'none'; style-src 'sha256-9YCPIxecZqba8sI97pze5fL8tjDw0hg0eVZjnVSRvwM='; script-src 'sha256-G6pnN0R76MMIK8M5ir2TuTsempxetSORZVwqocnCxC0='; connect-src 'self'; base-uri 'none'; form-action 'none'; frame-ancestors 'none'";

/// The page up to the names that are left out.
pub(crate) const PAGE_START: &str = "<!DOCTYPE html>
<html lang=\"en\">
<head>
<meta charset=\"utf-8\">
<meta name=\"viewport\" content=\"width=device-width, initial-scale=1\">
<title>bwingest</title>
<noscript><meta http-equiv=\"refresh\" content=\"5\"></noscript>
<style>
:root { color-scheme: light dark; --line: #8883; --soft: #8881; --good: #0a7d3c; --bad: #c22f2f; --busy: #9a5b00; }
@media (prefers-color-scheme: dark) { :root { --good: #4cc38a; --bad: #ff7b72; --busy: #e3a008; } body { background: #111417; color: #e6e8ea; } }
body { font: 15px/1.45 system-ui, sans-serif; margin: 1.5rem auto; max-width: 84rem; padding: 0 1rem; }
h1 { font-size: 1.25rem; margin: 0 0 1rem; }
.lost h1::after { color: var(--bad); content: \" gives no answer\"; font-weight: 400; }
#left_out { color: var(--bad); list-style: none; margin: 0 0 1rem; overflow-wrap: anywhere; padding: 0; }
dl { display: grid; gap: .5rem; grid-template-columns: repeat(auto-fill, minmax(8.5rem, 1fr)); margin: 0 0 1.25rem; }
dl div { background: var(--soft); border-radius: .4rem; display: flex; flex-direction: column-reverse; padding: .4rem .7rem; }
dt, th, td::before { font-size: .8rem; font-weight: 400; opacity: .7; }
dd { font-size: 1.15rem; margin: 0; overflow-wrap: anywhere; }
dd, td { font-variant-numeric: tabular-nums; }
#counts dd { font-size: 1rem; }
.none { opacity: .65; }
.none::before, .bad::before { opacity: 1; }
.good { color: var(--good); }
.bad { color: var(--bad); }
.busy { color: var(--busy); }
#tools { align-items: baseline; display: flex; gap: 1rem; margin: 0 0 .5rem; }
#tools[hidden] { display: none; }
input, th button { background: none; border: 1px solid var(--line); border-radius: .4rem; color: inherit; font: inherit; padding: .2rem .5rem; }
input { border-color: #808080; }
input::placeholder { color: inherit; opacity: .7; }
th button { border: 0; cursor: pointer; padding: 0; }
th button::after { content: \"\\00a0\\00a0\"; }
th[aria-sort=ascending] button::after { content: \"\\00a0\\2191\"; }
th[aria-sort=descending] button::after { content: \"\\00a0\\2193\"; }
table { border-collapse: collapse; margin: 0 0 1.25rem; width: 100%; }
th, td { border-bottom: 1px solid var(--line); padding: .3rem .9rem .3rem 0; text-align: left; white-space: nowrap; }
td:first-child { font-weight: 600; overflow-wrap: anywhere; white-space: normal; }
th:nth-child(n + 4):nth-child(-n + 10), td:nth-child(n + 4):nth-child(-n + 10) { text-align: right; }
@media (max-width: 62rem) {
thead { display: none; }
table, tbody { display: block; }
tbody { display: grid; gap: .5rem; grid-template-columns: repeat(auto-fill, minmax(18rem, 1fr)); }
tr { background: var(--soft); border-radius: .4rem; display: grid; gap: 0 1rem; grid-template-columns: 1fr 1fr; padding: .5rem .7rem; }
td, td:nth-child(n + 4):nth-child(-n + 10) { border: 0; padding: 0; text-align: left; }
td:empty { display: none; }
td::before { content: attr(data-heading) \" \"; }
td:nth-child(-n + 2)::before { content: none; }
td:nth-child(3), td:last-child { grid-column: 1 / -1; }
}
</style>
</head>
<body>
<h1>bwingest</h1>
<ul id=\"left_out\">
";

/// From there to what is reported of the server.
pub(crate) const PAGE_FACTS: &str = "</ul>
<dl id=\"facts\">
";

/// From there to the rows of the takes.
pub(crate) const PAGE_TAKES: &str = "</dl>
<div id=\"tools\" role=\"search\" hidden><input id=\"filter\" type=\"search\" placeholder=\"Filter takes\" aria-label=\"Filter takes\"><output id=\"shown\" for=\"filter\"></output></div>
<table>
<thead><tr><th scope=\"col\">Take</th><th scope=\"col\">State</th><th scope=\"col\">Format</th><th scope=\"col\">Recorded</th><th scope=\"col\">Growth</th><th scope=\"col\">Quiet</th><th scope=\"col\">Next</th><th scope=\"col\">Held</th><th scope=\"col\">Refused</th><th scope=\"col\">Delayed</th><th scope=\"col\">Peer</th></tr></thead>
<tbody id=\"takes\">
";

/// From there to the counts.
pub(crate) const PAGE_COUNTS: &str = "</tbody>
</table>
<dl id=\"counts\">
";

/// From there to the end: the script, which renews each second what the page says.
pub(crate) const PAGE_END: &str = "</dl>
<script>
'use strict';
const headings = ['Take', 'State', 'Format', 'Recorded', 'Growth', 'Quiet', 'Next', 'Held', 'Refused', 'Delayed', 'Peer'];
const colors = { ready: 'good', open: 'good', unopened: 'busy', stood: 'busy' };
const order = ['open', 'unopened', 'stood', 'closed'];
const units = ['B', 'KB', 'MB', 'GB', 'TB', 'PB'];
const most = 500;
let before = { takes: [], uptime_ms: 0, bytes: 0 }, now = null;
let column = null, descending = false;
const at = (id) => document.getElementById(id);
const two = (n) => String(Math.floor(n) % 60).padStart(2, '0');
const clock = (ms) => ms === null ? '' : Math.floor(ms / 3600000) + ':' + two(ms / 60000) + ':' + two(ms / 1000);
const format = (take) => take.rate === null ? '' : take.rate + ' Hz, ' + take.bits + ' bit, ' + take.channels + ' ch';
const size = (bytes) => {
const unit = bytes < 1000 ? 0 : Math.min(Math.floor(Math.log10(bytes) / 3), units.length - 1);
return (bytes / 1000 ** unit).toFixed(unit ? 1 : 0) + ' ' + units[unit];
};
const passed = () => before.uptime_ms && now.uptime_ms > before.uptime_ms ? now.uptime_ms - before.uptime_ms : null;
const speed = () => passed() === null ? '' : size((now.bytes - before.bytes) * 1000 / passed()) + '/s';
const growth = (take, old) => !old || old.ms === null || take.ms === null || passed() === null || take.state === 'closed' ? null : (take.ms - old.ms) / passed();
const texts = (take) => [take.name, take.state, format(take), clock(take.ms), take.growth === null ? '' : take.growth.toFixed(2) + 'x', clock(take.quiet_ms), take.next, take.held, take.refused, take.delayed, take.peer ?? ''];
const keys = (take) => [take.name, order.indexOf(take.state), format(take), take.ms ?? -1, take.growth ?? -1, take.quiet_ms ?? Infinity, take.next, take.held, take.refused, take.delayed, take.peer ?? ''];
const element = (kind, content, color) => {
const made = document.createElement(kind);
made.append(...content);
if (color) { made.className = color; }
return made;
};
const colorOf = (place, text) => place === 1 ? colors[text] ?? 'none' : place > 6 && place < 10 ? (text === 0 ? 'none' : place === 7 ? '' : 'bad') : '';
const row = (take) => element('tr', texts(take).map((text, place) => {
const cell = element('td', text === '' ? [] : [String(text)], colorOf(place, text));
cell.dataset.heading = headings[place];
return cell;
}));
const fact = (name, value, color) => element('div', [element('dt', [name]), element('dd', [String(value)], color)]);
const compare = (one, other) => one < other ? -1 : one > other ? 1 : 0;
const byState = (one, other) => order.indexOf(one.state) - order.indexOf(other.state) || (one.state === 'closed' ? compare(one.quiet_ms ?? Infinity, other.quiet_ms ?? Infinity) : 0);
const byColumn = (one, other) => (descending ? -1 : 1) * compare(keys(one)[column], keys(other)[column]);
const matches = (take, words) => words.every((word) => texts(take).some((text) => String(text).toLowerCase().includes(word)));
const showTakes = () => {
const words = at('filter').value.toLowerCase().split(' ').filter(Boolean);
const found = now.takes.filter((take) => matches(take, words)).sort(column === null ? byState : byColumn);
at('takes').replaceChildren(...found.slice(0, most).map(row));
at('shown').value = Math.min(found.length, most) + ' of ' + now.takes.length;
};
const show = () => {
const old = new Map(before.takes.map((take) => [take.name, take]));
now.takes.forEach((take) => { take.growth = growth(take, old.get(take.name)); });
at('left_out').replaceChildren(...now.left_out.map((one) => element('li', [one.name + ': ' + one.cause + ', left out'])));
at('facts').replaceChildren(fact('Server', now.health, colors[now.health] ?? 'bad'), fact('Up', clock(now.uptime_ms)), fact('Connections', now.connections + ' of ' + now.places), fact('Ended', now.ended), fact('Resumed', now.resumed), fact('Bytes', size(now.bytes)), fact('Rate', speed()));
showTakes();
at('counts').replaceChildren(...[...now.messages, ...now.verdicts, ...now.notices].map((one) => fact(one.kind, one.count, one.count ? '' : 'none')));
};
const sortBy = (place) => {
if (column !== place) { column = place; descending = false; } else if (!descending) { descending = true; } else { column = null; }
document.querySelectorAll('th').forEach((heading, other) => { heading.ariaSort = other !== column ? 'none' : descending ? 'descending' : 'ascending'; });
if (now) { showTakes(); }
};
const begin = () => {
document.title = location.host + ' - bwingest';
document.querySelectorAll('th').forEach((heading, place) => {
const button = element('button', [headings[place]]);
button.type = 'button';
button.onclick = () => sortBy(place);
heading.replaceChildren(button);
heading.ariaSort = 'none';
});
at('filter').oninput = () => { if (now) { showTakes(); } };
at('tools').hidden = false;
};
const renew = async () => {
try {
const response = await fetch('/takes.json');
const next = await response.json();
if (now) { before = now; }
now = next;
show();
document.body.className = '';
} catch {
document.body.className = 'lost';
}
setTimeout(renew, 1000);
};
begin();
renew();
</script>
</body>
</html>
";

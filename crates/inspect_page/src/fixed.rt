// What each page has, whatever its story is: its style above the picture, and its script below the table.
ghost use Rattle.std.specs.Prelude.{◌≡◌};
ghost use Rattle.inspect_page.specs.Page.{foot, head};

/// What stands above the picture. The page may load nothing.
pub(crate) const HEAD: &str = "<!doctype html>
<html lang='en'>
<meta charset='utf-8'>
<meta http-equiv='Content-Security-Policy'
content=\"default-src 'none'; style-src 'unsafe-inline'; script-src 'unsafe-inline'\">
<title>The story of a run</title>
<style>
body { font: 14px sans-serif; margin: 1em }
svg { display: block; max-width: 100%; height: auto; cursor: pointer }
svg.choice .mark { opacity: .25 }
svg.choice .mark.chosen { opacity: 1 }
svg .life { fill: none; stroke: #000; stroke-width: 25; pointer-events: none }
#told { position: sticky; bottom: 0; margin: 0; padding: 4px; min-height: 1.3em; background: #fff }
table { border-collapse: collapse; margin: 1em 0 }
caption { text-align: left }
th, td { padding: 2px 12px; text-align: right }
tbody tr { cursor: pointer }
tbody tr.chosen { background: #ffec99 }
</style>
<p>What is under the pointer is told at the bottom of the window. A click on a mark of a query, or on its row of the
table, makes its scan stand out; a second click ends that.</p>
";

/// What stands below the table: the line that tells what is under the pointer, and the script.
pub(crate) const FOOT: &str = r"<p id='told'></p>
<script>
'use strict';
const svg = document.querySelector('svg'), table = document.querySelector('table');
const told = document.querySelector('#told');
const entries = +table.dataset.entries, first = Math.min(+table.dataset.from, entries);
const behind = Math.max(first, Math.min(+table.dataset.to, entries)) + 1;

// Marks whose title tells of one query have it; what was drawn as one may be of several.
const titleOf = mark => (mark.querySelector('title') || { textContent: '' }).textContent;
const queryIn = title => /^\d+ marks/.test(title) ? '' : (/query (\d+)/.exec(title) || ['', ''])[1];
const marks = [...svg.querySelectorAll('rect')].filter(rect => +rect.getAttribute('y') >= 1700);
marks.forEach(mark => mark.classList.add('mark'));

// The rows of the table, and the lanes of workers in the picture, of which each may be of several workers.
const scans = [...table.tBodies[0].rows].map(row => {
  const cells = [...row.cells].map(cell => cell.textContent.trim());
  return { row, query: cells[0], worker: +cells[1], from: +cells[5], to: +(cells[6] || entries + 1) };
});
const lanes = [...svg.querySelectorAll('g')].filter(g => g.textContent.startsWith('worker ')).map(g => ({
  worker: +g.textContent.slice(7), y: +/ (\d+)\)/.exec(g.getAttribute('transform'))[1]
}));
const laneOf = worker => lanes.filter(lane => lane.worker <= worker).pop();
const xOf = entry => 1000 + Math.floor(7700 * (Math.min(Math.max(entry, first), behind) - first) / (behind - first));

// The number of the entry at a place of the picture, and the scan whose lane and time it is.
const placeOf = event => {
  const at = new DOMPoint(event.clientX, event.clientY).matrixTransform(svg.getScreenCTM().inverse());
  const entry = Math.floor(first + (at.x - 1000) * (behind - first) / 7700);
  const lane = lanes.find(lane => lane.y <= at.y && at.y < lane.y + 400);
  const scan = scans.find(scan => laneOf(scan.worker) === lane && scan.from <= entry && entry < scan.to);
  return { inside: at.x >= 1000 && at.x < 8700 && at.y >= 1700, entry, scan };
};
svg.onpointermove = event => {
  const place = placeOf(event), title = titleOf(event.target);
  const scan = place.scan ? `query ${place.scan.query} on worker ${place.scan.worker}` : '';
  const texts = [title || scan, `here is entry ${place.entry}`].filter(text => text);
  told.textContent = place.inside ? texts.join('; ') : '';
};

// The time of a scan in the lane of its worker. What lies in it where chunks are held is the scan's, also what was
// drawn as one, but where workers share the lane.
const boxOf = scan => {
  const lane = laneOf(scan.worker), x = xOf(scan.from);
  const shared = scans.some(other => other.worker !== scan.worker && laneOf(other.worker) === lane);
  return { x, y: lane.y, width: xOf(scan.to) - x, height: 370, shared };
};
const number = (mark, name) => +mark.getAttribute(name);
const isIn = (box, mark) => !box.shared && number(mark, 'y') === box.y + 230 && number(mark, 'x') >= box.x
  && number(mark, 'x') + number(mark, 'width') <= box.x + box.width + 40;

// The scan that stands out: its marks, its row, and a frame round its time.
const life = document.createElementNS(svg.namespaceURI, 'rect');
life.setAttribute('class', 'life');
let chosen = '';
const choose = query => {
  chosen = query === chosen ? '' : query;
  svg.classList.toggle('choice', chosen !== '');
  scans.forEach(scan => scan.row.classList.toggle('chosen', scan.query === chosen));
  const scan = scans.find(scan => scan.query === chosen && scan.from < behind && scan.to >= first);
  const box = scan && boxOf(scan);
  marks.forEach(mark => mark.classList.toggle('chosen',
    chosen !== '' && (queryIn(titleOf(mark)) === chosen || box !== undefined && isIn(box, mark))));
  life.remove();
  if (box) {
    for (const name of ['x', 'y', 'width', 'height']) life.setAttribute(name, box[name]);
    svg.append(life);
  }
};
svg.onclick = event => {
  const place = placeOf(event), scan = place.inside && place.scan;
  const query = queryIn(titleOf(event.target)) || (scan ? scan.query : '');
  if (query) choose(query);
};
scans.forEach(scan => { scan.row.onclick = () => choose(scan.query); });
onhashchange = () => choose(location.hash.slice(1));
if (location.hash) choose(location.hash.slice(1));
</script>
";

// The same as functions, so that no proof looks into the texts.
#[tactic(auto, unfolding(crate::specs::Page::head))]
pub(crate) fn head() -> &'static str
    ensures { result.now ≡ head }
{
    HEAD
}

#[tactic(auto, unfolding(crate::specs::Page::foot))]
pub(crate) fn foot() -> &'static str
    ensures { result.now ≡ foot }
{
    FOOT
}

// What a page with a picture has beside it.
use crate::smallest_picture::SMALLEST_PICTURE;
use inspect_page::{Scan, ScanEnd, page_of, scans_of};
use inspect_picture::{TraceRefusal, View, story_of_output};
use scan_story::{Bytes, Entry};
use std::alloc::Global;
use std::process::Abort;

// One query over one chunk, alone.
const SMALLEST: &str = "register 0 1
plan 0 1 0
fill 0 0 0
filled 0 0 0
deliver 0 1 0
release 0 1 0
end 0 1
";

// Three queries: one is over, with a chunk that was loaded for another one; one is stopped by a load that fails, and
// one is open.
const THREE: &str = "register 0 1
register 1 3
plan 0 3 0
fill 0 0 0
filled 0 0 0
deliver 0 1 0
deliver 1 3 0
release 0 1 0
end 0 1
register 0 2
plan 1 3 1
fill 1 1 1
failed 1 3 1 damage 7
stop 1 3
plan 0 2 1
";

const ROWS: [Scan; 3] = [
    Scan {
        worker: 0,
        query: 1,
        loads: 0,
        deliveries: 1,
        failures: 0,
        first: 1,
        end: ScanEnd::Over { entry: 9 },
    },
    Scan {
        worker: 1,
        query: 3,
        loads: 2,
        deliveries: 1,
        failures: 1,
        first: 2,
        end: ScanEnd::Stopped { entry: 14 },
    },
    Scan {
        worker: 0,
        query: 2,
        loads: 1,
        deliveries: 0,
        failures: 0,
        first: 10,
        end: ScanEnd::Open,
    },
];

fn read(rt: &impl Abort, alloc: Global, text: &str) -> Result<Vec<Entry>, TraceRefusal> {
    assert!(rt; text.len() <= 1 << 20);
    story_of_output(alloc, text.as_bytes())
}

#[test]
fn scans_are_told_by_their_rows(rt: HostRuntime) {
    let entries = read(&rt, rt.alloc(), THREE).expect(&rt, "a story");
    assert!(rt; entries.len() == 15);
    let scans = scans_of(rt.alloc(), &entries).expect(&rt, "memory");
    assert!(rt; scans.as_slice() == ROWS.as_slice());
}

// What stands in pages: a story, a view of it, and pieces that stand in the page in this order.
const PIECES: &[(&str, View, &[&str])] = &[
    (
        SMALLEST,
        View::WHOLE,
        &[
            "<!doctype html>\n",
            "default-src 'none'",
            SMALLEST_PICTURE,
            "<table data-entries='7' data-from='0' data-to='4294967295'>\n<caption>1 of 1 scans</caption>\n",
            "<tr><td>1<td>0<td>1<td>1<td>0<td>1<td>7<td>over\n</table>\n<p id='told'></p>\n<script>\n",
            "</script>\n",
        ],
    ),
    (
        THREE,
        View { from: 3, to: 9 },
        &[
            "Entries 3 to 9 are shown. ",
            "</svg>\n<table data-entries='15' data-from='3' data-to='9'>\n<caption>3 of 3 scans</caption>\n",
            "<tr><td>1<td>0<td>0<td>1<td>0<td>1<td>9<td>over\n<tr><td>3<td>1<td>2<td>1<td>1<td>2<td>14<td>stopped\n",
            "<tr><td>2<td>0<td>1<td>0<td>0<td>10<td><td>open\n</table>\n",
        ],
    ),
];

fn page(rt: &impl Abort, alloc: Global, text: &str, view: View) -> Option<Bytes> {
    let entries = read(rt, alloc, text).ok()?;
    assert!(rt; entries.len() <= 1 << 20);
    page_of(alloc, &entries, 1, view).ok()
}

#[test]
fn a_page_has_its_picture_and_its_rows(rt: HostRuntime) {
    for (story, view, pieces) in PIECES {
        let page = page(&rt, rt.alloc(), *story, *view).expect(&rt, "a page");
        let mut rest = str::from_utf8(page.as_slice()).expect(&rt, "UTF-8");
        for piece in *pieces {
            let behind = rest.split_once(*piece);
            assert!(rt; behind.is_some(), "{piece}");
            rest = behind.map_or("", |parts| parts.1);
        }
    }
}

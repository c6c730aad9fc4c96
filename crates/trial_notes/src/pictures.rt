// The whole picture of the smallest story, what other stories show, and where a story begins in what a run prints.
use crate::smallest_picture::SMALLEST_PICTURE;
use inspect_picture::{
    Bar, Ended, Mark, TraceRefusal, View, bars_of, draw, draw_part, groups_of, marks_of,
    story_of_output,
};
use scan_story::Entry;
use std::alloc::Global;
use std::process::Abort;

// One query over one chunk, alone.
const SMALLEST: &str = "register 0 1
plan 0 1 0
fill 0 0 0
filled 0 0 0
deliver 0 1 0
release 0 1 0
end 0 1
";

// Two queries over a table of two columns; a chunk is evicted, a frame filled anew, and a load fails.
const LONGER: &str = "query 1
3
register 0 1
register 1 2
plan 0 1 0
fill 0 0 0
fill 0 1 1
filled 0 0 0
filled 0 1 1
deliver 1 2 0
evict 0 0
plan 0 1 1
fill 0 0 2
filled 0 0 2
fill 0 0 3
failed 0 1 3 fault 0 1
";

fn read(rt: &impl Abort, alloc: Global, text: &str) -> Result<Vec<Entry>, TraceRefusal> {
    assert!(rt; text.len() <= 1 << 20);
    story_of_output(alloc, text.as_bytes())
}

#[test]
fn the_smallest_story_is_drawn(rt: HostRuntime) {
    let entries = read(&rt, rt.alloc(), SMALLEST).expect(&rt, "a story");
    assert!(rt; entries.len() == 7);
    let svg = draw(rt.alloc(), &entries, 1).expect(&rt, "memory");
    assert!(rt; svg.as_slice() == SMALLEST_PICTURE.as_bytes());
}

const fn stay(frame: u32, piece: u32, first: u32, last: u32, ended: Ended) -> Bar {
    Bar {
        frame,
        piece,
        first,
        last,
        ended,
    }
}

#[test]
fn each_stay_has_a_bar(rt: HostRuntime) {
    let entries = read(&rt, rt.alloc(), LONGER).expect(&rt, "a story");
    assert!(rt; entries.len() == 14);
    let groups = groups_of(&entries).expect(&rt, "pieces");
    let bars = bars_of(rt.alloc(), &entries, groups).expect(&rt, "memory");
    let want = [
        stay(0, 0, 6, 9, Ended::Evicted),
        stay(1, 1, 7, 9, Ended::Evicted),
        stay(0, 2, 12, 13, Ended::Refilled),
    ];
    assert!(rt; groups == 2 && bars.as_slice() == want.as_slice());
    let marks = marks_of(rt.alloc(), &entries, groups).expect(&rt, "memory");
    assert!(rt;
        marks.len() == 14
            && marks[13]
                == Mark::Fault {
                    query: 1,
                    piece: 3,
                    entry: 14
                }
    );
}

// What is in the picture of entries 10 and 11 of the longer story: its marks, of which three were open before.
const IN_WINDOW: &[&str] = &[
    "Entries 10 to 11 are shown. ",
    "<rect x='1000' y='1700' width='7700' height='370' fill='#e2e5ea'><title>query 1 on worker 0, entries 1 to 15</title>",
    "<title>query 2 on worker 1, entries 2 to 15</title>",
    "<title>chunk 0 for query 2, entries 8 to 15</title>",
    "<title>load of chunk 1 for query 1, entry 10</title>",
    "<rect x='4850' y='2870' width='3850' height='40' fill='#4a5468'><title>piece 2 is read into frame 0, entries 11 to 12</title>",
];

#[test]
fn a_window_has_the_marks_that_touch_it(rt: HostRuntime) {
    let entries = read(&rt, rt.alloc(), LONGER).expect(&rt, "a story");
    assert!(rt; entries.len() == 14);
    let svg = draw_part(rt.alloc(), &entries, 2, View { from: 10, to: 11 }).expect(&rt, "memory");
    let text = str::from_utf8(svg.as_slice()).expect(&rt, "UTF-8");
    for piece in IN_WINDOW {
        assert!(rt; text.contains(*piece), "{piece}");
    }
    assert!(rt; text.split("<title>").count() == IN_WINDOW.len());
}

// A text, and the line that is refused, or 0 where there is no trace.
const REFUSED: &[(&str, u64)] = &[
    ("query 1\n3\n", 0),
    ("query 1\n'a\nregister 0 1\nb'\n", 0),
    ("query 1\n'a\nregister 0 1\nb'\nregister 0 1\nplan 0 1\n", 6),
    ("query 1\n3\nregister 0 1\nplan 0 1\n", 4),
    ("register 0 1\nend 0 1", 2),
    (" register 0 1\nregister 0 01\n", 2),
];

#[test]
fn what_is_no_story_is_refused(rt: HostRuntime) {
    for (text, line) in REFUSED {
        let refusal = match *line {
            0 => TraceRefusal::NoTrace,
            line => TraceRefusal::BadLine { line },
        };
        assert!(rt; read(&rt, rt.alloc(), *text) == Err(refusal), "{text}");
    }
}

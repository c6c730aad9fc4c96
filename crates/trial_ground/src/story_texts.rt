// The text of a story: written, read back, and refused at its first bad line.
use scan_story::{Entry, Story, Why, capacity};
use std::alloc::Global;
use std::process::Abort;
use story_text::{StoryRefusal, read_story, write_story};

// One query over three chunks of a table, alone on one worker with four frames.
const ONE_COUNT: &str = "register 0 1
plan 0 1 0
fill 0 0 0
filled 0 0 0
deliver 0 1 0
release 0 1 0
plan 0 1 1
fill 0 1 1
filled 0 1 1
deliver 0 1 1
release 0 1 1
plan 0 1 2
fill 0 2 2
filled 0 2 2
deliver 0 1 2
release 0 1 2
end 0 1
";

// The longest text that is read.
const MOST_BYTES: usize = 1 << 30;

fn read(rt: &impl Abort, alloc: Global, text: &str) -> Result<Vec<Entry>, StoryRefusal> {
    assert!(rt; text.len() <= MOST_BYTES);
    read_story(alloc, text.as_bytes())
}

// Whether the text is read as these entries.
fn is_read(rt: &impl Abort, alloc: Global, text: &str, entries: &[Entry]) -> bool {
    match read(rt, alloc, text) {
        Ok(read) => read.as_slice() == entries,
        Err(_) => false,
    }
}

// Whether the entries are written as this text.
fn is_written(alloc: Global, entries: &[Entry], text: &str) -> bool {
    match write_story(alloc, entries) {
        Ok(written) => written.as_slice() == text.as_bytes(),
        Err(_) => false,
    }
}

// How many bytes the text of the entries has, once it is taken apart.
fn size_written(alloc: Global, entries: &[Entry]) -> usize {
    match write_story(alloc, entries) {
        Ok(text) => text.into_vec().len(),
        Err(_) => 0,
    }
}

const PLANNED: Entry = Entry::Plan {
    worker: 0,
    query: 1,
    chunk: 0,
};

const RELEASED: Entry = Entry::Release {
    worker: 0,
    query: 1,
    chunk: 2,
};

#[test]
fn a_trace_is_read_back(rt: HostRuntime) {
    let entries = read(&rt, rt.alloc(), ONE_COUNT).expect(&rt, "a story");
    assert!(rt; entries.len() == 17 && entries[1] == PLANNED && entries[15] == RELEASED);
    assert!(rt; is_written(rt.alloc(), entries.as_slice(), ONE_COUNT));
    assert!(rt; size_written(rt.alloc(), entries.as_slice()) == 210);
}

// An entry of each kind, and its line.
type Line<'a> = (Entry, &'a str);

const LINES: &[Line<'static>] = &[
    (
        Entry::Register {
            worker: 3,
            query: 7,
        },
        "register 3 7\n",
    ),
    (
        Entry::Plan {
            worker: 3,
            query: 7,
            chunk: 12,
        },
        "plan 3 7 12\n",
    ),
    (
        Entry::Evict {
            worker: 3,
            chunk: 12,
        },
        "evict 3 12\n",
    ),
    (
        Entry::Fill {
            worker: 3,
            frame: 5,
            piece: 40,
        },
        "fill 3 5 40\n",
    ),
    (
        Entry::Filled {
            worker: 3,
            frame: 5,
            piece: 40,
        },
        "filled 3 5 40\n",
    ),
    (
        Entry::Failed {
            worker: 3,
            query: 7,
            piece: 40,
            why: Why::Fault {
                before: 0,
                after: 18446744073709551615,
            },
        },
        "failed 3 7 40 fault 0 18446744073709551615\n",
    ),
    (
        Entry::Failed {
            worker: 3,
            query: 7,
            piece: 40,
            why: Why::Damage { word: 4294967295 },
        },
        "failed 3 7 40 damage 4294967295\n",
    ),
    (
        Entry::Deliver {
            worker: 3,
            query: 7,
            chunk: 12,
        },
        "deliver 3 7 12\n",
    ),
    (
        Entry::Release {
            worker: 3,
            query: 7,
            chunk: 12,
        },
        "release 3 7 12\n",
    ),
    (
        Entry::Stop {
            worker: 3,
            query: 7,
        },
        "stop 3 7\n",
    ),
    (
        Entry::End {
            worker: 3,
            query: 7,
        },
        "end 3 7\n",
    ),
];

fn expect_lines(rt: &impl Abort, alloc: Global, rows: &[Line<'_>]) {
    for (entry, line) in rows {
        assert!(rt; is_written(alloc, &[*entry], line), "{line}");
        assert!(rt; is_read(rt, alloc, line, &[*entry]), "{line}");
    }
}

#[test]
fn each_kind_has_its_line(rt: HostRuntime) {
    expect_lines(&rt, rt.alloc(), LINES);
}

// A text, and the first of its lines, from 1, that is none of a story.
type Bad<'a> = (&'a str, u32);

const BAD: &[Bad<'static>] = &[
    ("register 0 1", 1),
    ("\n", 1),
    ("register 0 1\nend 0 1", 2),
    ("register 0 1\n\nend 0 1\n", 2),
    ("register 0 1\nregister 0\nregister\n", 2),
    ("register 0 1 2\n", 1),
    ("register  0 1\n", 1),
    (" register 0 1\n", 1),
    ("register 0 1 \n", 1),
    ("register 0 1\r\n", 1),
    ("Register 0 1\n", 1),
    ("register 00 1\n", 1),
    ("register 0 +1\n", 1),
    ("register 0 4294967295\nregister 0 4294967296\n", 2),
    ("register 0 18446744073709551617\n", 1),
    ("register a 1\n", 1),
    ("filled 0 0\n", 1),
    ("failed 0 1 2 fault 3\n", 1),
    ("failed 0 1 2 fault 3 18446744073709551616\n", 1),
    ("failed 0 1 2 damage 4 5\n", 1),
    ("failed 0 1 2 lost 4\n", 1),
];

// The line at which a text is refused, if it is.
fn bad_line(rt: &impl Abort, alloc: Global, text: &str) -> Option<u32> {
    match read(rt, alloc, text) {
        Err(StoryRefusal::BadLine { line }) => Some(line),
        _ => None,
    }
}

fn expect_bad(rt: &impl Abort, alloc: Global, rows: &[Bad<'_>]) {
    for (text, line) in rows {
        assert!(rt; bad_line(rt, alloc, text) == Some(*line), "{text}");
    }
}

#[test]
fn the_first_bad_line_is_named(rt: HostRuntime) {
    expect_bad(&rt, rt.alloc(), BAD);
    assert!(rt; is_read(&rt, rt.alloc(), "", &[]));
}

const REGISTERED: Entry = Entry::Register {
    worker: 0,
    query: 1,
};

const ENDED: Entry = Entry::End {
    worker: 0,
    query: 1,
};

// A story of two entries, in room for two.
fn story_of_two(rt: &impl Abort, alloc: Global) -> Story {
    let mut story = Story::with_room(alloc, 2).expect(rt, "room");
    story.push(REGISTERED);
    story.push(ENDED);
    story
}

#[test]
fn a_story_grows_in_its_room(rt: HostRuntime) {
    let story = story_of_two(&rt, rt.alloc());
    assert!(rt; story.entries().len() == 2);
    let entries = story.into_entries();
    assert!(rt; entries.as_slice() == [REGISTERED, ENDED].as_slice());
    // one query of three chunks with one piece each: 3 + 6 + 6 * 4
    assert!(rt; capacity(3, 1, 1) == 33);
    assert!(rt; capacity(262144, 256, 16) == 9464064);
}

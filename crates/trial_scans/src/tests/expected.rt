// What is expected of a trial.
use crate::notes::Saw;
use crate::outcome::Outcome;
use scan_story::Entry;
use std::alloc::{AllocError, Global};
use std::process::Abort;
use std::test::Fail;
use story_text::write_story;
use table_core::Cell;

/// The parts of the story, what the scans answered, the rows that they read, and the depot's counts of gets and faults.
#[derive(Drop)]
pub struct Expected<'a> {
    pub name: &'a str,
    pub story: &'a [&'a str],
    pub saw: &'a [Saw],
    pub cells: &'a [Cell],
    pub gets: u64,
    pub faults: u64,
}

// Whether the parts of a story, one behind another, are the text of these entries.
fn is_story(alloc: Global, parts: &[&str], entries: &[Entry]) -> Result<bool, AllocError> {
    let mut story = String::new(alloc);
    for part in parts {
        story.push_str(part)?;
    }
    Ok(match write_story(alloc, entries) {
        Ok(text) => text.as_slice() == story.as_bytes(),
        Err(_) => false,
    })
}

/// The trial came to just that, and each cell that was read alone is the one in its row.
pub fn expect<R: Abort>(
    rt: &R,
    alloc: Global,
    out: &Option<Outcome>,
    expected: &Expected<'_>,
) -> Result<(), Fail> {
    let name = expected.name;
    let Some(out) = out else {
        panic!(rt; "setting and shape don't fit: {name}")
    };
    let notes = &out.notes;
    assert!(rt;
        is_story(alloc, expected.story, &out.story)?,
        "{name}: the story"
    );
    assert!(rt; notes.saw.as_slice() == expected.saw, "{name}: the answers");
    assert!(rt;
        notes.cells.as_slice() == expected.cells,
        "{name}: the rows"
    );
    assert!(rt; !notes.differs && !notes.lost, "{name}: the notes");
    let counts = (out.gets, out.faults);
    assert!(rt;
        counts == (expected.gets, expected.faults),
        "{name}: the counts"
    );
    Ok(())
}

/// It took a chunk.
pub fn took(worker: u32, chunk: u32, rows: u32) -> Saw {
    Saw::Took {
        worker,
        chunk,
        rows,
    }
}

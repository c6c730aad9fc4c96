ghost use Rattle.std.specs.Prelude.{◌≡◌, ◌+◌, ◌<◌, ◌≤◌, ◌^◌, ◌++◌, ◌∷◌, drop, length, IfOk, OnOk};
ghost use Rattle.inspect_picture.specs.Marks.{bars, bars_in, marks, mark_list};

use crate::ahead::Ahead;
use crate::bar::Bar;
use crate::mark::Mark;
use scan_story::{Entry, Memory};
use std::alloc::Global;

// Puts the mark at the end, where there is one.
fn put(marks: &mut Vec<Mark>, mark: Option<Mark>) -> Result<(), Memory>
    ensures { OnOk result (marks.new.items ≡ marks.old.items ++ mark_list mark) }
{
    let Some(mark) = mark else {
        return Ok(());
    };
    match marks.push(mark) {
        Ok(()) => Ok(()),
        Err(_) => Err(Memory),
    }
}

fn entry_at(entries: &[Entry], place: usize) -> Entry
    requires { place < length entries.now }
    ensures { drop place entries.now ≡ result ∷ drop (place + 1) entries.now }
{
    entries[place]
}

/// The marks of a story, in the order of its entries, where a chunk has `groups` pieces.
///
/// It takes time for each entry, however many frames there are.
pub fn marks_of(alloc: Global, entries: &[Entry], groups: u32) -> Result<Vec<Mark>, Memory>
    requires groups { 1 ≤ groups }
    requires size { length entries.now ≤ 2 ^ 30 }
    ensures { IfOk result (λ ms. ms.items ≡ marks groups entries.now) }
{
    let mut ahead = Ahead::new(alloc);
    let mut marks = Vec::new(alloc);
    let end = entries.len() as u32 + 1;
    let mut place = entries.len();
    while place > 0 {
        place -= 1;
        let number = place as u32 + 1;
        let entry = entry_at(entries, place);
        put(&mut marks, ahead.mark(groups, number, entry, end))?;
        ahead.note(number, entry)?;
    }
    marks.reverse();
    Ok(marks)
}

fn bars_in(alloc: Global, marks: &[Mark]) -> Result<Vec<Bar>, Memory>
    ensures { IfOk result (λ bs. bs.items ≡ bars_in marks.now) }
{
    let mut bars = Vec::new(alloc);
    for mark in marks {
        if let Mark::Stay(bar) = *mark {
            if bars.push(bar).is_err() {
                return Err(Memory);
            }
        }
    }
    Ok(bars)
}

/// The stays of pieces in frames, in the order of the entries by which they came, where a chunk has `groups` pieces.
pub fn bars_of(alloc: Global, entries: &[Entry], groups: u32) -> Result<Vec<Bar>, Memory>
    requires groups { 1 ≤ groups }
    requires size { length entries.now ≤ 2 ^ 30 }
    ensures { IfOk result (λ bs. bs.items ≡ bars groups entries.now) }
{
    let marks = marks_of(alloc, entries, groups)?;
    bars_in(alloc, &marks)
}

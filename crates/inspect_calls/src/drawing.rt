// The story in OUTPUT, drawn.
ghost use Rattle.std.specs.Prelude.{◌≡◌, ◌≤◌, ◌^◌, IfOk, length};
ghost use Rattle.inspect_calls.specs.Drawing.{IsDrawing, IsDrawn, IsDrawnAs, IsGroupsIn, IsNoEntry};
ghost use Rattle.inspect_calls.specs.Drawing.{IsPartDrawn, drawn_as};

use crate::lines::numbered;
use crate::output::read_output;
use crate::reply::Reply;
use crate::showing::{behind_of, past_end, view_of};
use coop_outside::Shelf;
use inspect_page::page_of;
use inspect_picture::{TraceRefusal, View, draw_part, groups_of, story_of_output};
use inspect_words::{Form, Window};
use scan_story::{Bytes, Entry, Memory};
use std::alloc::Global;

/// What is said to `draw`: the trace at the end of the file of this name, or some of its entries, drawn in this form;
/// or why it isn't.
pub(crate) fn drawing<F: Shelf>(
    alloc: Global,
    name: &str,
    window: Window,
    form: Form,
    shelf: &mut F,
) -> Reply
    ensures { IsDrawing form window (F.held shelf.old) name.now (F.faults shelf.old) (F.faults shelf.new) result }
{
    match read_output(alloc, name, shelf) {
        Ok(text) => drawn_from(alloc, text.as_slice(), window, form),
        Err(reply) => reply,
    }
}

// The trace at the end of a text, drawn.
fn drawn_from(alloc: Global, text: &[u8], window: Window, form: Form) -> Reply
    requires small { length text.now ≤ 2 ^ 28 }
    ensures { IsDrawn form window text.now result }
{
    match story_of_output(alloc, text) {
        Ok(entries) => story_drawn(alloc, &entries, window, form),
        Err(TraceRefusal::NoTrace) => {
            Reply::fault(alloc, 3, b"stopped 3: no trace in the output\n")
        }
        Err(TraceRefusal::BadLine { line }) => no_entry(alloc, line),
        Err(TraceRefusal::Memory) => Reply::memory(alloc),
    }
}

// The entries that are asked for, drawn; or the word that names one past the end.
fn story_drawn(alloc: Global, entries: &[Entry], window: Window, form: Form) -> Reply
    requires size { length entries.now ≤ 2 ^ 30 }
    ensures { IsDrawnAs form window entries.now result }
{
    let count = entries.len() as u32;
    match behind_of(window, count) {
        Some(behind) => past_end(alloc, behind, count),
        None => part_drawn(alloc, entries, view_of(window, count), form),
    }
}

// These entries, drawn.
fn part_drawn(alloc: Global, entries: &[Entry], view: View, form: Form) -> Reply
    requires size { length entries.now ≤ 2 ^ 30 }
    ensures { IsPartDrawn form view entries.now result }
{
    match text_of(alloc, entries, groups_in(entries), view, form) {
        Ok(text) => Reply::answer(0, text.into_vec()),
        Err(_) => Reply::memory(alloc),
    }
}

// The text of what is drawn.
fn text_of(
    alloc: Global,
    entries: &[Entry],
    groups: u32,
    view: View,
    form: Form,
) -> Result<Bytes, Memory>
    requires groups { 1 ≤ groups }
    requires size { length entries.now ≤ 2 ^ 30 }
    ensures { IfOk result (λ text. text ≡ drawn_as form groups view entries.now) }
{
    match form {
        Form::Picture => draw_part(alloc, entries, groups, view),
        Form::Page => page_of(alloc, entries, groups, view),
    }
}

// How many pieces a chunk has: the least number that the story allows, or 1 where it allows none.
fn groups_in(entries: &[Entry]) -> u32
    ensures { IsGroupsIn entries.now result }
{
    match groups_of(entries) {
        Some(groups) => groups,
        None => 1,
    }
}

// What is said where a line of the file is no entry.
fn no_entry(alloc: Global, line: u64) -> Reply
    ensures { IsNoEntry line result }
{
    let text = numbered(
        alloc,
        b"stopped 3: line ",
        line,
        b" of the output is no entry\n",
    );
    match text {
        Ok(text) => Reply {
            text,
            status: 3,
            is_fault: true,
        },
        Err(_) => Reply::memory(alloc),
    }
}

// Which failed reads a run may tell.
ghost use Rattle.std.specs.Prelude.{◌≡◌, ◌<◌, ◌≤◌, ◌↔◌, IfNone, IfSome, IsTrue, true};
ghost use Rattle.piece_format.specs.Shape.{IsShape};
ghost use Rattle.scan_story.specs.Views.{past};
ghost use Rattle.inspect_verdict.specs.Words as spec;

use crate::unfit::Unfit;
use inspect_story::count_after;
use piece_format::{Shape, groups, piece_words};
use scan_story::{Entry, Why};
use table_core::chunk_count;

// Whether the piece is one of the table, and has a word of this number.
fn is_word(shape: &Shape, piece: u32, word: u32) -> bool
    requires { IsShape shape.now }
    ensures { IsTrue result ↔ spec.IsWord shape.now piece word }
{
    let pieces = chunk_count(shape.rows, shape.per) * groups(shape);
    if piece < pieces {
        return word < piece_words(shape, piece);
    }
    false
}

// Why a read of a scratch file may not fail so, behind faults of which the last one left this count.
fn against_scratch(shape: &Shape, last: u64, piece: u32, why: Why) -> Option<Unfit>
    requires { IsShape shape.now }
    ensures some { IfSome result (spec.IsFaultUnfit shape.now true last piece why) }
    ensures none { IfNone result (spec.MayFailSo shape.now true last piece why) }
{
    match why {
        Why::Fault { before, .. } if before < last => Some(Unfit::CountFell { last }),
        Why::Damage { word } if !is_word(shape, piece, word) => Some(Unfit::NoSuchWord),
        _ => None,
    }
}

// Why an entry may not stand behind faults of which the last one left this count.
fn against(shape: &Shape, scratch: bool, last: u64, entry: &Entry) -> Option<Unfit>
    requires { IsShape shape.now }
    ensures some { IfSome result (spec.IsEntryUnfit shape.now scratch last entry.now) }
    ensures none { IfNone result (spec.FaultFits shape.now scratch last entry.now) }
{
    match *entry {
        Entry::Failed { piece, why, .. } if scratch => against_scratch(shape, last, piece, why),
        Entry::Failed { .. } => Some(Unfit::InMemory),
        _ => None,
    }
}

/// The place of the first entry of a story that fails as no read of a run does which keeps its pieces so, and why. It
/// takes no memory.
pub(crate) fn first_fault(shape: &Shape, scratch: bool, story: &[Entry]) -> Option<(usize, Unfit)>
    requires { IsShape shape.now }
    ensures some { IfSome result (λ r. spec.IsFaultAt shape.now scratch story.now r.0 r.1) }
    ensures none { IfNone result (spec.FaultsFit shape.now scratch (past story.now)) }
{
    let mut last = 0;
    for place in 0..story.len() {
        let entry = &story[place];
        if let Some(why) = against(shape, scratch, last, entry) {
            return Some((place, why));
        }
        last = count_after(last, entry);
    }
    None
}

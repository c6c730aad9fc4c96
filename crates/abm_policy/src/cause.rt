//! Why a query was stopped.
ghost use Rattle.std.specs.Prelude.{◌≡◌, ◌∷◌};
ghost use Rattle.scan_story.specs.Views.{History, past};
ghost use Rattle.scan_story.specs.Causes.{cause_of, cause_by};

use scan_story::{Cause, Entry, Why};

fn cause_by(why: Why, piece: u32) -> Cause
    ensures { result ≡ cause_by why piece }
{
    match why {
        Why::Fault { before, after } => Cause::Read { before, after },
        Why::Damage { word } => Cause::Damage { piece, word },
    }
}

// The cause after one more entry: the first one stays.
fn cause_after(found: Option<Cause>, entry: &Entry, q: u32) -> Option<Cause>
    ensures { (h : History) → found ≡ cause_of h q → result ≡ cause_of (entry.now ∷ h) q }
{
    if let Some(cause) = found {
        return Some(cause);
    }
    match *entry {
        Entry::Stop { query, .. } if query == q => Some(Cause::Memory),
        Entry::Failed {
            query,
            piece,
            why,
            ..
        } if query == q => Some(cause_by(why, piece)),
        _ => None,
    }
}

/// What the first of the entries says that stops the query.
pub fn first_cause(entries: &[Entry], q: u32) -> Option<Cause>
    ensures { result ≡ cause_of (past entries.now) q }
{
    let mut found = None;
    for entry in entries {
        found = cause_after(found, entry, q);
    }
    found
}

// Why a story stopped a scan.
ghost use Rattle.std.specs.Prelude.{◌≡◌, ◌∷◌};
ghost use Rattle.scan_story.specs.Causes as spec;
ghost use Rattle.scan_story.specs.Views.{History, past};

use scan_story::{Cause, Entry, Why};

// The cause after one entry more.
fn next_cause(earlier: Option<Cause>, entry: &Entry, scan: u32) -> Option<Cause>
    ensures { (h : History) → earlier ≡ spec.cause_of h scan → result ≡ spec.cause_of (entry.now ∷ h) scan }
{
    if earlier.is_some() {
        return earlier;
    }
    match *entry {
        Entry::Stop { query, .. } if query == scan => Some(Cause::Memory),
        Entry::Failed {
            query,
            piece,
            why,
            ..
        } if query == scan => match why {
            Why::Fault { before, after } => Some(Cause::Read { before, after }),
            Why::Damage { word } => Some(Cause::Damage { piece, word }),
        },
        _ => None,
    }
}

/// Why a story, the oldest entry first, stopped the scan of this number, where it did. It takes no memory.
pub fn cause_of(story: &[Entry], scan: u32) -> Option<Cause>
    ensures cause { result ≡ spec.cause_of (past story.now) scan }
{
    let mut cause = None;
    for entry in story {
        cause = next_cause(cause, entry, scan);
    }
    cause
}

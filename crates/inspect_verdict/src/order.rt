// The order in which a worker registers its queries.
ghost use Rattle.std.specs.Prelude.{◌≡◌, ◌≢◌, ◌<◌, ◌++◌, ◌∷◌, [], IfNone, IfOk};
ghost use Rattle.std.specs.Prelude.{IfSome, List, None, Some, take, length, get_or, ℕ};
ghost use Rattle.scan_story.specs.declared.entry.Entry.TheVariants.{Register};
ghost use Rattle.scan_story.specs.Makers.{entries_by};
ghost use Rattle.batch_ends.specs.Registering.{registered};
ghost use Rattle.inspect_verdict.specs.Words as spec;

use scan_story::Entry;

/// Whether a worker registers its queries in their order.
#[derive(Clone, Copy, Debug, PartialEq, Eq)]
pub(crate) enum Turns {
    /// It does, and each of them.
    All,
    /// It does, and some are left.
    Some,
    /// The entry at this place, from 0, registers another query than the one that is due.
    Broken { place: usize, due: Option<u32> },
}

// The first of these queries, if any.
fn next_of(left: &[u32]) -> Option<u32>
    ensures { result ≡ spec.next_of left.now }
{
    match left {
        [] => None,
        [query, ..] => Some(*query),
    }
}

// What is left of a worker's queries behind a Register of it; `None` where it registers another than the next one.
fn behind_register(left: &[u32], query: u32) -> Option<&[u32]>
    ensures some { IfSome result (λ r. left.now ≡ query ∷ r.now) }
    ensures none { IfNone result (spec.next_of left.now ≢ Some query) }
{
    match left {
        [next, rest @ ..] if *next == query => Some(rest),
        _ => None,
    }
}

// What is left of a worker's queries behind an entry more; `None` where it registers another than the next one.
fn behind_entry<'a>(left: &'a [u32], entry: &Entry, worker: u32) -> Option<&'a [u32]>
    ensures some { IfSome result (λ r. left.now ≡ spec.registered_by worker entry.now ++ r.now) }
    ensures none { IfNone result (spec.RegistersOther worker left.now entry.now) }
{
    match *entry {
        Entry::Register { worker: w, query } if w == worker => behind_register(left, query),
        _ => Some(left),
    }
}

/// Whether a worker, in a story that has the oldest entry first, registers its queries in this order. It takes no
/// memory.
pub(crate) fn turns_of(story: &[Entry], worker: u32, due: &[u32]) -> Turns
    ensures { spec.AreTurns story.now worker due.now result }
{
    let mut left = due;
    for place in 0..story.len() {
        let Some(rest) = behind_entry(left, &story[place], worker) else {
            return Turns::Broken {
                place,
                due: next_of(left),
            };
        };
        left = rest;
    }
    if left.is_empty() {
        return Turns::All;
    }
    Turns::Some
}

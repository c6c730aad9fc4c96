// Whether a story fits the words of its run.
ghost use Rattle.std.specs.Prelude.{◌≡◌, IfOk};
ghost use Rattle.piece_format.specs.Shape.{IsShape};
ghost use Rattle.inspect_referee.specs.Terms.{setting_of};
ghost use Rattle.inspect_verdict.specs.Words as spec;

use crate::faults::first_fault;
use crate::order::Turns;
use crate::unfit::Unfit;
use crate::workers::{in_order, order_of};
use inspect_referee::Terms;
use piece_format::Shape;
use scan_story::Entry;
use std::alloc::Global;
use table_core::Memory;

/// What is said of a story beside the rules of all stories.
#[derive(Clone, Copy, Debug, PartialEq, Eq)]
pub(crate) enum Fitting {
    /// It fits the words, and each worker registered all of its queries.
    All,
    /// It fits the words so far, and some query is left to be registered.
    Some,
    /// The entry at this place, from 0, is the first that doesn't fit them, for this reason.
    Unfit { place: usize, why: Unfit },
}

// What is said where no read fails as it may not.
fn fitting_by(turns: Turns) -> Fitting
    ensures { result ≡ spec.fitting_by turns }
{
    match turns {
        Turns::All => Fitting::All,
        Turns::Some => Fitting::Some,
        Turns::Broken { place, due } => Fitting::Unfit {
            place,
            why: Unfit::OutOfOrder { due },
        },
    }
}

/// Whether a story fits the words of a run whose pieces have this shape and are kept in a scratch file or in memory, or
/// its first entry that doesn't. The error is out of memory.
pub(crate) fn fits_of(
    alloc: Global,
    terms: &Terms,
    shape: &Shape,
    scratch: bool,
    story: &[Entry],
) -> Result<Fitting, Memory>
    requires { IsShape shape.now }
    ensures { IfOk result (spec.IsFitting (setting_of terms.now) shape.now scratch story.now) }
{
    let turns = order_of(alloc, &terms.needs, terms.workers, story)?;
    if let Some((place, why)) = first_fault(shape, scratch, in_order(turns, story)) {
        return Ok(Fitting::Unfit { place, why });
    }
    Ok(fitting_by(turns))
}

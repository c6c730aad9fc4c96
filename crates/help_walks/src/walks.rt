ghost use Rattle.std.specs.Prelude.{◌≡◌, IfOk, IfSome};
ghost use Rattle.scan_story.specs.Views.{past};
ghost use Rattle.scan_story.specs.MayFollow.{Allowed};
ghost use Rattle.scan_story.specs.Legal.{Chosen, Legal};
ghost use Rattle.scan_story.specs.Loads.{underway};
ghost use Rattle.help_views.specs.Small.{IsSmall};

use crate::moves::{Draw, proposal, roll};
use help_judge::may_come;
use help_views::underway;
use rand_pcg::Pcg32;
use scan_story::{Entry, Load, Setting};
use std::alloc::{AllocError, Global};

/// The first of the proposals from what was drawn that may come; `None` where none of them may.
fn first_that_may(
    alloc: Global,
    s: &Setting,
    entries: &[Entry],
    load: &Option<Load>,
    drawn: &Draw,
) -> Result<Option<Entry>, AllocError>
    requires small { IsSmall s.now }
    requires load { load.now ≡ underway s.now (past entries.now) }
    ensures { IfOk result (λ o. IfSome o (λ e. Allowed s.now (past entries.now) e
        × Chosen s.now (past entries.now) e)) }
{
    for i in 0..128u32 {
        let Some(entry) = proposal(s, entries, load, drawn, i) else {
            return Ok(None);
        };
        let may = may_come(alloc, s, entries, &entry)?;
        if may {
            return Ok(Some(entry));
        }
    }
    Ok(None)
}

/// An entry that may come next, of one kind that is drawn; `None` where no entry of that kind may come.
fn next(
    alloc: Global,
    s: &Setting,
    entries: &[Entry],
    rng: &mut Pcg32,
) -> Result<Option<Entry>, AllocError>
    requires { IsSmall s.now }
    ensures { IfOk result (λ o. IfSome o (λ e. Allowed s.now (past entries.now) e
        × Chosen s.now (past entries.now) e)) }
{
    let drawn = roll(s, rng);
    let load = underway(alloc, s, entries)?;
    first_that_may(alloc, s, entries, &load, &drawn)
}

/// So many steps of a story. Each step adds one entry, or none where what was drawn may not come.
#[tactic(auto, using(crate::proofs::Growth::legal_next))]
fn go_on(
    alloc: Global,
    s: &Setting,
    rng: &mut Pcg32,
    steps: u32,
    story: &mut Vec<Entry>,
) -> Result<(), AllocError>
    requires small { IsSmall s.now }
    requires legal { Legal s.now (past story.old.items) }
    ensures { IfOk result (λ _. Legal s.now (past story.new.items)) }
{
    for step in 0..steps {
        let found = next(alloc, s, story.as_slice(), rng)?;
        if let Some(entry) = found {
            story.push(entry)?;
        }
    }
    Ok(())
}

/// A legal story of the setting, drawn from the seed in so many steps. Each step adds one entry, or none where what was
/// drawn may not come. The error is out of memory.
pub fn walk(alloc: Global, s: &Setting, seed: u64, steps: u32) -> Result<Vec<Entry>, AllocError>
    requires { IsSmall s.now }
    ensures { IfOk result (λ story. Legal s.now (past story.items)) }
{
    let mut rng = Pcg32::new(seed, 54);
    let mut story = Vec::new(alloc);
    go_on(alloc, s, &mut rng, steps, &mut story)?;
    Ok(story)
}

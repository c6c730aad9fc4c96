ghost use Rattle.std.specs.Prelude.{◌≡◌, ◌↔◌, IsTrue};
ghost use Rattle.scan_story.specs.Views.{past};
ghost use Rattle.scan_story.specs.Causes.{Licensed};
ghost use Rattle.help_judge.specs.Tests.{is_licensed};

use crate::may::is_rise;
use scan_story::{Entry, Why};

fn licensed(told: bool, from: u64, to: u64, entries: &[Entry]) -> bool
    ensures { result ≡ is_licensed told from to (past entries.now) }
{
    match entries {
        [] => from <= to,
        [rest @ .., last] => {
            match *last {
                Entry::Failed {
                    why: Why::Fault { before, after },
                    ..
                } => after <= to && is_rise(before, after) && licensed(told, from, before, rest),
                Entry::Failed {
                    why: Why::Damage { .. },
                    ..
                } => !told && licensed(told, from, to, rest),
                _ => licensed(told, from, to, rest),
            }
        }
    }
}

/// Whether each fault had a rise of its own between the two counts, and a depot that tells what it holds met no damage.
pub fn is_licensed(told: bool, from: u64, to: u64, entries: &[Entry]) -> bool
    ensures { IsTrue result ↔ Licensed told from to (past entries.now) }
{
    licensed(told, from, to, entries)
}

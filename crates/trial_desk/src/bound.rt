//! The Read bound, computed by the judge.
ghost use Rattle.std.specs.Prelude.{◌<◌, length};
ghost use Rattle.help_views.specs.Small.{IsSmall};

use help_stories::paid_by;
use help_views::underway;
use scan_story::{Entry, Setting};
use std::alloc::{AllocError, Global};

/// Whether the last entry ends a load.
fn ends_load(alloc: Global, s: &Setting, after: &[Entry]) -> Result<bool, AllocError>
    requires { IsSmall s.now }
{
    match after {
        [.., Entry::Filled { .. }] => Ok(underway(alloc, s, after)?.is_none()),
        _ => Ok(false),
    }
}

/// Whether after each entry the loads so far are paid for.
pub fn is_paid(alloc: Global, s: &Setting, story: &[Entry]) -> Result<bool, AllocError>
    requires { IsSmall s.now }
{
    let mut loads: u64 = 0;
    let mut deliveries: u64 = 0;
    for i in 0..story.len() {
        let after = &story[..=i];
        if matches!(story[i], Entry::Deliver { .. }) {
            deliveries = deliveries.saturating_add(1);
        }
        if ends_load(alloc, s, after)? {
            loads = loads.saturating_add(1);
        }
        if loads > paid_by(s, after, deliveries) {
            return Ok(false);
        }
    }
    Ok(true)
}

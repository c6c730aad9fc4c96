//! What pays for loads.
ghost use Rattle.help_views.specs.Small.{IsSmall};

use help_views::{available, is_active, is_stopped};
use scan_story::{Entry, Setting};

/// What pays for loads: the deliveries, two for each stopped query, and what is available to the active ones, counted
/// up to two for each.
pub fn paid_by(s: &Setting, entries: &[Entry], deliveries: u64) -> u64
    requires { IsSmall s.now }
{
    let mut sum = deliveries;
    for n in s.needs.iter() {
        if is_stopped(entries, n.query) {
            sum = sum.saturating_add(2);
        }
        if is_active(entries, n.query) {
            sum = sum.saturating_add(available(s, entries, n.query).min(2) as u64);
        }
    }
    sum
}

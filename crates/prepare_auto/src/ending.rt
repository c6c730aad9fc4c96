// What became of an export.
ghost use Rattle.std.specs.Prelude.{◌≡◌};
ghost use Rattle.prepare_auto.specs.Advised.{ending_of};

use crate::stop::{Stop, stop_of};
use prepare_rules::{Report, Tally};

/// What became of an export.
#[derive(Clone, Copy, Debug, PartialEq, Eq)]
pub struct Ending {
    /// What the rules did in the records that are written.
    pub tally: Tally,
    /// Why it isn't written to its end, if it isn't.
    pub stop: Option<Stop>,
}

impl Ending {
    /// As is told.
    pub(crate) fn of(report: Report) -> Ending
        ensures { result ≡ ending_of report }
    {
        Ending {
            tally: report.tally,
            stop: stop_of(report.refusal),
        }
    }
}

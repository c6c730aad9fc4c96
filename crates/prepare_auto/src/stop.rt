// Why an export isn't written to its end.
ghost use Rattle.std.specs.Prelude.{◌≡◌};
ghost use Rattle.prepare_auto.specs.Advised.{stop_of};

use prepare_rules::Refusal;

/// Why an export isn't written to its end.
#[derive(Clone, Copy, Debug, PartialEq, Eq)]
pub enum Stop {
    /// So many records seem to stand above the table, and it wasn't asked for that they are left out. Nothing is
    /// written.
    Titles {
        /// How many records they are.
        records: usize,
        /// The line on which the table begins, from 1.
        line: usize,
    },
    /// A record is refused; those before it are written.
    Record(Refusal),
}

/// A refusal as a stop.
pub(crate) fn stop_of(refusal: Option<Refusal>) -> Option<Stop>
    ensures { result ≡ stop_of refusal }
{
    match refusal {
        Some(refusal) => Some(Stop::Record(refusal)),
        None => None,
    }
}

// What breaks off a preparation.
ghost use Rattle.std.specs.Prelude.{◌≡◌};
ghost use Rattle.prepare_rules.specs.Records.{failure_of};
ghost use Rattle.prepare_rules.specs.declared.failure.Failure.TheVariants as failure;

use prepare_text::Fault;
use std::alloc::AllocError;
use thiserror::Error;

/// What breaks off a preparation, whatever the rules say. How much was written before is not known.
#[derive(Clone, Copy, Debug, PartialEq, Eq, Error)]
pub enum Failure {
    /// The input can't be read on.
    #[error("input read fault")]
    Input,
    /// The output takes no more.
    #[error("output write fault")]
    Output,
    /// There are more than 2^62 records, or 2^64 lines.
    #[error("too many records")]
    TooLong,
    /// Out of memory.
    #[error("memory")]
    Memory,
}

impl From<AllocError> for Failure {
    ghost from_gives = { λ _ e. e ≡ failure.Memory };

    fn from(_: AllocError) -> Self {
        Failure::Memory
    }
}

impl From<Fault> for Failure {
    ghost from_gives = { λ fault failure. failure ≡ failure_of fault };

    fn from(fault: Fault) -> Self {
        match fault {
            Fault::Input => Failure::Input,
            Fault::TooLong => Failure::TooLong,
            Fault::Memory => Failure::Memory,
        }
    }
}

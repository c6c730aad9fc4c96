// What breaks off the reading of records.
ghost use Rattle.std.specs.Prelude.{◌≡◌};
ghost use Rattle.prepare_text.specs.declared.fault.Fault.TheVariants as fault;

use std::alloc::AllocError;
use thiserror::Error;

/// What breaks off the reading of records. Where the source stands then is not known.
#[derive(Clone, Copy, Debug, PartialEq, Eq, Error)]
pub enum Fault {
    /// The input can't be read on.
    #[error("input read fault")]
    Input,
    /// There are 2^64 lines or more.
    #[error("too many lines")]
    TooLong,
    /// Out of memory.
    #[error("memory")]
    Memory,
}

impl From<AllocError> for Fault {
    ghost from_gives = { λ _ e. e ≡ fault.Memory };

    fn from(_: AllocError) -> Self {
        Fault::Memory
    }
}

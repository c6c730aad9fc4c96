// What breaks off a look.
ghost use Rattle.std.specs.Prelude.{◌≡◌};
ghost use Rattle.prepare_look.specs.declared.failure.Failure.TheVariants as failure;

use std::alloc::AllocError;
use thiserror::Error;

/// What breaks off a look at an export.
#[derive(Clone, Copy, Debug, PartialEq, Eq, Error)]
pub enum Failure {
    /// There are more than 2^62 records.
    #[error("too many records")]
    TooLong,
    /// Out of memory.
    #[error("memory")]
    Memory,
}

impl From<AllocError> for Failure {
    ghost from_gives = { λ _ e. e ≡ failure.Memory };

    fn from(_: AllocError) -> Self {
        Failure::Memory
    }
}

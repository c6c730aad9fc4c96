use std::alloc::AllocError;

/// Which options are known.
#[derive(Clone, Copy, PartialEq, Eq)]
pub enum Call {
    /// Those of a run with one policy that the caller picked.
    Run,
    /// Those and `--policy` and `--compare`, for a run with policies to choose from.
    RunBoxed,
}

/// Why the words gave nothing.
#[derive(Clone, Copy, PartialEq, Eq)]
pub enum Refused {
    /// They are not among the accepted words.
    Usage,
    /// Out of memory.
    Memory,
}

impl From<AllocError> for Refused {
    ghost use Rattle.std.specs.Prelude.{◌≡◌};
    ghost use Rattle.command_words.specs.declared.call.Refused.TheVariants.{Memory};

    ghost from_gives = { λ _ e. e ≡ Memory };

    fn from(_error: AllocError) -> Refused {
        Refused::Memory
    }
}

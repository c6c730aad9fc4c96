// Why a text is refused.

ghost use Rattle.std.specs.Prelude.{◌≡◌};

use std::alloc::{AllocError, AllocFailed};
use thiserror::Error;

/// Why a text is refused. No refusal leaves anything behind.
#[derive(Clone, Copy, Debug, PartialEq, Eq, Error)]
pub enum TextRefusal {
    /// The bytes have no list of tokens, or the tokens are no query.
    #[error("not a query")]
    Syntax,
    /// More than 256 tokens are `AND`, `OR`, `NOT` or `(`.
    #[error("too deeply nested")]
    TooNested,
    /// More than 32 items, key columns or orders, or a limit past 4096.
    #[error("too many items")]
    TooManyItems,
    /// Memory was refused. No clause says when.
    #[error("out of memory")]
    Memory,
}

// Both `From` are written by hand, since clauses name the error that they give.
impl From<AllocError> for TextRefusal {
    ghost use Rattle.sql_tokens.specs.declared.refusal.TextRefusal.TheVariants.{Memory};

    ghost from_gives = { λ _ e. e ≡ Memory };

    fn from(_: AllocError) -> Self {
        TextRefusal::Memory
    }
}

impl<T: Drop> From<AllocFailed<T>> for TextRefusal {
    ghost use Rattle.sql_tokens.specs.declared.refusal.TextRefusal.TheVariants.{Memory};

    ghost from_gives = { λ _ e. e ≡ Memory };

    fn from(_: AllocFailed<T>) -> Self {
        TextRefusal::Memory
    }
}

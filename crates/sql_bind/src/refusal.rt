// Why a query isn't bound.

ghost use Rattle.std.specs.Prelude.{◌≡◌, IfOk, Some};
ghost use Rattle.sql_bind.specs.Causes.{IsCause};
ghost use Rattle.sql_bind.specs.declared.refusal.BindRefusal.TheVariants as BindRefusal;

use std::alloc::{AllocError, AllocFailed, Global};
use table_core::{Bytes, Memory};

/// Why a query isn't bound to a table's columns.
///
/// The places of a query are its items from left to right, then its comparisons and tests for NULL, then its key
/// columns, then its orders.
#[derive(Debug, Drop)]
pub enum BindRefusal {
    /// The table isn't `t`. It has the name, since what is printed names it and `plan_of` doesn't hand the query on.
    UnknownTable { name: Bytes },
    /// The first place whose name no column has.
    UnknownColumn { name: Bytes },
    /// The first place that sums a column of texts, or compares one with a number, or a column of numbers with a text.
    WrongKind { name: Bytes },
    /// The first plain item whose column is no key column. It doesn't come for a query with a limit.
    NotGrouped { name: Bytes },
    /// Out of memory.
    Memory,
}

fn copy(alloc: Global, name: &[u8]) -> Result<Bytes, AllocError>
    ensures { IfOk result (λ bytes. bytes ≡ name.now) }
{
    Ok(Bytes::new(name.to_vec(alloc)?))
}

// Each refusal with a copy of the name; or out of memory for it.
impl BindRefusal {
    pub(crate) fn unknown_table(alloc: Global, name: &[u8]) -> BindRefusal
        ensures { IsCause result (Some (BindRefusal.UnknownTable name.now)) }
    {
        match copy(alloc, name) {
            Ok(name) => BindRefusal::UnknownTable { name },
            Err(_) => BindRefusal::Memory,
        }
    }

    pub(crate) fn unknown_column(alloc: Global, name: &[u8]) -> BindRefusal
        ensures { IsCause result (Some (BindRefusal.UnknownColumn name.now)) }
    {
        match copy(alloc, name) {
            Ok(name) => BindRefusal::UnknownColumn { name },
            Err(_) => BindRefusal::Memory,
        }
    }

    pub(crate) fn wrong_kind(alloc: Global, name: &[u8]) -> BindRefusal
        ensures { IsCause result (Some (BindRefusal.WrongKind name.now)) }
    {
        match copy(alloc, name) {
            Ok(name) => BindRefusal::WrongKind { name },
            Err(_) => BindRefusal::Memory,
        }
    }

    pub(crate) fn not_grouped(alloc: Global, name: &[u8]) -> BindRefusal
        ensures { IsCause result (Some (BindRefusal.NotGrouped name.now)) }
    {
        match copy(alloc, name) {
            Ok(name) => BindRefusal::NotGrouped { name },
            Err(_) => BindRefusal::Memory,
        }
    }
}

impl From<AllocError> for BindRefusal {
    ghost from_gives = { λ _ e. e ≡ BindRefusal.Memory };

    fn from(_: AllocError) -> Self {
        BindRefusal::Memory
    }
}

impl<T: Drop> From<AllocFailed<T>> for BindRefusal {
    ghost from_gives = { λ _ e. e ≡ BindRefusal.Memory };

    fn from(_: AllocFailed<T>) -> Self {
        BindRefusal::Memory
    }
}

impl From<Memory> for BindRefusal {
    ghost from_gives = { λ _ e. e ≡ BindRefusal.Memory };

    fn from(_: Memory) -> Self {
        BindRefusal::Memory
    }
}

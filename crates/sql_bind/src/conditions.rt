// Conditions of a query as conditions over cells.
ghost use Rattle.std.specs.Prelude.{◌≡◌, ◌≤◌, ℕ, List, All, IfOk, length};
ghost use Rattle.table_core.specs.Value.{places_of};
ghost use Rattle.table_core.specs.declared.schema.Column.{Column};
ghost use Rattle.sql_text.specs.Grammar.{Both, Compare, Either, Negated, Tree};
ghost use Rattle.sql_text.specs.Reading.{cond_seen, tree_of};
ghost use Rattle.sql_bind.specs.Bounds.{IsBound, IsCondOf, IsSound, IsSoundWhere};

use crate::bounds::bound_of;
use crate::names::column_of;
use filter_zones::Cond;
use sql_text::{Literal, QCond};
use std::alloc::{AllocError, AllocFailed, Global};
use table_core::{Bytes, Column, Dict, MOST_COLUMNS, MOST_PLACES, Memory, Op};

fn both(alloc: Global, a: Cond, b: Cond) -> Result<Cond, Memory>
    ensures { IfOk result (λ c. (columns : List Column) (dicts : List (List (List ℕ))) (t u : Tree) →
        IsCondOf columns dicts t a → IsCondOf columns dicts u b → IsCondOf columns dicts (Both t u) c) }
{
    Ok(Cond::And(Box::new(alloc, a)?, Box::new(alloc, b)?))
}

fn either(alloc: Global, a: Cond, b: Cond) -> Result<Cond, Memory>
    ensures { IfOk result (λ c. (columns : List Column) (dicts : List (List (List ℕ))) (t u : Tree) →
        IsCondOf columns dicts t a → IsCondOf columns dicts u b → IsCondOf columns dicts (Either t u) c) }
{
    Ok(Cond::Or(Box::new(alloc, a)?, Box::new(alloc, b)?))
}

fn opposite(alloc: Global, a: Cond) -> Result<Cond, Memory>
    ensures { IfOk result (λ c. (columns : List Column) (dicts : List (List (List ℕ))) (t : Tree) →
        IsCondOf columns dicts t a → IsCondOf columns dicts (Negated t) c) }
{
    Ok(Cond::Not(Box::new(alloc, a)?))
}

fn compare(columns: &[Column], dicts: &[Dict], name: &Bytes, op: Op, literal: &Literal) -> Cond
    requires few { length columns.now ≤ MOST_COLUMNS }
    requires places { All (λ c. places_of c.kind ≤ MOST_PLACES) columns.now }
    requires dicts { length dicts.now ≡ length columns.now }
    requires sound { IsSound columns.now (Compare name.now op literal.now) }
    ensures { IsCondOf columns.now dicts.now (Compare name.now op literal.now) result }
{
    let column = column_of(columns, name.as_slice());
    let place = column as usize;
    let value = bound_of(columns[place].kind, &dicts[place], literal);
    Cond::Compare { column, op, value }
}

/// The condition over cells that this one is.
pub fn bind_cond(
    alloc: Global,
    columns: &[Column],
    dicts: &[Dict],
    cond: &QCond,
) -> Result<Cond, Memory>
    requires few { length columns.now ≤ MOST_COLUMNS }
    requires places { All (λ c. places_of c.kind ≤ MOST_PLACES) columns.now }
    requires dicts { length dicts.now ≡ length columns.now }
    requires sound { IsSound columns.now (tree_of cond.now) }
    ensures { IfOk result (λ c. IsCondOf columns.now dicts.now (tree_of cond.now) c) }
{
    match cond {
        QCond::Compare { column, op, value } => Ok(compare(columns, dicts, column, *op, value)),
        QCond::IsNull { column, negated } => Ok(Cond::IsNull {
            column: column_of(columns, column.as_slice()),
            negated: *negated,
        }),
        QCond::And(a, b) => {
            let a = bind_cond(alloc, columns, dicts, a)?;
            let b = bind_cond(alloc, columns, dicts, b)?;
            both(alloc, a, b)
        }
        QCond::Or(a, b) => {
            let a = bind_cond(alloc, columns, dicts, a)?;
            let b = bind_cond(alloc, columns, dicts, b)?;
            either(alloc, a, b)
        }
        QCond::Not(a) => {
            let a = bind_cond(alloc, columns, dicts, a)?;
            opposite(alloc, a)
        }
    }
}

/// The condition of a query over cells, where it has one.
pub fn bind_where(
    alloc: Global,
    columns: &[Column],
    dicts: &[Dict],
    cond: &Option<QCond>,
) -> Result<Option<Cond>, Memory>
    requires few { length columns.now ≤ MOST_COLUMNS }
    requires places { All (λ c. places_of c.kind ≤ MOST_PLACES) columns.now }
    requires dicts { length dicts.now ≡ length columns.now }
    requires sound { IsSoundWhere columns.now (cond_seen cond.now) }
    ensures { IfOk result (λ bound. IsBound columns.now dicts.now (cond_seen cond.now) bound) }
{
    match cond {
        None => Ok(None),
        Some(cond) => Ok(Some(bind_cond(alloc, columns, dicts, cond)?)),
    }
}

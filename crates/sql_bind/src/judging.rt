// Whether a query is refused, and why.
ghost use Rattle.std.specs.Prelude.{◌≡◌, ◌≤◌, length, map, option_copied, option_map};
ghost use Rattle.sql_bind.specs.Places.{place_seen};
ghost use Rattle.query_meaning.specs.Meaning.{first_some};
ghost use Rattle.table_sets.specs.Sets.{has};
ghost use Rattle.sql_bind.specs.Refusals as spec;
ghost use Rattle.sql_bind.specs.Causes.{Judges};
ghost use Rattle.sql_bind.specs.declared.judging.Wrong.TheVariants as Wrong;
ghost use Rattle.sql_bind.specs.declared.refusal.BindRefusal.TheVariants as BindRefusal;

use crate::names::{column_of, kind_of};
use crate::places::{Place, Use};
use crate::refusal::BindRefusal;
use sql_text::QItem;
use std::alloc::Global;
use table_core::{Bytes, Column, Kind, MOST_COLUMNS};

fn is_unknown(columns: &[Column], place: &Place<'_>) -> bool
    ensures { result ≡ spec.is_unknown columns.now (place_seen place.now) }
{
    kind_of(columns, place.name).is_none()
}

fn misuses(kind: Kind, used: Use) -> bool
    ensures { result ≡ spec.misuses kind used }
{
    match kind {
        Kind::Text => matches!(used, Use::Sum | Use::Number),
        Kind::Int | Kind::Dec { .. } => matches!(used, Use::Text),
    }
}

fn is_misused(columns: &[Column], place: &Place<'_>) -> bool
    ensures { result ≡ spec.is_misused columns.now (place_seen place.now) }
{
    match kind_of(columns, place.name) {
        Some(kind) => misuses(kind, place.used),
        None => false,
    }
}

/// What may be wrong at a place.
#[derive(Clone, Copy)]
pub enum Wrong {
    /// No column has its name.
    Name,
    /// Its column's kind doesn't allow its use.
    Kind,
}

fn is_wrong(wrong: Wrong, columns: &[Column], place: &Place<'_>) -> bool
    ensures { result ≡ spec.is_wrong wrong columns.now (place_seen place.now) }
{
    match wrong {
        Wrong::Name => is_unknown(columns, place),
        Wrong::Kind => is_misused(columns, place),
    }
}

// The name of the first place at which this is wrong.
fn first_wrong<'q>(wrong: Wrong, columns: &[Column], places: &[Place<'q>]) -> Option<&'q [u8]>
    ensures { option_copied result ≡ spec.first_wrong wrong columns.now (map place_seen places.entry.now) }
{
    let mut left = places;
    while let [place, rest @ ..] = left {
        if is_wrong(wrong, columns, place) {
            return Some(place.name);
        }
        left = rest;
    }
    None
}

/// Refuses a table that isn't `t`.
pub fn refuse_table(alloc: Global, table: &Bytes) -> Result<(), BindRefusal>
    ensures { Judges result (option_map BindRefusal.UnknownTable (spec.unknown_table table.now)) }
{
    let name = table.as_slice();
    if name != b"t".as_slice() {
        return Err(BindRefusal::unknown_table(alloc, name));
    }
    Ok(())
}

/// Refuses the first place whose name no column has.
pub fn refuse_names(
    alloc: Global,
    columns: &[Column],
    places: &[Place<'_>],
) -> Result<(), BindRefusal>
    ensures { Judges result (option_map BindRefusal.UnknownColumn
        (spec.first_wrong Wrong.Name columns.now (map place_seen places.now))) }
{
    match first_wrong(Wrong::Name, columns, places) {
        Some(name) => Err(BindRefusal::unknown_column(alloc, name)),
        None => Ok(()),
    }
}

/// Refuses the first place whose column's kind doesn't allow its use.
pub fn refuse_kinds(
    alloc: Global,
    columns: &[Column],
    places: &[Place<'_>],
) -> Result<(), BindRefusal>
    ensures { Judges result (option_map BindRefusal.WrongKind
        (spec.first_wrong Wrong.Kind columns.now (map place_seen places.now))) }
{
    match first_wrong(Wrong::Kind, columns, places) {
        Some(name) => Err(BindRefusal::wrong_kind(alloc, name)),
        None => Ok(()),
    }
}

fn is_key(keys: &[u32], column: u32) -> bool
    ensures { result ≡ has keys.now column }
{
    keys.iter().any(|key| *key == column)
}

// The name of a plain item whose column is none of these key columns.
fn plain_outside<'q>(columns: &[Column], keys: &[u32], item: &'q QItem) -> Option<&'q [u8]>
    requires { length columns.now ≤ MOST_COLUMNS }
    ensures { option_copied result ≡ spec.plain_outside columns.now keys.now item.entry.now }
{
    match item {
        QItem::Plain(name) => {
            let name = name.as_slice();
            if is_key(keys, column_of(columns, name)) {
                None
            } else {
                Some(name)
            }
        }
        _ => None,
    }
}

// The name of the first plain item whose column is none of these key columns.
fn first_outside<'q>(columns: &[Column], keys: &[u32], items: &'q [QItem]) -> Option<&'q [u8]>
    requires { length columns.now ≤ MOST_COLUMNS }
    ensures { option_copied result ≡ first_some (spec.plain_outside columns.now keys.now) items.entry.now }
{
    let mut left = items;
    while let [item, rest @ ..] = left {
        if let Some(name) = plain_outside(columns, keys, item) {
            return Some(name);
        }
        left = rest;
    }
    None
}

/// Refuses the first plain item whose column is none of these key columns, unless the query has a limit.
pub fn refuse_plain(
    alloc: Global,
    columns: &[Column],
    keys: &[u32],
    items: &[QItem],
    limit: Option<u32>,
) -> Result<(), BindRefusal>
    requires { length columns.now ≤ MOST_COLUMNS }
    ensures { Judges result (option_map BindRefusal.NotGrouped
        (spec.not_grouped columns.now keys.now items.now limit)) }
{
    if limit.is_some() {
        return Ok(());
    }
    match first_outside(columns, keys, items) {
        Some(name) => Err(BindRefusal::not_grouped(alloc, name)),
        None => Ok(()),
    }
}

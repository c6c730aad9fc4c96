// Items, key columns and orders of a query over the columns of a table.
ghost use Rattle.std.specs.Prelude.{◌≡◌, ◌≤◌, ◌<◌, ◌^◌, ◌++◌, IfOk, OnOk, length, map};
ghost use Rattle.std.specs.List.{flat_map};
ghost use Rattle.sql_bind.specs.Plans as spec;

use crate::names::column_of;
use query_meaning::{Item, Order};
use sql_text::{QItem, QOrder};
use std::alloc::{AllocError, Global};
use table_core::{Bytes, Column, MOST_COLUMNS};

// The place of a column among key columns; where it is none, how many they are.
fn place_of(keys: &[u32], column: u32) -> u32
    requires { length keys.now < 2 ^ 32 }
    ensures { result ≡ spec.place_of keys.now column }
{
    let mut left = keys;
    let mut place = 0;
    while let [key, rest @ ..] = left {
        if *key == column {
            return place;
        }
        place += 1;
        left = rest;
    }
    place
}

// An item over these key columns; a plain one is the value of its key column.
fn item_of(columns: &[Column], keys: &[u32], item: &QItem) -> Item
    requires few { length columns.now ≤ MOST_COLUMNS }
    requires short { length keys.now < 2 ^ 32 }
    ensures { result ≡ spec.item_of columns.now keys.now item.now }
{
    match item {
        QItem::CountAll => Item::CountAll,
        QItem::Count(name) => Item::Count(column_of(columns, name.as_slice())),
        QItem::Sum(name) => Item::Sum(column_of(columns, name.as_slice())),
        QItem::Min(name) => Item::Min(column_of(columns, name.as_slice())),
        QItem::Max(name) => Item::Max(column_of(columns, name.as_slice())),
        QItem::Plain(name) => Item::Key(place_of(keys, column_of(columns, name.as_slice()))),
    }
}

/// The items over these key columns, of which at most 4294967295 can be numbered: more are answered as out of memory.
pub fn items_of(
    alloc: Global,
    columns: &[Column],
    keys: &[u32],
    items: &[QItem],
) -> Result<Vec<Item>, AllocError>
    requires few { length columns.now ≤ MOST_COLUMNS }
    ensures { IfOk result (λ bound. bound.items ≡ map (spec.item_of columns.now keys.now) items.now) }
{
    if keys.len() > u32::MAX as usize {
        return Err(AllocError);
    }
    items
        .iter()
        .map(|item| item_of(columns, keys, item))
        .collect(alloc)
}

/// The columns of some names.
pub fn columns_of(
    alloc: Global,
    columns: &[Column],
    names: &[Bytes],
) -> Result<Vec<u32>, AllocError>
    requires { length columns.now ≤ MOST_COLUMNS }
    ensures { IfOk result (λ found. found.items ≡ spec.columns_of columns.now names.now) }
{
    names
        .iter()
        .map(|name| column_of(columns, name.as_slice()))
        .collect(alloc)
}

// Puts the column of a plain item at the end.
fn add_plain(found: &mut Vec<u32>, columns: &[Column], item: &QItem) -> Result<(), AllocError>
    requires { length columns.now ≤ MOST_COLUMNS }
    ensures { OnOk result (found.new.items ≡ found.old.items ++ spec.plain_column columns.now item.now) }
{
    if let QItem::Plain(name) = item {
        found.push(column_of(columns, name.as_slice()))?;
    }
    Ok(())
}

/// The columns of the plain items.
pub fn plain_columns(
    alloc: Global,
    columns: &[Column],
    items: &[QItem],
) -> Result<Vec<u32>, AllocError>
    requires { length columns.now ≤ MOST_COLUMNS }
    ensures { IfOk result (λ found. found.items ≡ flat_map (spec.plain_column columns.now) items.entry.now) }
{
    let mut found = Vec::new(alloc);
    let mut left = items;
    while let [item, rest @ ..] = left {
        add_plain(&mut found, columns, item)?;
        left = rest;
    }
    Ok(found)
}

fn order_of(columns: &[Column], order: &QOrder) -> Order
    requires { length columns.now ≤ MOST_COLUMNS }
    ensures { result ≡ spec.order_of columns.now order.now }
{
    Order {
        column: column_of(columns, order.column.as_slice()),
        descending: order.descending,
    }
}

/// The orders over the columns of a table.
pub fn orders_of(
    alloc: Global,
    columns: &[Column],
    orders: &[QOrder],
) -> Result<Vec<Order>, AllocError>
    requires { length columns.now ≤ MOST_COLUMNS }
    ensures { IfOk result (λ bound. bound.items ≡ map (spec.order_of columns.now) orders.now) }
{
    orders
        .iter()
        .map(|order| order_of(columns, order))
        .collect(alloc)
}

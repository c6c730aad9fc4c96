// The places of a query: where it names a column, and how it uses the column there.
ghost use Rattle.std.specs.Prelude.{◌≡◌, ◌++◌, ◌∷◌, [], map, flat_map, OnOk, IfOk};
ghost use Rattle.sql_text.specs.Reading.{cond_seen, query_of, tree_of};
ghost use Rattle.sql_bind.specs.Places as spec;

use sql_text::{Literal, QCond, QItem, QOrder, Query};
use std::alloc::{AllocError, Global};
use table_core::Bytes;

/// How a query uses a column at a place.
#[derive(Clone, Copy)]
pub enum Use {
    /// It is summed.
    Sum,
    /// It is compared with a number.
    Number,
    /// It is compared with a text.
    Text,
    /// Any other use, which each kind of column allows.
    Other,
}

/// A place of a query.
#[derive(Clone, Copy)]
pub struct Place<'q> {
    pub name: &'q [u8],
    pub used: Use,
}

fn add<'q>(places: &mut Vec<Place<'q>>, name: &'q Bytes, used: Use) -> Result<(), AllocError>
    ensures { OnOk result (map spec.place_seen places.new.items ≡ map spec.place_seen places.old.items
        ++ (name.now, used) ∷ []) }
{
    places.push(Place {
        name: name.as_slice(),
        used,
    })?;
    Ok(())
}

fn add_item<'q>(places: &mut Vec<Place<'q>>, item: &'q QItem) -> Result<(), AllocError>
    ensures { OnOk result (map spec.place_seen places.new.items ≡ map spec.place_seen places.old.items
        ++ spec.item_places item.now) }
{
    match item {
        QItem::CountAll => Ok(()),
        QItem::Sum(name) => add(places, name, Use::Sum),
        QItem::Count(name) | QItem::Min(name) | QItem::Max(name) | QItem::Plain(name) => {
            add(places, name, Use::Other)
        }
    }
}

fn literal_use(literal: &Literal) -> Use
    ensures { result ≡ spec.literal_use literal.now }
{
    match literal {
        Literal::Int(_) | Literal::Dec { .. } => Use::Number,
        Literal::Text(_) => Use::Text,
    }
}

fn add_cond<'q>(places: &mut Vec<Place<'q>>, cond: &'q QCond) -> Result<(), AllocError>
    ensures { OnOk result (map spec.place_seen places.new.items ≡ map spec.place_seen places.old.items
        ++ spec.cond_places (tree_of cond.now)) }
{
    match cond {
        QCond::Compare {
            column,
            op: _,
            value,
        } => add(places, column, literal_use(value)),
        QCond::IsNull { column, negated: _ } => add(places, column, Use::Other),
        QCond::And(a, b) | QCond::Or(a, b) => {
            add_cond(places, a)?;
            add_cond(places, b)
        }
        QCond::Not(a) => add_cond(places, a),
    }
}

fn add_items<'q>(places: &mut Vec<Place<'q>>, items: &'q [QItem]) -> Result<(), AllocError>
    ensures { OnOk result (map spec.place_seen places.new.items ≡ map spec.place_seen places.old.items
        ++ flat_map spec.item_places items.entry.now) }
{
    let mut left = items;
    while let [item, rest @ ..] = left {
        add_item(places, item)?;
        left = rest;
    }
    Ok(())
}

fn add_where<'q>(places: &mut Vec<Place<'q>>, cond: &'q Option<QCond>) -> Result<(), AllocError>
    ensures { OnOk result (map spec.place_seen places.new.items ≡ map spec.place_seen places.old.items
        ++ spec.where_places (cond_seen cond.now)) }
{
    match cond {
        Some(cond) => add_cond(places, cond),
        None => Ok(()),
    }
}

fn add_keys<'q>(places: &mut Vec<Place<'q>>, keys: &'q [Bytes]) -> Result<(), AllocError>
    ensures { OnOk result (map spec.place_seen places.new.items ≡ map spec.place_seen places.old.items
        ++ map spec.key_place keys.entry.now) }
{
    let mut left = keys;
    while let [key, rest @ ..] = left {
        add(places, key, Use::Other)?;
        left = rest;
    }
    Ok(())
}

fn add_orders<'q>(places: &mut Vec<Place<'q>>, orders: &'q [QOrder]) -> Result<(), AllocError>
    ensures { OnOk result (map spec.place_seen places.new.items ≡ map spec.place_seen places.old.items
        ++ map spec.order_place orders.entry.now) }
{
    let mut left = orders;
    while let [order, rest @ ..] = left {
        add(places, &order.column, Use::Other)?;
        left = rest;
    }
    Ok(())
}

/// The places of a query: its items, then its comparisons and tests for NULL, then its key columns, then its orders,
/// each from left to right.
pub fn places_of(alloc: Global, query: &Query) -> Result<Vec<Place<'_>>, AllocError>
    ensures { IfOk result (λ places. map spec.place_seen places.items ≡ spec.places (query_of query.now)) }
{
    let mut places = Vec::new(alloc);
    add_items(&mut places, &query.items)?;
    add_where(&mut places, &query.cond)?;
    add_keys(&mut places, &query.keys)?;
    add_orders(&mut places, &query.order)?;
    Ok(places)
}

// What stands in a part of a column, found in its numbers or codes as the column keeps them.
ghost use Rattle.std.specs.Prelude.{◌≡◌, ◌≤◌, ◌-◌, ◌++◌, ◌∷◌, [], List, Option, length, map, take, drop};
ghost use Rattle.table_core.specs.Columns.{code_cell, number_cell};
ghost use Rattle.table_core.specs.declared.cell.Cell.{Cell};
ghost use Rattle.filter_zones.specs.Found as spec;
ghost use Rattle.filter_zones.specs.Zone.{zone_of};

use crate::zone::Zone;
use table_core::{Cell, Codes, Numbers};

// Whether there is a place without a value, and the least and the greatest of the values, if there are any.
#[derive(Clone, Copy)]
struct Found<T> {
    has_null: bool,
    range: Option<(T, T)>,
}

// What is found with one more value, or none.
fn with_value<T: Ord + Copy>(found: Found<T>, value: Option<T>) -> Found<T>
    ensures { (cell : Option T → Cell) (cells : List Cell) → spec.IsOrdered T.cmp cell
        → spec.zone_from cell found ≡ zone_of cells → spec.zone_from cell result ≡ zone_of (cells ++ cell value ∷ []) }
{
    let Some(value) = value else {
        return Found {
            has_null: true,
            range: found.range,
        };
    };
    let range = match found.range {
        None => (value, value),
        Some((low, high)) => (low.min(value), value.max(high)),
    };
    Found {
        has_null: found.has_null,
        range: Some(range),
    }
}

// The zone of numbers.
fn number_zone(found: Found<i64>) -> Zone
    ensures { result ≡ spec.zone_from number_cell found }
{
    let range = match found.range {
        None => None,
        Some((low, high)) => Some((Cell::Int(low), Cell::Int(high))),
    };
    Zone {
        has_null: found.has_null,
        range,
    }
}

// The zone of codes.
fn code_zone(found: Found<u32>) -> Zone
    ensures { result ≡ spec.zone_from code_cell found }
{
    let range = match found.range {
        None => None,
        Some((low, high)) => Some((Cell::Code(low), Cell::Code(high))),
    };
    Zone {
        has_null: found.has_null,
        range,
    }
}

// The zone of a column of numbers from one row up to, not including, another.
pub(crate) fn zone_of_numbers(numbers: &Numbers, from: usize, to: usize) -> Zone
    requires rises { from ≤ to }
    requires there { to ≤ length numbers.now }
    ensures { result ≡ zone_of (take (to - from) (drop from (map number_cell numbers.now))) }
{
    let mut found = Found {
        has_null: false,
        range: None,
    };
    for row in from..to {
        found = with_value(found, numbers.get(row));
    }
    number_zone(found)
}

// The zone of a column of codes from one row up to, not including, another.
pub(crate) fn zone_of_codes(codes: &Codes, from: usize, to: usize) -> Zone
    requires rises { from ≤ to }
    requires there { to ≤ length codes.now }
    ensures { result ≡ zone_of (take (to - from) (drop from (map code_cell codes.now))) }
{
    let mut found = Found {
        has_null: false,
        range: None,
    };
    for row in from..to {
        found = with_value(found, codes.get(row));
    }
    code_zone(found)
}

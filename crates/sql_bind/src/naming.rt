// The columns that a query names.
ghost use Rattle.std.specs.Prelude.{◌≡◌, ◌<◌, ◌≤◌, ◌||◌, ◌==◌, ℕ, length, map};
ghost use Rattle.table_sets.specs.Sets.{AreMembers, has};
ghost use Rattle.sql_bind.specs.Places.{place_seen};
ghost use Rattle.sql_bind.specs.Plans as spec;

use crate::names::column_of;
use crate::places::Place;
use table_core::{Column, ColumnSet, MOST_COLUMNS};

// Makes a column a member; a number from `MOST_COLUMNS` on is none.
fn add(set: &mut ColumnSet, column: u32)
    ensures { (x : ℕ) → x < MOST_COLUMNS → has set.new x ≡ (has set.old x || x == column) }
{
    if column < MOST_COLUMNS {
        set.insert(column);
    }
}

fn all_named(columns: &[Column], places: &[Place<'_>]) -> ColumnSet
    requires { length columns.now ≤ MOST_COLUMNS }
    ensures named { (x : ℕ) → x < MOST_COLUMNS → has result x
        ≡ spec.is_named columns.now (map place_seen places.entry.now) x }
    ensures members { AreMembers MOST_COLUMNS result }
{
    let mut set = ColumnSet::empty();
    let mut left = places;
    while let [place, rest @ ..] = left {
        add(&mut set, column_of(columns, place.name));
        left = rest;
    }
    // Its contract says that the members of a set rise.
    let _count = set.len();
    set
}

/// The columns that the places name; column 0 alone where there is no place.
pub fn named_columns(columns: &[Column], places: &[Place<'_>]) -> ColumnSet
    requires { length columns.now ≤ MOST_COLUMNS }
    ensures { result ≡ spec.named_columns columns.now (map place_seen places.now) }
{
    if places.is_empty() {
        let mut first = ColumnSet::empty();
        first.insert(0);
        let _count = first.len();
        return first;
    }
    all_named(columns, places)
}

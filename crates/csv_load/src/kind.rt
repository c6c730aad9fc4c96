// The kind of a column, and the cells of its numbers.
ghost use Rattle.std.specs.Prelude.{◌≡◌, ◌≢◌, ◌≤◌, ◌^◌, List, ℕ, false, true, pos, MatchOption};
ghost use Rattle.std.specs.List.{list_all};
ghost use Rattle.csv_load.specs.Number.{fits_i64, number_read};
ghost use Rattle.csv_load.specs.Kinds.{fits_places, is_decimal, is_of, is_plain, is_whole};
ghost use Rattle.csv_load.specs.Kinds.{kind_of, most_places, places_in, scaled, value_as};
ghost use Rattle.table_core.specs.Columns.{number_cell};
ghost use Rattle.table_core.specs.Value.{FitsColumn, places_of, value_in};
ghost use Rattle.table_core.specs.declared.schema.Kind.TheVariants.{Text};

use crate::number::Number;
use crate::numeral::number_of;
use table_core::{Kind, MOST_PLACES, Texts, places_of_kind};

// Whether a field is empty, or spells a whole number.
fn is_whole(field: &[u8]) -> bool
    ensures { result ≡ is_whole field.now }
{
    match field {
        [] => return true,
        [_, ..] => {}
    }
    match number_of(field) {
        None => return false,
        Some(number) => return number.places == 0 && !number.zero_below,
    }
}

fn all_whole(texts: &Texts) -> bool
    ensures { result ≡ list_all is_whole texts.now }
{
    for place in 0..texts.len() {
        if !is_whole(texts.get(place)) {
            return false;
        }
    }
    true
}

// The digits after the point of a field that spells a number, or none.
fn places_after_point(field: &[u8]) -> u32
    ensures places { result ≡ places_in (number_read field.now) }
    ensures few { result ≤ MOST_PLACES }
{
    match number_of(field) {
        None => return 0,
        Some(number) => return number.places,
    }
}

fn most_places(texts: &Texts) -> u32
    ensures most { result ≡ most_places texts.now }
    ensures few { result ≤ MOST_PLACES }
{
    let mut most = 0;
    for place in 0..texts.len() {
        let places = places_after_point(texts.get(place));
        if places > most {
            most = places;
        }
    }
    most
}

fn power_of_ten(places: u32) -> i64
    requires { places ≤ MOST_PLACES }
    ensures { result ≡ pos (10 ^ places) }
{
    match places {
        0 => 1,
        1 => 10,
        2 => 100,
        3 => 1000,
        4 => 10000,
        5 => 100000,
        6 => 1000000,
        7 => 10000000,
        8 => 100000000,
        _ => 1000000000,
    }
}

// A number as a whole number with so many places, if it has 64 bits.
fn scale(number: Number, places: u32) -> Option<i64>
    requires { places ≤ MOST_PLACES }
    ensures { MatchOption result (fits_i64 (scaled places number) ≡ false)
        (λ z. (z ≡ scaled places number) × (fits_i64 (scaled places number) ≡ true)) }
{
    number
        .value
        .checked_mul(power_of_ten(places.saturating_sub(number.places)))
}

// Whether a field is empty, or spells a number that has 64 bits with so many places.
fn is_decimal(field: &[u8], places: u32) -> bool
    requires { places ≤ MOST_PLACES }
    ensures { result ≡ is_decimal places field.now }
{
    match field {
        [] => return true,
        [_, ..] => {}
    }
    match number_of(field) {
        None => return false,
        Some(number) => return scale(number, places).is_some(),
    }
}

fn all_decimal(texts: &Texts, places: u32) -> bool
    requires { places ≤ MOST_PLACES }
    ensures { result ≡ list_all (is_decimal places) texts.now }
{
    for place in 0..texts.len() {
        if !is_decimal(texts.get(place), places) {
            return false;
        }
    }
    true
}

/// The kind of a column whose fields are these texts, in any order and any number of times.
///
/// It takes no memory and reads each text at most three times.
pub fn kind_of_texts(texts: &Texts) -> Kind
    ensures kind { result ≡ kind_of texts.now }
    ensures few { places_of result ≤ MOST_PLACES }
{
    if all_whole(texts) {
        return Kind::Int;
    }
    let places = most_places(texts);
    if places == 0 {
        return Kind::Text;
    }
    if all_decimal(texts, places) {
        return Kind::Dec { places };
    }
    Kind::Text
}

/// The number of a field in a column of numbers, none for an empty one. It takes no memory.
pub fn number_in(kind: Kind, field: &[u8]) -> Option<i64>
    requires few { places_of kind ≤ MOST_PLACES }
    requires numbers { kind ≢ Text }
    ensures value { is_of kind field.now ≡ true → (dict : List (List ℕ)) → value_in dict (number_cell result)
        ≡ value_as kind field.now }
    ensures fits { (dict : List (List ℕ)) → FitsColumn kind dict (number_cell result) }
{
    let number = match number_of(field) {
        Some(number) => number,
        None => return None,
    };
    scale(number, places_of_kind(kind))
}

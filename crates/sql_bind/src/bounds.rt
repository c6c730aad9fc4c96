// What stands for a literal over the cells of a column.
ghost use Rattle.std.specs.Prelude.{◌≡◌, ◌<◌, ◌≤◌, ◌^◌, ℕ, pos, ◌+ℤ◌, ◌*ℤ◌, neg_ℤ, ◌≤ℤ◌, ◌<ℤ◌, false};
ghost use Rattle.table_core.specs.Value.{places_of};
ghost use Rattle.sql_bind.specs.Bounds as spec;
ghost use Rattle.sql_bind.specs.Bounds.{IsHalfSteps};

use filter_zones::Bound;
use sql_text::Literal;
use table_core::{Dict, Kind, MOST_PLACES, places_of_kind};

// A power of ten.
fn power(places: u32) -> i128
    requires { places ≤ 28 }
    ensures value { result ≡ pos (10 ^ places) }
    ensures some { pos 0 <ℤ result }
{
    10i128.pow(places)
}

// A number times a power of ten.
fn scaled(number: i64, places: u32) -> i128
    requires { places ≤ MOST_PLACES }
    ensures value { result ≡ number *ℤ pos (10 ^ places) }
    ensures low { neg_ℤ (pos (2 ^ 93)) ≤ℤ result }
    ensures high { result ≤ℤ pos (2 ^ 93) }
{
    let number = i128::from(number);
    match places {
        0 => number,
        1 => number * 10,
        2 => number * 100,
        3 => number * 1_000,
        4 => number * 10_000,
        5 => number * 100_000,
        6 => number * 1_000_000,
        7 => number * 10_000_000,
        8 => number * 100_000_000,
        _ => number * 1_000_000_000,
    }
}

// Twice a whole number, and one more where something is left over.
fn doubled(whole: i128, rest: i128) -> i128
    requires low { neg_ℤ (pos (2 ^ 93)) ≤ℤ whole }
    requires high { whole ≤ℤ pos (2 ^ 93) }
    ensures { (r : ℕ) → rest ≡ pos r → result ≡ ((whole +ℤ whole) +ℤ spec.half_of r) }
{
    if rest == 0 {
        return whole + whole;
    }
    whole + whole + 1
}

// Twice the number `number * 10^up / 10^down` where it is whole, and else the odd number between its neighbours'
// doubles.
fn half_steps(number: i64, up: u32, down: u32) -> i128
    requires { up ≤ MOST_PLACES }
    ensures { IsHalfSteps (number *ℤ pos (10 ^ up)) (10 ^ down) result }
{
    let over = scaled(number, up);
    // A quotient by 10^28 or more lies between -1 and 1, whatever the power.
    let under = power(down.min(28));
    let whole = over.div_euclid(under);
    let rest = over.rem_euclid(under);
    doubled(whole, rest)
}

// What stands for a number with places in a column of this kind.
fn number_bound(kind: Kind, number: i64, places: u32) -> Bound
    requires { places_of kind ≤ MOST_PLACES }
    ensures { spec.IsNumberBound (places_of kind) number places result }
{
    Bound::Number(half_steps(number, places_of_kind(kind), places))
}

// What stands for a text in a column with this dictionary.
fn text_bound(dict: &Dict, text: &[u8]) -> Bound
    ensures { spec.IsTextBound dict.now text.now result }
{
    match dict.code_of(text) {
        Ok(code) => Bound::Code(code),
        Err(place) => Bound::Gap(place),
    }
}

/// What stands for a literal over the cells of a column of this kind, with this dictionary.
pub fn bound_of(kind: Kind, dict: &Dict, literal: &Literal) -> Bound
    requires { places_of kind ≤ MOST_PLACES }
    ensures { spec.IsBoundOf kind dict.now literal.now result }
{
    match literal {
        Literal::Int(number) => number_bound(kind, *number, 0),
        Literal::Dec { digits, places } => number_bound(kind, *digits, *places),
        Literal::Text(text) => text_bound(dict, text.as_slice()),
    }
}

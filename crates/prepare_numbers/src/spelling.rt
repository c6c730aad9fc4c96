// A number as a field spells it.
ghost use Rattle.std.specs.Prelude.{◌<◌, ◌+◌, ◌^◌, IfSome, option_map};
ghost use Rattle.prepare_numbers.specs.Values.{IsShifted, IsSpelled};

use crate::form::Form;
use crate::mantissa::{mantissa, places_in, power, spells_mantissa};
use crate::power::{exponent_of, is_minus};

/// A number as a field spells it: its digits stand among these bytes, and it is their number, times ten `up` times, and
/// a tenth of it `down` times.
#[derive(Clone, Copy, Debug)]
pub struct Spelling<'a> {
    /// The field without its power of ten.
    pub mantissa: &'a [u8],
    /// A minus stands first.
    pub is_minus: bool,
    /// So often times ten, at most 999.
    pub up: usize,
    /// So often a tenth: the digits behind the mark, and those of a power below zero.
    pub down: usize,
}

// So often times ten, and so often a tenth.
#[derive(Clone, Copy)]
struct Shift {
    up: usize,
    down: usize,
}

/// The number that a field spells in this form, if it spells one: perhaps a sign; digits, of which groups of three may
/// be parted behind a first one of one to three digits that begins with no zero; perhaps the mark, before or behind
/// which a digit stands; and perhaps an `e` or `E` with one to three digits, perhaps behind a sign.
pub fn spelling_of<'a>(form: Form, field: &'a [u8]) -> Option<Spelling<'a>>
    ensures spelled { IsSpelled form field.now result }
    ensures low { IfSome result (λ s. s.up < 2 ^ 16) }
    ensures bound { IfSome result (λ s. s.down < 2 ^ 63 + 2 ^ 16) }
{
    let bytes = mantissa(field);
    if !spells_mantissa(form.mark, form.parts, bytes) {
        return None;
    }
    match shift_of(form.exponents, power(field)) {
        Some(shift) => Some(Spelling {
            mantissa: bytes,
            is_minus: is_minus(field),
            up: shift.up,
            down: places_in(form.mark, bytes) + shift.down,
        }),
        None => None,
    }
}

// What a power of ten does, where there may be one.
fn shift_of(exponents: bool, power: Option<&[u8]>) -> Option<Shift>
    ensures shifts { IsShifted exponents (option_map (λ s. s.now) power.entry) result }
    ensures bound { IfSome result (λ s. (s.up < 2 ^ 16) × (s.down < 2 ^ 16)) }
{
    let Some(power) = power else {
        return Some(Shift { up: 0, down: 0 });
    };
    if !exponents {
        return None;
    }
    match exponent_of(power) {
        Some(exponent) => {
            if is_minus(power) {
                return Some(Shift {
                    up: 0,
                    down: exponent,
                });
            }
            Some(Shift {
                up: exponent,
                down: 0,
            })
        }
        None => None,
    }
}

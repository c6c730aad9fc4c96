// Numbers with an exponent.
ghost use Rattle.std.specs.Prelude.{◌≡◌, ◌≤◌, ◌+◌, nat_le};
ghost use Rattle.prepare_look.specs.Exponents as spec;
ghost use Rattle.prepare_look.specs.Shapes.{shape_of};
ghost use Rattle.prepare_look.specs.declared.exponent.TheConstants.{NEAR_PLACES, NEAR_POWER};

use crate::shape::shape_of;
use prepare_numbers::{Form, Spelling, spelling_of};

/// The greatest power of ten with which numbers of 64 bits are written.
pub(crate) const NEAR_POWER: usize = 18;

/// The most digits behind a point that `coop_cli` takes.
pub(crate) const NEAR_PLACES: usize = 9;

/// Where a number with an exponent stands that is read byte by byte.
#[derive(Clone, Copy, Debug, PartialEq, Eq)]
pub(crate) enum Power {
    Begin,
    Minus,
    Whole,
    Point,
    Places,
    /// Behind the letter of a mantissa without a point: a sign has to follow, since `12E4` may be a code.
    Plain,
    /// Behind that of one with a point.
    Pointed,
    Sign,
    Digits,
    Wrong,
}

impl Power {
    fn after_digit(self) -> Power
        ensures { result ≡ spec.after_digit self }
    {
        match self {
            Power::Begin | Power::Minus | Power::Whole => Power::Whole,
            Power::Point | Power::Places => Power::Places,
            Power::Pointed | Power::Sign | Power::Digits => Power::Digits,
            Power::Plain | Power::Wrong => Power::Wrong,
        }
    }

    fn after_letter(self) -> Power
        ensures { result ≡ spec.after_letter self }
    {
        match self {
            Power::Whole => Power::Plain,
            Power::Places => Power::Pointed,
            _ => Power::Wrong,
        }
    }

    fn after_sign(self, is_minus: bool) -> Power
        ensures { result ≡ spec.after_sign self is_minus }
    {
        match self {
            Power::Plain | Power::Pointed => return Power::Sign,
            Power::Begin => {
                if is_minus {
                    return Power::Minus;
                }
                return Power::Wrong;
            }
            _ => return Power::Wrong,
        }
    }

    fn after_point(self) -> Power
        ensures { result ≡ spec.after_point self }
    {
        match self {
            Power::Whole => Power::Point,
            _ => Power::Wrong,
        }
    }

    // A number may end here.
    fn ends_so(self) -> bool
        ensures { result ≡ spec.ends_so self }
    {
        matches!(self, Power::Digits)
    }

    fn after(self, byte: u8) -> Power
        ensures { result ≡ spec.power_after self byte }
    {
        if byte.is_ascii_digit() {
            return self.after_digit();
        }
        if byte == b'.' {
            return self.after_point();
        }
        if byte == b'e' || byte == b'E' {
            return self.after_letter();
        }
        if byte == b'-' || byte == b'+' {
            return self.after_sign(byte == b'-');
        }
        Power::Wrong
    }
}

/// Whether the field is a number with an exponent whose mantissa has a point or whose exponent has a sign.
pub(crate) fn has_exponent(field: &[u8]) -> bool
    ensures { result ≡ spec.has_exponent field.now }
{
    let mut power = Power::Begin;
    for i in 0..field.len() {
        power = power.after(field[i]);
    }
    power.ends_so()
}

// Whether so many places hold the number, but for zeros at the end of its mantissa.
fn fits_places(spelling: &Spelling<'_>) -> bool
    requires { spelling.now.up ≤ NEAR_POWER }
    ensures { result ≡ nat_le spelling.now.down
        (spelling.now.up + (NEAR_PLACES + (shape_of spelling.now.mantissa.now).zeros)) }
{
    spelling.down <= spelling.up + (NEAR_PLACES + shape_of(spelling.mantissa).zeros as usize)
}

/// Whether the power of ten behind a number is 18 at most, and 9 places hold the number, written out, but for zeros at
/// the end of its mantissa.
pub(crate) fn is_near(field: &[u8]) -> bool
    ensures { result ≡ spec.is_near field.now }
{
    let form = Form {
        mark: b'.',
        parts: None,
        exponents: true,
    };
    match spelling_of(form, field) {
        Some(spelling) => spelling.up <= NEAR_POWER && fits_places(&spelling),
        None => false,
    }
}

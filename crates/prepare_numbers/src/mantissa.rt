// A number without its power of ten.
ghost use Rattle.std.specs.Prelude.{◌≡◌, ◌≤◌, length, option_map};
ghost use Rattle.prepare_numbers.specs.Spells.{is_e, mantissa, power, spells_mantissa};
ghost use Rattle.prepare_numbers.specs.Values.{behind, digits_in, places_in};

use crate::place::Place;

fn is_e(byte: u8) -> bool
    ensures { result ≡ is_e byte }
{
    byte == b'e' || byte == b'E'
}

/// What stands behind the letter of the power of ten, if there is one.
pub(crate) fn power(field: &[u8]) -> Option<&[u8]>
    ensures { option_map (λ s. s.now) result ≡ power field.now }
{
    for i in 0..field.len() {
        if is_e(field[i]) {
            return Some(&field[i + 1..]);
        }
    }
    None
}

/// What stands before the power of ten.
pub(crate) fn mantissa(field: &[u8]) -> &[u8]
    ensures value { result.now ≡ mantissa field.now }
    ensures within { length result.now ≤ length field.now }
{
    match power(field) {
        Some(rest) => {
            let len = field.len().saturating_sub(rest.len()).saturating_sub(1);
            return &field[..len];
        }
        None => field,
    }
}

/// Whether these bytes spell a number without a power of ten.
pub(crate) fn spells_mantissa(mark: u8, parts: Option<u8>, bytes: &[u8]) -> bool
    ensures { result ≡ spells_mantissa mark parts bytes.now }
{
    let mut place = Place::Begin;
    for i in 0..bytes.len() {
        place = place.after_byte(mark, parts, bytes[i]);
    }
    place.is_whole()
}

// What stands behind the decimal mark.
fn behind(mark: u8, bytes: &[u8]) -> &[u8]
    ensures value { result.now ≡ behind mark bytes.now }
    ensures within { length result.now ≤ length bytes.now }
{
    for i in 0..bytes.len() {
        if bytes[i] == mark {
            return &bytes[i + 1..];
        }
    }
    &[]
}

// How many digits there are.
fn count_digits(bytes: &[u8]) -> usize
    ensures value { result ≡ length (digits_in bytes.now) }
    ensures within { result ≤ length bytes.now }
{
    let mut count = 0;
    for i in 0..bytes.len() {
        if bytes[i].is_ascii_digit() {
            count += 1;
        }
    }
    count
}

/// How many digits stand behind the decimal mark.
pub(crate) fn places_in(mark: u8, bytes: &[u8]) -> usize
    ensures value { result ≡ places_in mark bytes.now }
    ensures within { result ≤ length bytes.now }
{
    count_digits(behind(mark, bytes))
}

// Texts in UTF-16.
ghost use Rattle.std.specs.Prelude.{◌≡◌, ◌∷◌, ◌+◌, ◌*◌, ◌<◌, ◌≤◌, ◌^◌, IfOk, IfSome, drop, length, string_bytes};
ghost use Rattle.std.specs.Char.Utf16.{utf16_chars};
ghost use Rattle.prepare_decode.specs.Decoding.{decoded, half_at, is_big, is_marked, unit, units_of, wide, width};

use std::alloc::{AllocError, Global};

/// Whether a text begins with a byte order mark.
pub(crate) fn is_marked(bytes: &[u8]) -> bool
    ensures { result ≡ is_marked bytes.now }
{
    match bytes {
        [a, b, ..] => (*a == 0xFF && *b == 0xFE) || (*a == 0xFE && *b == 0xFF),
        _ => false,
    }
}

// Whether the first byte of a unit is the higher one.
fn is_big(bytes: &[u8]) -> bool
    ensures { result ≡ is_big bytes.now }
{
    match bytes {
        [a, b, ..] => *a == 0xFE && *b == 0xFF,
        _ => false,
    }
}

// The unit of two bytes.
fn unit(is_big: bool, a: u8, b: u8) -> u16
    ensures { result ≡ unit is_big a b }
{
    if is_big {
        return a as u16 * 256 + b as u16;
    }
    b as u16 * 256 + a as u16
}

/// The units of a text, without half of one at its end.
pub(crate) fn units_of(alloc: Global, bytes: &[u8]) -> Result<Vec<u16>, AllocError>
    ensures { IfOk result (λ units. units.items ≡ units_of bytes.now) }
{
    let is_big = is_big(bytes);
    let mut units = Vec::new(alloc);
    for i in 0..bytes.len() / 2 {
        units.push(unit(is_big, bytes[i * 2], bytes[i * 2 + 1]))?;
    }
    Ok(units)
}

// The character whose units begin at a place, unless that is a surrogate without a partner, and where the next one
// begins.
fn char_at(units: &[u16], at: usize) -> (Option<char>, usize)
    requires { at < length units.now }
    ensures next { (at < result.1) × (result.1 ≤ length units.now) }
    ensures wide { IfSome result.0 (λ c. result.1 * 2 ≡ at * 2 + width c) }
    ensures first { utf16_chars (drop at units.now) ≡ result.0 ∷ utf16_chars (drop result.1 units.now) }
{
    let high = units[at] as u32;
    if high < 0xD800 || 0xE000 <= high {
        return (char::from_u32(high), at + 1);
    }
    if 0xDC00 <= high || units.len() - at < 2 {
        return (None, at + 1);
    }
    let low = units[at + 1] as u32;
    if low < 0xDC00 || 0xE000 <= low {
        return (None, at + 1);
    }
    let code = 0x1_0000 + (high - 0xD800) * 0x400 + (low - 0xDC00);
    (char::from_u32(code), at + 2)
}

// The place of half of a unit at the end, if there is one.
fn half_at(is_half: bool, at: usize) -> Option<usize>
    ensures { result ≡ half_at is_half at }
{
    if is_half {
        return Some(at);
    }
    None
}

/// The text up to the first surrogate without a partner, or half of a unit, and the place of that byte, if there is
/// one.
pub(crate) fn wide_text(
    alloc: Global,
    is_half: bool,
    units: &[u16],
) -> Result<(String, Option<usize>), AllocError>
    requires { length units.now < 2 ^ 62 }
    ensures { IfOk result (λ p. decoded (string_bytes p.0) p.1 ≡ wide is_half 0 (utf16_chars units.now)) }
{
    let mut text = String::new(alloc);
    let mut at = 0;
    while at < units.len() {
        let (found, next) = char_at(units, at);
        let Some(character) = found else {
            return Ok((text, Some(at * 2)));
        };
        text.push(character)?;
        at = next;
    }
    Ok((text, half_at(is_half, at * 2)))
}

// Numbers as coop_cli reads them.
ghost use Rattle.std.specs.Prelude.{◌≡◌, ◌<◌, ◌^◌, ◌++◌, IfOk, OnOk, ◌-◌};
ghost use Rattle.std.specs.List.{list_any};
ghost use Rattle.prepare_numbers.specs.Plain.{is_nonzero, moved, pointed, sign_of, spread, stripped, written, zeros};
ghost use Rattle.prepare_numbers.specs.Rounding.{moved_fit, moved_within, unless_long};
ghost use Rattle.prepare_numbers.specs.Values.{digits_in};

use crate::limit::{Fit, Limit};
use crate::rounding::round;
use crate::spelling::Spelling;
use std::alloc::AllocError;

/// Puts the number behind what is there, as `coop_cli` reads it; `digits` is memory that is used again.
pub fn push_number(
    spelling: &Spelling<'_>,
    digits: &mut Vec<u8>,
    text: &mut Vec<u8>,
) -> Result<(), AllocError>
    requires { spelling.now.down < 2 ^ 64 - 1 }
    ensures { OnOk result (text.new.items ≡ text.old.items
        ++ moved spelling.now.is_minus spelling.now.up spelling.now.down (digits_in spelling.now.mantissa.now)) }
{
    spread(spelling, digits)?;
    let places = spelling.down.saturating_sub(spelling.up);
    push_written(spelling.is_minus, places, digits.as_slice(), text)
}

/// The same with no digit past the limit: a number that has more of them is rounded, or nothing is put.
pub fn push_within(
    spelling: &Spelling<'_>,
    limit: Limit,
    digits: &mut Vec<u8>,
    text: &mut Vec<u8>,
) -> Result<Fit, AllocError>
    requires { spelling.now.down < 2 ^ 64 - 1 }
    ensures fits { IfOk result (λ fit. fit
        ≡ moved_fit limit spelling.now.up spelling.now.down (digits_in spelling.now.mantissa.now)) }
    ensures text { IfOk result (λ fit. text.new.items ≡ text.old.items ++ unless_long fit (moved_within limit
        spelling.now.is_minus spelling.now.up spelling.now.down (digits_in spelling.now.mantissa.now))) }
{
    spread(spelling, digits)?;
    let places = spelling.down.saturating_sub(spelling.up);
    let fit = limit.fit_of(places, digits.as_slice());
    if fit == Fit::TooLong {
        return Ok(fit);
    }
    let excess = limit.excess(places);
    round(excess, digits);
    push_written(spelling.is_minus, places - excess, digits.as_slice(), text)?;
    Ok(fit)
}

// Puts digits behind what is there, so many of them behind a point, and a minus before a number below zero.
fn push_written(
    is_minus: bool,
    places: usize,
    digits: &[u8],
    text: &mut Vec<u8>,
) -> Result<(), AllocError>
    ensures { OnOk result (text.new.items ≡ text.old.items ++ written is_minus places digits.now) }
{
    push_sign(is_minus, digits, text)?;
    push_pointed(places, digits, text)
}

// Makes the digits written out.
fn spread(spelling: &Spelling<'_>, digits: &mut Vec<u8>) -> Result<(), AllocError>
    requires { spelling.now.down < 2 ^ 64 - 1 }
    ensures { OnOk result (digits.new.items
        ≡ spread spelling.now.up spelling.now.down (digits_in spelling.now.mantissa.now)) }
{
    let places = spelling.down.saturating_sub(spelling.up);
    digits.clear();
    push_zeros(places + 1, digits)?;
    push_digits(spelling.mantissa, digits)?;
    push_zeros(spelling.up.saturating_sub(spelling.down), digits)
}

fn push_zeros(count: usize, digits: &mut Vec<u8>) -> Result<(), AllocError>
    ensures { OnOk result (digits.new.items ≡ digits.old.items ++ zeros count) }
{
    for _done in 0..count {
        digits.push(b'0')?;
    }
    Ok(())
}

fn push_digits(bytes: &[u8], digits: &mut Vec<u8>) -> Result<(), AllocError>
    ensures { OnOk result (digits.new.items ≡ digits.old.items ++ digits_in bytes.now) }
{
    for i in 0..bytes.len() {
        if bytes[i].is_ascii_digit() {
            digits.push(bytes[i])?;
        }
    }
    Ok(())
}

// Puts a minus behind what is there, if one stands before these digits.
fn push_sign(is_minus: bool, digits: &[u8], text: &mut Vec<u8>) -> Result<(), AllocError>
    ensures { OnOk result (text.new.items ≡ text.old.items ++ sign_of is_minus digits.now) }
{
    if !is_minus {
        return Ok(());
    }
    if has_nonzero(digits) {
        text.push(b'-')?;
    }
    Ok(())
}

/// Whether some digit is no zero.
pub(crate) fn has_nonzero(digits: &[u8]) -> bool
    ensures { result ≡ list_any is_nonzero digits.now }
{
    for i in 0..digits.len() {
        if digits[i] != b'0' {
            return true;
        }
    }
    false
}

// Digits without zeros in front, but for the last.
fn stripped(digits: &[u8]) -> &[u8]
    ensures { result.now ≡ stripped digits.now }
{
    let last = digits.len().saturating_sub(1);
    for i in 0..last {
        if digits[i] != b'0' {
            return &digits[i..];
        }
    }
    &digits[last..]
}

// Puts digits behind what is there, so many of them behind a point.
fn push_pointed(places: usize, digits: &[u8], text: &mut Vec<u8>) -> Result<(), AllocError>
    ensures { OnOk result (text.new.items ≡ text.old.items ++ pointed places digits.now) }
{
    if places == 0 {
        return text.extend_from_slice(stripped(digits));
    }
    let cut = digits.len().saturating_sub(places);
    text.extend_from_slice(stripped(&digits[..cut]))?;
    text.push(b'.')?;
    text.extend_from_slice(&digits[cut..])
}

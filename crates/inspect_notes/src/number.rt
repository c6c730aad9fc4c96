// Whether a field spells a number.
ghost use Rattle.std.specs.Prelude.{◌≡◌, ◌≤◌, ◌<◌, ◌^◌, length, is_some, MatchOption};
ghost use Rattle.csv_load.specs.Number.{digits_from, is_whole_part, made, rest_read, unsigned_read};
ghost use Rattle.inspect_notes.specs.Reasons as spec;

/// What the digits at the front are worth after `start`, and what follows them; None where that is beyond 2^63.
fn digits_after(start: u64, text: &[u8]) -> Option<(u64, &[u8])>
    requires { start ≤ 9223372036854775809 }
    ensures { MatchOption result (2 ^ 63 < (digits_from start text.now).0)
        (λ p. (p.0 ≡ (digits_from start text.now).0) × (p.1.now ≡ (digits_from start text.now).1)
        × (p.0 ≤ 9223372036854775809)) }
{
    let mut value = start;
    let mut left = text;
    while let [c, rest @ ..] = left {
        if !c.is_ascii_digit() {
            return Some((value, left));
        }
        if value > 922337203685477580 {
            return None;
        }
        value = value * 10 + (*c - b'0') as u64;
        left = rest;
    }
    Some((value, left))
}

// Whether a number of this sign and these digits has 64 bits.
fn fits(minus: bool, size: u64, places: u32) -> bool
    ensures { result ≡ is_some (made minus size places) }
{
    if minus {
        return size <= 9223372036854775808;
    }
    size < 9223372036854775808
}

// Whether a text that goes on for so many bytes after its first digits begins with a whole part.
fn is_whole(text: &[u8], left: usize) -> bool
    ensures { result ≡ is_whole_part text.now left }
{
    match text {
        [] => return false,
        [first, rest @ ..] => return left <= rest.len() && (*first != b'0' || left == rest.len()),
    }
}

// Whether a number whose whole part has been read goes on as one.
fn goes_on(minus: bool, whole: u64, left: &[u8]) -> bool
    requires { whole ≤ 9223372036854775809 }
    ensures { result ≡ is_some (rest_read minus whole left.now) }
{
    match left {
        [] => return fits(minus, whole, 0),
        [point, after @ ..] => {
            if *point != b'.' {
                return false;
            }
            let (value, end) = match digits_after(whole, after) {
                Some(pair) => pair,
                None => return false,
            };
            if end.len() == 0 && after.len() > 0 && after.len() < 10 {
                return fits(minus, value, after.len() as u32);
            }
            return false;
        }
    }
}

// Whether a text without its sign spells a number.
fn spells_unsigned(minus: bool, text: &[u8]) -> bool
    ensures { result ≡ is_some (unsigned_read minus text.now) }
{
    let (whole, left) = match digits_after(0, text) {
        Some(pair) => pair,
        None => return false,
    };
    if !is_whole(text, left.len()) {
        return false;
    }
    goes_on(minus, whole, left)
}

/// Whether a field spells a number of 64 bits with at most 9 places. It takes no memory.
///
/// docs/TABLES.md says how a number is spelled.
pub fn spells_number(field: &[u8]) -> bool
    ensures { result ≡ spec.spells_number field.now }
{
    match field {
        [] => return false,
        [b'-', rest @ ..] => return spells_unsigned(true, rest),
        [_, ..] => return spells_unsigned(false, field),
    }
}

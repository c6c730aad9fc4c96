// The power of ten behind a number.
ghost use Rattle.std.specs.Prelude.{◌≡◌, ◌<◌, ◌≤◌, ◌-◌, ◌^◌, IfSome, length, true};
ghost use Rattle.std.specs.List.{list_all};
ghost use Rattle.std.specs.Char.{is_ascii_digit};
ghost use Rattle.prepare_numbers.specs.Spells.{is_minus, is_short, number, short_number, unsigned};

/// Whether a minus stands first.
pub(crate) fn is_minus(bytes: &[u8]) -> bool
    ensures { result ≡ is_minus bytes.now }
{
    match bytes {
        [first, ..] => *first == b'-',
        [] => false,
    }
}

// Without a sign.
fn unsigned(bytes: &[u8]) -> &[u8]
    ensures { result.now ≡ unsigned bytes.now }
{
    match bytes {
        [first, rest @ ..] => {
            if *first == b'-' || *first == b'+' {
                return rest;
            }
            return bytes;
        }
        [] => bytes,
    }
}

fn are_digits(bytes: &[u8]) -> bool
    ensures { result ≡ list_all is_ascii_digit bytes.now }
{
    for i in 0..bytes.len() {
        if !bytes[i].is_ascii_digit() {
            return false;
        }
    }
    true
}

// What a digit is worth.
fn worth(digit: u8) -> usize
    ensures value { result ≡ digit - 48 }
    ensures bound { result < 208 }
{
    digit.saturating_sub(48) as usize
}

// One to three digits, and nothing else.
fn is_short(bytes: &[u8]) -> bool
    ensures value { result ≡ is_short bytes.now }
    ensures within { result ≡ true → length bytes.now ≤ 3 }
{
    let len = bytes.len();
    if len < 1 || 3 < len {
        return false;
    }
    are_digits(bytes)
}

// The number that up to three digits write.
fn number(bytes: &[u8]) -> usize
    requires { length bytes.now ≤ 3 }
    ensures value { result ≡ number bytes.now }
    ensures bound { result < 2 ^ 16 }
{
    match bytes {
        [a] => worth(*a),
        [a, b] => worth(*a) * 10 + worth(*b),
        [a, b, c] => (worth(*a) * 10 + worth(*b)) * 10 + worth(*c),
        [] | [_, _, _, _, ..] => 0,
    }
}

// The number that one to three digits write.
fn short_number(bytes: &[u8]) -> Option<usize>
    ensures value { result ≡ short_number bytes.now }
    ensures bound { IfSome result (λ n. n < 2 ^ 16) }
{
    if !is_short(bytes) {
        return None;
    }
    Some(number(bytes))
}

/// The power of ten, without its sign.
pub(crate) fn exponent_of(power: &[u8]) -> Option<usize>
    ensures value { result ≡ short_number (unsigned power.now) }
    ensures bound { IfSome result (λ n. n < 2 ^ 16) }
{
    short_number(unsigned(power))
}

//! Numbers as words.
ghost use Rattle.std.specs.Prelude.{◌≡◌, ◌≤◌, IfSome, option_map};
ghost use Rattle.command_words.specs.Options.{number_in, number_or, optional_number};

/// A number of 1 to `most` digits with a value from `low` to `high`, leading zeros allowed.
pub(crate) fn number_in(text: &str, most: usize, low: u64, high: u64) -> Option<u64>
    ensures number { result ≡ number_in most low high text.now }
    ensures within { IfSome result (λ n. (low ≤ n) × (n ≤ high)) }
{
    let digits = text.as_bytes();
    if digits.is_empty() || digits.len() > most {
        return None;
    }
    let mut value: u64 = 0;
    for digit in digits {
        if *digit < b'0' {
            return None;
        }
        if *digit > b'9' {
            return None;
        }
        let Some(tens) = value.checked_mul(10) else {
            return None;
        };
        let Some(sum) = tens.checked_add(u64::from(*digit - b'0')) else {
            return None;
        };
        value = sum;
    }
    if low <= value && value <= high {
        return Some(value);
    }
    None
}

/// The number of up to ten digits that an option's value is.
pub(crate) fn small_number(text: &str, low: u32, high: u32) -> Option<u32>
    ensures number { result ≡ number_in 10 low high text.now }
    ensures within { IfSome result (λ n. (low ≤ n) × (n ≤ high)) }
{
    let value = number_in(text, 10, u64::from(low), u64::from(high))?;
    Some(value as u32)
}

/// The number that an option gives, or its default where it isn't named.
pub(crate) fn number_or(text: Option<&str>, low: u32, high: u32, default: u32) -> Option<u32>
    requires { (low ≤ default) × (default ≤ high) }
    ensures number { result ≡ number_or low high default (option_map (λ s. s.now) text.entry) }
    ensures within { IfSome result (λ n. (low ≤ n) × (n ≤ high)) }
{
    match text {
        None => Some(default),
        Some(text) => small_number(text, low, high),
    }
}

/// The number that an option gives, where it is named.
pub(crate) fn optional_number(text: Option<&str>, low: u32, high: u32) -> Option<Option<u32>>
    ensures number { result ≡ optional_number low high (option_map (λ s. s.now) text.entry) }
    ensures within { IfSome result (λ o. IfSome o (λ n. (low ≤ n) × (n ≤ high))) }
{
    match text {
        None => Some(None),
        Some(text) => Some(Some(small_number(text, low, high)?)),
    }
}

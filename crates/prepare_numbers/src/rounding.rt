// Digits past a limit.
ghost use Rattle.std.specs.Prelude.{◌≡◌, ◌≤◌, ◌^◌, ◌%◌, ◌==◌, length};
ghost use Rattle.prepare_numbers.specs.Rounding.{excess, fit_of, one_more, rounded, takes_more};
ghost use Rattle.prepare_numbers.specs.Spells.{number};
ghost use Rattle.prepare_numbers.specs.Values.{AreDigits};

use crate::limit::{Fit, Limit};
use crate::writing::has_nonzero;

impl Limit {
    /// How many digits stand past the limit, of so many behind the point.
    pub(crate) fn excess(self, places: usize) -> usize
        ensures { result ≡ excess self places }
    {
        places.saturating_sub(self.places as usize)
    }

    /// How digits fit, so many of which stand behind the point.
    pub(crate) fn fit_of(self, places: usize, digits: &[u8]) -> Fit
        ensures { result ≡ fit_of self places digits.now }
    {
        let cut = digits.len().saturating_sub(self.excess(places));
        if !has_nonzero(&digits[cut..]) {
            return Fit::Whole;
        }
        if self.rounds {
            return Fit::Rounded;
        }
        Fit::TooLong
    }
}

// Whether the number that the digits write is odd.
fn is_odd(digits: &[u8]) -> bool
    requires { AreDigits digits.now }
    ensures { result ≡ (number digits.now % 2 == 1) }
{
    match digits {
        [.., last] => last.saturating_sub(48) % 2 == 1,
        [] => false,
    }
}

// Whether the digits that are dropped make one more of those that are kept.
fn takes_more(kept: &[u8], dropped: &[u8]) -> bool
    requires kept { AreDigits kept.now }
    requires dropped { AreDigits dropped.now }
    ensures { result ≡ takes_more (number kept.now) (number dropped.now) (10 ^ length dropped.now) }
{
    match dropped {
        [] => false,
        [first, rest @ ..] => {
            if *first != b'5' {
                return *first > b'5';
            }
            if has_nonzero(rest) {
                return true;
            }
            is_odd(kept)
        }
    }
}

// Makes the digits one more, but for what runs over their front.
fn add_one(digits: &mut Vec<u8>)
    requires { AreDigits digits.old.items }
    ensures { digits.new.items ≡ (one_more digits.old.items).digits }
{
    let len = digits.len();
    for done in 0..len {
        let i = len - done - 1;
        if digits[i] != b'9' {
            digits[i] += 1;
            return;
        }
        digits[i] = b'0';
    }
}

/// Drops so many digits at the end, and rounds those that are left by them, half to even.
pub(crate) fn round(count: usize, digits: &mut Vec<u8>)
    requires digits { AreDigits digits.old.items }
    requires enough { count ≤ length digits.old.items }
    ensures { digits.new.items ≡ rounded count digits.old.items }
{
    let cut = digits.len().saturating_sub(count);
    let (kept, dropped) = digits.as_slice().split_at(cut);
    let more = takes_more(kept, dropped);
    digits.truncate(cut);
    if more {
        add_one(digits);
    }
}

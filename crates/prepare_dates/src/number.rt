// Numbers of a few digits.
ghost use Rattle.std.specs.Prelude.{◌≡◌, ◌<◌, ◌≤◌, ◌^◌, IfSome, length, true};
ghost use Rattle.std.specs.Char.{is_ascii_digit};
ghost use Rattle.std.specs.List.{list_all};
ghost use Rattle.std.specs.Str.Parse.{digits_value};
ghost use Rattle.prepare_dates.specs.Days.{is_run, number_in};

fn are_digits(bytes: &[u8]) -> bool
    ensures { result ≡ list_all is_ascii_digit bytes.now }
{
    for i in 0..bytes.len() {
        if !bytes[i].is_ascii_digit() {
            return false;
        }
    }
    true
}

/// Whether these bytes are digits and nothing else, so many at least and at most.
pub(crate) fn is_run(least: usize, most: usize, run: &[u8]) -> bool
    ensures { result ≡ is_run least most run.now }
{
    least <= run.len() && run.len() <= most && are_digits(run)
}

// What digits are worth.
fn worth_of(digits: &[u8]) -> u16
    requires are { list_all is_ascii_digit digits.now ≡ true }
    requires few { length digits.now ≤ 4 }
    ensures value { result ≡ digits_value 10 digits.now }
    ensures bound { result < 10 ^ length digits.now }
{
    let mut worth = 0;
    for i in 0..digits.len() {
        worth = worth * 10 + (digits[i] - b'0') as u16;
    }
    worth
}

/// The number of a run of digits, so many at least and at most.
pub(crate) fn number_in(least: usize, most: usize, run: &[u8]) -> Option<u16>
    requires { most ≤ 4 }
    ensures value { result ≡ number_in least most run.now }
    ensures bound { IfSome result (λ n. n < 10 ^ most) }
{
    if is_run(least, most, run) {
        return Some(worth_of(run));
    }
    None
}

// Numbers as docs/TABLES.md spells them, read the plain way: digit by digit, in 128 bits.

// A number that a field spells.
#[derive(Clone, Copy)]
pub(crate) struct Spelled {
    // All digits as one whole number, with the sign; at most the ends of 128 bits.
    digits: i128,
    // How many digits stand behind the point; none without a point.
    pub(crate) places: u32,
    // Whether it is a zero behind `-`.
    is_minus_zero: bool,
}

fn are_digits(bytes: &[u8]) -> bool {
    for byte in bytes {
        if !byte.is_ascii_digit() {
            return false;
        }
    }
    bytes.len() > 0
}

// What stands before the first point, and what stands behind it.
fn around_point(bytes: &[u8]) -> (&[u8], Option<&[u8]>) {
    for place in 0..bytes.len() {
        if bytes[place] == b'.' {
            return (&bytes[..place], Some(&bytes[place + 1..]));
        }
    }
    (bytes, None)
}

// `0`, or digits that begin with another one.
fn is_whole_part(bytes: &[u8]) -> bool {
    match bytes {
        b"0" => true,
        [b'0', ..] => false,
        _ => are_digits(bytes),
    }
}

// The number of these digits behind another one.
fn with_digits(number: i128, digits: &[u8]) -> i128 {
    let mut number = number;
    for digit in digits {
        let value = i128::from(digit.wrapping_sub(b'0'));
        number = number.saturating_mul(10).saturating_add(value);
    }
    number
}

// The digits behind the point, if they are none or 1 to 9 digits.
fn fraction_of(behind: Option<&[u8]>) -> Option<&[u8]> {
    match behind {
        None => Some(b"".as_slice()),
        Some(digits) if are_digits(digits) && digits.len() < 10 => Some(digits),
        Some(_) => None,
    }
}

// A number without its sign.
fn without_sign(bytes: &[u8]) -> Option<(i128, u32)> {
    let (whole, behind) = around_point(bytes);
    if !is_whole_part(whole) {
        return None;
    }
    let fraction = fraction_of(behind)?;
    let digits = with_digits(with_digits(0, whole), fraction);
    Some((digits, u32::try_from(fraction.len()).ok()?))
}

// The number that a field spells, of any size.
pub(crate) fn number_of(field: &[u8]) -> Option<Spelled> {
    let (is_minus, bytes) = match field {
        [b'-', rest @ ..] => (true, rest),
        _ => (false, field),
    };
    let (size, places) = without_sign(bytes)?;
    Some(Spelled {
        digits: if is_minus {
            0i128.saturating_sub(size)
        } else {
            size
        },
        places,
        is_minus_zero: is_minus && size == 0,
    })
}

impl Spelled {
    // The whole number that it is with so many digits behind the point, where that has 64 bits.
    pub(crate) fn with_places(self, places: u32) -> Option<i64> {
        let mut value = self.digits;
        for _ in self.places..places {
            value = value.saturating_mul(10);
        }
        i64::try_from(value).ok()
    }

    // Whether it is what a column of whole numbers has.
    pub(crate) fn is_whole(self) -> bool {
        self.places == 0 && !self.is_minus_zero && self.with_places(0).is_some()
    }
}

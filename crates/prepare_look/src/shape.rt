// The shape of a field: its runs of digits and what stands between them.
ghost use Rattle.std.specs.Prelude.{◌≡◌};
ghost use Rattle.prepare_look.specs.Shapes as spec;

/// Runs of digits and the bytes between them. Lengths and numbers of bytes are told up to 99.
#[derive(Clone, Copy, Debug, PartialEq, Eq)]
pub(crate) struct Shape {
    /// How long the first run is, before the first byte that is no digit.
    pub first: u8,
    /// How long the second run is.
    pub second: u8,
    /// How long the last run is; the first, where there is no other.
    pub last: u8,
    /// How many bytes are no digits.
    pub parts: u8,
    /// The first and the last of them; 0 where there is none.
    pub first_part: u8,
    pub last_part: u8,
    /// All of them but the last are the same.
    pub is_even: bool,
    /// All runs between the first and the last have three digits.
    pub is_grouped: bool,
    /// The first digit is a zero.
    pub is_zero_first: bool,
    /// How many zeros stand at the end.
    pub zeros: u8,
    /// What the first and the second run are worth, where that is below 100.
    pub first_worth: u8,
    pub second_worth: u8,
}

fn more(count: u8) -> u8
    ensures { result ≡ spec.more count }
{
    if count < 99 {
        return count + 1;
    }
    count
}

fn worth(before: u8, digit: u8) -> u8
    ensures { result ≡ spec.worth_after before digit }
{
    if before < 10 && b'0' <= digit && digit <= b'9' {
        return before * 10 + (digit - b'0');
    }
    100
}

fn zeros(before: u8, byte: u8) -> u8
    ensures { result ≡ spec.zeros_after before byte }
{
    if byte == b'0' {
        return more(before);
    }
    0
}

impl Shape {
    fn none() -> Shape
        ensures { result ≡ spec.no_shape }
    {
        Shape {
            first: 0,
            second: 0,
            last: 0,
            parts: 0,
            first_part: 0,
            last_part: 0,
            is_even: true,
            is_grouped: true,
            is_zero_first: false,
            zeros: 0,
            first_worth: 0,
            second_worth: 0,
        }
    }

    // One digit more in the first run.
    fn in_first(self, digit: u8) -> Shape
        ensures { result ≡ spec.in_first self digit }
    {
        Shape {
            first: more(self.first),
            last: more(self.last),
            is_zero_first: if self.first == 0 {
                digit == b'0'
            } else {
                self.is_zero_first
            },
            zeros: zeros(self.zeros, digit),
            first_worth: worth(self.first_worth, digit),
            ..self
        }
    }

    fn in_second(self, digit: u8) -> Shape
        ensures { result ≡ spec.in_second self digit }
    {
        Shape {
            second: more(self.second),
            last: more(self.last),
            zeros: zeros(self.zeros, digit),
            second_worth: worth(self.second_worth, digit),
            ..self
        }
    }

    fn in_later(self, digit: u8) -> Shape
        ensures { result ≡ spec.in_later self digit }
    {
        Shape {
            last: more(self.last),
            zeros: zeros(self.zeros, digit),
            ..self
        }
    }

    fn behind_first(self, part: u8) -> Shape
        ensures { result ≡ spec.behind_first self part }
    {
        Shape {
            last: 0,
            parts: 1,
            first_part: part,
            last_part: part,
            zeros: 0,
            ..self
        }
    }

    fn behind_later(self, part: u8) -> Shape
        ensures { result ≡ spec.behind_later self part }
    {
        Shape {
            last: 0,
            parts: more(self.parts),
            last_part: part,
            is_even: self.is_even && self.last_part == self.first_part,
            is_grouped: self.is_grouped && self.last == 3,
            zeros: 0,
            ..self
        }
    }

    fn after(self, byte: u8) -> Shape
        ensures { result ≡ spec.shape_after self byte }
    {
        if byte.is_ascii_digit() {
            if self.parts == 0 {
                return self.in_first(byte);
            }
            if self.parts == 1 {
                return self.in_second(byte);
            }
            return self.in_later(byte);
        }
        if self.parts == 0 {
            return self.behind_first(byte);
        }
        self.behind_later(byte)
    }
}

/// The shape of a field.
pub(crate) fn shape_of(field: &[u8]) -> Shape
    ensures { result ≡ spec.shape_of field.now }
{
    let mut shape = Shape::none();
    for i in 0..field.len() {
        shape = shape.after(field[i]);
    }
    shape
}

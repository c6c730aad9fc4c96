// Where a number stands that is read byte by byte.
ghost use Rattle.std.specs.Prelude.{◌≡◌};
ghost use Rattle.prepare_numbers.specs.Spells.{after_byte, after_digit, after_mark, after_part, after_sign, after_zero};
ghost use Rattle.prepare_numbers.specs.Spells.{is_part, is_sign, is_whole};

/// Where a number stands that is read byte by byte, without a power of ten.
#[derive(Clone, Copy, Debug, PartialEq, Eq)]
pub(crate) enum Place {
    /// Before its first byte.
    Begin,
    /// Behind its sign.
    Signed,
    /// Behind so many digits of which the first is no zero, and no other byte but the sign.
    One,
    Two,
    Three,
    /// Behind digits that can't be parted any more: too many, or the first is a zero.
    Many,
    /// Behind what parts thousands, and so many digits more.
    Parted,
    PartOne,
    PartTwo,
    PartThree,
    /// Behind a decimal mark that no digit stands before.
    Bare,
    /// Behind the decimal mark.
    Marked,
    /// Behind digits behind the mark.
    Places,
    /// No number begins so.
    Wrong,
}

impl Place {
    fn after_digit(self) -> Place
        ensures { result ≡ after_digit self }
    {
        match self {
            Place::Begin | Place::Signed => Place::One,
            Place::One => Place::Two,
            Place::Two => Place::Three,
            Place::Three | Place::Many => Place::Many,
            Place::Parted => Place::PartOne,
            Place::PartOne => Place::PartTwo,
            Place::PartTwo => Place::PartThree,
            Place::Bare | Place::Marked | Place::Places => Place::Places,
            Place::PartThree | Place::Wrong => Place::Wrong,
        }
    }

    fn after_zero(self) -> Place
        ensures { result ≡ after_zero self }
    {
        match self {
            Place::Begin | Place::Signed => Place::Many,
            _ => self.after_digit(),
        }
    }

    fn after_mark(self) -> Place
        ensures { result ≡ after_mark self }
    {
        match self {
            Place::Begin | Place::Signed => Place::Bare,
            Place::One | Place::Two | Place::Three | Place::Many | Place::PartThree =>
                Place::Marked,
            _ => Place::Wrong,
        }
    }

    fn after_part(self) -> Place
        ensures { result ≡ after_part self }
    {
        match self {
            Place::One | Place::Two | Place::Three | Place::PartThree => Place::Parted,
            _ => Place::Wrong,
        }
    }

    fn after_sign(self) -> Place
        ensures { result ≡ after_sign self }
    {
        match self {
            Place::Begin => Place::Signed,
            _ => Place::Wrong,
        }
    }

    /// Whether a number may end here.
    pub(crate) fn is_whole(self) -> bool
        ensures { result ≡ is_whole self }
    {
        match self {
            Place::One | Place::Two | Place::Three | Place::Many => true,
            Place::PartThree | Place::Marked | Place::Places => true,
            _ => false,
        }
    }

    /// The place behind one more byte.
    pub(crate) fn after_byte(self, mark: u8, parts: Option<u8>, byte: u8) -> Place
        ensures { result ≡ after_byte mark parts self byte }
    {
        if byte.is_ascii_digit() {
            if byte == b'0' {
                return self.after_zero();
            }
            return self.after_digit();
        }
        if byte == mark {
            return self.after_mark();
        }
        if is_part(parts, byte) {
            return self.after_part();
        }
        if is_sign(byte) {
            return self.after_sign();
        }
        Place::Wrong
    }
}

// Whether the byte parts thousands.
fn is_part(parts: Option<u8>, byte: u8) -> bool
    ensures { result ≡ is_part parts byte }
{
    match parts {
        Some(part) => part == byte,
        None => false,
    }
}

// Whether the byte is a plus or a minus.
fn is_sign(byte: u8) -> bool
    ensures { result ≡ is_sign byte }
{
    byte == b'-' || byte == b'+'
}

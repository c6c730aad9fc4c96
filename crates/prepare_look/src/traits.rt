// What bytes a field has.
ghost use Rattle.std.specs.Prelude.{◌≡◌};
ghost use Rattle.prepare_look.specs.Traits as spec;

/// What bytes a field has.
#[derive(Clone, Copy, Debug, PartialEq, Eq)]
pub(crate) struct Traits {
    pub has_digit: bool,
    /// One of the sign of a currency: `$`, or of `£` and `€` in UTF-8.
    pub has_money: bool,
    pub has_percent: bool,
    /// One that is none of these, and no mark, blank or sign of a number.
    pub has_other: bool,
}

fn is_money(byte: u8) -> bool
    ensures { result ≡ spec.is_money byte }
{
    byte == b'$' || byte == 0xC2 || byte == 0xA3 || byte == 0xE2 || byte == 0x82 || byte == 0xAC
}

fn is_mark(byte: u8) -> bool
    ensures { result ≡ spec.is_mark byte }
{
    byte == b'.' || byte == b',' || byte == b' ' || byte == b'-' || byte == b'+'
}

impl Traits {
    fn after(self, byte: u8) -> Traits
        ensures { result ≡ spec.traits_after self byte }
    {
        let is_digit = byte.is_ascii_digit();
        let is_money = is_money(byte);
        let is_percent = byte == b'%';
        let is_other = !is_digit && !is_money && !is_percent && !is_mark(byte);
        Traits {
            has_digit: self.has_digit || is_digit,
            has_money: self.has_money || is_money,
            has_percent: self.has_percent || is_percent,
            has_other: self.has_other || is_other,
        }
    }
}

/// What bytes a field has.
pub(crate) fn traits_of(field: &[u8]) -> Traits
    ensures { result ≡ spec.traits_of field.now }
{
    let mut traits = Traits {
        has_digit: false,
        has_money: false,
        has_percent: false,
        has_other: false,
    };
    for i in 0..field.len() {
        traits = traits.after(field[i]);
    }
    traits
}

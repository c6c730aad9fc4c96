// A number as a field spells it.

/// A number as a field spells it: `value` times 10 to the power of minus `places`.
#[derive(Clone, Copy, Debug, PartialEq, Eq)]
pub struct Number {
    /// Its digits without the point, with its sign.
    pub value: i64,
    /// The digits after the point, 0 to 9.
    pub places: u32,
    /// It is spelled as a zero with a sign, as `-0` or `-0.00`.
    pub zero_below: bool,
}

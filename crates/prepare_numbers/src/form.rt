// How numbers are spelled.

/// How the numbers of an export are spelled.
#[derive(Clone, Copy, Debug, PartialEq, Eq)]
pub struct Form {
    /// The decimal mark.
    pub mark: u8,
    /// The byte that parts the whole digits in groups of three, if there is one.
    pub parts: Option<u8>,
    /// A power of ten may stand behind the number, as in `1.5e3`.
    pub exponents: bool,
}

// Where a part of a text stands.

/// The bytes of a text from `from` up to, not including, `to`, counted from its first byte.
#[derive(Clone, Copy, Debug, PartialEq, Eq)]
pub struct Span {
    /// The first byte of the part.
    pub from: u32,
    /// The byte behind the part.
    pub to: u32,
}

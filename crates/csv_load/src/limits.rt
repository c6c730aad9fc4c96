// The limits of a table's text.

/// The most bytes that a table's text has.
pub const MOST_TEXT_BYTES: usize = 268435456;

/// The most bytes that a name in a header has.
pub const MOST_NAME_BYTES: usize = 128;

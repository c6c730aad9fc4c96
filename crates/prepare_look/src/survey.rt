// What is seen in the records of an export.
ghost use Rattle.std.specs.Prelude.{◌≡◌, ◌*◌, vec_len};
ghost use Rattle.prepare_look.specs.declared.kind.TheConstants.{KINDS};

use crate::seen::Seen;

/// What is seen in records of which each should have so many fields.
#[derive(Debug, Drop)]
pub struct Survey {
    /// How many fields a record should have.
    pub width: usize,
    /// How many records there are.
    pub records: u64,
    /// Those with fewer fields, those with more, and those that stand on several lines.
    pub short: Seen,
    pub long: Seen,
    pub folded: Seen,
    pub(crate) cells: Vec<Seen>,
    ghost sized: { vec_len cells ≡ width * KINDS },
}

// A count for each number of fields.
ghost use Rattle.std.specs.Prelude.{◌≡◌, ◌+◌, vec_len};
ghost use Rattle.prepare_page.specs.declared.counts.TheConstants.{WIDEST};

/// From so many fields on, records are told as if they had so many.
pub const WIDEST: usize = 4096;

/// How many records have how many fields.
#[derive(Drop)]
pub struct Widths {
    /// How many records there are.
    pub records: u64,
    pub(crate) counts: Vec<u64>,
    ghost sized: { vec_len counts ≡ WIDEST + 1 },
}

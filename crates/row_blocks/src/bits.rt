// Rows that the bits of a word choose.
ghost use Rattle.std.specs.Prelude.{◌≡◌, ◌<◌, ◌==◌};
ghost use Rattle.std.specs.Int.{bit_at};

/// Whether a row is chosen: whether its bit is set.
pub fn is_chosen(word: u64, row: u32) -> bool
    requires { row < 64 }
    ensures { result ≡ (bit_at word row == 1) }
{
    word >> row & 1 == 1
}

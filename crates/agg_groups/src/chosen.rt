// The chosen rows of a block, one after another.
ghost use Rattle.std.specs.Prelude.{◌≡◌, ◌<◌, ◌≤◌, ℕ, IfNone, IfSome};
ghost use Rattle.std.specs.Int.{bit_at};

/// The next chosen row, from a row on. Rows that aren't chosen cost nothing.
pub(crate) fn next_chosen(word: u64, from: u32) -> Option<u32>
    ensures none { IfNone result ((i : ℕ) → from ≤ i → bit_at word i ≡ 0) }
    ensures from { IfSome result (λ m. from ≤ m) }
    ensures chosen { IfSome result (λ m. bit_at word m ≡ 1) }
    ensures first { IfSome result (λ m. (i : ℕ) → from ≤ i → i < m → bit_at word i ≡ 0) }
    ensures below { IfSome result (λ m. m < 64) }
{
    if from >= 64 {
        return None;
    }
    let rest = word >> from;
    if rest == 0 {
        return None;
    }
    Some(from + rest.trailing_zeros())
}

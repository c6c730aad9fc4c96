// Words as 64 bits.
ghost use Rattle.std.specs.Prelude.{◌≡◌, ◌<◌, ◌+◌, ◌&&◌, ◌||◌, ℕ, not, true};
ghost use Rattle.filter_zones.specs.Masks.{is_set};

pub(crate) fn every_bit() -> u64
    ensures { (k : ℕ) → k < 64 → is_set result k ≡ true }
{
    u64::MAX
}

// The word moved up by one, with a bit below. It costs one step, where a bit put in at a place costs three.
pub(crate) fn pushed(word: u64, bit: bool) -> u64
    ensures first { is_set result 0 ≡ bit }
    ensures others { (j : ℕ) → j < 63 → is_set result (j + 1) ≡ is_set word j }
{
    word << 1 | (bit as u64)
}

// The bits of a word that another lacks.
pub(crate) fn without(word: u64, other: u64) -> u64
    ensures { (k : ℕ) → k < 64 → is_set result k ≡ (is_set word k && not (is_set other k)) }
{
    word & !other
}

pub(crate) fn either(a: u64, b: u64) -> u64
    ensures { (k : ℕ) → is_set result k ≡ (is_set a k || is_set b k) }
{
    a | b
}

pub(crate) fn both(a: u64, b: u64) -> u64
    ensures { (k : ℕ) → is_set result k ≡ (is_set a k && is_set b k) }
{
    a & b
}

// The bits that a word lacks.
pub(crate) fn complement(word: u64) -> u64
    ensures { (k : ℕ) → k < 64 → is_set result k ≡ not (is_set word k) }
{
    !word
}

// The truths that a condition may have in each of some chunks, a bit for each chunk.
ghost use Rattle.std.specs.Prelude.{◌≡◌, ◌<◌, ◌==◌, ℕ, false, if◌then◌else◌};
ghost use Rattle.filter_zones.specs.Truth.{least, greatest};
ghost use Rattle.filter_zones.specs.Possible.{opposites, pairs};
ghost use Rattle.filter_zones.specs.Masks as spec;

use crate::truth_set::TruthSet;

// Of 64 chunks, those in which each truth is possible: chunk `k` has the bit `k` of each word.
#[derive(Clone, Copy)]
pub(crate) struct Masks {
    pub can_false: u64,
    pub can_unknown: u64,
    pub can_true: u64,
}

// The word with a bit that wasn't set.
fn with_bit(word: u64, k: u32, bit: bool) -> u64
    requires in_word { k < 64 }
    requires clear { spec.is_set word k ≡ false }
    ensures { (j : ℕ) → spec.is_set result j ≡ (if j == k then bit else spec.is_set word j) }
{
    word | (bit as u64) << k
}

impl Masks {
    // No truth is possible in any chunk.
    pub(crate) const NONE: Masks = Masks {
        can_false: 0,
        can_unknown: 0,
        can_true: 0,
    };

    // Puts in the truths of a chunk in which none is possible so far.
    pub(crate) fn add(&mut self, k: u32, truths: TruthSet)
        requires in_word { k < 64 }
        requires clear { spec.truths_at self.old k ≡ spec.no_truths }
        ensures { (j : ℕ) → spec.truths_at self.new j ≡ (if j == k then truths else spec.truths_at self.old j) }
    {
        self.can_false = with_bit(self.can_false, k, truths.can_false);
        self.can_unknown = with_bit(self.can_unknown, k, truths.can_unknown);
        self.can_true = with_bit(self.can_true, k, truths.can_true);
    }

    // The truths of a chunk.
    pub(crate) fn at(self, k: u32) -> TruthSet
        requires { k < 64 }
        ensures { result ≡ spec.truths_at self k }
    {
        TruthSet {
            can_false: self.can_false >> k & 1 == 1,
            can_unknown: self.can_unknown >> k & 1 == 1,
            can_true: self.can_true >> k & 1 == 1,
        }
    }

    // The least of a truth of each set, over all pairs: AND.
    pub(crate) fn and(self, other: Masks) -> Masks
        ensures { (k : ℕ) → spec.truths_at result k ≡ pairs least (spec.truths_at self k) (spec.truths_at other k) }
    {
        let (a, b) = (self, other);
        Masks {
            can_false: a.can_false & (b.can_false | b.can_unknown | b.can_true)
                | b.can_false & (a.can_unknown | a.can_true),
            can_unknown: a.can_unknown & (b.can_unknown | b.can_true) | a.can_true & b.can_unknown,
            can_true: a.can_true & b.can_true,
        }
    }

    // The greatest of a truth of each set, over all pairs: OR.
    pub(crate) fn or(self, other: Masks) -> Masks
        ensures { (k : ℕ) → spec.truths_at result k ≡ pairs greatest (spec.truths_at self k) (spec.truths_at other k) }
    {
        self.opposites().and(other.opposites()).opposites()
    }

    // The opposite of each truth: NOT.
    pub(crate) fn opposites(self) -> Masks
        ensures { (k : ℕ) → spec.truths_at result k ≡ opposites (spec.truths_at self k) }
    {
        Masks {
            can_false: self.can_true,
            can_unknown: self.can_unknown,
            can_true: self.can_false,
        }
    }
}

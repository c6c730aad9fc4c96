// A set of columns.
ghost use Rattle.std.specs.Prelude.{◌≡◌, ◌<◌, ◌≤◌, ◌*◌, ◌&&◌, ◌||◌, ◌==◌, ℕ, []};
ghost use Rattle.std.specs.Prelude.{List, IfNone, IfSome, length, not, false};
ghost use Rattle.table_sets.specs.Sets.{AreMembers, bit_of, has, numbers_below};
ghost use Rattle.table_sets.specs.declared.limits.TheConstants.{MOST_COLUMNS};

use crate::limits::MOST_COLUMNS;
use std::marker::Model;

/// A set of numbers of columns, each below `MOST_COLUMNS`, seen as the rising list of its members.
///
/// It is a fixed array of bits, and none of its calls takes memory.
#[derive(Drop)]
pub struct ColumnSet {
    words: [u64; 1],
}

impl Model for ColumnSet {
    ghost Value = { List ℕ };

    ghost view = { λ s. numbers_below (bit_of s.words) MOST_COLUMNS };
}

impl ColumnSet {
    /// The set without members.
    pub fn empty() -> ColumnSet
        ensures { result ≡ [] }
    {
        ColumnSet { words: [0; 1] }
    }

    /// The same set once more.
    pub fn copy(&self) -> ColumnSet
        ensures { result ≡ self.now }
    {
        ColumnSet { words: self.words }
    }

    /// Whether the number is a member. A number from `MOST_COLUMNS` on is none.
    pub fn has(&self, c: u32) -> bool
        ensures { result ≡ has self.now c }
    {
        c < MOST_COLUMNS && self.words[(c / 64) as usize] >> (c % 64) & 1 == 1
    }

    /// Makes the number a member.
    pub fn insert(&mut self, c: u32)
        requires { c < MOST_COLUMNS }
        ensures { (x : ℕ) → has self.new x ≡ (has self.old x || x == c) }
    {
        self.words[(c / 64) as usize] |= 1 << (c % 64);
    }

    /// How many members there are.
    pub fn len(&self) -> u32
        ensures len { result ≡ length self.now }
        ensures members { AreMembers MOST_COLUMNS self.now }
    {
        (self.words[0] % 65536).count_ones()
    }
}

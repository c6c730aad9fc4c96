// A set of chunks.
ghost use Rattle.std.specs.Prelude.{◌≡◌, ◌<◌, ◌≤◌, ◌*◌, ◌&&◌, ◌||◌, ◌==◌, ℕ, []};
ghost use Rattle.std.specs.Prelude.{List, IfNone, IfSome, length, not, false};
ghost use Rattle.table_sets.specs.Sets.{AreMembers, IsLeastFrom, bit_of, has, numbers_below};
ghost use Rattle.table_sets.specs.declared.limits.TheConstants.{MOST_CHUNKS};

use crate::limits::MOST_CHUNKS;
use crate::words::count_members;
use std::marker::Model;

/// A set of numbers of chunks, each below `MOST_CHUNKS`, seen as the rising list of its members.
///
/// It is a fixed array of bits, and none of its calls takes memory.
#[derive(Drop)]
pub struct ChunkSet {
    words: [u64; 16],
}

impl Model for ChunkSet {
    ghost Value = { List ℕ };

    ghost view = { λ s. numbers_below (bit_of s.words) MOST_CHUNKS };
}

impl ChunkSet {
    /// The set without members.
    pub fn empty() -> ChunkSet
        ensures { result ≡ [] }
    {
        ChunkSet { words: [0; 16] }
    }

    /// The same set once more.
    pub fn copy(&self) -> ChunkSet
        ensures { result ≡ self.now }
    {
        ChunkSet { words: self.words }
    }

    /// Whether the number is a member. A number from `MOST_CHUNKS` on is none.
    pub fn has(&self, c: u32) -> bool
        ensures { result ≡ has self.now c }
    {
        c < MOST_CHUNKS && self.words[(c / 64) as usize] >> (c % 64) & 1 == 1
    }

    /// Makes the number a member.
    pub fn insert(&mut self, c: u32)
        requires { c < MOST_CHUNKS }
        ensures { (x : ℕ) → has self.new x ≡ (has self.old x || x == c) }
    {
        self.words[(c / 64) as usize] |= 1 << (c % 64);
    }

    /// Makes the number no member.
    pub fn remove(&mut self, c: u32)
        requires { c < MOST_CHUNKS }
        ensures { (x : ℕ) → has self.new x ≡ (has self.old x && not (x == c)) }
    {
        self.words[(c / 64) as usize] &= !(1 << (c % 64));
    }

    /// How many members there are.
    pub fn len(&self) -> u32
        ensures len { result ≡ length self.now }
        ensures members { AreMembers MOST_CHUNKS self.now }
    {
        count_members(&self.words)
    }

    /// The least member that is at least `c`; None where there is none.
    pub fn least_from(&self, c: u32) -> Option<u32>
        ensures none { IfNone result ((x : ℕ) → c ≤ x → has self.now x ≡ false) }
        ensures least { IfSome result (λ m. IsLeastFrom self.now c m) }
    {
        let mut from = c;
        while from < MOST_CHUNKS {
            let word = self.words[(from / 64) as usize] >> (from % 64);
            if word != 0 {
                return Some(from + word.trailing_zeros());
            }
            from = (from / 64 + 1) * 64;
        }
        None
    }
}

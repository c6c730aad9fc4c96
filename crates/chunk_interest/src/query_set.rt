//! A set of queries.
ghost use Rattle.std.specs.Prelude.{◌≡◌, ◌<◌, ◌≤◌, ◌&&◌, ◌||◌, ◌==◌, ℕ, [], not, if◌then◌else◌};
ghost use Rattle.scan_story.specs.Counting.{has, count_below};

use std::marker::Model;

/// A set of numbers below 320, among them those of all queries, in a fixed array of bits. No call takes memory.
#[derive(Drop)]
pub struct QuerySet {
    words: [u64; 5],
}

impl Model for QuerySet {
    ghost use Rattle.std.specs.Prelude.{ℕ, List};
    ghost use Rattle.table_sets.specs.Sets.{bit_of, numbers_below};

    ghost Value = { List ℕ };

    ghost view = { λ s. numbers_below (bit_of s.words) 320 };
}

impl QuerySet {
    /// The set without members.
    pub fn empty() -> QuerySet
        ensures { result ≡ [] }
    {
        QuerySet { words: [0; 5] }
    }

    /// Makes the number a member, or no member.
    pub fn put(&mut self, q: u32, is: bool)
        requires { q < 320 }
        ensures { (x : ℕ) → has self.new x ≡ (if x == q then is else has self.old x) }
    {
        if is {
            self.insert(q);
        } else {
            self.remove(q);
        }
    }

    fn insert(&mut self, q: u32)
        requires { q < 320 }
        ensures { (x : ℕ) → has self.new x ≡ (has self.old x || x == q) }
    {
        self.words[(q / 64) as usize] |= 1 << (q % 64);
    }

    fn remove(&mut self, q: u32)
        requires { q < 320 }
        ensures { (x : ℕ) → has self.new x ≡ (has self.old x && not (x == q)) }
    {
        self.words[(q / 64) as usize] &= !(1 << (q % 64));
    }

    /// Whether the number is a member.
    pub fn has(&self, q: u32) -> bool
        ensures { result ≡ has self.now q }
    {
        q < 320 && self.words[(q / 64) as usize] >> (q % 64) & 1 == 1
    }

    /// The numbers that are members of either.
    pub fn either(&self, other: &QuerySet) -> QuerySet
        ensures { (x : ℕ) → has result x ≡ (has self.now x || has other.now x) }
    {
        let mut words = [0; 5];
        for i in 0..5 {
            words[i] = self.words[i] | other.words[i];
        }
        QuerySet { words }
    }

    /// The numbers that are members of both.
    pub fn both(&self, other: &QuerySet) -> QuerySet
        ensures { (x : ℕ) → has result x ≡ (has self.now x && has other.now x) }
    {
        let mut words = [0; 5];
        for i in 0..5 {
            words[i] = self.words[i] & other.words[i];
        }
        QuerySet { words }
    }

    /// How many numbers are members of both.
    pub fn common(&self, other: &QuerySet) -> u32
        ensures { result ≡ count_below (λ x. has self.now x && has other.now x) 320 }
    {
        let mut count = 0;
        for i in 0..5 {
            let word = self.words[i];
            if word != 0 {
                count += (word & other.words[i]).count_ones();
            }
        }
        count
    }

    /// How many members there are.
    pub fn size(&self) -> u32
        ensures size { result ≡ count_below (has self.now) 320 }
        ensures few { result ≤ 320 }
    {
        let mut count = 0;
        for i in 0..5 {
            count += self.words[i].count_ones();
        }
        count
    }
}

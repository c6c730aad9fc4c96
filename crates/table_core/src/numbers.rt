// Whole numbers or none, by place.
ghost use Rattle.std.specs.Prelude.{◌≡◌, ◌<◌, ◌≤◌, ◌*◌, ◌++◌, ◌∷◌, [], ℕ, ℤ, List, Option};
ghost use Rattle.std.specs.Prelude.{None, is_none, IfOk, OnOk, OnErr, length, slice_index_or};
ghost use Rattle.table_core.specs.Numbers.{AreNullBits, number_or_zero, numbers_of};
ghost use Rattle.table_sets.specs.Sets.{bit_of};

use std::alloc::{AllocError, Global};
use std::marker::Model;

/// Whole numbers of 64 bits or none, seen as their list: eight bytes and a null bit each.
#[derive(Drop)]
pub struct Numbers {
    values: Vec<i64>,
    nulls: Vec<u64>,
}

impl Model for Numbers {
    ghost Value = { List (Option ℤ) };

    ghost view = { λ s. numbers_of s.values.items s.nulls.items };

    ghost invariant = { λ s. AreNullBits s.values.items s.nulls.items };
}

// Whether the bit of a place is set.
fn is_set(words: &[u64], place: usize) -> bool
    requires { place < 64 * length words.now }
    ensures { result ≡ bit_of words.now place }
{
    words[place / 64] >> (place % 64) & 1 == 1
}

// Sees that there is a bit for a place behind the last value. No other bit changes.
fn make_room(words: &mut Vec<u64>, place: usize) -> Result<(), AllocError>
    requires { place ≤ 64 * length words.old.items }
    ensures room { OnOk result (place < 64 * length words.new.items) }
    ensures bits { (i : ℕ) → bit_of words.new.items i ≡ bit_of words.old.items i }
    ensures more { length words.old.items ≤ length words.new.items }
{
    if place / 64 < words.len() {
        return Ok(());
    }
    words.push(0)?;
    Ok(())
}

impl Numbers {
    /// No numbers.
    pub fn new(alloc: Global) -> Self
        ensures { result ≡ [] }
    {
        Numbers {
            values: Vec::new(alloc),
            nulls: Vec::new(alloc),
        }
    }

    /// No numbers, with room for so many. The error means out of memory.
    pub fn with_capacity(alloc: Global, count: usize) -> Result<Self, AllocError>
        ensures { IfOk result (λ numbers. numbers ≡ []) }
    {
        Ok(Numbers {
            values: Vec::with_capacity(alloc, count)?,
            nulls: Vec::with_capacity(alloc, count.div_ceil(64))?,
        })
    }

    /// How many places there are, with and without a number.
    pub fn len(&self) -> usize
        ensures { result ≡ length self.now }
    {
        self.values.len()
    }

    /// The number at a place, if there is one.
    pub fn get(&self, place: usize) -> Option<i64>
        requires { place < length self.now }
        ensures { result ≡ slice_index_or self.now place None }
    {
        if is_set(self.nulls.as_slice(), place) {
            return None;
        }
        Some(self.values[place])
    }

    /// Whether there is no number at a place.
    pub fn is_none(&self, place: usize) -> bool
        requires { place < length self.now }
        ensures { result ≡ is_none (slice_index_or self.now place None) }
    {
        is_set(self.nulls.as_slice(), place)
    }

    /// The number at a place, or 0 where there is none.
    pub fn or_zero(&self, place: usize) -> i64
        requires { place < length self.now }
        ensures { result ≡ number_or_zero (slice_index_or self.now place None) }
    {
        self.values[place]
    }

    /// Puts a number or none at the end. The error means out of memory, and the numbers are then as before.
    pub fn push(&mut self, value: Option<i64>) -> Result<(), AllocError>
        ensures ok { OnOk result (self.new ≡ self.old ++ value ∷ []) }
        ensures err { OnErr result (self.new ≡ self.old) }
    {
        let place = self.values.len();
        make_room(&mut self.nulls, place)?;
        match value {
            Some(number) => {
                self.values.push(number)?;
                Ok(())
            }
            None => {
                self.values.push(0)?;
                self.nulls[place / 64] |= 1 << (place % 64);
                Ok(())
            }
        }
    }
}

// Codes of texts or none, by place.
ghost use Rattle.std.specs.Prelude.{◌≡◌, ◌<◌, ◌++◌, ◌∷◌, [], ℕ, List, Option, None};
ghost use Rattle.std.specs.Prelude.{IfOk, OnOk, OnErr, length, set, slice_index_or};
ghost use Rattle.table_core.specs.Codes.{IsCode, code_of, codes_of};

use std::alloc::{AllocError, Global};
use std::marker::Model;

/// Places of texts, or codes in a dictionary, or none, seen as their list: four bytes each.
#[derive(Drop)]
pub struct Codes {
    codes: Vec<u32>,
}

impl Model for Codes {
    ghost Value = { List (Option ℕ) };

    ghost view = { λ s. codes_of s.codes.items };
}

// What stands for a code or none.
fn word_of(code: Option<u32>) -> u32
    requires { IsCode code }
    ensures { code_of result ≡ code }
{
    match code {
        None => u32::MAX,
        Some(code) => code,
    }
}

impl Codes {
    /// No codes.
    pub fn new(alloc: Global) -> Self
        ensures { result ≡ [] }
    {
        Codes {
            codes: Vec::new(alloc),
        }
    }

    /// No codes, with room for so many. The error means out of memory.
    pub fn with_capacity(alloc: Global, count: usize) -> Result<Self, AllocError>
        ensures { IfOk result (λ codes. codes ≡ []) }
    {
        Ok(Codes {
            codes: Vec::with_capacity(alloc, count)?,
        })
    }

    /// How many places there are, with and without a code.
    pub fn len(&self) -> usize
        ensures { result ≡ length self.now }
    {
        self.codes.len()
    }

    /// The code at a place, if there is one.
    pub fn get(&self, place: usize) -> Option<u32>
        requires { place < length self.now }
        ensures { result ≡ slice_index_or self.now place None }
    {
        let code = self.codes[place];
        if code == u32::MAX {
            return None;
        }
        Some(code)
    }

    /// Puts a code below 4294967295, or none, at the end. The error means out of memory, and the codes are then as
    /// before.
    pub fn push(&mut self, code: Option<u32>) -> Result<(), AllocError>
        requires { IsCode code }
        ensures ok { OnOk result (self.new ≡ self.old ++ code ∷ []) }
        ensures err { OnErr result (self.new ≡ self.old) }
    {
        self.codes.push(word_of(code))?;
        Ok(())
    }

    /// Puts a code below 4294967295, or none, in place of another.
    pub fn set(&mut self, place: usize, code: Option<u32>)
        requires there { place < length self.old }
        requires code { IsCode code }
        ensures { self.new ≡ set self.old place code }
    {
        self.codes[place] = word_of(code);
    }
}

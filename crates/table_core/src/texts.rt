// A list of texts, kept as one run of bytes and the place where each text ends.
ghost use Rattle.std.specs.Prelude.{◌≡◌, ◌<◌, ◌^◌, [], ◌∷◌, ◌++◌, List, ℕ, OnOk};
ghost use Rattle.std.specs.Prelude.{OnErr, ◌≤◌, length, slice_index, slice_index_or};
ghost use Rattle.table_core.specs.Texts.{CutsAll, cut};

use std::alloc::{AllocError, Global};
use std::marker::Model;

/// A list of texts. No text has an allocation of its own.
#[derive(Drop)]
pub struct Texts {
    bytes: Vec<u8>,
    ends: Vec<u32>,
}

impl Model for Texts {
    ghost Value = { List (List ℕ) };

    ghost view = { λ s. cut 0 s.ends.items s.bytes.items };

    ghost invariant = { λ s. CutsAll 0 s.ends.items (length s.bytes.items) };
}

// Where the text at a place begins.
fn start_of(ends: &[u32], place: usize) -> usize
    requires { place ≤ length ends.now }
    ensures { result ≡ slice_index (0 ∷ ends.now) place }
{
    if place == 0 {
        return 0;
    }
    ends[place - 1] as usize
}

// The text at a place of those that end at these places.
fn text_at<'a>(bytes: &'a [u8], ends: &[u32], place: usize) -> &'a [u8]
    requires there { place < length ends.now }
    requires cuts { CutsAll 0 ends.now (length bytes.now) }
    ensures { result.now ≡ slice_index_or (cut 0 ends.now bytes.now) place [] }
{
    let start = start_of(ends, place);
    let end = ends[place] as usize;
    &bytes[start..end]
}

impl Texts {
    /// No texts.
    pub fn new(alloc: Global) -> Self
        ensures { result ≡ [] }
    {
        Texts {
            bytes: Vec::new(alloc),
            ends: Vec::new(alloc),
        }
    }

    /// How many texts there are.
    pub fn len(&self) -> usize
        ensures { result ≡ length self.now }
    {
        self.ends.len()
    }

    /// Puts a text at the end. The error means out of memory, or more than 4294967295 bytes of all texts together.
    /// After an `Err` the texts are as before.
    pub fn push(&mut self, text: &[u8]) -> Result<(), AllocError>
        ensures ok { OnOk result (self.new ≡ self.old ++ text.now ∷ []) }
        ensures err { OnErr result (self.new ≡ self.old) }
    {
        let start = self.bytes.len();
        if text.len() > 4294967295 || start > 4294967295 - text.len() {
            return Err(AllocError);
        }
        let end = start + text.len();
        self.bytes.extend_from_slice(text)?;
        match self.ends.push(end as u32) {
            Ok(()) => return Ok(()),
            Err(_) => {
                self.bytes.truncate(start);
                return Err(AllocError);
            }
        }
    }

    /// The text at a place.
    pub fn get(&self, place: usize) -> &[u8]
        requires { place < length self.now }
        ensures { result.now ≡ slice_index_or self.now place [] }
    {
        text_at(self.bytes.as_slice(), self.ends.as_slice(), place)
    }
}

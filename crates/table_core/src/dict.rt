// A rising list of distinct texts, and the place of a text in it.
ghost use Rattle.std.specs.Prelude.{◌≡◌, ◌<◌, ◌-◌, [], List, ℕ, IfErr, IfOk, OnErr};
ghost use Rattle.std.specs.Prelude.{length, slice_index_or, Contains, false};
ghost use Rattle.std.specs.Ordering.{is_gt};
ghost use Rattle.std.specs.declared.cmp.Ordering.TheVariants.{Less};
ghost use Rattle.table_core.specs.Dict.{Added, IsCode, IsDict, IsGap, text_cmp};

use crate::texts::Texts;
use std::alloc::{AllocError, Global};
use std::cmp::Ordering;
use std::marker::Model;

/// The dictionary of a column: its distinct texts in rising order, seen as their list.
///
/// The code of a text is its place, so codes are ordered as their texts are.
#[derive(Drop)]
pub struct Dict {
    texts: Texts,
}

impl Model for Dict {
    ghost Value = { List (List ℕ) };

    ghost view = { λ s. s.texts };

    ghost invariant = { λ s. IsDict s.texts };
}

impl Dict {
    /// A dictionary without texts. It takes no memory yet.
    pub fn new(alloc: Global) -> Self
        ensures { result ≡ [] }
    {
        Dict {
            texts: Texts::new(alloc),
        }
    }

    /// How many texts there are. It takes no memory.
    pub fn len(&self) -> u32
        ensures len { result ≡ length self.now }
        ensures rises { IsDict self.now }
    {
        self.texts.len() as u32
    }

    /// The text of a code. It takes no memory.
    pub fn text_of(&self, code: u32) -> &[u8]
        requires { code < length self.now }
        ensures { result.now ≡ slice_index_or self.now code [] }
    {
        self.texts.get(code as usize)
    }

    /// The code of a text; or, where the text isn't there, how many texts are smaller. It takes no memory.
    pub fn code_of(&self, text: &[u8]) -> Result<u32, u32>
        ensures found { IfOk result (λ code. IsCode self.now text.now code) }
        ensures between { IfErr result (λ place. IsGap self.now text.now place) }
        ensures missing { OnErr result (Contains self.now text.now → ⊥) }
    {
        let mut low: u32 = 0;
        let mut high = self.texts.len() as u32;
        while low < high {
            let middle = low + (high - low) / 2;
            match self.texts.get(middle as usize).cmp(&text) {
                Ordering::Less => low = middle + 1,
                Ordering::Equal => return Ok(middle),
                Ordering::Greater => high = middle,
            }
        }
        Err(low)
    }

    /// Puts a text that isn't below the last one at the end, unless it is the last one, and answers its code.
    ///
    /// Out of memory, or of codes, the texts stay as they were.
    pub fn push(&mut self, text: &[u8]) -> Result<u32, AllocError>
        requires { 0 < length self.old → is_gt (text_cmp (slice_index_or self.old (length self.old - 1) []) text.now)
            ≡ false }
        ensures ok { IfOk result (λ code. Added self.old text.now self.new code) }
        ensures err { OnErr result (self.new ≡ self.old) }
        ensures rises { IsDict self.new }
    {
        let len = self.texts.len();
        if len == 0 {
            return self.put(text);
        }
        match self.texts.get(len - 1).cmp(&text) {
            Ordering::Equal => Ok((len - 1) as u32),
            Ordering::Less => self.put(text),
            Ordering::Greater => unreachable!(),
        }
    }

    // Puts a text above all others at the end.
    fn put(&mut self, text: &[u8]) -> Result<u32, AllocError>
        requires { 0 < length self.old → text_cmp (slice_index_or self.old (length self.old - 1) []) text.now ≡ Less }
        ensures ok { IfOk result (λ code. Added self.old text.now self.new code) }
        ensures err { OnErr result (self.new ≡ self.old) }
        ensures rises { IsDict self.new }
    {
        let len = self.texts.len();
        if len >= 4294967295 {
            return Err(AllocError);
        }
        self.texts.push(text)?;
        Ok(len as u32)
    }
}

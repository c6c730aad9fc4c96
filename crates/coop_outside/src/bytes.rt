// A list of bytes that is owned.
ghost use Rattle.std.specs.Prelude.{◌≡◌, ◌++◌, List, ℕ, length, OnOk, OnErr};

use std::alloc::AllocError;
use std::marker::Model;

/// Bytes, seen by contracts as the list of their values. They are made from a `Vec` and give it back, each
/// without taking memory.
#[derive(Debug, Drop)]
pub struct Bytes {
    items: Vec<u8>,
}

impl Model for Bytes {
    ghost Value = { List ℕ };

    ghost view = { λ s. s.items.items };
}

impl Bytes {
    /// These bytes.
    pub fn new(items: Vec<u8>) -> Self
        ensures same { result ≡ items.items }
    {
        Bytes { items }
    }

    /// Gives the `Vec` back.
    pub fn into_vec(self) -> Vec<u8>
        ensures same { result.items ≡ self }
    {
        let Bytes { items } = self;
        items
    }

    /// All of the bytes.
    pub fn as_slice(&self) -> &[u8]
        ensures same { result.now ≡ self.now }
    {
        self.items.as_slice()
    }

    /// How many bytes there are.
    pub fn len(&self) -> usize
        ensures length { result ≡ length self.now }
    {
        self.items.len()
    }

    /// Puts more bytes behind them. After an `Err`, which is out of memory, they are as before.
    pub fn append(&mut self, more: &[u8]) -> Result<(), AllocError>
        ensures ok { OnOk result (self.new ≡ self.old ++ more.now) }
        ensures err { OnErr result (self.new ≡ self.old) }
    {
        self.items.extend_from_slice(more)
    }
}

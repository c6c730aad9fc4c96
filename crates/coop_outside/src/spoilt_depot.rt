// A depot that gives one word of one piece wrong, for tests.
ghost use Rattle.std.specs.Prelude.{◌≡◌, ◌≤◌, ◌<◌, ◌+◌, ◌*◌, ◌-◌, ◌^◌, ◌↔◌, ⊤, ℕ, nat_le, true, false, List};
ghost use Rattle.std.specs.Prelude.{length, is_err, OnOk, OnErr, Err, Some, None, IsTrue, if◌then◌else◌};
ghost use Rattle.coop_outside.specs.Causes.{Rose};
ghost use Rattle.coop_outside.specs.Listed.{is_listed};
ghost use Rattle.coop_outside.specs.Pieces.{HoldsPiece, bytes_of, with_piece};
ghost use Rattle.coop_outside.specs.Spoilt.{spoilt_bytes, with_word};

use crate::depot::{Depot, DepotFault};
use crate::failed::Failed;
use crate::mem_depot::MemDepot;

/// A depot that answers as `inner` does, but gives one word of one piece wrong, if the piece has so many
/// words. It tells nothing of what it holds. A get of a piece that `inner` lacks, or holds with another
/// length, is a fault that is counted.
#[derive(Drop)]
pub struct SpoiltDepot {
    /// Where the pieces are.
    pub inner: MemDepot,
    /// The piece that is given wrong.
    pub piece: u32,
    /// The place of the word, of 8 bytes, in it.
    pub word: u32,
    /// What is given in its place, the least byte first.
    pub value: u64,
}

// Puts a value in place of a word, where there are so many.
fn spoil(buf: &mut [u8], word: u32, value: u64)
    ensures spoilt { buf.new ≡ (if nat_le (8 * word + 8) (length buf.old) then with_word buf.old word value else
        buf.old) }
{
    let from = word as usize * 8;
    if from + 8 <= buf.len() {
        buf[from..from + 8].copy_from_slice(&value.to_le_bytes());
    }
}

impl SpoiltDepot {
    // Whether `inner` has the piece with so many bytes.
    fn has(&self, piece: u32, size: usize) -> bool
        ensures there { IsTrue result ↔ HoldsPiece (Some self.now.inner.pieces.entries) piece size }
    {
        match self.inner.bytes_of(piece) {
            Some(bytes) => return bytes.len() == size,
            None => return false,
        }
    }
}

impl Depot for SpoiltDepot {
    ghost held = { λ s. None };

    ghost gets = { λ s. s.inner.gets };

    ghost faults = { λ s. s.inner.faults };

    fn put(&mut self, piece: u32, bytes: &[u8]) -> Result<(), DepotFault>
        ensures stored { OnOk result ⊤ }
        ensures others { result ≡ Err DepotFault.Failed → ⊤ }
        ensures failed { result ≡ Err DepotFault.Failed → Rose self.old.inner.faults self.new.inner.faults }
        ensures memory { result ≡ Err DepotFault.Memory → self.new.inner.pieces.entries
            ≡ self.old.inner.pieces.entries }
        ensures gets { self.new.inner.gets ≡ self.old.inner.gets }
        ensures later { self.old.inner.faults ≤ self.new.inner.faults }
        // the piece's bytes are kept as they are
        ensures kept { OnOk result (Some self.new.inner.pieces.entries
            ≡ with_piece (Some self.old.inner.pieces.entries) piece bytes.now) }
        // it fails where the call is listed, and nowhere else unless out of memory
        ensures listed { (result ≡ Err DepotFault.Failed)
            ↔ (is_listed self.old.inner.fail_puts.items self.new.inner.puts ≡ true) }
    {
        self.inner.put(piece, bytes)
    }

    fn get(&mut self, piece: u32, buf: &mut [u8]) -> Result<(), Failed>
        requires room { self.old.inner.gets < 2 ^ 64 - 1 }
        requires there { ⊤ }
        ensures bytes { OnOk result ⊤ }
        ensures held { self.new.inner.pieces.entries ≡ self.old.inner.pieces.entries }
        ensures gets { self.new.inner.gets ≡ self.old.inner.gets + 1 }
        ensures failed { OnErr result (Rose self.old.inner.faults self.new.inner.faults) }
        ensures later { self.old.inner.faults ≤ self.new.inner.faults }
        // the piece's bytes, but for the one word
        ensures spoilt { OnOk result ((bytes : List ℕ) × (bytes_of self.old.inner.pieces.entries piece ≡ Some bytes)
            × (buf.new ≡ spoilt_bytes self.old.piece self.old.word self.old.value piece bytes)) }
        // it fails where the call is listed or the piece isn't there with this length, and nowhere else
        ensures listed { OnOk result (is_listed self.old.inner.fail_gets.items self.new.inner.gets ≡ false) }
        ensures others { HoldsPiece (Some self.old.inner.pieces.entries) piece (length buf.old)
            → is_err result ≡ is_listed self.old.inner.fail_gets.items self.new.inner.gets }
    {
        if !self.has(piece, buf.len()) {
            self.inner.gets += 1;
            self.inner.faults = self.inner.faults.saturating_add(1);
            return Err(Failed);
        }
        self.inner.get(piece, buf)?;
        if piece == self.piece {
            spoil(buf, self.word, self.value);
        }
        Ok(())
    }

    fn faults(&self) -> u64 {
        self.inner.faults()
    }
}

// Pieces in memory, for tests and for the program.
ghost use Rattle.std.specs.Prelude.{◌≡◌, ◌≤◌, ◌<◌, ◌+◌, ◌-◌, ◌^◌, ◌↔◌, [], true};
ghost use Rattle.std.specs.Prelude.{length, is_err, Some, IfOk, OnOk, OnErr, Err};
ghost use Rattle.coop_outside.specs.Causes.{Rose};
ghost use Rattle.coop_outside.specs.Listed.{counted, counted_if, is_listed};
ghost use Rattle.coop_outside.specs.Pieces.{HoldsPiece, OthersStay, ReadsPiece, bytes_of, with_piece};
ghost use Rattle.std.specs.Option.{option_copied};

use crate::bytes::Bytes;
use crate::depot::{Depot, DepotFault};
use crate::failed::Failed;
use std::alloc::{AllocError, Global};
use std::collections::BTreeMap;

/// Pieces in memory, which it tells.
#[derive(Drop)]
pub struct MemDepot {
    /// Each piece with its bytes.
    pub pieces: BTreeMap<u32, Bytes>,
    /// The numbers of the puts, counted from 1, that fail.
    pub fail_puts: Vec<u64>,
    /// The numbers of the gets, counted from 1, that fail.
    pub fail_gets: Vec<u64>,
    /// How many puts there were, also those that failed; it stands still at 2^64 - 1.
    pub puts: u64,
    /// How many gets there were, also those that failed; it stands still at 2^64 - 1.
    pub gets: u64,
    /// How many calls failed; it stands still at 2^64 - 1.
    pub faults: u64,
}

impl MemDepot {
    /// A depot without pieces that fails at no call, with every count 0. It takes no memory.
    pub fn new(alloc: Global) -> Self
        ensures empty { result.pieces.entries ≡ [] }
        ensures counts { (result.puts ≡ 0) × (result.gets ≡ 0) × (result.faults ≡ 0) }
        ensures honest { (result.fail_puts.items ≡ []) × (result.fail_gets.items ≡ []) }
    {
        MemDepot {
            pieces: BTreeMap::new(alloc),
            fail_puts: Vec::new(alloc),
            fail_gets: Vec::new(alloc),
            puts: 0,
            gets: 0,
            faults: 0,
        }
    }

    /// The bytes of a piece, where it is there.
    pub(crate) fn bytes_of(&self, piece: u32) -> Option<&Bytes>
        ensures bytes { option_copied result ≡ bytes_of self.now.pieces.entries piece }
    {
        self.pieces.get(&piece)
    }
}

// Bytes of the depot's own.
fn copied(alloc: Global, bytes: &[u8]) -> Result<Bytes, AllocError>
    ensures same { IfOk result (λ b. b ≡ bytes.now) }
{
    Ok(Bytes::new(Vec::from_slice(alloc, bytes)?))
}

impl Depot for MemDepot {
    ghost held = { λ s. Some s.pieces.entries };

    ghost gets = { λ s. s.gets };

    ghost faults = { λ s. s.faults };

    fn put(&mut self, piece: u32, bytes: &[u8]) -> Result<(), DepotFault>
        ensures stored { OnOk result (Some self.new.pieces.entries
            ≡ with_piece (Some self.old.pieces.entries) piece bytes.now) }
        ensures others { result ≡ Err DepotFault.Failed
            → OthersStay (Some self.old.pieces.entries) (Some self.new.pieces.entries) piece }
        ensures failed { result ≡ Err DepotFault.Failed → Rose self.old.faults self.new.faults }
        ensures memory { result ≡ Err DepotFault.Memory → Some self.new.pieces.entries
            ≡ Some self.old.pieces.entries }
        ensures gets { self.new.gets ≡ self.old.gets }
        ensures later { self.old.faults ≤ self.new.faults }
        // it fails where the call is listed, and nowhere else unless out of memory
        ensures listed { (result ≡ Err DepotFault.Failed) ↔ (is_listed self.old.fail_puts.items self.new.puts ≡ true) }
        ensures puts { self.new.puts ≡ counted self.old.puts }
        ensures faults { self.new.faults ≡ counted_if (is_listed self.old.fail_puts.items self.new.puts)
            self.old.faults }
        ensures left { result ≡ Err DepotFault.Failed → self.new.pieces.entries ≡ self.old.pieces.entries }
        ensures same { (self.new.fail_puts ≡ self.old.fail_puts) × (self.new.fail_gets ≡ self.old.fail_gets) }
    {
        self.puts = self.puts.saturating_add(1);
        if self.fail_puts.contains(&self.puts) {
            self.faults = self.faults.saturating_add(1);
            return Err(DepotFault::Failed);
        }
        let alloc = *self.fail_puts.allocator();
        match copied(alloc, bytes) {
            Ok(kept) => match self.pieces.insert(piece, kept) {
                Ok(_) => return Ok(()),
                Err(_) => return Err(DepotFault::Memory),
            },
            Err(_) => return Err(DepotFault::Memory),
        }
    }

    fn get(&mut self, piece: u32, buf: &mut [u8]) -> Result<(), Failed>
        requires room { self.old.gets < 2 ^ 64 - 1 }
        requires there { HoldsPiece (Some self.old.pieces.entries) piece (length buf.old) }
        ensures bytes { OnOk result (ReadsPiece (Some self.old.pieces.entries) piece buf.new) }
        ensures held { Some self.new.pieces.entries ≡ Some self.old.pieces.entries }
        ensures gets { self.new.gets ≡ self.old.gets + 1 }
        ensures failed { OnErr result (Rose self.old.faults self.new.faults) }
        ensures later { self.old.faults ≤ self.new.faults }
        // it fails where the call is listed, and nowhere else
        ensures listed { is_err result ≡ is_listed self.old.fail_gets.items self.new.gets }
        ensures puts { self.new.puts ≡ self.old.puts }
        ensures faults { self.new.faults ≡ counted_if (is_listed self.old.fail_gets.items self.new.gets)
            self.old.faults }
        ensures same { (self.new.fail_puts ≡ self.old.fail_puts) × (self.new.fail_gets ≡ self.old.fail_gets) }
    {
        self.gets = self.gets.saturating_add(1);
        if self.fail_gets.contains(&self.gets) {
            self.faults = self.faults.saturating_add(1);
            return Err(Failed);
        }
        match self.bytes_of(piece) {
            Some(bytes) => {
                buf.copy_from_slice(bytes.as_slice());
                return Ok(());
            }
            None => unreachable!(),
        }
    }

    fn faults(&self) -> u64 {
        self.faults
    }
}

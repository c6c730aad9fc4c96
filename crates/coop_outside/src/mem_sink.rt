// A sink into memory, for tests.
ghost use Rattle.std.specs.Prelude.{◌≡◌, ◌≤◌, ◌<◌, length, min, false, is_err, Some, IfSome, OnSome, IfOk, OnErr, OnOk};
ghost use Rattle.coop_outside.specs.Causes.{Rose};
ghost use Rattle.coop_outside.specs.Listed.{counted, counted_if, is_listed};
ghost use Rattle.coop_outside.specs.Taken.{Takes};

use crate::bytes::Bytes;
use crate::failed::Failed;
use crate::sink::Sink;

/// Takes bytes into memory, and tells them. Out of memory is one of its faults.
#[derive(Drop)]
pub struct MemSink {
    /// The bytes taken so far.
    pub taken: Bytes,
    /// The most bytes that one write takes. With 0 each write of a piece that isn't empty is a fault.
    pub per_call: usize,
    /// The numbers of the writes, counted from 1, that fail.
    pub fail_writes: Vec<u64>,
    /// How many writes there were; it stands still at 2^64 - 1.
    pub calls: u64,
    /// How many writes failed; it stands still at 2^64 - 1.
    pub faults: u64,
}

impl MemSink {
    // The prefix of a piece that this call takes, where it takes some.
    fn takes(&self, piece: &[u8]) -> Option<usize>
        ensures front { IfSome result (λ n. (n ≤ length piece.now) × (0 < length piece.now → 0 < n)) }
        ensures part { IfSome result (λ n. n ≡ min (length piece.now) self.now.per_call) }
        ensures listed { OnSome result (is_listed self.now.fail_writes.items self.now.calls ≡ false) }
    {
        let count = piece.len().min(self.per_call);
        if self.fail_writes.contains(&self.calls) || (count == 0 && !piece.is_empty()) {
            return None;
        }
        Some(count)
    }
}

impl Sink for MemSink {
    ghost taken = { λ s. Some s.taken };

    ghost faults = { λ s. s.faults };

    fn write(&mut self, piece: &[u8]) -> Result<usize, Failed>
        ensures takes { Takes (Some self.old.taken) piece.now result (Some self.new.taken) }
        ensures later { self.old.faults ≤ self.new.faults }
        ensures cause { OnErr result (Rose self.old.faults self.new.faults) }
        // a call that is listed fails
        ensures listed { OnOk result (is_listed self.old.fail_writes.items self.new.calls ≡ false) }
        // any other takes as much as one write takes; it fails when out of memory, or where that is nothing
        ensures part { IfOk result (λ n. n ≡ min (length piece.now) self.old.per_call) }
        ensures calls { self.new.calls ≡ counted self.old.calls }
        ensures faults { self.new.faults ≡ counted_if (is_err result) self.old.faults }
        ensures same { (self.new.per_call ≡ self.old.per_call) × (self.new.fail_writes ≡ self.old.fail_writes) }
    {
        self.calls = self.calls.saturating_add(1);
        if let Some(count) = self.takes(piece) {
            if self.taken.append(&piece[..count]).is_ok() {
                return Ok(count);
            }
        }
        self.faults = self.faults.saturating_add(1);
        Err(Failed)
    }
}

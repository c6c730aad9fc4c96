// All the bytes of a name, up to a limit.
ghost use Rattle.std.specs.Prelude.{◌≡◌, ◌≤◌, ◌<◌, List, ℕ, IfOk, IfErr, OnOk, length, vec_len, ◌+◌};
ghost use Rattle.coop_outside.specs.Held.{Holds, Lacks, ReadFails, ReadsMore};
ghost use Rattle.coop_outside.specs.declared.reading.ReadFault.TheVariants.{TooLong, Memory};

use crate::bytes::Bytes;
use crate::shelf::Shelf;
use std::alloc::{AllocError, Global};

/// Why the bytes of a name were not read.
#[derive(Clone, Copy, PartialEq, Eq)]
pub enum ReadFault {
    /// The shelf failed: its count of faults rose or stands at its last value, or it tells what it holds
    /// and lacks the name.
    Fault,
    /// More than `limit` bytes of the name were read.
    TooLong {
        /// The limit of the call, in bytes.
        limit: u64,
    },
    /// Out of memory.
    Memory,
}

impl From<AllocError> for ReadFault {
    ghost from_gives = { λ _ e. e ≡ Memory };

    fn from(_: AllocError) -> Self {
        ReadFault::Memory
    }
}

// The most bytes that one read is asked for.
const BLOCK: usize = 262144;

fn zeroes(alloc: Global, size: usize) -> Result<Vec<u8>, AllocError>
    ensures size { IfOk result (λ v. vec_len v ≡ size) }
{
    vec![in alloc; 0u8; size]
}

// How many bytes the next read may give: one past the limit at most.
fn room_of(limit: u64, len: usize) -> usize
    requires within { len ≤ limit }
    ensures some { 0 < result }
    ensures block { result ≤ 262144 }
    ensures one_past { result + len ≤ limit + 1 }
{
    let left = limit - len as u64;
    if left < BLOCK as u64 {
        left as usize + 1
    } else {
        BLOCK
    }
}

// Puts some more bytes of the name behind those that are there, and says whether there were some.
fn read_more<F: Shelf>(
    shelf: &mut F,
    name: &str,
    bytes: &mut Vec<u8>,
    part: &mut [u8],
) -> Result<bool, ReadFault>
    requires room { 0 < length part.old }
    ensures more { IfOk result (λ some. ReadsMore (F.held shelf.old) name.now (length part.old) some bytes.old.items
        bytes.new.items) }
    ensures fault { result ≡ Err ReadFault.Fault
        → ReadFails (F.held shelf.old) name.now (F.faults shelf.old) (F.faults shelf.new) }
    ensures not_long { IfErr result (λ e. (l : ℕ) → e ≡ TooLong l → ⊥) }
    ensures held { F.held shelf.new ≡ F.held shelf.old }
    ensures later { F.faults shelf.old ≤ F.faults shelf.new }
    ensures given { F.given shelf.new ≤ F.given shelf.old + length part.old }
    ensures kept { OnOk result (F.given shelf.new + length bytes.old.items
        ≤ F.given shelf.old + length bytes.new.items) }
{
    match shelf.read_at(name, bytes.len() as u64, part) {
        Ok(count) => {
            bytes.extend_from_slice(&part[..count])?;
            Ok(count > 0)
        }
        Err(_) => Err(ReadFault::Fault),
    }
}

/// All bytes of a name, if they are at most `limit`, which is counted in bytes. It reads in pieces of
/// up to 256 KiB, and the shelf gives no more than one byte past the limit. `Fault` is only said where the shelf
/// failed in this call, `TooLong` only where more than `limit` bytes of the name were read; after each
/// of them the shelf holds what it held.
pub fn read_all<F: Shelf>(
    alloc: Global,
    shelf: &mut F,
    name: &str,
    limit: u64,
) -> Result<Bytes, ReadFault>
    ensures bytes { IfOk result (λ bytes. (told : List ℕ) → Holds (F.held shelf.old) name.now told → bytes ≡ told) }
    ensures there { IfOk result (λ bytes. Lacks (F.held shelf.old) name.now → ⊥) }
    ensures within { IfOk result (λ bytes. length bytes ≤ limit) }
    ensures fault { result ≡ Err ReadFault.Fault
        → ReadFails (F.held shelf.old) name.now (F.faults shelf.old) (F.faults shelf.new) }
    ensures too_long { IfErr result (λ e. (l : ℕ) → e ≡ TooLong l
        → (l ≡ limit) × ((told : List ℕ) → Holds (F.held shelf.old) name.now told → limit < length told)
        × (Lacks (F.held shelf.old) name.now → ⊥)) }
    ensures held { F.held shelf.new ≡ F.held shelf.old }
    ensures later { F.faults shelf.old ≤ F.faults shelf.new }
    ensures few { F.given shelf.new ≤ F.given shelf.old + limit + 1 }
{
    let mut block = zeroes(alloc, BLOCK)?;
    let mut bytes = Vec::new(alloc);
    loop {
        let room = room_of(limit, bytes.len());
        let more = read_more(shelf, name, &mut bytes, &mut block[..room])?;
        if !more {
            return Ok(Bytes::new(bytes));
        }
        if bytes.len() as u64 > limit {
            return Err(ReadFault::TooLong { limit });
        }
    }
}

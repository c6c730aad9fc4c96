// The pieces of a table, put into a depot.
ghost use Rattle.std.specs.Prelude.{◌≡◌, ◌<◌, ◌≤◌, ◌+◌, ◌^◌, ℕ, IfErr, IfOk, OnOk, length};
ghost use Rattle.coop_outside.specs.Pieces.{Stored};
ghost use Rattle.piece_format.specs.Cells.{IsTableOf};
ghost use Rattle.piece_format.specs.Shape.{IsShape, pieces};
ghost use Rattle.table_pieces.specs.Parcels.{AreFilled, IsFilled, IsReadable};
ghost use Rattle.table_pieces.specs.Putting.{ArePut, AreLong, AreSound, GiveBack, IsPutRefusal, ReadBack};

use crate::parcel::Parcel;
use crate::refusal::BatchRefusal;
use crate::shaping::chunks_of;
use coop_outside::{Depot, DepotFault};
use piece_format::{Shape, frame_words, groups};
use std::alloc::Global;
use std::thread;
use std::thread::Threads;
use table_core::{Memory, Table};

// About how many words are made before they are put: 4 MiB.
const BLOCK_WORDS: u32 = 1 << 19;

// How many pieces are made before they are put. Without threads it is one, which stays in the processor's cache.
fn block_len(shape: &Shape, count: u32, most_threads: u32) -> u32
    requires shape { IsShape shape.now }
    requires some { 0 < count }
    ensures { 0 < result }
{
    if most_threads == 0 {
        return 1;
    }
    (BLOCK_WORDS / frame_words(shape).max(1)).max(1).min(count)
}

fn empty_parcels(alloc: Global, count: u32) -> Result<Vec<Parcel>, Memory>
    ensures { IfOk result (λ v. length v.items ≡ count) }
{
    let mut parcels = Vec::new(alloc);
    for _ in 0..count {
        parcels.push(Parcel::new(alloc))?;
    }
    Ok(parcels)
}

// Makes the pieces from one on, side by side, by at most so many threads beside the caller's.
fn fill_all<R: Threads + Sync>(
    rt: &R,
    shape: &Shape,
    table: &Table,
    first: u32,
    parcels: &mut [Parcel],
    most_threads: u32,
)
    requires shape { IsShape shape.now }
    requires table { IsTableOf shape.now table.now }
    requires there { first + length parcels.old ≤ pieces shape.now }
    requires numbers { first + length parcels.old < 2 ^ 32 }
    ensures { AreFilled shape.now table.now.rows first parcels.new }
{
    let threads = most_threads as usize + 1;
    thread::for_each_mut(
        rt,
        parcels,
        threads,
        &|place, parcel|
            requires { IsShape shape.now × IsTableOf shape.now table.now × (first + place < pieces shape.now)
                × (first + place < 2 ^ 32) }
            ensures { IsFilled shape.entry.now table.entry.now.rows (first + place) parcel.exit.now }
        { parcel.fill(shape, table, first + place as u32) },
    );
}

// Makes the pieces from one on, as many as there are parcels, and puts them by rising piece.
fn put_block<R: Threads + Sync, D: Depot>(
    rt: &R,
    shape: &Shape,
    table: &Table,
    first: u32,
    parcels: &mut [Parcel],
    depot: &mut D,
    most_threads: u32,
) -> Result<(), BatchRefusal>
    requires shape { IsShape shape.now }
    requires table { IsTableOf shape.now table.now }
    requires there { first + length parcels.old ≤ pieces shape.now }
    requires numbers { first + length parcels.old < 2 ^ 32 }
    ensures stored { OnOk result ((start : Stored)
        → ArePut shape.now table.now.rows first first start (D.held depot.old)
        → let next = first + length parcels.old in ArePut shape.now table.now.rows next next start (D.held depot.new)) }
    ensures readable { OnOk result ((i : ℕ) → i < length parcels.old
        → IsReadable shape.now table.now.rows (first + i)) }
    ensures refused { IfErr result (λ r. (start : Stored)
        → ArePut shape.now table.now.rows first first start (D.held depot.old)
        → IsPutRefusal shape.now table.now.rows start (D.held depot.new) (D.faults depot.old) (D.faults depot.new) r) }
    ensures gets { D.gets depot.new ≡ D.gets depot.old }
    ensures later { D.faults depot.old ≤ D.faults depot.new }
{
    fill_all(rt, shape, table, first, parcels, most_threads);
    let mut piece = first;
    for parcel in parcels.iter() {
        parcel.made?;
        match depot.put(piece, parcel.bytes.as_slice()) {
            Ok(()) => {}
            Err(DepotFault::Failed) => return Err(BatchRefusal::Put { piece }),
            Err(DepotFault::Memory) => return Err(BatchRefusal::Memory),
        }
        piece += 1;
    }
    Ok(())
}

/// Puts each piece of a table into a depot, by rising piece.
///
/// The table has the kinds and rows of the shape, and each cell is one that its column may have. Pieces are made side
/// by side, by at most `most_threads` threads beside the caller's, and put by the caller's alone: unless memory runs
/// out, the answer is the same for every number of threads. About 4 MiB of words and their bytes are kept at a time, at
/// least one piece's; with 0 threads just one piece's. After `Put` the pieces below the one that it names are put, that
/// one may be anything, and those above it are as they were; after `Memory` the pieces below some number are put and
/// all others are as they were.
pub fn put_pieces<R: Threads + Sync, D: Depot>(
    rt: &R,
    alloc: Global,
    shape: &Shape,
    table: &Table,
    depot: &mut D,
    most_threads: u32,
) -> Result<(), BatchRefusal>
    requires shape { IsShape shape.now }
    requires table { IsTableOf shape.now table.now }
    // piece by piece, since a reader of a piece wants to know its bytes
    ensures stored { OnOk result (ArePut shape.now table.now.rows (pieces shape.now) (pieces shape.now)
        (D.held depot.old) (D.held depot.new)) }
    ensures len { OnOk result (AreLong shape.now table.now.rows (pieces shape.now)) }
    ensures words { OnOk result (ReadBack shape.now table.now.rows (pieces shape.now)) }
    ensures back { OnOk result (GiveBack shape.now table.now.rows (pieces shape.now)) }
    ensures sound { OnOk result (AreSound shape.now table.now.rows (pieces shape.now)) }
    ensures refused { IfErr result (λ r. IsPutRefusal shape.now table.now.rows (D.held depot.old) (D.held depot.new)
        (D.faults depot.old) (D.faults depot.new) r) }
    ensures gets { D.gets depot.new ≡ D.gets depot.old }
    ensures later { D.faults depot.old ≤ D.faults depot.new }
{
    let count = chunks_of(shape) * groups(shape);
    if count == 0 {
        return Ok(());
    }
    let most = block_len(shape, count, most_threads);
    let mut parcels = empty_parcels(alloc, most)?;
    let room = parcels.as_mut_slice();
    let mut next = 0;
    while next < count {
        let len = most.min(count - next);
        let block = &mut room[..len as usize];
        put_block(rt, shape, table, next, block, depot, most_threads)?;
        next += len;
    }
    Ok(())
}

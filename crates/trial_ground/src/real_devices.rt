// The devices over the system: a short file, a name that is missing, standard output, a file for pieces.
ghost use Rattle.std.specs.Prelude.{◌≡◌, ◌+◌, ◌<◌};
ghost use Rattle.coop_outside.specs.Real.{depot_gets};

use coop_outside::{
    AnyDepot, Depot, DepotFault, DiskShelf, Failed, MemDepot, ReadFault, ScratchDepot, Shelf, Sink,
    StdoutSink, read_all,
};
use std::alloc::Global;
use std::test::Fail;
use std::{env, fs, process};

// A name in the folder for temporary files that no other run has.
fn name_of(rt: HostRuntime, what: &str) -> Result<String, Fail> {
    let folder = env::temp_dir(&rt)?;
    let id = process::id(rt.process());
    Ok(format!(in rt.alloc(); "{}/coop_outside_{what}_{id}", folder.as_str())?)
}

// The name of a new file of these bytes.
pub(crate) fn file_of(rt: HostRuntime, what: &str, bytes: &[u8]) -> Result<String, Fail> {
    let name = name_of(rt, what)?;
    fs::write(&rt, name.as_str(), bytes)?;
    Ok(name)
}

// Whether a read at the place, of at most so many bytes and 8, gives just these.
pub(crate) fn gives(
    shelf: &mut impl Shelf,
    name: &str,
    place: u64,
    most: usize,
    bytes: &[u8],
) -> bool {
    let mut buf = [0u8; 8];
    let most = most.min(buf.len());
    match shelf.read_at(name, place, &mut buf[..most]) {
        Ok(count) => count <= most && &buf[..count] == bytes,
        Err(_) => false,
    }
}

const DIGITS: &[u8] = b"0123456789";

// Whether the file can't be read.
fn is_missing(alloc: Global, shelf: &mut impl Shelf, name: &str) -> bool {
    matches!(read_all(alloc, shelf, name, 100), Err(ReadFault::Fault))
}

// Whether the file is read whole, and is just the digits.
fn is_digits(alloc: Global, shelf: &mut impl Shelf, name: &str) -> bool {
    match read_all(alloc, shelf, name, 10) {
        Ok(bytes) => bytes.as_slice() == DIGITS,
        Err(_) => false,
    }
}

#[test]
fn the_shelf_of_the_system_reads_files(rt: HostRuntime) -> Result<(), Fail> {
    let mut shelf = DiskShelf::new(rt);
    let none = name_of(rt, "none")?;
    assert!(rt; is_missing(rt.alloc(), &mut shelf, none.as_str()));
    let name = file_of(rt, "shelf", DIGITS)?;
    let ends = gives(&mut shelf, name.as_str(), 8, 4, b"89")
        && gives(&mut shelf, name.as_str(), 10, 4, b"");
    let is_whole = is_digits(rt.alloc(), &mut shelf, name.as_str());
    fs::remove_file(&rt, name.as_str())?;
    assert!(rt; ends && is_whole);
    Ok(())
}

#[test]
fn standard_output_takes_bytes(rt: HostRuntime) {
    let mut sink = StdoutSink::new(rt);
    assert!(rt; sink.write(b"") == Ok(0) && sink.write(b"taken\n") == Ok(6));
}

// A put; it counts no get.
fn put(depot: &mut ScratchDepot<HostRuntime>, piece: u32, bytes: &[u8]) -> Result<(), DepotFault>
    ensures { depot_gets depot.new ≡ depot_gets depot.old }
{
    depot.put(piece, bytes)
}

// Whether a get of the piece gives just these bytes; it is counted.
fn gets(depot: &mut ScratchDepot<HostRuntime>, piece: u32, bytes: &[u8]) -> bool
    requires { depot_gets depot.old < 1000 }
    ensures { depot_gets depot.new ≡ depot_gets depot.old + 1 }
{
    let mut buf = [0u8; 5];
    let len = bytes.len().min(buf.len());
    depot.get(piece, &mut buf[..len]).is_ok() && &buf[..len] == bytes
}

// Whether the depot fails at a piece before it is put, and then takes it.
fn begins(depot: &mut ScratchDepot<HostRuntime>) -> bool
    requires { depot_gets depot.old < 900 }
    ensures { depot_gets depot.new ≡ depot_gets depot.old + 1 }
{
    let before = gets(depot, 1, b"three");
    let taken = put(depot, 1, b"three").is_ok();
    !before && taken
}

// Whether more pieces are kept, each as it was put last, and a get of another length fails: with the one before, two
// faults.
fn goes_on(depot: &mut ScratchDepot<HostRuntime>) -> bool
    requires { depot_gets depot.old < 900 }
{
    put(depot, 2, b"seven").is_ok()
        && put(depot, 1, b"again").is_ok()
        && gets(depot, 1, b"again")
        && gets(depot, 2, b"seven")
        && !gets(depot, 2, b"seve")
        && depot.faults() == 2
}

#[test]
fn a_scratch_depot_keeps_pieces_in_a_file_without_a_name(rt: HostRuntime) -> Result<(), Fail> {
    let name = name_of(rt, "scratch")?;
    let mut depot = ScratchDepot::new(rt.alloc(), rt, name.clone()?);
    let has_begun = begins(&mut depot);
    let has_name = fs::exists(&rt, name.as_str())?;
    assert!(rt; has_begun && !has_name && goes_on(&mut depot));
    Ok(())
}

// Whether the depot takes a piece, and has counted so many faults.
fn stores(depot: &mut AnyDepot<HostRuntime>, faults: u64) -> bool {
    depot.put(0, b"one").is_ok() && depot.faults() == faults
}

#[test]
fn a_depot_of_either_kind_stores(rt: HostRuntime) -> Result<(), Fail> {
    let name = name_of(rt, "either")?;
    let mut scratch = AnyDepot::Scratch(ScratchDepot::new(rt.alloc(), rt, name));
    let mut memory: AnyDepot<HostRuntime> = AnyDepot::Mem(MemDepot::new(rt.alloc()));
    let got = scratch.get(0, &mut [0u8; 3]);
    assert!(rt; got == Err(Failed) && stores(&mut scratch, 1) && stores(&mut memory, 0));
    Ok(())
}

// Whether the depot fails to take a piece, and counts that fault.
fn is_refused(depot: &mut ScratchDepot<HostRuntime>) -> bool {
    put(depot, 0, b"lost") == Err(DepotFault::Failed) && depot.faults() == 1
}

#[test]
fn a_scratch_depot_leaves_a_file_that_was_there(rt: HostRuntime) -> Result<(), Fail> {
    let name = file_of(rt, "there", b"kept")?;
    let mut depot = ScratchDepot::new(rt.alloc(), rt, name.clone()?);
    let is_refused = is_refused(&mut depot);
    let text = fs::read(&rt, name.as_str())?;
    fs::remove_file(&rt, name.as_str())?;
    assert!(rt; is_refused && text.as_slice() == b"kept".as_slice());
    Ok(())
}

// What can't be read twice: a pipe, and a file whose name is gone once it is open.
use crate::real_devices::{file_of, gives};
use coop_outside::{DiskShelf, Failed, ReadFault, Shelf, read_all};
use std::alloc::Global;
use std::fs;
use std::io::{self, PipeReader, Write};
use std::os::fd::AsRawFd;
use std::test::Fail;

// Whether a read at the place fails.
fn fails(shelf: &mut impl Shelf, name: &str, place: u64) -> bool {
    let mut buf = [0u8; 4];
    shelf.read_at(name, place, &mut buf) == Err(Failed)
}

// Whether the pipe gives the rest of its bytes behind the first five; what was read is gone from it.
fn ends(shelf: &mut impl Shelf, name: &str) -> bool {
    gives(shelf, name, 5, 5, b",2\n") && gives(shelf, name, 8, 5, b"") && fails(shelf, name, 4)
}

#[test]
fn a_pipe_is_read_to_its_end(rt: HostRuntime) -> Result<(), Fail> {
    let (reader, mut writer) = io::pipe(&rt)?;
    writer.write_all(b"a,b\n1,2\n")?;
    let name = format!(in rt.alloc(); "/proc/self/fd/{}", reader.as_raw_fd())?;
    let mut shelf = DiskShelf::new(rt);
    let begins = gives(&mut shelf, name.as_str(), 0, 5, b"a,b\n1");
    drop(writer);
    assert!(rt; begins && ends(&mut shelf, name.as_str()));
    Ok(())
}

// Whether the file gives more behind the first four bytes; another place wants it opened anew.
fn goes_on(shelf: &mut impl Shelf, name: &str) -> bool {
    gives(shelf, name, 4, 4, b"4567") && fails(shelf, name, 2)
}

#[test]
fn a_file_is_opened_once(rt: HostRuntime) -> Result<(), Fail> {
    let name = file_of(rt, "once", b"0123456789")?;
    let mut shelf = DiskShelf::new(rt);
    let begins = gives(&mut shelf, name.as_str(), 0, 4, b"0123");
    fs::remove_file(&rt, name.as_str())?;
    assert!(rt; begins && goes_on(&mut shelf, name.as_str()));
    Ok(())
}

const TABLE: &[u8] = b"day,pay\n5,1.50\n6,\n";

const BATCH: &[u8] = b"SELECT day, pay FROM t LIMIT 2;\n";

// A pipe with these bytes, whose writing end is closed.
fn pipe_of(rt: HostRuntime, bytes: &[u8]) -> Result<PipeReader, Fail> {
    let (reader, mut writer) = io::pipe(&rt)?;
    writer.write_all(bytes)?;
    drop(writer);
    Ok(reader)
}

// The name of a pipe while it is there.
fn name_of(rt: HostRuntime, pipe: &PipeReader) -> Result<String, Fail> {
    Ok(format!(in rt.alloc(); "/proc/self/fd/{}", pipe.as_raw_fd())?)
}

// Whether all that the name gives is just these bytes.
fn is_read(alloc: Global, shelf: &mut impl Shelf, name: &str, limit: u64, bytes: &[u8]) -> bool {
    match read_all(alloc, shelf, name, limit) {
        Ok(read) => read.as_slice() == bytes,
        Err(_) => false,
    }
}

#[test]
fn a_table_and_a_batch_come_out_of_pipes(rt: HostRuntime) -> Result<(), Fail> {
    let (table, batch) = (pipe_of(rt, TABLE)?, pipe_of(rt, BATCH)?);
    let (table_name, batch_name) = (name_of(rt, &table)?, name_of(rt, &batch)?);
    let mut shelf = DiskShelf::new(rt);
    let is_table = is_read(
        rt.alloc(),
        &mut shelf,
        table_name.as_str(),
        268435456,
        TABLE,
    );
    let is_batch = is_read(rt.alloc(), &mut shelf, batch_name.as_str(), 1048576, BATCH);
    assert!(rt; is_table && is_batch);
    Ok(())
}

#[test]
fn a_pipe_has_as_many_bytes_as_its_limit_or_is_too_long(rt: HostRuntime) -> Result<(), Fail> {
    for limit in [TABLE.len() as u64 - 1, TABLE.len() as u64] {
        let pipe = pipe_of(rt, TABLE)?;
        let name = name_of(rt, &pipe)?;
        let read = read_all(rt.alloc(), &mut DiskShelf::new(rt), name.as_str(), limit);
        let is_long = matches!(read, Err(ReadFault::TooLong { limit: told }) if told == limit);
        assert!(rt; is_long == (limit < TABLE.len() as u64), "{limit}");
    }
    Ok(())
}

// Reading and writing over devices in memory, and over a shelf that gives less than it is asked for.
ghost use Rattle.std.specs.Prelude.{None};

use coop_outside::{
    Bytes, Failed, MemShelf, MemSink, ReadFault, Shelf, WriteFault, read_all, write_all,
};
use std::alloc::Global;
use std::process::Abort;
use std::test::Fail;

const TEXT: &[u8] = b"id,dept,pay\n1,a,10\n";

fn shelf_of(alloc: Global, fail_read: u64) -> Result<MemShelf, Fail> {
    let held = Bytes::new(Vec::from_slice(alloc, TEXT)?);
    Ok(MemShelf {
        files: vec![in alloc; (String::from_str(alloc, "a")?, held)]?,
        fail_reads: Vec::from_slice(alloc, &[fail_read])?,
        calls: 0,
        faults: 0,
    })
}

// Gives at most `most` bytes a read, and counts what it gave.
#[derive(Drop)]
struct ShortShelf {
    inner: MemShelf,
    most: usize,
    given: u64,
}

impl Shelf for ShortShelf {
    ghost held = { λ s. None };

    ghost faults = { λ s. s.inner.faults };

    ghost given = { λ s. s.given };

    fn read_at(&mut self, name: &str, place: u64, buf: &mut [u8]) -> Result<usize, Failed> {
        let room = buf.len().min(self.most);
        match self.inner.read_at(name, place, &mut buf[..room]) {
            Ok(count) => {
                self.given = self.given.saturating_add(count as u64);
                Ok(count)
            }
            Err(_) => {
                self.inner.faults = self.inner.faults.saturating_add(1);
                Err(Failed)
            }
        }
    }
}

// How many bytes are read, which are those of the text.
fn size_read<F: Shelf>(
    alloc: Global,
    shelf: &mut F,
    name: &str,
    limit: u64,
) -> Result<(usize, bool), ReadFault> {
    let bytes = read_all(alloc, shelf, name, limit)?;
    Ok((bytes.len(), bytes.as_slice() == TEXT))
}

// A name, the limit, the read that fails, how many bytes are read or why none, and how many reads there are.
type Read<'a> = (&'a str, u64, u64, Result<usize, ReadFault>, u64);

const READ: &[Read<'static>] = &[
    ("a", 19, 0, Ok(19), 2),
    ("a", 20, 0, Ok(19), 2),
    ("a", 18, 0, Err(ReadFault::TooLong { limit: 18 }), 1),
    ("a", 0, 0, Err(ReadFault::TooLong { limit: 0 }), 1),
    ("b", 19, 0, Err(ReadFault::Fault), 1),
    ("a", 19, 1, Err(ReadFault::Fault), 1),
    ("a", 19, 2, Err(ReadFault::Fault), 2),
    ("a", 19, 3, Ok(19), 2),
];

fn expect_read(rt: &impl Abort, alloc: Global, rows: &[Read<'_>]) -> Result<(), Fail> {
    for (name, limit, fail_read, want, calls) in rows {
        let mut shelf = shelf_of(alloc, *fail_read)?;
        let got = size_read(alloc, &mut shelf, name, *limit);
        let want = want.map(|size| (size, true));
        assert!(rt;
            (got, shelf.calls) == (want, *calls),
            "{name} {limit} {fail_read}"
        );
    }
    Ok(())
}

#[test]
fn reads_all_up_to_the_limit(rt: HostRuntime) -> Result<(), Fail> {
    expect_read(&rt, rt.alloc(), READ)
}

// How many bytes are read of a shelf that gives at most so many a read, and how many it gave.
fn read_short(
    alloc: Global,
    limit: u64,
    most: usize,
) -> Result<(Result<(usize, bool), ReadFault>, u64), Fail> {
    let mut shelf = ShortShelf {
        inner: shelf_of(alloc, 0)?,
        most,
        given: 0,
    };
    let got = size_read(alloc, &mut shelf, "a", limit);
    Ok((got, shelf.given))
}

#[test]
fn reads_all_where_each_read_gives_little(rt: HostRuntime) -> Result<(), Fail> {
    for most in [1, 7, 18, 19, 20] {
        let (got, _given) = read_short(rt.alloc(), 19, most)?;
        assert!(rt; got == Ok((19, true)), "{most}");
    }
    Ok(())
}

// The limit, the most bytes that a read gives, and how many bytes are given of a text of 19.
type Given = (u64, usize, u64);

const GIVEN: &[Given] = &[
    (0, 100, 1),
    (5, 100, 6),
    (5, 4, 6),
    (5, 1, 6),
    (18, 100, 19),
    (19, 100, 19),
];

fn expect_given(rt: &impl Abort, alloc: Global, rows: &[Given]) -> Result<(), Fail> {
    for (limit, most, given) in rows {
        let (got, gave) = read_short(alloc, *limit, *most)?;
        assert!(rt;
            (got.is_ok(), gave) == (*limit == 19, *given),
            "{limit} {most}"
        );
    }
    Ok(())
}

#[test]
fn a_shelf_gives_one_byte_past_the_limit_and_no_more(rt: HostRuntime) -> Result<(), Fail> {
    expect_given(&rt, rt.alloc(), GIVEN)
}

// The most bytes of a write, the write that fails, what all of them answer, and what the sink takes.
type Written<'a> = (usize, u64, Result<(), WriteFault>, &'a [u8]);

const WRITTEN: &[Written<'static>] = &[
    (100, 0, Ok(()), TEXT),
    (7, 0, Ok(()), TEXT),
    (7, 1, Err(WriteFault { gone: 0 }), b""),
    (7, 3, Err(WriteFault { gone: 14 }), b"id,dept,pay\n1,"),
    (7, 4, Ok(()), TEXT),
    (0, 0, Err(WriteFault { gone: 0 }), b""),
];

// A sink that takes at most so many bytes of a write, and fails at this one.
fn sink_of(alloc: Global, per_call: usize, fail_write: u64) -> Result<MemSink, Fail> {
    Ok(MemSink {
        taken: Bytes::new(Vec::new(alloc)),
        per_call,
        fail_writes: Vec::from_slice(alloc, &[fail_write])?,
        calls: 0,
        faults: 0,
    })
}

fn expect_written(rt: &impl Abort, alloc: Global, rows: &[Written<'_>]) -> Result<(), Fail> {
    for (per_call, fail_write, want, taken) in rows {
        let mut sink = sink_of(alloc, *per_call, *fail_write)?;
        let got = write_all(&mut sink, TEXT);
        assert!(rt;
            got == *want && sink.taken.as_slice() == *taken,
            "{per_call} {fail_write}"
        );
    }
    Ok(())
}

#[test]
fn writes_all_or_says_how_much(rt: HostRuntime) -> Result<(), Fail> {
    expect_written(&rt, rt.alloc(), WRITTEN)
}

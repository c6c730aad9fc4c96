// Depots in memory: what is put is got, and the calls that are listed fail. They are put behind a depot that
// tells nothing, so that a get may be asked of any piece.
use coop_outside::{Depot, DepotFault, Failed, MemDepot, SpoiltDepot};
use std::alloc::Global;
use std::process::Abort;
use std::test::Fail;

const SHORT: &[u8] = b"01234567";

const WORDS: &[u8] = b"01234567abcdefgh";

// A depot that gives word 1 of piece 5 as 513.
fn depot_of(alloc: Global, fail_put: u64, fail_get: u64) -> Result<SpoiltDepot, Fail> {
    let mut inner = MemDepot::new(alloc);
    inner.fail_puts.push(fail_put)?;
    inner.fail_gets.push(fail_get)?;
    Ok(SpoiltDepot {
        inner,
        piece: 5,
        word: 1,
        value: 513,
    })
}

fn put(depot: &mut SpoiltDepot, piece: u32, bytes: &[u8]) -> Result<(), DepotFault> {
    depot.put(piece, bytes)
}

// A get while the count has room for it.
fn get(depot: &mut SpoiltDepot, piece: u32, buf: &mut [u8]) -> Result<(), Failed> {
    if depot.inner.gets == u64::MAX {
        return Err(Failed);
    }
    depot.get(piece, buf)
}

const FAILED: Result<(), DepotFault> = Err(DepotFault::Failed);

// The put and the get that fail, what three puts answer, what two gets answer, the faults at the end.
type Listed<'a> = (
    u64,
    u64,
    &'a [Result<(), DepotFault>],
    &'a [Result<(), Failed>],
    u64,
);

const LISTED: &[Listed<'static>] = &[
    (0, 0, &[Ok(()), Ok(()), Ok(())], &[Ok(()), Ok(())], 0),
    (1, 0, &[FAILED, Ok(()), Ok(())], &[Ok(()), Ok(())], 1),
    (2, 0, &[Ok(()), FAILED, Ok(())], &[Ok(()), Err(Failed)], 2),
    (3, 2, &[Ok(()), Ok(()), FAILED], &[Ok(()), Err(Failed)], 2),
    (0, 1, &[Ok(()), Ok(()), Ok(())], &[Err(Failed), Ok(())], 1),
];

// Whether three puts answer so.
fn puts_answer(depot: &mut SpoiltDepot, wanted: &[Result<(), DepotFault>]) -> bool {
    let puts = [
        put(depot, 3, WORDS),
        put(depot, 4, WORDS),
        put(depot, 3, WORDS),
    ];
    puts.as_slice() == wanted
}

// Whether two gets answer so.
fn gets_answer(depot: &mut SpoiltDepot, wanted: &[Result<(), Failed>]) -> bool {
    let mut buf = [0u8; 16];
    let gets = [get(depot, 3, &mut buf), get(depot, 4, &mut buf)];
    gets.as_slice() == wanted
}

// Whether the puts and the gets answer as the row says.
fn answers(depot: &mut SpoiltDepot, row: &Listed<'_>) -> bool {
    puts_answer(depot, row.2)
        && gets_answer(depot, row.3)
        && (depot.inner.gets, depot.faults()) == (2, row.4)
}

fn expect_listed(rt: &impl Abort, alloc: Global, rows: &[Listed<'_>]) -> Result<(), Fail> {
    for row in rows {
        let mut depot = depot_of(alloc, row.0, row.1)?;
        assert!(rt; answers(&mut depot, row), "{} {}", row.0, row.1);
    }
    Ok(())
}

#[test]
fn each_put_and_get_that_is_listed_fails(rt: HostRuntime) -> Result<(), Fail> {
    expect_listed(&rt, rt.alloc(), LISTED)
}

// Whether a get of the piece gives just these bytes.
fn gives(depot: &mut SpoiltDepot, piece: u32, bytes: &[u8]) -> bool {
    let mut buf = [0u8; 16];
    if bytes.len() > buf.len() {
        return false;
    }
    let part = &mut buf[..bytes.len()];
    get(depot, piece, part).is_ok() && &*part == bytes
}

// Whether the pieces 4 and 5 are put with these bytes.
fn puts_two(depot: &mut SpoiltDepot, bytes: &[u8]) -> bool {
    put(depot, 4, bytes).is_ok() && put(depot, 5, bytes).is_ok()
}

// Whether a piece that isn't there, and one of another length, are faults that are counted.
fn counts_faults(depot: &mut SpoiltDepot) -> bool {
    let mut buf = [0u8; 16];
    get(depot, 6, &mut buf) == Err(Failed)
        && get(depot, 5, &mut buf[..8]) == Err(Failed)
        && (depot.inner.gets, depot.faults()) == (5, 2)
}

const SPOILT: &[u8] = b"01234567\x01\x02\x00\x00\x00\x00\x00\x00";

#[test]
fn the_last_put_counts_and_one_word_is_spoilt(rt: HostRuntime) -> Result<(), Fail> {
    let mut depot = depot_of(rt.alloc(), 0, 0)?;
    assert!(rt; puts_two(&mut depot, SHORT) && gives(&mut depot, 5, SHORT));
    assert!(rt; puts_two(&mut depot, WORDS) && gives(&mut depot, 4, WORDS));
    assert!(rt; gives(&mut depot, 5, SPOILT));
    assert!(rt; counts_faults(&mut depot));
    Ok(())
}

//! The numbers of scans and the chunks of parts, against values from outside.
use batch_plan::{deal, scan_number};
use table_core::ChunkSet;

fn set_of(chunks: &[u32]) -> ChunkSet {
    let mut set = ChunkSet::empty();
    for c in chunks {
        if *c < 1024 {
            set.insert(*c);
        }
    }
    set
}

fn has_just(set: &ChunkSet, chunks: &[u32]) -> bool {
    chunks.iter().all(|c| set.has(*c)) && set.len() as usize == chunks.len()
}

#[test]
fn three_chunks_in_two_parts(rt: HostRuntime) {
    let needed = set_of(&[0, 1, 2]);
    assert!(rt; has_just(&deal(&needed, 2, 0), &[0, 2]));
    assert!(rt; has_just(&deal(&needed, 2, 1), &[1]));
}

#[test]
fn places_and_not_numbers_are_dealt(rt: HostRuntime) {
    let needed = set_of(&[3, 6, 9, 64, 1023]);
    assert!(rt; has_just(&deal(&needed, 3, 0), &[3, 64]));
    assert!(rt; has_just(&deal(&needed, 3, 1), &[6, 1023]));
    assert!(rt; has_just(&deal(&needed, 3, 2), &[9]));
}

#[test]
fn some_parts_have_no_chunk(rt: HostRuntime) {
    let needed = set_of(&[5]);
    assert!(rt; has_just(&deal(&needed, 32, 0), &[5]));
    assert!(rt; has_just(&deal(&needed, 32, 31), &[]));
}

#[test]
fn with_one_part_a_scan_has_its_query_s_number(rt: HostRuntime) {
    assert!(rt; scan_number(1, 1, 0) == 1);
    assert!(rt; scan_number(1, 256, 0) == 256);
}

#[test]
fn two_parts_of_queries_1_and_3(rt: HostRuntime) {
    assert!(rt; scan_number(2, 1, 0) == 1);
    assert!(rt; scan_number(2, 1, 1) == 2);
    assert!(rt; scan_number(2, 3, 0) == 5);
    assert!(rt; scan_number(2, 3, 1) == 6);
    assert!(rt; scan_number(32, 8, 31) == 256);
}

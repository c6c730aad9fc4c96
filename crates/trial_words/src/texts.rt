//! Sizes, checksums and first lines, against a program in another language that makes the same texts.
use run_inputs::{batch_text, table_text};
use std::alloc::Global;
use std::process::Abort;
use std::test::Fail;

// A checksum: each byte is added to 31 times the sum so far.
fn checksum(text: &[u8]) -> u64 {
    let mut sum: u64 = 0;
    for byte in text {
        sum = sum.wrapping_mul(31).wrapping_add(u64::from(*byte));
    }
    sum
}

// A seed and a number of rows, and the size and the checksum of their table.
const TABLES: &[(u64, u32, usize, u64)] = &[
    (7, 0, 15, 17801327842631413043),
    (7, 10, 146, 13810303944791090331),
    (0, 1000, 15549, 15705907695079205192),
    (18446744073709551615, 5000, 81781, 3028477067321447895),
    (7, 200000, 3601160, 55340833355186956),
];

fn expect_sums(
    rt: &impl Abort,
    alloc: Global,
    tables: &[(u64, u32, usize, u64)],
) -> Result<(), Fail> {
    for (seed, rows, size, sum) in tables {
        let text = table_text(alloc, *seed, *rows)?;
        let found = (text.len(), checksum(text.as_slice()));
        assert!(rt; found == (*size, *sum), "{seed} {rows}");
    }
    Ok(())
}

#[test]
fn sizes_and_checksums(rt: HostRuntime) -> Result<(), Fail> {
    expect_sums(&rt, rt.alloc(), TABLES)
}

#[test]
fn the_first_rows_of_a_seed(rt: HostRuntime) -> Result<(), Fail> {
    let text = table_text(rt.alloc(), 7, 6)?;
    let wanted =
        "id,grp,val,tag\n0,g12,623,blue\n1,g2,-29,red\n2,g6,731,blue\n3,g1,-3,red\n4,g11,654,blue\n5,g1,76,red\n";
    assert!(rt; text.as_slice() == wanted.as_bytes());
    Ok(())
}

#[test]
fn the_batch(rt: HostRuntime) -> Result<(), Fail> {
    let text = batch_text();
    assert_eq!(rt; text.len(), 419);
    assert_eq!(rt; checksum(text.as_bytes()), 18243455274577995310);
    Ok(())
}

// Texts of tables and the lines of their profiles, written by hand.

use crate::loading::loaded;
use inspect_notes::{profile_of, write_profile};
use std::alloc::Global;
use std::process::Abort;
use std::random::RandomSource;
use std::test::Fail;
use std::thread::Threads;
use table_core::Bytes;

const PROFILES: &[(&[u8], &[u8])] = &[
    (
        b"day,pay\n5,1.50\n-6,\n",
        b"rows 2\n\
column 1 \"day\": INT, 0 NULL, least -6, greatest 5\n\
column 2 \"pay\": DECIMAL(2), 1 NULL, least 1.50, greatest 1.50\n",
    ),
    (
        b"\"a \"\"b\"\"\",\n,x\n,x\n,it's\n",
        b"rows 3\n\
column 1 \"a \"\"b\"\"\": INT, 3 NULL, no value\n\
column 2 \"\": TEXT, 0 NULL, 2 distinct, least 'it''s', greatest 'x'\n",
    ),
    (b"n\n", b"rows 0\ncolumn 1 \"n\": INT, 0 NULL, no value\n"),
    // some values are numbers: those that are none are counted, and a NULL is no value
    (
        b"n\n1\n2\n\"\"\n3\nn/a\n5\n6\n7\n8\n9\n10\n",
        b"rows 11\n\
column 1 \"n\": TEXT, 1 NULL, 10 distinct, least '1', greatest 'n/a', \
TEXT for 1 that are no numbers, first 'n/a' in row 5\n",
    ),
    // one value alone is a number
    (
        b"n\na\n\"\"\nb\n3\n",
        b"rows 4\n\
column 1 \"n\": TEXT, 1 NULL, 3 distinct, least '3', greatest 'b', TEXT for 2 that are no numbers, first 'a' in row 1\n",
    ),
    // none is
    (
        b"n\na\n\"\"\nb\n",
        b"rows 3\ncolumn 1 \"n\": TEXT, 1 NULL, 2 distinct, least 'a', greatest 'b'\n",
    ),
    (
        b"n\n1\n-0\n",
        b"rows 2\ncolumn 1 \"n\": TEXT, 0 NULL, 2 distinct, least '-0', greatest '1', TEXT though each is a number\n",
    ),
];

fn told(
    rt: &(impl Abort + RandomSource + Threads + Sync),
    alloc: Global,
    text: &[u8],
) -> Result<Bytes, Fail> {
    let loaded = loaded(rt, alloc, text)?;
    let profiles = profile_of(alloc, &loaded)?;
    Ok(write_profile(alloc, &loaded, &profiles)?)
}

#[test]
fn tables_are_told_by_their_lines(rt: HostRuntime) -> Result<(), Fail> {
    for (text, lines) in PROFILES {
        let told = told(&rt, rt.alloc(), text)?;
        assert!(rt; told.as_slice() == *lines, "{text:?}");
    }
    Ok(())
}

// The scratch file is the one that the words name: where it is there, it is left as it was.
use coop_outside::{AnyDepot, Depot};
use run_inputs::depot_of;
use std::alloc::Global;
use std::fs;
use std::test::Fail;

const NAME: &str = "there.pieces";

// The words behind the program's name that ask for this file.
fn asking(alloc: Global, name: &str) -> Result<Vec<String>, Fail> {
    let mut words = Vec::new(alloc);
    for word in ["--scratch", name, "a.csv", "b.sql"] {
        words.push(String::from_str(alloc, word)?)?;
    }
    Ok(words)
}

#[test]
fn a_scratch_file_that_the_words_name_is_left_where_it_is_there(
    rt: HostRuntime,
) -> Result<(), Fail> {
    let alloc = rt.alloc();
    fs::write(&rt, NAME, b"kept")?;
    let words = asking(alloc, NAME)?;
    let Ok(AnyDepot::Scratch(mut depot)) = depot_of(alloc, rt, &words) else {
        panic!(rt; "no depot in a file");
    };
    let is_refused = depot.put(0, b"01234567").is_err();
    let text = fs::read(&rt, NAME)?;
    fs::remove_file(&rt, NAME)?;
    assert!(rt; is_refused && text.as_slice() == b"kept".as_slice());
    Ok(())
}

// Names that can't stand side by side, and others for them.
ghost use Rattle.std.specs.Prelude.{◌≡◌};
ghost use Rattle.csv.specs.Records.{fields_of};
ghost use Rattle.prepare_page.specs.Naming.{are_twice, have_one_name, is_again};

use csv::ByteRecord;
use prepare_look::field_or_none;
use std::alloc::{AllocError, Global};

fn have_one_name(names: &ByteRecord, column: usize, before: usize) -> bool
    ensures { result ≡ have_one_name (fields_of names.now) column before }
{
    field_or_none(names, before) == field_or_none(names, column)
}

// Whether the name of a column is that of one before it.
fn is_again(names: &ByteRecord, column: usize) -> bool
    ensures { result ≡ is_again (fields_of names.now) column }
{
    for before in 0..column {
        if have_one_name(names, column, before) {
            return true;
        }
    }
    false
}

/// Whether some two of so many first columns have one name.
pub(crate) fn are_twice(names: &ByteRecord, count: usize) -> bool
    ensures { result ≡ are_twice (fields_of names.now) count }
{
    for column in 0..count {
        if is_again(names, column) {
            return true;
        }
    }
    false
}

// Whether some column has this name.
fn is_name(names: &ByteRecord, name: &[u8]) -> bool {
    for column in 0..names.len() {
        if field_or_none(names, column) == name {
            return true;
        }
    }
    false
}

// Whether it can stand in a command.
fn is_plain(name: &str) -> bool {
    for sign in name.chars() {
        if sign.is_control() {
            return false;
        }
    }
    true
}

// The name of a column: its own where none before it has it, and else its own with its number; no bytes where it has
// none, or another column has that one.
fn new_name(alloc: Global, names: &ByteRecord, column: usize) -> Result<String, AllocError> {
    let Ok(own) = std::str::from_utf8(field_or_none(names, column)) else {
        return Ok(String::new(alloc));
    };
    if own.is_empty() || !is_plain(own) {
        return Ok(String::new(alloc));
    }
    if !is_again(names, column) {
        return format!(in alloc; "{own}");
    }
    let place = column as u128 + 1;
    let name = format!(in alloc; "{own}_{place}")?;
    if is_name(names, name.as_bytes()) {
        return Ok(String::new(alloc));
    }
    Ok(name)
}

/// Names for so many first columns, of which no two are equal: one that stands before it too has the number of its
/// column behind it, as `rate_3`. No bytes where a column has no name that can be written so.
pub(crate) fn new_names(
    alloc: Global,
    names: &ByteRecord,
    count: usize,
) -> Result<Vec<String>, AllocError> {
    let mut made = Vec::new(alloc);
    for column in 0..count {
        made.push(new_name(alloc, names, column)?)?;
    }
    Ok(made)
}

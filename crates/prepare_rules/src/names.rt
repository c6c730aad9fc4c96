// The names of columns.
ghost use Rattle.std.specs.Prelude.{◌≡◌, ◌+◌, ◌<◌, ◌^◌, ◌++◌, IfOk, OnOk, codes, decimal, length};
ghost use Rattle.csv.specs.Records.{fields_of};
ghost use Rattle.prepare_rules.specs.Made.{IsMade};
ghost use Rattle.prepare_rules.specs.Names.{begins_marked, name_refusal, names_made};
ghost use Rattle.prepare_rules.specs.Outcome.{counted_names};

use crate::cause::Cause;
use crate::columns::{Pick, place_of_name, renamed};
use crate::field::field_or_none;
use crate::rules::Rules;
use csv::ByteRecord;
use itoa::Buffer;
use std::alloc::{AllocError, Global};

/// The most bytes of a name in a table of coop_cli.
const MOST_NAME_BYTES: usize = 128;

/// The names c1, c2, .. of so many columns.
pub(crate) fn counted_names(alloc: Global, count: usize) -> Result<ByteRecord, AllocError>
    ensures { IfOk result (λ names. fields_of names ≡ counted_names count) }
{
    let mut names = ByteRecord::new(alloc);
    let mut name = Vec::new(alloc);
    for place in 0..count {
        name.clear();
        push_name(place, &mut name)?;
        names.push_field(name.as_slice())?;
    }
    Ok(names)
}

// The name of the column at a place, counted from 0.
fn push_name(place: usize, name: &mut Vec<u8>) -> Result<(), AllocError>
    requires { place + 1 < 2 ^ 64 }
    ensures { OnOk result (name.new.items ≡ name.old.items ++ (codes "c" ++ decimal (place + 1))) }
{
    let mut buffer = Buffer::new();
    name.push(b'c')?;
    name.extend_from_slice(buffer.format(place + 1).as_bytes())
}

// Whether this is the first name and begins with a byte order mark.
fn begins_marked(before: &ByteRecord, name: &[u8]) -> bool
    ensures { result ≡ begins_marked (fields_of before.now) name.now }
{
    if before.is_empty() {
        return name.len() >= 3 && name[0] == 0xEF && name[1] == 0xBB && name[2] == 0xBF;
    }
    false
}

// Why a name isn't taken behind these, if it isn't.
fn name_refusal(before: &ByteRecord, name: &[u8]) -> Option<Cause>
    requires { length (fields_of before.now) + 1 < 2 ^ 64 }
    ensures { result ≡ name_refusal (fields_of before.now) name.now }
{
    let column = before.len() + 1;
    if begins_marked(before, name) {
        return Some(Cause::MarkedName);
    }
    if name.len() > MOST_NAME_BYTES {
        return Some(Cause::LongName { column });
    }
    match place_of_name(before, name) {
        Some(place) => {
            return Some(Cause::TwiceNamed {
                first: place + 1,
                second: column,
            });
        }
        None => return None,
    }
}

/// Makes the record of the names that are written, or tells why one of them isn't taken.
pub(crate) fn make_names(
    rules: &Rules<'_>,
    names: &ByteRecord,
    picks: &[Pick],
    made: &mut ByteRecord,
) -> Result<Option<Cause>, AllocError>
    ensures { IfOk result (λ refused. IsMade (names_made rules.now (fields_of names.now) picks.now) refused
        (fields_of made.new)) }
{
    made.clear();
    for i in 0..picks.len() {
        let name = renamed(rules.renames, field_or_none(names, picks[i].place));
        if let Some(cause) = name_refusal(made, name) {
            return Ok(Some(cause));
        }
        made.push_field(name)?;
    }
    Ok(None)
}

// What could stand at a place, in words.

ghost use Rattle.std.specs.Prelude.{◌≡◌, ◌++◌, OnOk, decimal};
ghost use Rattle.inspect_places.specs.Stands as spec;

use crate::kind::Kind;
use crate::place::Place;
use table_core::{Bytes, Memory, write_number};

// A name, by whose it is.
fn name_words(is_table: bool) -> &'static [u8]
    ensures { result.now ≡ spec.name_words is_table }
{
    if is_table {
        return b"the table's name, t";
    }
    b"a column's name"
}

// Puts words and a number at the end.
fn write_bound(out: &mut Bytes, words: &[u8], number: u64) -> Result<(), Memory>
    ensures { OnOk result (out.new ≡ out.old ++ (words.now ++ decimal number)) }
{
    out.append(words)?;
    write_number(out, number as i128, 0)
}

// Puts the word for numbers at the end, with the greatest one where it is told.
fn write_numbers(out: &mut Bytes, most: Option<u64>) -> Result<(), Memory>
    ensures { OnOk result (out.new ≡ out.old ++ spec.number_words most) }
{
    match most {
        None => {
            out.append(b"a number")?;
            Ok(())
        }
        Some(most) => write_bound(out, b"a number up to ", most),
    }
}

fn decimal_words(most: Option<u64>) -> &'static [u8]
    ensures { result.now ≡ spec.decimal_words most }
{
    match most {
        None => b"a decimal",
        Some(_) => b"a decimal with at most 9 places",
    }
}

// Puts a kind of token at the end, in the words of a place.
fn write_kind(out: &mut Bytes, is_table: bool, most: Option<u64>, kind: Kind) -> Result<(), Memory>
    ensures { OnOk result (out.new ≡ out.old ++ spec.kind_text is_table most kind) }
{
    match kind {
        Kind::Name => {
            out.append(name_words(is_table))?;
            Ok(())
        }
        Kind::Number => write_numbers(out, most),
        Kind::Decimal => {
            out.append(decimal_words(most))?;
            Ok(())
        }
        _ => {
            out.append(kind.words())?;
            Ok(())
        }
    }
}

// What stands before a kind of a list, by the kinds behind it.
fn between(behind: &[Kind]) -> &'static [u8]
    ensures { result.now ≡ spec.between behind.now }
{
    match behind {
        [] => b" or ",
        _ => b", ",
    }
}

// Puts all but the first kind of a list at the end.
fn write_others(
    out: &mut Bytes,
    is_table: bool,
    most: Option<u64>,
    others: &[Kind],
) -> Result<(), Memory>
    ensures { OnOk result (out.new ≡ out.old ++ spec.others_text is_table most others.now) }
{
    let mut left = others;
    while let [kind, rest @ ..] = left {
        out.append(between(rest))?;
        write_kind(out, is_table, most, *kind)?;
        left = rest;
    }
    Ok(())
}

/// Puts what could stand at a place at the end, as `WHERE, GROUP or the end`, or `a number up to 4096` behind LIMIT.
/// Out of memory may leave a part of it.
pub fn write_stands(out: &mut Bytes, place: &Place) -> Result<(), Memory>
    ensures { OnOk result (out.new ≡ out.old
        ++ spec.stands_text place.now.is_table place.now.most place.now.stands.items) }
{
    let (is_table, most) = (place.is_table, place.most);
    match place.stands.as_slice() {
        [] => Ok(()),
        [kind, others @ ..] => {
            write_kind(out, is_table, most, *kind)?;
            write_others(out, is_table, most, others)
        }
    }
}

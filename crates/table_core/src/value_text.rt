// The text of one value in an answer.
ghost use Rattle.std.specs.Prelude.{◌≡◌, ◌≤◌, ◌<◌, ◌^◌, ◌++◌, ◌/◌, ◌∷◌, [], IfOk, OnErr, OnOk, length};
ghost use Rattle.table_core.specs.Value.{IsCellOf, last_digits, number_text, places_of};
ghost use Rattle.table_core.specs.Value.{quoted, unsigned_text, value_in, value_text};
ghost use Rattle.table_core.specs.Writing.{GrewByPrefix};

use crate::bytes::Bytes;
use crate::cell::Cell;
use crate::dict::Dict;
use crate::schema::Kind;
use itoa::Buffer;
use table_sets::Memory;

/// The digits after the point of a column's numbers: 0 but for a DEC column.
pub fn places_of_kind(kind: Kind) -> u32
    ensures { result ≡ places_of kind }
{
    match kind {
        Kind::Int | Kind::Text => 0,
        Kind::Dec { places } => places,
    }
}

// Puts the last digits of a number at the end, exactly so many.
fn write_last_digits(out: &mut Bytes, count: u32, number: u128) -> Result<(), Memory>
    ensures text { OnOk result (out.new ≡ out.old ++ last_digits count number) }
    ensures memory { OnErr result (GrewByPrefix out.old out.new (last_digits count number)) }
{
    if count == 0 {
        return Ok(());
    }
    write_last_digits(out, count - 1, number / 10)?;
    out.append(&[b'0' + (number % 10) as u8])?;
    Ok(())
}

// Puts a number without its sign at the end.
fn write_unsigned(out: &mut Bytes, number: u128, places: u32) -> Result<(), Memory>
    requires { places ≤ 9 }
    ensures text { OnOk result (out.new ≡ out.old ++ unsigned_text places number) }
    ensures memory { OnErr result (GrewByPrefix out.old out.new (unsigned_text places number)) }
{
    let mut buffer = Buffer::new();
    if places == 0 {
        out.append(buffer.format(number).as_bytes())?;
        return Ok(());
    }
    let whole = number / 10u128.pow(places);
    out.append(buffer.format(whole).as_bytes())?;
    out.append(b".")?;
    write_last_digits(out, places, number)
}

/// Puts the text of a number with places at the end: with places the whole part, a point and exactly so many digits.
///
/// Out of memory leaves what was there and a prefix of it.
pub fn write_number(out: &mut Bytes, number: i128, places: u32) -> Result<(), Memory>
    requires { places ≤ 9 }
    ensures text { OnOk result (out.new ≡ out.old ++ number_text places number) }
    ensures memory { OnErr result (GrewByPrefix out.old out.new (number_text places number)) }
{
    if number < 0 {
        out.append(b"-")?;
    }
    write_unsigned(out, number.unsigned_abs(), places)
}

/// Puts a text in single quotes at the end, each single quote inside doubled.
///
/// Out of memory leaves what was there and a prefix of it.
pub fn write_quoted(out: &mut Bytes, text: &[u8]) -> Result<(), Memory>
    ensures text { OnOk result (out.new ≡ out.old ++ quoted text.now) }
    ensures memory { OnErr result (GrewByPrefix out.old out.new (quoted text.now)) }
{
    out.append(b"'")?;
    for byte in text {
        if *byte == b'\'' {
            out.append(b"''")?;
        } else {
            out.append(&[*byte])?;
        }
    }
    out.append(b"'")?;
    Ok(())
}

/// Puts the text of one value of a column at the end: `NULL`, a number with its places, or a quoted text.
///
/// Out of memory leaves what was there and a prefix of it.
pub fn write_value(out: &mut Bytes, kind: Kind, dict: &Dict, cell: Cell) -> Result<(), Memory>
    requires places { places_of kind ≤ 9 }
    requires code { IsCellOf dict.now cell }
    ensures text { OnOk result (out.new ≡ out.old ++ value_text kind (value_in dict.now cell)) }
    ensures memory { OnErr result (GrewByPrefix out.old out.new (value_text kind (value_in dict.now cell))) }
{
    match cell {
        Cell::Null => {
            out.append(b"NULL")?;
            Ok(())
        }
        Cell::Int(number) => write_number(out, number as i128, places_of_kind(kind)),
        Cell::Code(code) => write_quoted(out, dict.text_of(code)),
    }
}

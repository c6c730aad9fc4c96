// The lines of a profile.
ghost use Rattle.std.specs.Prelude.{◌≡◌, ◌≤◌, ◌<◌, ◌++◌, ℕ, All, IfOk, IfSome, OnErr, OnOk, length, slice_index_or};
ghost use Rattle.table_core.specs.Value.{IsCellOf, places_of};
ghost use Rattle.table_core.specs.Writing.{GrewByPrefix};
ghost use Rattle.table_sets.specs.declared.limits.TheConstants.{MOST_COLUMNS, MOST_ROWS};
ghost use Rattle.inspect_notes.specs.Written.{AreWritable, IsReadable, IsReasonOf};
ghost use Rattle.inspect_notes.specs.declared.profile.ColumnProfile.{ColumnProfile};
ghost use Rattle.table_core.specs.Fitting.{dict_at};
ghost use Rattle.inspect_notes.specs.ProfileText as spec;
ghost use Rattle.sql_writing.specs.Writing.{name_text};

use crate::profile::ColumnProfile;
use crate::reason::Reason;
use csv_load::Loaded;
use std::alloc::Global;
use table_core::{
    Bytes, Cell, Column, Dict, Kind, Memory, write_number, write_quoted, write_value,
};

/// Puts a name in double quotes at the end, each double quote inside doubled.
///
/// Out of memory leaves what was there and a prefix of it.
pub fn write_name(out: &mut Bytes, name: &[u8]) -> Result<(), Memory>
    ensures text { OnOk result (out.new ≡ out.old ++ name_text name.now) }
    ensures memory { OnErr result (GrewByPrefix out.old out.new (name_text name.now)) }
{
    out.append(b"\"")?;
    for byte in name {
        if *byte == b'"' {
            out.append(b"\"\"")?;
        } else {
            out.append(&[*byte])?;
        }
    }
    out.append(b"\"")?;
    Ok(())
}

fn write_word_number(out: &mut Bytes, word: &[u8], number: u32) -> Result<(), Memory>
    ensures { OnOk result (out.new ≡ out.old ++ spec.word_number word.now number) }
{
    out.append(word)?;
    write_number(out, number as i128, 0)
}

fn write_kind(out: &mut Bytes, kind: Kind) -> Result<(), Memory>
    ensures { OnOk result (out.new ≡ out.old ++ spec.kind_text kind) }
{
    match kind {
        Kind::Int => {
            out.append(b"INT")?;
            Ok(())
        }
        Kind::Text => {
            out.append(b"TEXT")?;
            Ok(())
        }
        Kind::Dec { places } => {
            out.append(b"DECIMAL(")?;
            write_number(out, places as i128, 0)?;
            out.append(b")")?;
            Ok(())
        }
    }
}

fn write_texts(out: &mut Bytes, texts: Option<u32>) -> Result<(), Memory>
    ensures { OnOk result (out.new ≡ out.old ++ spec.texts_text texts) }
{
    if let Some(count) = texts {
        out.append(b", ")?;
        write_number(out, count as i128, 0)?;
        out.append(b" distinct")?;
    }
    Ok(())
}

fn write_ends(
    out: &mut Bytes,
    kind: Kind,
    dict: &Dict,
    ends: Option<(Cell, Cell)>,
) -> Result<(), Memory>
    requires places { places_of kind ≤ 9 }
    requires cells { IfSome ends (λ p. IsCellOf dict.now p.0 × IsCellOf dict.now p.1) }
    ensures { OnOk result (out.new ≡ out.old ++ spec.ends_text kind dict.now ends) }
{
    match ends {
        None => {
            out.append(b", no value")?;
            Ok(())
        }
        Some((least, greatest)) => {
            out.append(b", least ")?;
            write_value(out, kind, dict, least)?;
            out.append(b", greatest ")?;
            write_value(out, kind, dict, greatest)
        }
    }
}

fn write_strangers(out: &mut Bytes, row: u32, first: &[u8], count: u32) -> Result<(), Memory>
    ensures { OnOk result (out.new ≡ out.old ++ spec.strangers_text row first.now count) }
{
    write_word_number(out, b", TEXT for ", count)?;
    out.append(b" that are no numbers, first ")?;
    write_quoted(out, first)?;
    write_word_number(out, b" in row ", row)
}

fn write_reason(out: &mut Bytes, dict: &Dict, reason: Option<Reason>) -> Result<(), Memory>
    requires { IsReasonOf dict.now reason }
    ensures { OnOk result (out.new ≡ out.old ++ spec.reason_text dict.now reason) }
{
    match reason {
        None => Ok(()),
        Some(Reason::Mixed) => {
            out.append(b", TEXT though each is a number")?;
            Ok(())
        }
        Some(Reason::Strangers { row, code, count }) => {
            write_strangers(out, row, dict.text_of(code), count)
        }
    }
}

// Puts the number of a column, its name and its kind at the end.
fn write_head(out: &mut Bytes, number: u32, column: &Column) -> Result<(), Memory>
    ensures { OnOk result (out.new ≡ out.old ++ spec.head_text number column.now) }
{
    write_word_number(out, b"column ", number)?;
    out.append(b" ")?;
    write_name(out, column.name.as_slice())?;
    out.append(b": ")?;
    write_kind(out, column.kind)
}

fn write_counts(out: &mut Bytes, profile: &ColumnProfile) -> Result<(), Memory>
    ensures { OnOk result (out.new ≡ out.old ++ spec.counts_text profile.now) }
{
    write_word_number(out, b", ", profile.nulls)?;
    out.append(b" NULL")?;
    write_texts(out, profile.texts)
}

// Puts the line of a column, counted from 1, at the end.
fn write_column(
    out: &mut Bytes,
    number: u32,
    column: &Column,
    dict: &Dict,
    profile: &ColumnProfile,
) -> Result<(), Memory>
    requires places { places_of column.now.kind ≤ 9 }
    requires readable { IsReadable dict.now profile.now }
    ensures { OnOk result (out.new ≡ out.old ++ spec.column_line number column.now dict.now profile.now) }
{
    write_head(out, number, column)?;
    write_counts(out, profile)?;
    write_ends(out, column.kind, dict, profile.ends)?;
    write_reason(out, dict, profile.reason)?;
    out.append(b"\n")?;
    Ok(())
}

// Puts the lines of all columns at the end.
fn write_columns(
    out: &mut Bytes,
    columns: &[Column],
    dicts: &[Dict],
    profiles: &[ColumnProfile],
) -> Result<(), Memory>
    requires few { length columns.now ≤ MOST_COLUMNS }
    requires places { All (λ c. places_of c.kind ≤ 9) columns.now }
    requires writable { AreWritable columns.now dicts.now profiles.now }
    ensures { OnOk result (out.new ≡ out.old ++ spec.column_lines 1 columns.now dicts.now profiles.now) }
{
    for x in 0..columns.len() {
        write_column(out, x as u32 + 1, &columns[x], &dicts[x], &profiles[x])?;
    }
    Ok(())
}

/// The lines that tell the profile of a table: `rows N`, and one for each column, which are counted from 1, as
/// `column 2 "pay": DECIMAL(2), 1 NULL, least 1.50, greatest 1.50`. Names and texts are written as queries have them.
///
/// # Errors
///
/// `Memory` alone.
pub fn write_profile(
    alloc: Global,
    loaded: &Loaded,
    profiles: &[ColumnProfile],
) -> Result<Bytes, Memory>
    requires few { length loaded.now.table.columns ≤ MOST_COLUMNS }
    requires rows { length loaded.now.table.rows ≤ MOST_ROWS }
    requires places { All (λ c. places_of c.kind ≤ 9) loaded.now.table.columns }
    requires writable { AreWritable loaded.now.table.columns loaded.now.dicts.items profiles.now }
    ensures { IfOk result (λ text. text ≡ spec.profile_text loaded.now profiles.now) }
{
    let mut out = Bytes::new(Vec::new(alloc));
    write_word_number(&mut out, b"rows ", loaded.table.len() as u32)?;
    out.append(b"\n")?;
    let columns = loaded.table.schema().columns();
    write_columns(&mut out, columns, loaded.dicts.as_slice(), profiles)?;
    Ok(out)
}

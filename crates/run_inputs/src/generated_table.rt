ghost use Rattle.std.specs.Prelude.{◌≡◌, ◌++◌, IfOk, OnOk, decimal};
ghost use Rattle.run_inputs.specs.GeneratedTable.{row_by, table_text, tag_by, value_by};

use crate::draws::Draws;
use itoa::Buffer;
use std::alloc::{AllocError, Global};

/// The four draws of a row, in their order.
#[derive(Clone, Copy)]
pub(crate) struct Row {
    group: u32,
    blank: u32,
    value: u32,
    tag: u32,
}

/// The text of a generated table with so many rows.
///
/// Memory is taken for the text alone.
pub fn table_text(alloc: Global, seed: u64, rows: u32) -> Result<Vec<u8>, AllocError>
    ensures { IfOk result (λ text. text.items ≡ table_text seed rows) }
{
    let mut text = Vec::from_slice(alloc, b"id,grp,val,tag\n")?;
    let mut draws = Draws { state: seed };
    for id in 0..rows {
        let group = draws.next();
        let blank = draws.next();
        let value = draws.next();
        let tag = draws.next();
        let row = Row {
            group,
            blank,
            value,
            tag,
        };
        push_row(&mut text, id, row)?;
    }
    Ok(text)
}

// A line with the row's fields.
fn push_row(text: &mut Vec<u8>, id: u32, row: Row) -> Result<(), AllocError>
    ensures { OnOk result (text.new.items ≡ text.old.items ++ row_by id row.group row.blank row.value row.tag) }
{
    push_number(text, id)?;
    text.extend_from_slice(b",g")?;
    push_number(text, row.group % 16)?;
    text.push(b',')?;
    push_value(text, row.blank, row.value)?;
    text.push(b',')?;
    text.extend_from_slice(tag_of(row.tag))?;
    text.push(b'\n')?;
    Ok(())
}

// A whole number from -1000 to 1000, or nothing in one of sixteen rows.
fn push_value(text: &mut Vec<u8>, blank: u32, value: u32) -> Result<(), AllocError>
    ensures { OnOk result (text.new.items ≡ text.old.items ++ value_by blank value) }
{
    if blank % 16 == 0 {
        return Ok(());
    }
    let n = value % 2001;
    if n < 1000 {
        text.push(b'-')?;
        return push_number(text, 1000 - n);
    }
    push_number(text, n - 1000)
}

fn tag_of(tag: u32) -> &'static [u8]
    ensures { result.now ≡ tag_by tag }
{
    match tag % 4 {
        0 => b"red",
        1 => b"green",
        2 => b"blue",
        _ => b"",
    }
}

fn push_number(text: &mut Vec<u8>, n: u32) -> Result<(), AllocError>
    ensures { OnOk result (text.new.items ≡ text.old.items ++ decimal n) }
{
    let mut buffer = Buffer::new();
    text.extend_from_slice(buffer.format(n).as_bytes())
}

// The lines of a note.
ghost use Rattle.std.specs.Prelude.{◌≡◌, ◌++◌, IfOk, OnOk};
ghost use Rattle.std.specs.List.{flat_map};
ghost use Rattle.inspect_notes.specs.NoteText as spec;

use crate::note::Note;
use crate::obstacle::{Choice, Obstacle};
use crate::profile_writing::write_name;
use std::alloc::Global;
use table_core::{Bytes, Column, Memory, Schema, write_number};

// The name of a column.
fn name_at(columns: &[Column], column: u32) -> &[u8]
    ensures { result.now ≡ spec.name_at columns.now column }
{
    match columns.get(column as usize) {
        Some(column) => return column.name.as_slice(),
        None => return b"",
    }
}

// Puts the names of columns at the end, the first behind the word and each other one behind a comma.
fn write_names(out: &mut Bytes, columns: &[Column], word: &[u8], read: &[u32]) -> Result<(), Memory>
    ensures { OnOk result (out.new ≡ out.old ++ spec.names_text columns.now word.now read.now) }
{
    let mut word = word;
    let mut left = read;
    while let [x, rest @ ..] = left {
        out.append(word)?;
        write_name(out, name_at(columns, *x))?;
        word = b", ";
        left = rest;
    }
    Ok(())
}

// Puts the number of a statement and its query at the end.
fn write_statement(out: &mut Bytes, number: u32, text: &[u8]) -> Result<(), Memory>
    ensures { OnOk result (out.new ≡ out.old ++ spec.statement_text number text.now) }
{
    write_number(out, number as i128, 0)?;
    out.append(b": ")?;
    out.append(text)?;
    out.append(b"\n")?;
    Ok(())
}

// Puts the line of the chunks at the end.
fn write_chunks(out: &mut Bytes, needed: u32, chunks: u32) -> Result<(), Memory>
    ensures { OnOk result (out.new ≡ out.old ++ spec.chunks_text needed chunks) }
{
    out.append(b"\n  chunks ")?;
    write_number(out, needed as i128, 0)?;
    out.append(b" of ")?;
    write_number(out, chunks as i128, 0)?;
    out.append(b"\n")?;
    Ok(())
}

// Puts the name of a column between two texts at the end.
fn write_named(
    out: &mut Bytes,
    columns: &[Column],
    first: &[u8],
    column: u32,
    last: &[u8],
) -> Result<(), Memory>
    ensures { OnOk result (out.new ≡ out.old ++ spec.named_text columns.now first.now column last.now) }
{
    out.append(first)?;
    write_name(out, name_at(columns, column))?;
    out.append(last)?;
    Ok(())
}

fn side_words(choice: Choice) -> &'static [u8]
    ensures { result.now ≡ spec.side_words choice }
{
    match choice {
        Choice::Either => b"one side of an OR, which begins with ",
        Choice::NotBoth => b"one side of an AND below NOT, which begins with ",
    }
}

fn side_end(choice: Choice) -> &'static [u8]
    ensures { result.now ≡ spec.side_end choice }
{
    match choice {
        Choice::Either => b", is allowed in each chunk",
        Choice::NotBoth => b", may be false in each chunk",
    }
}

fn sides_words(choice: Choice) -> &'static [u8]
    ensures { result.now ≡ spec.sides_words choice }
{
    match choice {
        Choice::Either => b"the sides of an OR together are allowed in each chunk",
        Choice::NotBoth => {
            b"the one side or the other of an AND below NOT may be false in each chunk"
        }
    }
}

// What is said of a column that a part compares or tests.
fn zone_words(obstacle: Obstacle) -> &'static [u8]
    ensures { result.now ≡ spec.zone_words obstacle }
{
    match obstacle {
        Obstacle::Numbers { .. } => {
            b" is compared with a number that its zone in each chunk allows"
        }
        Obstacle::Texts { .. } => b" is compared with a text that its zone in each chunk allows",
        Obstacle::Nulls { .. } => b" is tested for NULL, which its zone in each chunk allows",
        _ => b"",
    }
}

// Puts what stands in the way at the end, in words.
fn write_words(out: &mut Bytes, columns: &[Column], obstacle: Obstacle) -> Result<(), Memory>
    ensures { OnOk result (out.new ≡ out.old ++ spec.obstacle_text columns.now obstacle) }
{
    match obstacle {
        Obstacle::NoWhere => {
            out.append(b"there is no WHERE")?;
            Ok(())
        }
        Obstacle::Numbers { column } => {
            write_named(out, columns, b"", column, zone_words(obstacle))
        }
        Obstacle::Texts { column } => {
            write_named(out, columns, b"", column, zone_words(obstacle))
        }
        Obstacle::Nulls { column } => {
            write_named(out, columns, b"", column, zone_words(obstacle))
        }
        Obstacle::Side { column, choice } => write_named(
            out,
            columns,
            side_words(choice),
            column,
            side_end(choice),
        ),
        Obstacle::Sides { choice } => {
            out.append(sides_words(choice))?;
            Ok(())
        }
    }
}

// Puts the line of what stands in the way at the end.
fn write_obstacle(out: &mut Bytes, columns: &[Column], obstacle: Obstacle) -> Result<(), Memory>
    ensures { OnOk result (out.new ≡ out.old ++ spec.obstacle_line columns.now obstacle) }
{
    out.append(b"  nothing is left out: ")?;
    write_words(out, columns, obstacle)?;
    out.append(b"\n")?;
    Ok(())
}

fn write_obstacles(
    out: &mut Bytes,
    columns: &[Column],
    obstacles: &[Obstacle],
) -> Result<(), Memory>
    ensures { OnOk result (out.new ≡ out.old ++ flat_map (spec.obstacle_line columns.now) obstacles.now) }
{
    for place in 0..obstacles.len() {
        write_obstacle(out, columns, obstacles[place])?;
    }
    Ok(())
}

/// The lines of the note of the statement of this number, as
///
///     2: SELECT "a" , "b" FROM "t" WHERE "a" < 3 LIMIT 5
///       reads "a", "b"
///       chunks 3 of 40
///
/// and where nothing is left out, a line for each thing that stands in the way.
///
/// # Errors
///
/// `Memory` alone.
pub fn write_note(alloc: Global, number: u32, schema: &Schema, note: &Note) -> Result<Bytes, Memory>
    ensures { IfOk result (λ text. text ≡ spec.note_text number schema.now note.now) }
{
    let mut out = Bytes::new(Vec::new(alloc));
    write_statement(&mut out, number, note.text.as_slice())?;
    write_names(&mut out, schema.columns(), b"  reads ", &note.columns)?;
    write_chunks(&mut out, note.needed, note.chunks)?;
    write_obstacles(&mut out, schema.columns(), &note.obstacles)?;
    Ok(out)
}

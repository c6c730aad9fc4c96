// Where a statement is refused.
ghost use Rattle.std.specs.Prelude.{◌≡◌, ◌≤◌, ◌+◌, IfOk, length, min};
ghost use Rattle.run_inputs.specs.Statements.{IsSpanIn, part};
ghost use Rattle.inspect_calls.specs.Placing.{IsPlaceTold, foreign_line, hint_lines, mark_len};
ghost use Rattle.inspect_calls.specs.Placing.{spot_lines, spot_text, stands_line};

use crate::lines::numbered;
use inspect_places::{
    Foreign, LineColumn, Place, bytes_at, line_and_column, statement_place, write_stands,
};
use sql_bind::StatementRefusal;
use sql_tokens::Span;
use std::alloc::{AllocError, Global};
use table_core::{Bytes, Column, Memory};

/// The lines that say where a statement of the batch is refused: the place in the batch with the token there, and what
/// could stand there instead, where the refusal is about the grammar.
pub(crate) fn place_told(
    alloc: Global,
    batch: &[u8],
    span: Span,
    columns: &[Column],
    why: &StatementRefusal,
) -> Result<Vec<u8>, Memory>
    requires there { IsSpanIn (length batch.now) span }
    requires short { length batch.now ≤ 1048576 }
    ensures { IfOk result (λ told. IsPlaceTold batch.now span columns.now why.now told.items) }
{
    let text = &batch[span.from as usize..span.to as usize];
    let place = statement_place(alloc, text, columns, why)?;
    let told = spot_told(alloc, batch, span, text, &place)?;
    Ok(told)
}

// The lines of a place.
fn spot_told(
    alloc: Global,
    batch: &[u8],
    span: Span,
    text: &[u8],
    place: &Place,
) -> Result<Vec<u8>, Memory>
    requires { text.now ≡ part batch.now span }
    ensures { IfOk result (λ told. told.items ≡ spot_lines batch.now span place.now) }
{
    let at = span.from as usize + place.span.from as usize;
    let mut told = spot(alloc, batch, at, bytes_at(text, place.span))?;
    let hints = hints_told(alloc, place)?;
    told.extend_from_slice(&hints)?;
    Ok(told)
}

// The line that says what could stand there; none where the refusal isn't about the grammar.
fn stands_told(alloc: Global, place: &Place) -> Result<Bytes, Memory>
    ensures { IfOk result (λ line. line ≡ stands_line place.now) }
{
    let mut line = Bytes::new(Vec::new(alloc));
    match place.stands.as_slice() {
        [] => Ok(line),
        [_, ..] => {
            line.append(b"  could stand there: ")?;
            write_stands(&mut line, place)?;
            line.append(b"\n")?;
            Ok(line)
        }
    }
}

// The line that says what is known of the token from other SQL, if something is.
fn foreign_told(alloc: Global, foreign: Option<Foreign>) -> Result<Bytes, Memory>
    ensures { IfOk result (λ line. line ≡ foreign_line foreign) }
{
    let mut line = Bytes::new(Vec::new(alloc));
    match foreign {
        None => Ok(line),
        Some(foreign) => {
            line.append(b"  ")?;
            line.append(foreign.name())?;
            line.append(b" is not in this language: ")?;
            line.append(foreign.instead())?;
            line.append(b" (docs/SQL.md)\n")?;
            Ok(line)
        }
    }
}

// The lines behind a place.
fn hints_told(alloc: Global, place: &Place) -> Result<Vec<u8>, Memory>
    ensures { IfOk result (λ lines. lines.items ≡ hint_lines place.now) }
{
    let mut lines = stands_told(alloc, place)?;
    let known = foreign_told(alloc, place.foreign)?;
    lines.append(known.as_slice())?;
    Ok(lines.into_vec())
}

// How many bytes of a byte order mark the text begins with.
fn mark_len(batch: &[u8]) -> usize
    ensures value { result ≡ mark_len batch.now }
    ensures within { result ≤ length batch.now }
{
    match batch {
        [a, b, c, ..] => {
            if *a == 239 && *b == 187 && *c == 191 {
                return 3;
            }
            0
        }
        _ => 0,
    }
}

// The line with the place of a byte of the batch, and the token there.
fn spot(alloc: Global, batch: &[u8], at: usize, token: &[u8]) -> Result<Vec<u8>, AllocError>
    ensures { IfOk result (λ text. text.items ≡ spot_text batch.now (min at (length batch.now)) token.now) }
{
    let mark = mark_len(batch);
    let behind_mark = &batch[mark..];
    let before = at.min(batch.len()).saturating_sub(mark);
    let LineColumn { line, column } = line_and_column(behind_mark, before);
    let mut text = numbered(alloc, b"  at ", line as u64, b":")?;
    let behind = numbered(alloc, b"", column as u64, b" ")?;
    text.extend_from_slice(&behind)?;
    text.extend_from_slice(token)?;
    text.extend_from_slice(b"\n")?;
    Ok(text)
}

// The line of a query that has no answer.
ghost use Rattle.std.specs.Prelude.{◌≡◌, ◌≤◌, ◌++◌, OnErr, OnOk, codes, decimal};
ghost use Rattle.table_core.specs.Value.{quoted};
ghost use Rattle.table_core.specs.Writing.{GrewByPrefix};
ghost use Rattle.run_output.specs.Refusals as spec;
ghost use Rattle.run_output.specs.Refusals.{refusal_line};

use crate::summary::{write_counted, write_decimal};
use scan_story::Cause;
use sql_bind::{BindRefusal, StatementRefusal};
use sql_tokens::TextRefusal;
use table_core::{Bytes, Memory, write_number, write_quoted};

// Puts words that name nothing at the end.
fn write_words(out: &mut Bytes, words: &[u8]) -> Result<(), Memory>
    ensures text { OnOk result (out.new ≡ out.old ++ words.now) }
    ensures memory { OnErr result (GrewByPrefix out.old out.new words.now) }
{
    out.append(words)?;
    Ok(())
}

// Puts a text at the end, and a quoted name behind it.
fn write_named(out: &mut Bytes, before: &[u8], name: &Bytes) -> Result<(), Memory>
    ensures text { OnOk result (out.new ≡ out.old ++ (before.now ++ quoted name.now)) }
    ensures memory { OnErr result (GrewByPrefix out.old out.new (before.now ++ quoted name.now)) }
{
    out.append(before)?;
    write_quoted(out, name.as_slice())
}

// Puts the words of a text that is no query at the end.
fn write_text_words(out: &mut Bytes, why: TextRefusal) -> Result<(), Memory>
    ensures text { OnOk result (out.new ≡ out.old ++ spec.text_words why) }
    ensures memory { OnErr result (GrewByPrefix out.old out.new (spec.text_words why)) }
{
    match why {
        TextRefusal::Syntax => write_words(out, b"syntax"),
        TextRefusal::TooNested => write_words(out, b"too nested"),
        TextRefusal::TooManyItems => write_words(out, b"too many items"),
        TextRefusal::Memory => write_words(out, b"memory"),
    }
}

// Puts the words of a query that isn't bound at the end.
fn write_query_words(out: &mut Bytes, why: &BindRefusal) -> Result<(), Memory>
    ensures text { OnOk result (out.new ≡ out.old ++ spec.query_words why.now) }
    ensures memory { OnErr result (GrewByPrefix out.old out.new (spec.query_words why.now)) }
{
    match why {
        BindRefusal::UnknownTable { name } => write_named(out, b"unknown table ", name),
        BindRefusal::UnknownColumn { name } => write_named(out, b"unknown column ", name),
        BindRefusal::WrongKind { name } => write_named(out, b"wrong kind ", name),
        BindRefusal::NotGrouped { name } => write_named(out, b"not grouped ", name),
        BindRefusal::Memory => write_words(out, b"memory"),
    }
}

// Puts the words of a statement that is refused for its text or the names in it at the end.
fn write_statement_words(out: &mut Bytes, why: &StatementRefusal) -> Result<(), Memory>
    ensures text { OnOk result (out.new ≡ out.old ++ spec.statement_words why.now) }
    ensures memory { OnErr result (GrewByPrefix out.old out.new (spec.statement_words why.now)) }
{
    match why {
        StatementRefusal::Text(why) => write_text_words(out, *why),
        StatementRefusal::Query(why) => write_query_words(out, why),
    }
}

// Puts the words that name a damaged piece at the end.
fn write_damage(out: &mut Bytes, piece: u32) -> Result<(), Memory>
    ensures text { OnOk result (out.new ≡ out.old ++ (codes "damaged piece " ++ decimal piece)) }
    ensures memory { OnErr result (GrewByPrefix out.old out.new (codes "damaged piece " ++ decimal piece)) }
{
    out.append(b"damaged piece ")?;
    write_decimal(out, piece as u64)
}

// Puts the words of a query that was stopped at the end.
fn write_stop_words(out: &mut Bytes, why: Cause) -> Result<(), Memory>
    ensures text { OnOk result (out.new ≡ out.old ++ spec.stop_words why) }
    ensures memory { OnErr result (GrewByPrefix out.old out.new (spec.stop_words why)) }
{
    match why {
        Cause::Read { .. } => write_words(out, b"read fault"),
        Cause::Damage { piece, .. } => write_damage(out, piece),
        Cause::Memory => write_words(out, b"memory"),
    }
}

// Puts the words of a sum that is no number of 64 bits at the end.
fn write_overflow_words(out: &mut Bytes, item: u32, total: i128, places: u32) -> Result<(), Memory>
    requires { places ≤ 9 }
    ensures text { OnOk result (out.new ≡ out.old ++ spec.overflow_words item total places) }
    ensures memory { OnErr result (GrewByPrefix out.old out.new (spec.overflow_words item total places)) }
{
    out.append(b"sum overflow item ")?;
    write_counted(out, item as u64, b" total ")?;
    write_number(out, total, places)
}

// Puts what stands before the words of a refusal at the end.
fn write_before(out: &mut Bytes, query: u32) -> Result<(), Memory>
    ensures text { OnOk result (out.new ≡ out.old ++ spec.refusal_head query) }
    ensures memory { OnErr result (GrewByPrefix out.old out.new (spec.refusal_head query)) }
{
    out.append(b"refused ")?;
    write_counted(out, query as u64, b": ")
}

// Puts a line end at the end.
fn end_line(out: &mut Bytes) -> Result<(), Memory>
    ensures text { OnOk result (out.new ≡ out.old ++ codes "\n") }
    ensures memory { OnErr result (GrewByPrefix out.old out.new (codes "\n")) }
{
    out.append(b"\n")?;
    Ok(())
}

/// Puts the line of a statement at the end that is refused for its text or the names in it.
///
/// Names stand in single quotes, each single quote inside doubled. Out of memory leaves what was there and a prefix of
/// the line.
pub fn write_refusal(out: &mut Bytes, query: u32, why: &StatementRefusal) -> Result<(), Memory>
    ensures line { OnOk result (out.new ≡ out.old ++ refusal_line query (spec.statement_words why.now)) }
    ensures memory { OnErr result (GrewByPrefix out.old out.new (refusal_line query (spec.statement_words why.now))) }
{
    write_before(out, query)?;
    write_statement_words(out, why)?;
    end_line(out)
}

/// Puts the line of a query at the end that was stopped.
///
/// Out of memory leaves what was there and a prefix of the line.
pub fn write_stopped(out: &mut Bytes, query: u32, why: Cause) -> Result<(), Memory>
    ensures line { OnOk result (out.new ≡ out.old ++ refusal_line query (spec.stop_words why)) }
    ensures memory { OnErr result (GrewByPrefix out.old out.new (refusal_line query (spec.stop_words why))) }
{
    write_before(out, query)?;
    write_stop_words(out, why)?;
    end_line(out)
}

/// Puts the line of a query at the end, the sum of whose item, counted from 1, is no number of 64 bits.
///
/// The total counts units of the last of its places, which are at most 9. Out of memory leaves what was there and a
/// prefix of the line.
pub fn write_overflow(
    out: &mut Bytes,
    query: u32,
    item: u32,
    total: i128,
    places: u32,
) -> Result<(), Memory>
    requires places { places ≤ 9 }
    ensures line { OnOk result (out.new ≡ out.old ++ refusal_line query (spec.overflow_words item total places)) }
    ensures memory { OnErr result (GrewByPrefix out.old out.new
        (refusal_line query (spec.overflow_words item total places))) }
{
    write_before(out, query)?;
    write_overflow_words(out, item, total, places)?;
    end_line(out)
}

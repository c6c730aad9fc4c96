// All records of an export.
ghost use Rattle.std.specs.Prelude.{◌≡◌, ◌<◌, ◌+◌, ◌^◌, IfOk, Ok, Some, drop, false, option_map, true};
ghost use Rattle.csv.specs.Records.{fields_of};
ghost use Rattle.csv.specs.Writing.{text_written};
ghost use Rattle.prepare_rules.specs.Outcome.{Becomes, Begins, IsPrepared, IsWriting};
ghost use Rattle.prepare_rules.specs.Outcome.{below, from_first, marks_of, number_past, prepared, refused_first};
ghost use Rattle.prepare_rules.specs.Outcome.{refused_in, under, unrefused};
ghost use Rattle.prepare_text.specs.Source.{IsOver, Stays, Takes, begun, left, record_of};
ghost use Rattle.prepare_text.specs.Walk.{text_records};

use crate::cause::{Cause, Refusal};
use crate::columns::{Plan, picks_of};
use crate::failure::Failure;
use crate::names::{counted_names, make_names};
use crate::progress::Progress;
use crate::report::Report;
use crate::room::Room;
use crate::row::make_row;
use crate::rules::Rules;
use crate::tally::Tally;
use crate::writing::{finish, put};
use csv::{ByteRecord, Writer, WriterBuilder};
use prepare_text::{Marks, Source};
use std::alloc::Global;
use std::io::{Read, Write};
use table_sets::MOST_ROWS;

/// The most records below the names.
const MOST_RECORDS: u64 = 1 << 62;

/// Reads the records of an export and writes what the rules make of them, one by one, to the output, which is given
/// back with what was done: how often each rule changed something, and the first record that is refused, if there is
/// one. Memory is bounded by the longest record and the rules.
///
/// # Errors
///
/// What breaks it off whatever the rules say; the output is dropped then, and how much of it was written is not known.
#[tactic(auto, using(crate::proofs::Going::text_ok))]
pub fn prepare<R: Read + Drop, W: Write + Drop>(
    alloc: Global,
    rules: &Rules<'_>,
    input: R,
    output: W,
) -> Result<(W, Report), Failure>
    ensures { IfOk result (λ p. IsPrepared rules.now (R.remaining input) p.1
        (W.contents output) (W.contents p.0)) }
{
    let mut source = source_of(alloc, rules, input)?;
    let mut writer = WriterBuilder::new().from_writer(output);
    let report = copy(alloc, rules, &mut source, &mut writer)?;
    Ok((finish(writer)?, report))
}

// The records of the export.
fn source_of<R: Read + Drop>(
    alloc: Global,
    rules: &Rules<'_>,
    input: R,
) -> Result<Source<R>, Failure>
    ensures { IfOk result (λ source. Stays (option_map (text_records (marks_of rules.now)) (R.remaining input))
        (left R.remaining source)) }
{
    let marks = Marks {
        delimiter: rules.delimiter,
        quote: rules.quote,
    };
    Ok(Source::new(alloc, marks, input)?)
}

// Copies all records of a reader.
fn copy<R: Read, W: Write + Drop>(
    alloc: Global,
    rules: &Rules<'_>,
    reader: &mut Source<R>,
    writer: &mut Writer<W>,
) -> Result<Report, Failure>
    requires { IsWriting writer.old }
    ensures { IfOk result (λ report. Becomes (prepared rules.now) (left R.remaining reader.old)
        report (text_written W.contents writer.old) (text_written W.contents writer.new)) }
{
    let mut row = ByteRecord::new(alloc);
    if !first_kept(rules.skip, reader, &mut row)? {
        return Ok(refused(rules.skip, None, Cause::NoHeader));
    }
    if rules.has_names {
        return copy_under(alloc, rules, &row, reader, writer);
    }
    copy_from(alloc, rules, &row, reader, writer)
}

// Puts the next record into `row`, and says whether there was one.
fn next_record<R: Read>(reader: &mut Source<R>, row: &mut ByteRecord) -> Result<bool, Failure>
    ensures found { result ≡ Ok true → Takes (left R.remaining reader.old)
        (record_of (begun reader.new) (fields_of row.new)) (left R.remaining reader.new) }
    ensures ended { result ≡ Ok false → IsOver (left R.remaining reader.old) }
{
    match reader.next(row) {
        Ok(true) => return Ok(true),
        Ok(false) => return Ok(false),
        Err(fault) => return Err(Failure::from(fault)),
    }
}

// Puts the first record that isn't left out into `row`, and says whether there is one.
fn first_kept<R: Read>(
    skip: u32,
    reader: &mut Source<R>,
    row: &mut ByteRecord,
) -> Result<bool, Failure>
    ensures found { result ≡ Ok true → Takes (option_map (drop skip) (left R.remaining reader.old))
        (record_of (begun reader.new) (fields_of row.new)) (left R.remaining reader.new) }
    ensures ended { result ≡ Ok false → IsOver (option_map (drop skip) (left R.remaining reader.old)) }
{
    for _done in 0..skip {
        if !next_record(reader, row)? {
            return Ok(false);
        }
    }
    next_record(reader, row)
}

// The first record that isn't left out is refused.
fn refused(skip: u32, line: Option<u64>, cause: Cause) -> Report
    ensures { result ≡ refused_first skip line cause }
{
    Report {
        tally: Tally::none(),
        refusal: Some(Refusal {
            number: skip as u64 + 1,
            line,
            cause,
        }),
    }
}

// The record of this number is refused, which begins on this line, behind those of which this is told.
fn refused_at(number: u64, line: u64, cause: Cause, tally: Tally) -> Report
    ensures { result ≡ refused_in number (Some line) cause tally }
{
    Report {
        tally,
        refusal: Some(Refusal {
            number,
            line: Some(line),
            cause,
        }),
    }
}

// No record is refused.
fn all_read(tally: Tally) -> Report
    ensures { result ≡ unrefused tally }
{
    Report {
        tally,
        refusal: None,
    }
}

// The number of the record that is one row more than a table has.
fn number_past(rules: &Rules<'_>) -> u64
    ensures { result ≡ number_past rules.now }
{
    let first = if rules.has_names { 2 } else { 1 };
    rules.skip as u64 + first + MOST_ROWS as u64
}

// Copies the records below the one that holds the names.
fn copy_under<R: Read, W: Write + Drop>(
    alloc: Global,
    rules: &Rules<'_>,
    names: &ByteRecord,
    reader: &mut Source<R>,
    writer: &mut Writer<W>,
) -> Result<Report, Failure>
    requires { IsWriting writer.old }
    ensures { IfOk result (λ report. Becomes
        (under rules.now (fields_of names.now) (begun reader.old) (rules.now.skip + 2)) (left R.remaining reader.old)
        report (text_written W.contents writer.old) (text_written W.contents writer.new)) }
{
    match begin(alloc, rules, names, writer)? {
        Ok(plan) => {
            let from = Progress {
                number: rules.skip as u64 + 2,
                tally: Tally::none(),
            };
            return copy_below(alloc, rules, &plan, from, reader, writer);
        }
        Err(cause) => return Ok(refused(rules.skip, Some(reader.line()), cause)),
    }
}

// Copies this record and those behind it below names by their numbers.
fn copy_from<R: Read, W: Write + Drop>(
    alloc: Global,
    rules: &Rules<'_>,
    row: &ByteRecord,
    reader: &mut Source<R>,
    writer: &mut Writer<W>,
) -> Result<Report, Failure>
    requires { IsWriting writer.old }
    ensures { IfOk result (λ report. Becomes
        (from_first rules.now (record_of (begun reader.old) (fields_of row.now))) (left R.remaining reader.old)
        report (text_written W.contents writer.old) (text_written W.contents writer.new)) }
{
    let line = reader.line();
    let names = counted_names(alloc, row.len())?;
    let plan = match begin(alloc, rules, &names, writer)? {
        Ok(plan) => plan,
        Err(cause) => return Ok(refused(rules.skip, Some(line), cause)),
    };
    let mut room = Room::new(alloc);
    let tally = match make_row(rules, &plan, row, line, Tally::none(), &mut room)? {
        Ok(tally) => tally,
        Err(cause) => return Ok(refused(rules.skip, Some(line), cause)),
    };
    put(writer, &room.made)?;
    let number = rules.skip as u64 + 2;
    let from = Progress { number, tally };
    copy_below(alloc, rules, &plan, from, reader, writer)
}

// Writes the names of the columns that are written, and gives those; or why there are none.
fn begin<W: Write + Drop>(
    alloc: Global,
    rules: &Rules<'_>,
    names: &ByteRecord,
    writer: &mut Writer<W>,
) -> Result<Result<Plan, Cause>, Failure>
    requires { IsWriting writer.old }
    ensures writing { IfOk result (λ begun. IsWriting writer.new) }
    ensures begun { IfOk result (λ begun. Begins rules.now (fields_of names.now) begun
        (text_written W.contents writer.old) (text_written W.contents writer.new)) }
{
    let picks = match picks_of(alloc, rules, names)? {
        Ok(picks) => picks,
        Err(cause) => return Ok(Err(cause)),
    };
    let mut made = ByteRecord::new(alloc);
    if let Some(cause) = make_names(rules, names, picks.as_slice(), &mut made)? {
        return Ok(Err(cause));
    }
    put(writer, &made)?;
    Ok(Ok(Plan {
        names: names.len(),
        picks,
    }))
}

// Copies the records that are left. One row more than a table has is written and then refused, so that coop_cli refuses
// the table too, and doesn't answer over a part of it.
fn copy_below<R: Read, W: Write + Drop>(
    alloc: Global,
    rules: &Rules<'_>,
    plan: &Plan,
    from: Progress,
    reader: &mut Source<R>,
    writer: &mut Writer<W>,
) -> Result<Report, Failure>
    requires low { from.number < 2 ^ 63 }
    requires writing { IsWriting writer.old }
    ensures { IfOk result (λ report. Becomes
        (below rules.now plan.now.names plan.now.picks.items from.number from.tally) (left R.remaining reader.old)
        report (text_written W.contents writer.old) (text_written W.contents writer.new)) }
{
    let past = number_past(rules);
    let mut row = ByteRecord::new(alloc);
    let mut room = Room::new(alloc);
    let mut tally = from.tally;
    for done in 0..MOST_RECORDS {
        if !next_record(reader, &mut row)? {
            return Ok(all_read(tally));
        }
        let number = from.number + done;
        let line = reader.line();
        let told = match make_row(rules, plan, &row, line, tally, &mut room)? {
            Ok(told) => told,
            Err(cause) => return Ok(refused_at(number, line, cause, tally)),
        };
        put(writer, &room.made)?;
        if number == past {
            return Ok(refused_at(number, line, Cause::TooManyRows, told));
        }
        tally = told;
    }
    Err(Failure::TooLong)
}

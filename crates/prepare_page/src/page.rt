// The page that tells of an export.
use crate::advice::{Reading, reading_of};
use crate::columns_told::ColumnTold;
use crate::dated::{Dated, dated_in};
use crate::look::Look;
use crate::marks::{MOST_COLUMNS, columns_of, joined, long_of, marks_in};
use crate::naming::{are_twice, new_names};
use crate::needs::Needs;
use crate::quoting::Quoted;
use crate::row_names::rows_named;
use prepare_decode::Encoding;
use prepare_look::{Failure, Seen, Survey};
use std::alloc::Global;
use std::fmt;

/// What is told of an export: a fact a line, and the command that makes of it what `coop_cli` takes.
#[derive(Drop)]
pub struct Page<'a> {
    pub(crate) file: &'a str,
    // How its characters are written.
    pub(crate) encoding: Encoding,
    // Runs of blanks part the columns, and a text with tabs in their place was looked at.
    pub(crate) by_blanks: bool,
    pub(crate) look: &'a Look,
    pub(crate) reading: Reading,
    // The columns, from 0, in which the rules on numbers have to act.
    pub(crate) columns: Vec<usize>,
    // The marks for missing values that stand in them.
    pub(crate) marks: Vec<bool>,
    // Those that have numbers with more than nine places.
    pub(crate) long: Vec<usize>,
    // Both, where these numbers are to be rounded, and the marks for missing values that stand in them and in dates.
    pub(crate) asked: Vec<usize>,
    pub(crate) asked_marks: Vec<bool>,
    // Those of dates that tell their order.
    pub(crate) dated: Dated,
    // What is seen where each record has a field more than there are names, and the first names its row.
    pub(crate) wide: Option<Survey>,
    // Some two columns have one name, above some records.
    pub(crate) has_twice: bool,
    // Other names, of which no two are equal, where there have to be others.
    pub(crate) names: Vec<String>,
}

/// The page of an export whose characters are written so, by its text in UTF-8 and all that is seen of it; where runs
/// of blanks part its columns, by the text with tabs in their place, as `tabs_in` gives it. More than 2^62 records are
/// a failure, `TooLong`.
pub fn page_of<'a>(
    alloc: Global,
    file: &'a str,
    encoding: Encoding,
    by_blanks: bool,
    text: &[u8],
    look: &'a Look,
) -> Result<Page<'a>, Failure> {
    let reading = reading_of(&look.survey);
    let columns = columns_of(alloc, &look.survey, reading)?;
    let skip = look.below;
    let marks = marks_in(alloc, look.marks(), text, skip, columns.as_slice())?;
    let wide = rows_named(alloc, text, look)?;
    let survey = wide.as_ref().unwrap_or(&look.survey);
    let long = long_of(alloc, survey, reading)?;
    let spelled = columns_of(alloc, survey, reading)?;
    let asked = joined(alloc, spelled.as_slice(), long.as_slice())?;
    let dated = dated_in(alloc, look.marks(), text, skip, survey)?;
    let marked = joined(alloc, asked.as_slice(), dated.columns.as_slice())?;
    let asked_marks = marks_in(alloc, look.marks(), text, skip, marked.as_slice())?;
    let few = look.first.fields.len().min(MOST_COLUMNS);
    let is_table = look.has_names && look.survey.records > 0;
    let has_twice = is_table && are_twice(&look.first.fields, few);
    let names = if has_twice || wide.is_some() { few } else { 0 };
    let names = new_names(alloc, &look.first.fields, names)?;
    Ok(Page {
        file,
        encoding,
        by_blanks,
        look,
        reading,
        columns,
        marks,
        long,
        asked,
        asked_marks,
        dated,
        wide,
        has_twice,
        names,
    })
}

fn delimiter_name(delimiter: u8) -> &'static str {
    match delimiter {
        b';' => "';'",
        b'\t' => "tab",
        b'|' => "'|'",
        _ => "','",
    }
}

/// How a number of records begins a sentence.
pub(crate) fn records(count: u64) -> &'static str {
    if count == 1 {
        return "record";
    }
    "records"
}

impl Page<'_> {
    // What stands between two fields.
    fn delimiter_name(&self) -> &'static str {
        if self.by_blanks {
            return "blanks";
        }
        delimiter_name(self.look.guess.delimiter)
    }

    // The lines of the text.
    fn write_lines<W: fmt::Write>(&self, f: &mut fmt::Formatter<W>) -> fmt::Result {
        let look = self.look;
        let (encoding, ends) = (self.encoding, look.lines.ends);
        let (feeds, returns, pairs) = (look.lines.feeds, look.lines.returns, look.lines.pairs);
        let file = Quoted(self.file);
        writeln!(f, "file {file}: {encoding}, {ends} line ends")?;
        if pairs > 0 {
            writeln!(
                f,
                "line ends: {feeds} line feeds, {returns} carriage returns, {pairs} of them together"
            )?;
        } else if returns > 0 {
            writeln!(
                f,
                "line ends: {feeds} line feeds, {returns} carriage returns"
            )?;
        }
        Ok(())
    }

    // How the records are parted.
    fn write_records<W: fmt::Write>(&self, f: &mut fmt::Formatter<W>) -> fmt::Result {
        let guess = self.look.guess;
        let (name, usual) = (self.delimiter_name(), guess.usual);
        let (count, records, width) = (usual.count, usual.records, usual.width);
        if count == 0 {
            writeln!(f, "delimiter: none; {records} records of one field")?;
        } else {
            writeln!(
                f,
                "delimiter {name}: {count} of {records} records have {width} fields"
            )?;
        }
        if let Some(line) = self.look.open {
            writeln!(
                f,
                "quotes: those that begin in line {line} are never closed, so all behind them is one field"
            )?;
        }
        Ok(())
    }

    // What stands above the records of the table.
    fn write_names<W: fmt::Write>(&self, f: &mut fmt::Formatter<W>) -> fmt::Result {
        let (titles, line) = (self.look.titles as u64, self.look.first.line);
        if titles > 0 {
            let word = records(titles);
            writeln!(
                f,
                "titles: {titles} {word} above the table, which begins in line {line}"
            )?;
        }
        if line == 0 {
            return f.write_str("names: none, since there is no record\n");
        }
        if self.look.has_names {
            writeln!(f, "names: in line {line}")?;
        } else {
            writeln!(
                f,
                "names: none; a column of numbers or dates has one in line {line} too"
            )?;
        }
        self.write_seen(f, self.look.survey.short, "fewer fields than the first")?;
        self.write_seen(f, self.look.survey.long, "more fields than the first")?;
        self.write_seen(f, self.look.survey.folded, "a line end in a field")
    }

    fn write_seen<W: fmt::Write>(
        &self,
        f: &mut fmt::Formatter<W>,
        seen: Seen,
        what: &str,
    ) -> fmt::Result {
        let (count, line, word) = (seen.count, seen.line, records(seen.count));
        if count == 0 {
            return Ok(());
        }
        writeln!(f, "with {what}: {count} {word}, the first in line {line}")
    }

    fn write_columns<W: fmt::Write>(&self, f: &mut fmt::Formatter<W>) -> fmt::Result {
        for column in 0..self.survey().width {
            let page = self;
            write!(f, "{}", ColumnTold { page, column })?;
        }
        let columns = self.look.first.fields.len();
        if columns > self.survey().width {
            writeln!(f, "columns: {columns}; none of them is looked at")?;
        }
        Ok(())
    }
}

impl fmt::Display for Page<'_> {
    fn fmt<W: fmt::Write>(&self, f: &mut fmt::Formatter<W>) -> fmt::Result {
        self.write_lines(f)?;
        self.write_records(f)?;
        self.write_names(f)?;
        self.write_columns(f)?;
        write!(f, "{}", Needs { page: self })
    }
}

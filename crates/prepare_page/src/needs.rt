// What coop_cli needs, and the command that makes it.
use crate::advice::{ZEROS, act_on};
use crate::column::has;
use crate::marks::MOST_COLUMNS;
use crate::page::{Page, records};
use crate::words::{Places, Words};
use prepare_dates::Order;
use prepare_decode::Encoding;
use prepare_look::{Kind, Survey};
use std::fmt;

/// Numbers behind which a power of ten stands.
const ALL_POWERS: [Kind; 2] = [Kind::Exponent, Kind::FarExponent];

/// What is needed, a reason a line, and the command.
#[derive(Clone, Copy)]
pub(crate) struct Needs<'a> {
    pub page: &'a Page<'a>,
}

/// The rules that change no value and leave out no record, as words of `write`, each with a blank before it.
#[derive(Clone, Copy)]
pub struct Advice<'a> {
    page: &'a Page<'a>,
    has_numbers: bool,
}

impl fmt::Display for Advice<'_> {
    fn fmt<W: fmt::Write>(&self, f: &mut fmt::Formatter<W>) -> fmt::Result {
        let words = Words {
            page: self.page,
            is_asked: false,
        };
        let look = self.page.look;
        words.write_marks_of(f)?;
        Words::write_names(f, look.titles, look.has_names)?;
        if self.has_numbers {
            words.write_fields(f)?;
        }
        Ok(())
    }
}

impl Page<'_> {
    /// The rules that the page names first, with those on numbers or without.
    pub fn advice(&self, has_numbers: bool) -> Advice<'_> {
        Advice {
            page: self,
            has_numbers,
        }
    }

    /// Whether there are more columns than `coop_cli` takes.
    pub(crate) fn has_many(&self) -> bool {
        self.columns_there() > MOST_COLUMNS
    }

    // How many columns there are.
    fn columns_there(&self) -> usize {
        let names = self.look.first.fields.len();
        if self.wide.is_some() {
            return names.saturating_add(1);
        }
        names
    }

    /// What is seen of the records, with names of rows where these stand first.
    pub(crate) fn survey(&self) -> &Survey {
        match &self.wide {
            Some(survey) => survey,
            None => &self.look.survey,
        }
    }

    /// How many columns have white space at ends of fields.
    pub(crate) fn padded(&self) -> u64 {
        let mut padded: u64 = 0;
        for column in 0..self.survey().width {
            if self.survey().seen(column, Kind::Padded).count > 0 && padded < u64::MAX {
                padded += 1;
            }
        }
        padded
    }

    /// Whether the text isn't UTF-8.
    pub(crate) fn is_recoded(&self) -> bool {
        self.encoding != Encoding::Utf8
    }

    // Whether something has to be asked for.
    fn asks(&self) -> bool {
        let has_records = self.wide.is_some() || self.look.survey.short.count > 0;
        let has_columns = self.has_many() || self.padded() > 0;
        has_records || has_columns || !self.long.is_empty() || !self.dated.columns.is_empty()
    }

    /// Whether a power of ten stands behind some number of these columns.
    pub(crate) fn has_powers(&self, columns: &[usize]) -> bool {
        for i in 0..columns.len() {
            if has(self.survey(), columns[i], &ALL_POWERS) {
                return true;
            }
        }
        false
    }

    /// Whether some number in the columns of numbers may have more than nine places, of which the last are zeros.
    pub(crate) fn has_zeros(&self) -> bool {
        act_on(&self.look.survey, self.reading, &ZEROS)
    }
}

impl Needs<'_> {
    fn write_asked<W: fmt::Write>(&self, f: &mut fmt::Formatter<W>) -> fmt::Result {
        let look = self.page.look;
        if self.page.has_many() {
            let columns = self.page.columns_there();
            writeln!(
                f,
                "to be asked for: --columns, since coop_cli takes 16 of these {columns}; the others are left out"
            )?;
        }
        if !self.page.long.is_empty() {
            let places = Places(self.page.long.as_slice());
            writeln!(
                f,
                "to be asked for: --places 9 --round, since columns have numbers with more places, which are rounded: {places}"
            )?;
        }
        self.write_dated(f)?;
        self.write_padded(f)?;
        if self.page.wide.is_some() {
            f.write_str(
                "to be asked for: --rename, since records have one field more than names: those of rows\n",
            )?;
        }
        let (short, line) = (look.survey.short.count, look.survey.short.line);
        if short > 0 {
            let word = records(short);
            writeln!(
                f,
                "to be asked for: --ragged pad, since {short} {word} from line {line} on lack fields, taken for the last"
            )?;
        }
        Ok(())
    }

    fn write_dated<W: fmt::Write>(&self, f: &mut fmt::Formatter<W>) -> fmt::Result {
        let dated = &self.page.dated;
        if dated.columns.is_empty() {
            return Ok(());
        }
        let places = Places(dated.columns.as_slice());
        let what = match dated.order {
            Order::DayFirst => "day",
            Order::MonthFirst => "month",
        };
        writeln!(
            f,
            "to be asked for: --dates, since columns have dates, the {what} first; texts have another order: {places}"
        )
    }

    fn write_padded<W: fmt::Write>(&self, f: &mut fmt::Formatter<W>) -> fmt::Result {
        let padded = self.page.padded();
        if padded == 0 {
            return Ok(());
        }
        writeln!(
            f,
            "to be asked for: --trim, since {padded} columns have white space at ends; it acts in texts too"
        )
    }

    // What changes no value.
    fn write_plain<W: fmt::Write>(&self, f: &mut fmt::Formatter<W>) -> fmt::Result {
        let look = self.page.look;
        let (titles, line) = (look.titles as u64, look.first.line);
        if self.page.is_recoded() {
            f.write_str("needed: --encoding, since the text isn't UTF-8\n")?;
        }
        if look.guess.delimiter != b',' {
            f.write_str("needed: --delimiter, since coop_cli takes commas\n")?;
        }
        if titles > 0 {
            let word = records(titles);
            writeln!(
                f,
                "needed: --skip, since {titles} {word} stand above the table"
            )?;
        }
        if !look.has_names {
            writeln!(f, "needed: --no-header, since line {line} holds no names")?;
        }
        if self.page.has_twice {
            writeln!(
                f,
                "needed: --skip, --no-header and --rename, since columns have one name in line {line}"
            )?;
        }
        if !self.page.columns.is_empty() {
            f.write_str("needed: --numbers, since these columns are read as texts else\n")?;
        }
        Ok(())
    }

    // What no rule mends.
    fn write_refused<W: fmt::Write>(&self, f: &mut fmt::Formatter<W>) -> fmt::Result {
        let long = self.page.look.survey.long;
        let (count, line, word) = (long.count, long.line, records(long.count));
        if count > 0 && self.page.wide.is_none() {
            writeln!(
                f,
                "no rule: {count} {word} from line {line} on have more fields than the first, and are refused"
            )?;
        }
        Ok(())
    }
}

impl fmt::Display for Needs<'_> {
    fn fmt<W: fmt::Write>(&self, f: &mut fmt::Formatter<W>) -> fmt::Result {
        self.write_refused(f)?;
        self.write_plain(f)?;
        self.write_asked(f)?;
        let page = self.page;
        f.write_str("\n")?;
        write!(
            f,
            "{}",
            Words {
                page,
                is_asked: false
            }
        )?;
        if page.asks() {
            f.write_str("and with what has to be asked for:\n")?;
            write!(
                f,
                "{}",
                Words {
                    page,
                    is_asked: true
                }
            )?;
        }
        Ok(())
    }
}

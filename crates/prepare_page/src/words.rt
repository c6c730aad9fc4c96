// The command as words.
use crate::marks::MARKS;
use crate::page::Page;
use crate::quoting::Quoted;
use prepare_dates::Order;
use prepare_decode::Encoding;
use std::fmt;

/// The words of the command that change no value, and those that have to be asked for.
#[derive(Clone, Copy)]
pub(crate) struct Words<'a> {
    pub page: &'a Page<'a>,
    pub is_asked: bool,
}

/// Columns, by their places from 1.
#[derive(Clone, Copy)]
pub(crate) struct Places<'a>(pub &'a [usize]);

impl fmt::Display for Places<'_> {
    fn fmt<W: fmt::Write>(&self, f: &mut fmt::Formatter<W>) -> fmt::Result {
        for i in 0..self.0.len() {
            let place = self.0[i] as u128 + 1;
            if i > 0 {
                f.write_str(",")?;
            }
            write!(f, "{place}")?;
        }
        Ok(())
    }
}

// The byte between fields as a word.
fn delimiter_word(delimiter: u8) -> &'static str {
    match delimiter {
        b';' => "';'",
        b'\t' => "tab",
        b'|' => "'|'",
        _ => ",",
    }
}

// The order of dates as a word.
fn order_word(order: Order) -> &'static str {
    match order {
        Order::DayFirst => "dmy",
        Order::MonthFirst => "mdy",
    }
}

// The encoding as a word.
fn encoding_word(encoding: Encoding) -> &'static str {
    match encoding {
        Encoding::Utf8 => "utf-8",
        Encoding::Latin1 => "latin-1",
        Encoding::Windows1252 => "windows-1252",
        Encoding::Utf16 => "utf-16",
    }
}

// The byte between thousands as a word.
fn parts_word(parts: u8) -> &'static str {
    match parts {
        b'.' => ".",
        b' ' => "' '",
        _ => ",",
    }
}

impl Words<'_> {
    // What stands between fields, as a word.
    fn delimiter(&self) -> &'static str {
        if self.page.by_blanks {
            return "blanks";
        }
        delimiter_word(self.page.look.guess.delimiter)
    }

    /// The encoding, and what stands between fields.
    pub(crate) fn write_marks_of<W: fmt::Write>(&self, f: &mut fmt::Formatter<W>) -> fmt::Result {
        if self.page.is_recoded() {
            let word = encoding_word(self.page.encoding);
            write!(f, " --encoding {word}")?;
        }
        if self.page.look.guess.delimiter != b',' {
            let word = self.delimiter();
            write!(f, " --delimiter {word}")?;
        }
        Ok(())
    }

    /// So many records are left out, and there are names or none.
    pub(crate) fn write_names<W: fmt::Write>(
        f: &mut fmt::Formatter<W>,
        skipped: usize,
        has_names: bool,
    ) -> fmt::Result {
        if skipped > 0 {
            write!(f, " --skip {skipped}")?;
        }
        if !has_names {
            f.write_str(" --no-header")?;
        }
        Ok(())
    }

    // Names stand above the table, and others in their place: so many columns behind the first have them.
    fn write_new_names<W: fmt::Write>(&self, f: &mut fmt::Formatter<W>, before: u8) -> fmt::Result {
        Words::write_names(f, self.page.look.titles.saturating_add(1), false)?;
        let names = self.page.names.as_slice();
        for i in 0..names.len() {
            if !names[i].is_empty() {
                let (place, name) = (i as u128 + 1 + before as u128, Quoted(&names[i]));
                write!(f, " --rename c{place}={name}")?;
            }
        }
        Ok(())
    }

    // What stands above the records, and the names.
    fn write_head<W: fmt::Write>(&self, f: &mut fmt::Formatter<W>) -> fmt::Result {
        let look = self.page.look;
        if self.is_asked && self.page.wide.is_some() {
            return self.write_new_names(f, 1);
        }
        if self.page.has_twice {
            return self.write_new_names(f, 0);
        }
        Words::write_names(f, look.titles, look.has_names)
    }

    // The columns in which the rules on numbers have to act.
    fn columns(&self) -> &[usize] {
        if self.is_asked {
            return self.page.asked.as_slice();
        }
        self.page.columns.as_slice()
    }

    /// The rules on numbers, dates and marks for missing values.
    pub(crate) fn write_fields<W: fmt::Write>(&self, f: &mut fmt::Formatter<W>) -> fmt::Result {
        self.write_numbers(f)?;
        if self.is_asked {
            self.write_dates(f)?;
        }
        self.write_marks(f)?;
        self.write_spelling(f)
    }

    fn write_dates<W: fmt::Write>(&self, f: &mut fmt::Formatter<W>) -> fmt::Result {
        if self.page.dated.columns.is_empty() {
            return Ok(());
        }
        let order = order_word(self.page.dated.order);
        let places = Places(self.page.dated.columns.as_slice());
        write!(f, " --dates {order} --date-columns {places}")
    }

    fn write_numbers<W: fmt::Write>(&self, f: &mut fmt::Formatter<W>) -> fmt::Result {
        if self.columns().is_empty() {
            return Ok(());
        }
        let places = Places(self.columns());
        write!(f, " --numbers {places}")?;
        if self.page.reading.has_comma() {
            f.write_str(" --decimal-comma")?;
        }
        if let Some(parts) = self.page.reading.parts() {
            let word = parts_word(parts);
            write!(f, " --thousands {word}")?;
        }
        Ok(())
    }

    // Powers of ten, and the most places.
    fn write_spelling<W: fmt::Write>(&self, f: &mut fmt::Formatter<W>) -> fmt::Result {
        if self.columns().is_empty() {
            return Ok(());
        }
        let is_rounded = self.is_asked && !self.page.long.is_empty();
        if self.page.has_powers(self.columns()) {
            f.write_str(" --exponents")?;
        }
        if is_rounded || self.page.has_zeros() {
            f.write_str(" --places 9")?;
        }
        if is_rounded {
            f.write_str(" --round")?;
        }
        Ok(())
    }

    // The marks for missing values that stand in them.
    fn marks(&self) -> &[bool] {
        if self.is_asked {
            return self.page.asked_marks.as_slice();
        }
        self.page.marks.as_slice()
    }

    fn write_marks<W: fmt::Write>(&self, f: &mut fmt::Formatter<W>) -> fmt::Result {
        let marks = self.marks();
        for i in 0..MARKS.len() {
            if i < marks.len() && marks[i] {
                let mark = Quoted(MARKS[i]);
                write!(f, " --missing={mark}")?;
            }
        }
        Ok(())
    }

    fn write_asked<W: fmt::Write>(&self, f: &mut fmt::Formatter<W>) -> fmt::Result {
        if self.page.padded() > 0 {
            f.write_str(" --trim")?;
        }
        if self.page.look.survey.short.count > 0 {
            f.write_str(" --ragged pad")?;
        }
        if self.page.has_many() {
            f.write_str(" --columns 1-16")?;
        }
        Ok(())
    }
}

impl fmt::Display for Words<'_> {
    fn fmt<W: fmt::Write>(&self, f: &mut fmt::Formatter<W>) -> fmt::Result {
        f.write_str("./coop_prepare write")?;
        self.write_marks_of(f)?;
        self.write_head(f)?;
        self.write_fields(f)?;
        if self.is_asked {
            self.write_asked(f)?;
        }
        let file = Quoted(self.page.file);
        writeln!(f, " {file}")
    }
}

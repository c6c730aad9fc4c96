// What is told of a column.
use crate::page::Page;
use crate::phrases::{ALL, phrase};
use crate::quoting::Shown;
use prepare_look::{Kind, Survey, field_or_none};
use std::fmt;

/// A column, counted from 0.
#[derive(Clone, Copy)]
pub(crate) struct ColumnTold<'a> {
    pub page: &'a Page<'a>,
    pub column: usize,
}

// The kind of which the most fields are; of several the first.
fn most_of(survey: &Survey, column: usize) -> Kind {
    let mut most = Kind::Empty;
    for i in 0..ALL.len() {
        if survey.seen(column, ALL[i]).count > survey.seen(column, most).count {
            most = ALL[i];
        }
    }
    most
}

impl ColumnTold<'_> {
    // The place of its name, where it has one.
    fn named(&self) -> Option<usize> {
        if !self.page.look.has_names {
            return None;
        }
        if self.page.wide.is_none() {
            return Some(self.column);
        }
        self.column.checked_sub(1)
    }

    fn write_kind<W: fmt::Write>(
        &self,
        f: &mut fmt::Formatter<W>,
        kind: Kind,
        is_most: bool,
    ) -> fmt::Result {
        let seen = self.page.survey().seen(self.column, kind);
        let (count, line, what) = (seen.count, seen.line, phrase(kind));
        if count == 0 {
            return Ok(());
        }
        if is_most {
            return write!(f, " {count} {what}");
        }
        write!(f, "; {count} {what}, the first in line {line}")
    }
}

impl fmt::Display for ColumnTold<'_> {
    fn fmt<W: fmt::Write>(&self, f: &mut fmt::Formatter<W>) -> fmt::Result {
        let place = self.column as u128 + 1;
        write!(f, "column {place}")?;
        if let Some(named) = self.named() {
            let name = Shown(field_or_none(&self.page.look.first.fields, named));
            write!(f, " {name}")?;
        }
        f.write_str(":")?;
        let most = most_of(self.page.survey(), self.column);
        self.write_kind(f, most, true)?;
        for i in 0..ALL.len() {
            if ALL[i] != most {
                self.write_kind(f, ALL[i], false)?;
            }
        }
        f.write_str("\n")
    }
}

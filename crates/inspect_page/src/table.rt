// The table of the scans of a story.
ghost use Rattle.std.specs.Prelude.{◌≡◌, ◌++◌, ◌≤◌, ◌^◌, length, take, min, OnOk, Some};
ghost use Rattle.std.specs.List.{flat_map};
ghost use Rattle.std.specs.String.{string_bytes};
ghost use Rattle.inspect_page.specs.Page.{caption_text, columns_text, opening_text, row_text, shown_text, table_of};

use crate::scan::Scan;
use inspect_picture::View;
use std::alloc::AllocError;
use std::fmt;

/// So many scans have a row: as many as the queries that a setting may have.
pub(crate) const MOST_ROWS: usize = 256;

// Which entries of a story the picture shows.
#[derive(Clone, Copy)]
struct Shown {
    entries: usize,
    from: u32,
    to: u32,
}

impl fmt::Display for Shown {
    ghost output = { λ s. Some (shown_text s.entries s.from s.to) };

    #[tactic(auto, unfolding(crate::specs::Page::shown_text))]
    fn fmt<W: fmt::Write>(&self, f: &mut fmt::Formatter<W>) -> fmt::Result {
        let (entries, from, to) = (self.entries, self.from, self.to);
        write!(
            f,
            "<table data-entries='{entries}' data-from='{from}' data-to='{to}'>\n"
        )
    }
}

// How many of the scans have a row.
#[derive(Clone, Copy)]
struct Caption {
    rows: usize,
    scans: usize,
}

impl fmt::Display for Caption {
    ghost output = { λ c. Some (caption_text c.rows c.scans) };

    #[tactic(auto, unfolding(crate::specs::Page::caption_text))]
    fn fmt<W: fmt::Write>(&self, f: &mut fmt::Formatter<W>) -> fmt::Result {
        let (rows, scans) = (self.rows, self.scans);
        write!(f, "<caption>{rows} of {scans} scans</caption>\n")
    }
}

// The names of the columns.
#[derive(Clone, Copy)]
struct Columns;

impl fmt::Display for Columns {
    ghost output = { λ _. Some columns_text };

    #[tactic(auto, unfolding(crate::specs::Page::columns_text))]
    fn fmt<W: fmt::Write>(&self, f: &mut fmt::Formatter<W>) -> fmt::Result {
        write!(f, "<thead><tr><th>query<th>worker<th>loads<th>deliveries")?;
        write!(
            f,
            "<th>failed loads<th>first entry<th>last entry<th>end\n<tbody>\n"
        )
    }
}

// What stands before the rows.
#[derive(Clone, Copy)]
struct Opening {
    shown: Shown,
    caption: Caption,
}

impl fmt::Display for Opening {
    ghost output = { λ o. Some (opening_text o.shown.entries o.shown.from o.shown.to o.caption.rows o.caption.scans) };

    fn fmt<W: fmt::Write>(&self, f: &mut fmt::Formatter<W>) -> fmt::Result {
        let (shown, caption, columns) = (self.shown, self.caption, Columns);
        write!(f, "{shown}{caption}{columns}")
    }
}

// Puts rows at the end.
fn write_rows(table: &mut String, scans: &[Scan]) -> Result<(), AllocError>
    ensures { OnOk result (string_bytes table.new ≡ string_bytes table.old ++ flat_map row_text scans.now) }
{
    for scan in scans {
        let scan = *scan;
        write!(table, "{scan}")?;
    }
    Ok(())
}

/// Puts the table of these scans at the end, below a picture of so many entries, of which it shows those of the view.
pub(crate) fn write_table(
    table: &mut String,
    entries: usize,
    view: View,
    scans: &[Scan],
) -> Result<(), AllocError>
    ensures { OnOk result (string_bytes table.new ≡ string_bytes table.old
        ++ table_of entries view.from view.to scans.now) }
{
    let rows = scans.len().min(MOST_ROWS);
    let opening = Opening {
        shown: Shown {
            entries,
            from: view.from,
            to: view.to,
        },
        caption: Caption {
            rows,
            scans: scans.len(),
        },
    };
    write!(table, "{opening}")?;
    write_rows(table, &scans[..rows])?;
    write!(table, "</table>\n")
}

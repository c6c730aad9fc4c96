ghost use Rattle.std.specs.Prelude.{◌≡◌, ◌≤◌, ◌^◌, ◌++◌, List, length, nat_le, IfOk, OnOk};
ghost use Rattle.std.specs.List.{flat_map};
ghost use Rattle.std.specs.String.{string_bytes};
ghost use Rattle.inspect_picture.specs.Marks.{marks};
ghost use Rattle.inspect_picture.specs.Rows.{AreRows};
ghost use Rattle.inspect_picture.specs.Svg.{guides, head, head_text, label_text, picture, picture_of, picture_part};
ghost use Rattle.inspect_picture.specs.Svg.{row_text, rows_text, shape_text};
ghost use Rattle.inspect_picture.specs.declared.mark.Mark.{Mark};
ghost use Rattle.inspect_picture.specs.declared.rows.TheConstants.{MOST_TITLES};

use crate::counts::{deliveries, reads, shown_in};
use crate::guide::guides_at;
use crate::head::{Head, foot_of};
use crate::mark::Mark;
use crate::marks::marks_of;
use crate::rows::{MOST_TITLES, drawn_in, row_at, rows_of};
use crate::scale::{Scale, scale_of};
use crate::shape::{label_of, shape_of};
use crate::stretch::Stretch;
use crate::view::View;
use scan_story::{Bytes, Entry, Memory};
use std::alloc::{AllocError, Global};

// Puts the guides at the end.
fn write_guides(svg: &mut String, scale: &Scale) -> Result<(), AllocError>
    ensures { OnOk result (string_bytes svg.new ≡ string_bytes svg.old ++ guides scale.now 32) }
{
    for k in 0..32 {
        let guides = guides_at(scale, k);
        write!(svg, "{guides}")?;
    }
    Ok(())
}

// Puts the elements of a row at the end.
fn write_shapes(
    svg: &mut String,
    scale: &Scale,
    titled: bool,
    stretches: &[Stretch],
) -> Result<(), AllocError>
    ensures { OnOk result (string_bytes svg.new ≡ string_bytes svg.old
        ++ flat_map (shape_text scale.now titled) stretches.now) }
{
    for stretch in stretches {
        let shape = shape_of(scale, titled, *stretch);
        write!(svg, "{shape}")?;
    }
    Ok(())
}

// Puts the numbers on a row at the end.
fn write_labels(svg: &mut String, scale: &Scale, stretches: &[Stretch]) -> Result<(), AllocError>
    ensures { OnOk result (string_bytes svg.new ≡ string_bytes svg.old
        ++ flat_map (label_text scale.now) stretches.now) }
{
    for stretch in stretches {
        let label = label_of(scale, *stretch);
        write!(svg, "{label}")?;
    }
    Ok(())
}

// Puts a row at the end.
fn write_row(
    svg: &mut String,
    scale: &Scale,
    titled: bool,
    stretches: &[Stretch],
) -> Result<(), Memory>
    ensures { OnOk result (string_bytes svg.new ≡ string_bytes svg.old
        ++ row_text scale.now titled stretches.now) }
{
    if write_shapes(svg, scale, titled, stretches).is_err() {
        return Err(Memory);
    }
    match write_labels(svg, scale, stretches) {
        Ok(()) => Ok(()),
        Err(_) => Err(Memory),
    }
}

// Whether so many elements have titles.
fn is_titled(drawn: u64) -> bool
    ensures { result ≡ nat_le drawn MOST_TITLES }
{
    drawn <= MOST_TITLES
}

// Puts all rows at the end.
fn write_rows(
    svg: &mut String,
    scale: &Scale,
    titled: bool,
    rows: &[Vec<Stretch>],
) -> Result<(), Memory>
    requires count { length rows.now ≡ 114 }
    ensures { OnOk result ((ms : List Mark) → AreRows scale.now ms rows.now
        → string_bytes svg.new ≡ string_bytes svg.old ++ rows_text scale.now titled ms 114) }
{
    for place in 0..114 {
        write_row(svg, scale, titled, row_at(rows, place))?;
    }
    Ok(())
}

// Puts what stands before the marks at the end.
fn write_front(
    svg: &mut String,
    entries: &[Entry],
    scale: &Scale,
    titled: bool,
) -> Result<(), AllocError>
    requires size { length entries.now ≤ 2 ^ 30 }
    ensures { OnOk result (string_bytes svg.new ≡ string_bytes svg.old
        ++ (head_text (head scale.now entries.now titled) ++ guides scale.now 32)) }
{
    let head = Head {
        scale: *scale,
        reads: reads(entries),
        deliveries: deliveries(entries),
        titled,
    };
    write!(svg, "{head}")?;
    write_guides(svg, scale)
}

// Puts the picture of a story, whose marks are given, at the end.
fn write_picture(
    alloc: Global,
    svg: &mut String,
    entries: &[Entry],
    scale: &Scale,
    all: &[Mark],
) -> Result<(), Memory>
    requires groups { 1 ≤ scale.now.groups }
    requires size { length entries.now ≤ 2 ^ 30 }
    ensures { OnOk result (string_bytes svg.new ≡ string_bytes svg.old ++ picture_of scale.now entries.now all.now) }
{
    let rows = rows_of(alloc, scale, all)?;
    let drawn = drawn_in(&rows);
    let titled = is_titled(drawn);
    if write_front(svg, entries, scale, titled).is_err() {
        return Err(Memory);
    }
    write_rows(svg, scale, titled, &rows)?;
    let foot = foot_of(scale, shown_in(scale, all), drawn);
    match write!(svg, "{foot}") {
        Ok(()) => Ok(()),
        Err(_) => Err(Memory),
    }
}

/// The picture of a story, where a chunk has `groups` pieces, as the text of an SVG.
///
/// Each mark of a story, as a stay of a piece in a frame, a delivery, a load or a fault, lies within an element: narrow
/// ones that touch are drawn as one. So a picture stays small, however long the story is.
pub fn draw(alloc: Global, entries: &[Entry], groups: u32) -> Result<Bytes, Memory>
    requires groups { 1 ≤ groups }
    requires size { length entries.now ≤ 2 ^ 30 }
    ensures { IfOk result (λ svg. svg ≡ picture groups entries.now) }
{
    draw_part(alloc, entries, groups, View::WHOLE)
}

/// The same of some of its entries: what lies before or behind them is left out.
pub fn draw_part(alloc: Global, entries: &[Entry], groups: u32, view: View) -> Result<Bytes, Memory>
    requires groups { 1 ≤ groups }
    requires size { length entries.now ≤ 2 ^ 30 }
    ensures { IfOk result (λ svg. svg ≡ picture_part groups view.from view.to entries.now) }
{
    let marks = marks_of(alloc, entries, groups)?;
    let scale = scale_of(entries, groups, view);
    let mut svg = String::new(alloc);
    write_picture(alloc, &mut svg, entries, &scale, &marks)?;
    Ok(Bytes::new(svg.into_bytes()))
}

ghost use Rattle.std.specs.Prelude.{◌≡◌, ◌≤◌, ◌^◌, ◌++◌, length, IfOk, OnOk};
ghost use Rattle.std.specs.String.{string_bytes};
ghost use Rattle.inspect_page.specs.Page.{foot, head, page, page_with, table};

use crate::fixed::{foot, head};
use crate::scans::scans_of;
use crate::table::write_table;
use inspect_picture::{View, draw_part};
use scan_story::{Bytes, Entry, Memory};
use std::alloc::{AllocError, Global};

// What stands above the picture, the picture, and the table with what stands below it.
fn joined(alloc: Global, picture: &[u8], table: &[u8]) -> Result<Vec<u8>, AllocError>
    ensures { IfOk result (λ page. page.items ≡ page_with picture.now table.now) }
{
    let mut page = Vec::from_slice(alloc, head().as_bytes())?;
    page.extend_from_slice(picture)?;
    page.extend_from_slice(table)?;
    page.extend_from_slice(foot().as_bytes())?;
    Ok(page)
}

// The table of the scans of a story.
fn table_of(alloc: Global, entries: &[Entry], view: View) -> Result<String, Memory>
    requires size { length entries.now ≤ 2 ^ 30 }
    ensures { IfOk result (λ text. string_bytes text ≡ table view.from view.to entries.now) }
{
    let scans = scans_of(alloc, entries)?;
    let mut text = String::new(alloc);
    match write_table(&mut text, entries.len(), view, &scans) {
        Ok(()) => Ok(text),
        Err(_) => Err(Memory),
    }
}

/// A page of HTML with the picture of some of the entries of a story, where a chunk has `groups` pieces, and a table of
/// all its scans. At most 2^30 entries.
///
/// The picture is that of `draw_part`. The table has a row for each of the first 256 scans, and the page loads nothing.
/// `Memory`: it doesn't fit, and nothing is left behind.
pub fn page_of(alloc: Global, entries: &[Entry], groups: u32, view: View) -> Result<Bytes, Memory>
    requires groups { 1 ≤ groups }
    requires size { length entries.now ≤ 2 ^ 30 }
    ensures { IfOk result (λ text. text ≡ page groups view.from view.to entries.now) }
{
    let table = table_of(alloc, entries, view)?;
    let picture = draw_part(alloc, entries, groups, view)?;
    match joined(alloc, picture.as_slice(), table.as_bytes()) {
        Ok(page) => Ok(Bytes::new(page)),
        Err(_) => Err(Memory),
    }
}

// What the fields of one record are, noted behind those of others.
ghost use Rattle.std.specs.Prelude.{◌≡◌, ◌+◌, ◌*◌, ◌<◌, ◌≤◌, ◌^◌, [], ℕ, length, slice_index_or, slice_set};
ghost use Rattle.std.specs.List.{list_any};
ghost use Rattle.csv.specs.Records.{fields_of};
ghost use Rattle.prepare_look.specs.Seeing.{ends_line, is_kind, none_seen, noted, one_more};
ghost use Rattle.prepare_look.specs.declared.kind.TheConstants.{KINDS};

use crate::kind::{KINDS, kind_of};
use crate::seen::Seen;
use csv::ByteRecord;

/// The field at a place, counted from 0; no bytes where the record is shorter.
pub fn field_or_none(row: &ByteRecord, place: usize) -> &[u8]
    ensures { result.now ≡ slice_index_or (fields_of row.now) place [] }
{
    match row.get(place) {
        Some(field) => field,
        None => &[],
    }
}

fn note(cells: &mut [Seen], at: usize, line: usize)
    requires there { at < length cells.old }
    requires few { (slice_index_or cells.old at none_seen).count < 2 ^ 63 }
    ensures { cells.new ≡ slice_set cells.old at (one_more line (slice_index_or cells.old at none_seen)) }
{
    cells[at] = cells[at].noted(true, line);
}

/// Notes what each field of a record is, in the cell of its column and its kind.
pub(crate) fn note_kinds(cells: &mut [Seen], width: usize, row: &ByteRecord, line: usize)
    requires sized { length cells.old ≡ width * KINDS }
    requires few { (i : ℕ) → (slice_index_or cells.old i none_seen).count < 2 ^ 62 }
    ensures sized { length cells.new ≡ length cells.old }
    ensures few { (i : ℕ)
        → (slice_index_or cells.new i none_seen).count ≤ (slice_index_or cells.old i none_seen).count + 1 }
    ensures kinds { (column kind : ℕ) → column < width → kind < KINDS
        → slice_index_or cells.new (column * KINDS + kind) none_seen
        ≡ noted (is_kind column kind (record { line = line; fields = fields_of row.now })) line
        (slice_index_or cells.old (column * KINDS + kind) none_seen) }
{
    for j in 0..width {
        let kind = kind_of(field_or_none(row, j));
        note(cells, j * KINDS + kind.index(), line);
    }
}

fn ends_line(byte: u8) -> bool
    ensures { result ≡ ends_line byte }
{
    byte == b'\n' || byte == b'\r'
}

fn has_end(field: &[u8]) -> bool
    ensures { result ≡ list_any ends_line field.now }
{
    for i in 0..field.len() {
        if ends_line(field[i]) {
            return true;
        }
    }
    false
}

/// Whether the record stands on several lines.
pub(crate) fn is_folded(row: &ByteRecord) -> bool
    ensures { result ≡ list_any (list_any ends_line) (fields_of row.now) }
{
    for i in 0..row.len() {
        if has_end(field_or_none(row, i)) {
            return true;
        }
    }
    false
}

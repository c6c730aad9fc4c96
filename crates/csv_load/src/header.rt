// What a header is refused for.
ghost use Rattle.std.specs.Prelude.{◌≡◌, ◌≤◌, ◌<◌, ◌^◌, length, take};
ghost use Rattle.csv.specs.Records.{fields_of};
ghost use Rattle.csv_load.specs.Judged.{first_equal, first_long, first_twice, header_refusal};

use crate::fields::field;
use crate::limits::MOST_NAME_BYTES;
use crate::refusal::LoadRefusal;
use csv::ByteRecord;
use table_core::MOST_COLUMNS;

fn long_name(row: &ByteRecord) -> Option<u32>
    requires small { length (fields_of row.now) < 2 ^ 32 }
    ensures first { result ≡ first_long 0 (fields_of row.now) }
{
    for place in 0..row.len() {
        if field(row, place).len() > MOST_NAME_BYTES {
            return Some(place as u32);
        }
    }
    None
}

fn equal_before(row: &ByteRecord, name: &[u8], end: usize) -> Option<u32>
    requires small { length (fields_of row.now) < 2 ^ 32 }
    requires there { end ≤ length (fields_of row.now) }
    ensures first { result ≡ first_equal name.now 0 (take end (fields_of row.now)) }
{
    for place in 0..end {
        if field(row, place) == name {
            return Some(place as u32);
        }
    }
    None
}

fn twice_named(row: &ByteRecord) -> Option<(u32, u32)>
    requires small { length (fields_of row.now) < 2 ^ 32 }
    ensures first { result ≡ first_twice (fields_of row.now) 0 (fields_of row.now) }
{
    for second in 0..row.len() {
        if let Some(first) = equal_before(row, field(row, second), second) {
            return Some((first, second as u32));
        }
    }
    None
}

/// Why a record is no header, if it is none: more than 16 fields, one of more than 128 bytes, or two that
/// are equal. It takes no memory.
pub fn judge_header(row: &ByteRecord) -> Option<LoadRefusal>
    requires small { length (fields_of row.now) < 2 ^ 32 }
    ensures refusal { result ≡ header_refusal (fields_of row.now) }
{
    let width = row.len();
    if width > MOST_COLUMNS as usize {
        return Some(LoadRefusal::TooManyColumns {
            columns: width as u32,
        });
    }
    if let Some(column) = long_name(row) {
        return Some(LoadRefusal::LongName { column });
    }
    if let Some((first, second)) = twice_named(row) {
        return Some(LoadRefusal::TwiceNamed { first, second });
    }
    None
}

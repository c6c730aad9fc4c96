// One field of a record.
ghost use Rattle.std.specs.Prelude.{◌≡◌, ◌<◌, [], length, slice_index_or};
ghost use Rattle.csv.specs.Records.{fields_of};

use csv::ByteRecord;

/// The bytes of the field at a place, counted from 0, without a copy.
pub fn field(row: &ByteRecord, place: usize) -> &[u8]
    requires there { place < length (fields_of row.now) }
    ensures bytes { result.now ≡ slice_index_or (fields_of row.now) place [] }
{
    match row.get(place) {
        Some(field) => field,
        None => unreachable!(),
    }
}

// One field of a record.
ghost use Rattle.std.specs.Prelude.{◌≡◌, [], slice_index_or};
ghost use Rattle.csv.specs.Records.{fields_of};

use csv::ByteRecord;

/// The bytes of the field at a place, counted from 0, without a copy; of none where the record is shorter.
pub(crate) fn field_or_none(row: &ByteRecord, place: usize) -> &[u8]
    ensures { result.now ≡ slice_index_or (fields_of row.now) place [] }
{
    match row.get(place) {
        Some(field) => field,
        None => &[],
    }
}

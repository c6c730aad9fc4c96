// What a data record is refused for.
ghost use Rattle.std.specs.Prelude.{◌≡◌, ◌≤◌, ◌<◌, ◌^◌, length};
ghost use Rattle.csv.specs.Records.{fields_of};
ghost use Rattle.csv_load.specs.Judged.{row_refusal};

use crate::refusal::LoadRefusal;
use csv::ByteRecord;
use table_core::MOST_ROWS;

/// Why a record is no row of a table of so many columns, where so many rows stand before it, if it is none: one row
/// past the limit is one too many, however wide. It takes no memory.
pub(crate) fn judge_row(row: &ByteRecord, width: usize, before: u32) -> Option<LoadRefusal>
    requires small { length (fields_of row.now) < 2 ^ 32 }
    requires few { before ≤ MOST_ROWS }
    ensures refusal { result ≡ row_refusal width before (fields_of row.now) }
{
    if before == MOST_ROWS {
        return Some(LoadRefusal::TooManyRows);
    }
    if row.len() != width {
        return Some(LoadRefusal::Ragged {
            row: before + 1,
            fields: row.len() as u32,
        });
    }
    None
}

// Records written as coop_cli reads them.
ghost use Rattle.std.specs.Prelude.{IfOk, OnOk};
ghost use Rattle.std.specs.Io.KnownBytes.{Appends, Keeps};
ghost use Rattle.csv.specs.Records.{fields_of};
ghost use Rattle.csv.specs.Writing.{default_writer, row_text, text_written};
ghost use Rattle.prepare_rules.specs.Outcome.{IsWriting};

use crate::failure::Failure;
use csv::{ByteRecord, Writer};
use std::io::Write;

/// Writes a record.
pub(crate) fn put<W: Write + Drop>(writer: &mut Writer<W>, row: &ByteRecord) -> Result<(), Failure>
    requires { IsWriting writer.old }
    ensures writing { OnOk result (IsWriting writer.new) }
    ensures text { OnOk result
        (Appends (text_written W.contents writer.old) (text_written W.contents writer.new)
        (row_text default_writer (fields_of row.now))) }
{
    let Ok(()) = writer.write_byte_record(row) else {
        return Err(Failure::Output);
    };
    Ok(())
}

/// Hands all that was written to what is underneath.
pub(crate) fn finish<W: Write + Drop>(writer: Writer<W>) -> Result<W, Failure>
    ensures { IfOk result (λ under. Keeps (text_written W.contents writer) (W.contents under)) }
{
    match writer.into_inner() {
        Ok(under) => return Ok(under),
        Err(_) => return Err(Failure::Output),
    }
}

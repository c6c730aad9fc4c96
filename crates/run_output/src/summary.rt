// The lines that count what a run did.
ghost use Rattle.std.specs.Prelude.{◌≡◌, ◌++◌, OnErr, OnOk, decimal};
ghost use Rattle.table_core.specs.Writing.{GrewByPrefix};
ghost use Rattle.run_output.specs.Counts.{number_and, policy_line, run_counts, summary_line};

use itoa::Buffer;
use table_core::{Bytes, Memory};

// Puts a number at the end.
pub(crate) fn write_decimal(out: &mut Bytes, number: u64) -> Result<(), Memory>
    ensures text { OnOk result (out.new ≡ out.old ++ decimal number) }
    ensures memory { OnErr result (GrewByPrefix out.old out.new (decimal number)) }
{
    let mut buffer = Buffer::new();
    out.append(buffer.format(number).as_bytes())?;
    Ok(())
}

// Puts a number at the end, and a text behind it.
pub(crate) fn write_counted(out: &mut Bytes, number: u64, after: &[u8]) -> Result<(), Memory>
    ensures text { OnOk result (out.new ≡ out.old ++ number_and number after.now) }
    ensures memory { OnErr result (GrewByPrefix out.old out.new (number_and number after.now)) }
{
    write_decimal(out, number)?;
    out.append(after)?;
    Ok(())
}

/// Puts the summary of a run at the end: its statements, answers and deliveries, and the rows of the table.
///
/// Out of memory leaves what was there and a prefix of it.
pub fn write_summary(
    out: &mut Bytes,
    queries: u32,
    answered: u32,
    deliveries: u64,
    rows: u32,
) -> Result<(), Memory>
    ensures line { OnOk result (out.new ≡ out.old ++ summary_line queries answered deliveries rows) }
    ensures memory { OnErr result (GrewByPrefix out.old out.new (summary_line queries answered deliveries rows)) }
{
    out.append(b"summary: ")?;
    write_counted(out, queries as u64, b" queries, ")?;
    write_counted(out, answered as u64, b" answered, ")?;
    write_counted(out, deliveries, b" deliveries, ")?;
    write_counted(out, rows as u64, b" rows\n")
}

// Puts the counts of a run at the end, with the line end.
fn write_run_counts(
    out: &mut Bytes,
    reads: u64,
    evictions: u64,
    deliveries: u64,
    stops: u64,
) -> Result<(), Memory>
    ensures text { OnOk result (out.new ≡ out.old ++ run_counts reads evictions deliveries stops) }
    ensures memory { OnErr result (GrewByPrefix out.old out.new (run_counts reads evictions deliveries stops)) }
{
    write_counted(out, reads, b" reads, ")?;
    write_counted(out, evictions, b" evictions, ")?;
    write_counted(out, deliveries, b" deliveries, ")?;
    write_counted(out, stops, b" stops\n")
}

/// Puts the line of a policy at the end, where policies are compared: its name as it is given, and the counts of its
/// run.
///
/// Out of memory leaves what was there and a prefix of it.
pub fn write_policy_line(
    out: &mut Bytes,
    name: &str,
    reads: u64,
    evictions: u64,
    deliveries: u64,
    stops: u64,
) -> Result<(), Memory>
    ensures line { OnOk result (out.new ≡ out.old ++ policy_line name.now reads evictions deliveries stops) }
    ensures memory { OnErr result (GrewByPrefix out.old out.new
        (policy_line name.now reads evictions deliveries stops)) }
{
    out.append(name.as_bytes())?;
    out.append(b": ")?;
    write_run_counts(out, reads, evictions, deliveries, stops)
}

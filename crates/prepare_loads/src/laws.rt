// What holds of every export and all rules.
ghost use Rattle.prepare_loads.specs.Loads.{BeginsLoad, Loads, ReadsTheRecords};

/// Where `prepare` refuses no record, coop_cli's loader refuses nothing of what was written.
pub fn what_is_written_loads()
    ensures { Loads }
{}

/// What `prepare` wrote up to a record that it refused is nothing, or loads; but a row too many, which it writes and
/// refuses, the loader refuses too.
pub fn what_is_written_up_to_a_refusal_loads()
    ensures { BeginsLoad }
{}

/// The records that the loader makes its table of are those that the rules made, whatever was refused.
pub fn the_loader_reads_the_records()
    ensures { ReadsTheRecords }
{}

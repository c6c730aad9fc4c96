// What holds of every export and all rules that a look gives.
ghost use Rattle.prepare_auto.specs.Kept.{KeepsFields, KeepsRecords};

/// Where neither white space is asked to be left out nor numbers to be rounded, a field that doesn't refuse its record
/// is written as it was, or it is a number of the same value in another spelling, or in a column of dates the same day,
/// or one of the marks for missing values in a column of numbers or of dates, which becomes empty.
pub fn fields_keep_their_value()
    ensures { KeepsFields }
{}

/// Where no records are asked to be left out and none is refused, as many records are written as the export has, and
/// one more for names that it lacks.
pub fn records_are_kept()
    ensures { KeepsRecords }
{}

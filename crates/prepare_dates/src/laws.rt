// What holds of every date.
ghost use Rattle.prepare_dates.specs.Written.{ReadsBack, Stays};

/// What is written of a date that was read is a date in either order, and the same one.
pub fn written_dates_are_read_back()
    ensures { ReadsBack }
{}

/// A field YYYY-MM-DD that names a day is a date in either order, and is written as it stands.
pub fn written_dates_stay()
    ensures { Stays }
{}

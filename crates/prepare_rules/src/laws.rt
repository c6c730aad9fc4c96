// What holds of every export and all rules.
ghost use Rattle.prepare_rules.specs.Dates.{KeepsDay};
ghost use Rattle.prepare_rules.specs.Numbers.{KeepsWorth, RoundsNearest};
ghost use Rattle.prepare_rules.specs.Outcome.{ReadsBack};

/// The text that `prepare` writes, read again in the form that `coop_cli` takes, has the very records that were
/// written, field by field.
pub fn written_records_are_read_back()
    ensures { ReadsBack }
{}

/// A number that a rule spells anew, and that fits the limit, has the value that it had: below zero or not, and its
/// digits as a whole number, times ten so often and a tenth so often.
pub fn numbers_keep_their_value()
    ensures { KeepsWorth }
{}

/// A number that is rounded is the nearest one of its last place, so its error is at most half a unit there; of two it
/// is the one whose last digit is even. It has no more digits behind the point than the limit says.
pub fn numbers_are_rounded_to_the_nearest()
    ensures { RoundsNearest }
{}

/// A date that is written anew, YYYY-MM-DD, is the day that it was, in whatever order it is read again.
pub fn dates_keep_their_day()
    ensures { KeepsDay }
{}

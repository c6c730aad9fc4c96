// What holds of every number.
ghost use Rattle.prepare_numbers.specs.Plain.{KeepsValue};
ghost use Rattle.prepare_numbers.specs.Rounding.{KeepsWithin, RoundsNearest, StaysWithin};

/// A number that is written has the value of the field that spells it.
pub fn numbers_keep_their_value()
    ensures { KeepsValue }
{}

/// A number that is written within a limit, and fits it, has the value of the field that spells it.
pub fn fitting_numbers_keep_their_value()
    ensures { KeepsWithin }
{}

/// A number that is written within a limit is the nearest one with so many digits behind the point, so its error is at
/// most half a unit of the last place; of two it is the one whose last digit is even.
pub fn numbers_are_rounded_to_the_nearest()
    ensures { RoundsNearest }
{}

/// A number that is written within a limit has no more digits behind the point than the limit says.
pub fn numbers_stay_within()
    ensures { StaysWithin }
{}

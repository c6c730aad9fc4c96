// What the rules of its column make of a field.
ghost use Rattle.std.specs.Prelude.{◌≡◌};
ghost use Rattle.prepare_rules.specs.Made.{change_by, change_refusal, dated_change, mark_change, undated_change};

use crate::cause::Cause;
use prepare_numbers::Fit;

/// What the rules of its column make of a field.
#[derive(Clone, Copy, Debug, PartialEq, Eq)]
pub enum Change {
    /// It stays as it was.
    Kept,
    /// It was a mark for a missing value, and is left out.
    Missing,
    /// It is the same number in another spelling.
    Spelled,
    /// It is the nearest number within the limit.
    Rounded,
    /// It has more digits behind the point than the limit says, and refuses its record.
    TooLong,
    /// It is the same day in another spelling.
    Dated,
    /// It is no date where one has to stand, and refuses its record.
    NoDate,
}

impl Change {
    /// Of a number that fits the limit so, and is written as it was or not.
    pub(crate) fn by(fit: Fit, is_same: bool) -> Change
        ensures { result ≡ change_by fit is_same }
    {
        match fit {
            Fit::Whole => {
                if is_same {
                    return Change::Kept;
                }
                Change::Spelled
            }
            Fit::Rounded => Change::Rounded,
            Fit::TooLong => Change::TooLong,
        }
    }

    /// Of a mark for a missing value: that which has no byte changes nothing.
    pub(crate) fn of_mark(mark: &[u8]) -> Change
        ensures { result ≡ mark_change mark.now }
    {
        match mark {
            [] => Change::Kept,
            _ => Change::Missing,
        }
    }

    /// Of a date that is written as it was or not.
    pub(crate) fn of_date(is_same: bool) -> Change
        ensures { result ≡ dated_change is_same }
    {
        if is_same {
            return Change::Kept;
        }
        Change::Dated
    }

    /// Of a field of a column of dates that is none: the empty one stays.
    pub(crate) fn of_no_date(field: &[u8]) -> Change
        ensures { result ≡ undated_change field.now }
    {
        match field {
            [] => Change::Kept,
            _ => Change::NoDate,
        }
    }

    /// Why it refuses its record, where it does, in a column of this number.
    pub(crate) fn refusal(self, column: usize) -> Option<Cause>
        ensures { result ≡ change_refusal column self }
    {
        match self {
            Change::TooLong => Some(Cause::LongNumber { column }),
            Change::NoDate => Some(Cause::NoDate { column }),
            _ => None,
        }
    }
}

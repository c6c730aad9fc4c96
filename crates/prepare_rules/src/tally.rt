// What the rules did.
ghost use Rattle.std.specs.Prelude.{◌≡◌, IfOk};
ghost use Rattle.prepare_rules.specs.Tally.{no_tally, with_change, with_pad, with_trim};

use crate::change::Change;
use crate::failure::Failure;
use crate::hits::Hits;

/// What the rules did in the records that are written.
#[derive(Clone, Copy, Debug, PartialEq, Eq)]
pub struct Tally {
    /// Fields that lost white space at their ends.
    pub trimmed: Hits,
    /// Fields that were a mark for a missing value.
    pub missing: Hits,
    /// Numbers that are the same in another spelling.
    pub spelled: Hits,
    /// Numbers that are rounded.
    pub rounded: Hits,
    /// Dates that are the same day in another spelling.
    pub dated: Hits,
    /// Records that got empty fields at their end.
    pub padded: Hits,
}

impl Tally {
    /// Nothing was done.
    pub fn none() -> Tally
        ensures { result ≡ no_tally }
    {
        let none = Hits::none();
        Tally {
            trimmed: none,
            missing: none,
            spelled: none,
            rounded: none,
            dated: none,
            padded: none,
        }
    }

    /// With a field of which white space is left out or not.
    #[tactic(auto, unfolding(crate::specs::Tally::with_trim))]
    pub(crate) fn with_trim(self, is: bool, line: u64) -> Result<Tally, Failure>
        ensures { IfOk result (λ t. t ≡ with_trim is line self) }
    {
        Ok(Tally {
            trimmed: self.trimmed.hit_if(is, line)?,
            ..self
        })
    }

    /// With a record that is padded or not.
    #[tactic(auto, unfolding(crate::specs::Tally::with_pad))]
    pub(crate) fn with_pad(self, is: bool, line: u64) -> Result<Tally, Failure>
        ensures { IfOk result (λ t. t ≡ with_pad is line self) }
    {
        Ok(Tally {
            padded: self.padded.hit_if(is, line)?,
            ..self
        })
    }

    /// With what the rules of its column made of a field.
    #[tactic(auto, unfolding(crate::specs::Tally::with_change))]
    pub(crate) fn with_change(self, change: Change, line: u64) -> Result<Tally, Failure>
        ensures { IfOk result (λ t. t ≡ with_change change line self) }
    {
        match change {
            Change::Missing => Ok(Tally {
                missing: self.missing.hit_if(true, line)?,
                ..self
            }),
            Change::Spelled => Ok(Tally {
                spelled: self.spelled.hit_if(true, line)?,
                ..self
            }),
            Change::Rounded => Ok(Tally {
                rounded: self.rounded.hit_if(true, line)?,
                ..self
            }),
            Change::Dated => Ok(Tally {
                dated: self.dated.hit_if(true, line)?,
                ..self
            }),
            Change::Kept | Change::TooLong | Change::NoDate => Ok(self),
        }
    }
}

//! The judgement of a whole story.
ghost use Rattle.std.specs.Prelude.{◌≡◌, ◌↔◌, IfNone, IfOk, IfSome, IsTrue};
ghost use Rattle.scan_story.specs.Setting.{HasRoom, IsSetting};
ghost use Rattle.scan_story.specs.Views.{past};
ghost use Rattle.scan_story.specs.MayFollow.{Allowed};
ghost use Rattle.scan_story.specs.Whole.{Undisturbed};
ghost use Rattle.inspect_referee.specs.Choices.{IsTaken, LegalBy};
ghost use Rattle.inspect_referee.specs.Ruling.{IsFirstIllegalBy, IsOutdoneBy, IsReasonBy, IsRulingBy};
ghost use Rattle.inspect_referee.specs.Ruling.{finds_legal, place_of};
ghost use Rattle.inspect_referee.specs.Seen.{setting, seen, IsReading};
ghost use Rattle.inspect_referee.specs.Terms.{setting_of};

use crate::choices::Choices;
use crate::counts::count_kinds;
use crate::referee::Referee;
use crate::ruling::{Better, Reason, Ruling};
use crate::terms::Terms;
use scan_story::Entry;
use std::alloc::Global;
use table_sets::Memory;

impl Referee<'_> {
    // A better choice than what the entry takes, which may follow; `None` where it takes what may be taken.
    fn beaten(&self, entry: &Entry) -> Option<Better>
        requires reading { IsReading self.now }
        requires allowed { Allowed (setting self.now) (seen self.now) entry.now }
        ensures some { IfSome result (IsOutdoneBy self.now.choices (setting self.now) (seen self.now) entry.now) }
        ensures none { IfNone result (IsTaken self.now.choices (setting self.now) (seen self.now) entry.now) }
    {
        match self.choices {
            Choices::OfPolicy => self.outdone(entry),
            Choices::Free => None,
        }
    }

    // Why the entry may not come; `None` where it may.
    fn objection(&self, entry: &Entry) -> Option<Reason>
        requires { IsReading self.now }
        ensures some { IfSome result (IsReasonBy self.now.choices (setting self.now) (seen self.now) entry.now) }
        ensures allowed { IfNone result (Allowed (setting self.now) (seen self.now) entry.now) }
        ensures taken { IfNone result (IsTaken self.now.choices (setting self.now) (seen self.now) entry.now) }
    {
        if let Some(rule) = self.breaks(entry) {
            return Some(Reason::Broken(rule));
        }
        if let Some(better) = self.beaten(entry) {
            return Some(Reason::Outdone(better));
        }
        None
    }
}

/// Judges the story: whether it is legal in the setting of the terms, and if not, at which entry and why. Where choices
/// are free it is judged by the rules alone, and the policy of the terms stands for none.
///
/// Where it is legal, the ruling tells whether it is whole, and counts its entries by kind; and between a delivery and
/// its release no held piece left its frame. The time for an entry is bounded by the numbers of chunks and queries.
/// The error is out of memory.
pub fn judge(
    alloc: Global,
    terms: &Terms,
    choices: Choices,
    entries: &[Entry],
) -> Result<Ruling, Memory>
    requires { IsSetting (setting_of terms.now) }
    ensures ruling { IfOk result (IsRulingBy choices (setting_of terms.now) entries.now) }
    ensures exactly { IfOk result (λ r. IsTrue (finds_legal r)
        ↔ LegalBy choices (setting_of terms.now) (past entries.now)) }
    ensures first { IfOk result (λ r. IsFirstIllegalBy choices (setting_of terms.now) entries.now (place_of r)) }
    ensures calm { IfOk result (λ r. HasRoom (setting_of terms.now) → IsTrue (finds_legal r)
        → Undisturbed (setting_of terms.now) (past entries.now)) }
{
    let mut referee = Referee::new(alloc, terms, choices, entries)?;
    for place in 0..entries.len() {
        if let Some(reason) = referee.objection(&entries[place]) {
            return Ok(Ruling::Illegal { place, reason });
        }
        referee = referee.follow(alloc)?;
    }
    Ok(Ruling::Legal {
        whole: referee.is_whole(),
        counts: count_kinds(entries),
    })
}

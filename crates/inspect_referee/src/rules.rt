//! Which rule an entry breaks.
ghost use Rattle.std.specs.Prelude.{◌≡◌, false, true, ℕ, IfNone, IfSome};
ghost use Rattle.scan_story.specs.declared.entry.Why.{Why};
ghost use Rattle.scan_story.specs.declared.entry.Entry.TheVariants.{Register, Plan, Evict, Fill, Filled};
ghost use Rattle.scan_story.specs.declared.entry.Entry.TheVariants.{Failed, Deliver, Release, Stop, End};
ghost use Rattle.scan_story.specs.MayFollow.{Allowed};
ghost use Rattle.inspect_referee.specs.Rules.{is_reason, keeps};
ghost use Rattle.inspect_referee.specs.Seen.{setting, seen, IsReading};

use crate::load::{all_begun, begins, begins_in, has_filled, misses};
use crate::referee::Referee;
use crate::rule::Rule;
use scan_story::{Entry, Why};

fn is_reason(why: Why) -> bool
    ensures { result ≡ is_reason why }
{
    match why {
        Why::Fault { before, after } => before < after
            || (before == 18446744073709551615 && after == 18446744073709551615),
        Why::Damage { .. } => true,
    }
}

impl Referee<'_> {
    fn register_breaks(&self, w: u32, q: u32) -> Option<Rule>
        requires { IsReading self.now }
        ensures broken { IfSome result (λ r. keeps (setting self.now) (seen self.now) (Register w q) r ≡ false) }
        ensures kept { IfNone result (Allowed (setting self.now) (seen self.now) (Register w q)) }
    {
        if self.is_registered(q) {
            return Some(Rule::First);
        }
        if !self.is_on(q, w) {
            return Some(Rule::OnWorker);
        }
        if self.has_active(w) {
            return Some(Rule::Alone);
        }
        if !self.holds_nothing(w) {
            return Some(Rule::HoldsNothing);
        }
        if self.loads(w) {
            return Some(Rule::LoadsNothing);
        }
        None
    }

    fn plan_breaks(&self, w: u32, q: u32, c: u32) -> Option<Rule>
        requires { IsReading self.now }
        ensures broken { IfSome result (λ r. keeps (setting self.now) (seen self.now) (Plan w q c) r ≡ false) }
        ensures kept { IfNone result (Allowed (setting self.now) (seen self.now) (Plan w q c)) }
    {
        if w >= self.terms.workers {
            return Some(Rule::IsWorker);
        }
        if !self.is_quiet() {
            return Some(Rule::NoneUnderway);
        }
        if !self.holds_nothing(w) {
            return Some(Rule::HoldsNothing);
        }
        if !self.is_starved(q) {
            return Some(Rule::Starved);
        }
        if !self.is_target(q, c) {
            return Some(Rule::Target);
        }
        None
    }

    fn evict_breaks(&self, w: u32, c: u32) -> Option<Rule>
        requires { IsReading self.now }
        ensures broken { IfSome result (λ r. keeps (setting self.now) (seen self.now) (Evict w c) r ≡ false) }
        ensures kept { IfNone result (Allowed (setting self.now) (seen self.now) (Evict w c)) }
    {
        let Some(load) = &self.load else {
            return Some(Rule::OwnLoad);
        };
        if load.worker != w {
            return Some(Rule::OwnLoad);
        }
        if load.begun.len() != 0 {
            return Some(Rule::NoneBegun);
        }
        if self.book.free_frames() as usize >= load.missing.len() {
            return Some(Rule::TooFew);
        }
        if !self.book.is_victim(c) {
            return Some(Rule::Victim);
        }
        None
    }

    fn fill_breaks(&self, w: u32, f: u32, p: u32) -> Option<Rule>
        requires { IsReading self.now }
        ensures broken { IfSome result (λ r. keeps (setting self.now) (seen self.now) (Fill w f p) r ≡ false) }
        ensures kept { IfNone result (Allowed (setting self.now) (seen self.now) (Fill w f p)) }
    {
        let Some(load) = &self.load else {
            return Some(Rule::OwnLoad);
        };
        if load.worker != w {
            return Some(Rule::OwnLoad);
        }
        if load.missing.len() > self.book.free_frames() as usize + load.begun.len() {
            return Some(Rule::Enough);
        }
        if f >= self.terms.frames {
            return Some(Rule::IsFrame);
        }
        if !self.is_free(f) {
            return Some(Rule::Free);
        }
        if !misses(load, p) {
            return Some(Rule::Missing);
        }
        if begins(load, p) {
            return Some(Rule::NotBegun);
        }
        None
    }

    fn filled_breaks(&self, w: u32, f: u32, p: u32) -> Option<Rule>
        requires { IsReading self.now }
        ensures broken { IfSome result (λ r. keeps (setting self.now) (seen self.now) (Filled w f p) r ≡ false) }
        ensures kept { IfNone result (Allowed (setting self.now) (seen self.now) (Filled w f p)) }
    {
        let Some(load) = &self.load else {
            return Some(Rule::OwnLoad);
        };
        if load.worker != w {
            return Some(Rule::OwnLoad);
        }
        if !begins_in(load, f, p) {
            return Some(Rule::Begun);
        }
        if has_filled(load, p) {
            return Some(Rule::NotFilled);
        }
        if !all_begun(load) {
            return Some(Rule::AllBegun);
        }
        None
    }

    fn failed_breaks(&self, w: u32, q: u32, p: u32, why: Why) -> Option<Rule>
        requires { IsReading self.now }
        ensures broken { IfSome result (λ r. keeps (setting self.now) (seen self.now) (Failed w q p why) r ≡ false) }
        ensures kept { IfNone result (Allowed (setting self.now) (seen self.now) (Failed w q p why)) }
    {
        let Some(load) = &self.load else {
            return Some(Rule::OwnLoad);
        };
        if load.worker != w {
            return Some(Rule::OwnLoad);
        }
        if load.query != q {
            return Some(Rule::ForQuery);
        }
        if !begins(load, p) {
            return Some(Rule::Begun);
        }
        if has_filled(load, p) {
            return Some(Rule::NotFilled);
        }
        if !all_begun(load) {
            return Some(Rule::AllBegun);
        }
        if !is_reason(why) {
            return Some(Rule::Reason);
        }
        None
    }

    fn deliver_breaks(&self, w: u32, q: u32, c: u32) -> Option<Rule>
        requires { IsReading self.now }
        ensures broken { IfSome result (λ r. keeps (setting self.now) (seen self.now) (Deliver w q c) r ≡ false) }
        ensures kept { IfNone result (Allowed (setting self.now) (seen self.now) (Deliver w q c)) }
    {
        if !self.is_active(q) {
            return Some(Rule::Active);
        }
        if !self.is_on(q, w) {
            return Some(Rule::OnWorker);
        }
        if !self.holds_nothing(w) {
            return Some(Rule::HoldsNothing);
        }
        if self.loads(w) {
            return Some(Rule::LoadsNothing);
        }
        if !self.is_ready(q, c) {
            return Some(Rule::Ready);
        }
        None
    }

    fn release_breaks(&self, w: u32, q: u32, c: u32) -> Option<Rule>
        requires { IsReading self.now }
        ensures broken { IfSome result (λ r. keeps (setting self.now) (seen self.now) (Release w q c) r ≡ false) }
        ensures kept { IfNone result (Allowed (setting self.now) (seen self.now) (Release w q c)) }
    {
        if !self.holds(w, q, c) {
            return Some(Rule::Holds);
        }
        None
    }

    fn stop_breaks(&self, w: u32, q: u32) -> Option<Rule>
        requires { IsReading self.now }
        ensures broken { IfSome result (λ r. keeps (setting self.now) (seen self.now) (Stop w q) r ≡ false) }
        ensures kept { IfNone result (Allowed (setting self.now) (seen self.now) (Stop w q)) }
    {
        if !self.is_active(q) {
            return Some(Rule::Active);
        }
        if !self.is_on(q, w) {
            return Some(Rule::OnWorker);
        }
        if !self.holds_nothing(w) {
            return Some(Rule::HoldsNothing);
        }
        if self.loads(w) {
            return Some(Rule::LoadsNothing);
        }
        None
    }

    fn end_breaks(&self, w: u32, q: u32) -> Option<Rule>
        requires { IsReading self.now }
        ensures broken { IfSome result (λ r. keeps (setting self.now) (seen self.now) (End w q) r ≡ false) }
        ensures kept { IfNone result (Allowed (setting self.now) (seen self.now) (End w q)) }
    {
        if !self.is_active(q) {
            return Some(Rule::Active);
        }
        if !self.is_on(q, w) {
            return Some(Rule::OnWorker);
        }
        if !self.holds_nothing(w) {
            return Some(Rule::HoldsNothing);
        }
        if self.loads(w) {
            return Some(Rule::LoadsNothing);
        }
        if !self.needs_nothing(q) {
            return Some(Rule::NeedsNothing);
        }
        None
    }

    /// A rule of its kind that the entry breaks; `None` where it may follow.
    pub fn breaks(&self, entry: &Entry) -> Option<Rule>
        requires { IsReading self.now }
        ensures broken { IfSome result (λ r. keeps (setting self.now) (seen self.now) entry.now r ≡ false) }
        ensures kept { IfNone result (Allowed (setting self.now) (seen self.now) entry.now) }
    {
        match *entry {
            Entry::Register { worker, query } => self.register_breaks(worker, query),
            Entry::Plan {
                worker,
                query,
                chunk,
            } => self.plan_breaks(worker, query, chunk),
            Entry::Evict { worker, chunk } => self.evict_breaks(worker, chunk),
            Entry::Fill {
                worker,
                frame,
                piece,
            } => self.fill_breaks(worker, frame, piece),
            Entry::Filled {
                worker,
                frame,
                piece,
            } => self.filled_breaks(worker, frame, piece),
            Entry::Failed {
                worker,
                query,
                piece,
                why,
            } => self.failed_breaks(worker, query, piece, why),
            Entry::Deliver {
                worker,
                query,
                chunk,
            } => self.deliver_breaks(worker, query, chunk),
            Entry::Release {
                worker,
                query,
                chunk,
            } => self.release_breaks(worker, query, chunk),
            Entry::Stop { worker, query } => self.stop_breaks(worker, query),
            Entry::End { worker, query } => self.end_breaks(worker, query),
        }
    }
}

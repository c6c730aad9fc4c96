//! Whether there was a better choice.
ghost use Rattle.std.specs.Prelude.{◌≡◌, ◌<◌, ◌≤◌, false, true, ℕ, get_or, IfNone, IfSome};
ghost use Rattle.scan_story.specs.declared.setting.PolicyName.TheVariants as names;
ghost use Rattle.scan_story.specs.Counting.{has};
ghost use Rattle.scan_story.specs.Views.{is_active, is_held};
ghost use Rattle.scan_story.specs.MayFollow.{Allowed, is_victim};
ghost use Rattle.scan_story.specs.Policies.{dist_from, place_in};
ghost use Rattle.scan_story.specs.Legal.{Chosen, cursor_at};
ghost use Rattle.interest_book.specs.Picks.{PicksLoad};
ghost use Rattle.inspect_referee.specs.Ranks as spec;
ghost use Rattle.inspect_referee.specs.Ruling.{IsBetter, IsOutdone};
ghost use Rattle.inspect_referee.specs.Seen.{setting, seen, IsReading};

use crate::cursor::{at, start_of};
use crate::rank::{Choice, Rank, beats};
use crate::referee::Referee;
use crate::ruling::Better;
use interest_book::{CountedSet, Policy};
use relevance::Relevance;
use scan_story::{Entry, PolicyName};

impl Referee<'_> {
    // The number where it is a better candidate than one of this rank.
    fn better_at(&self, choice: Choice, q: u32, y: u32, taken: Rank) -> Option<Better>
        requires reading { IsReading self.now }
        requires query { q ≤ 256 }
        ensures some { IfSome result (λ b. (x : ℕ) → taken ≡ spec.rank_of (setting self.now) (seen self.now) choice q x
            → IsBetter (setting self.now) (seen self.now) choice q x b) }
        ensures none { IfNone result (spec.is_candidate (setting self.now) (seen self.now) choice q y ≡ true
            → spec.beats (spec.rank_of (setting self.now) (seen self.now) choice q y) taken ≡ false) }
    {
        if !self.is_candidate(choice, q, y) {
            return None;
        }
        let rank = self.rank_of(choice, q, y);
        if !beats(rank, taken) {
            return None;
        }
        Some(Better {
            choice,
            number: y,
            rank,
            taken,
        })
    }

    // The first better trigger than q.
    fn better_trigger(&self, q: u32) -> Option<Better>
        requires reading { IsReading self.now }
        requires query { q ≤ 256 }
        requires candidate { spec.is_candidate (setting self.now) (seen self.now) Choice.Trigger q q ≡ true }
        ensures some { IfSome result (λ b. IsBetter (setting self.now) (seen self.now) Choice.Trigger q q b) }
        ensures none { IfNone result (spec.NoneBetter (setting self.now) (seen self.now) Choice.Trigger q q) }
    {
        let taken = self.rank_of(Choice::Trigger, q, q);
        // Queries are at most 256.
        for y in 0..257 {
            if let Some(better) = self.better_at(Choice::Trigger, q, y, taken) {
                return Some(better);
            }
        }
        None
    }

    // The chunk that the policy loads for the query.
    fn best_load(&self, q: u32) -> Option<u32>
        requires reading { IsReading self.now }
        requires query { q ≤ 256 }
        requires active { is_active (seen self.now) q ≡ true }
        ensures { PicksLoad (setting self.now).policy (cursor_at (setting self.now) (seen self.now)) (setting self.now)
            (seen self.now) q result }
    {
        match self.terms.policy {
            PolicyName::Relevance => Relevance.pick_load(&self.book, q),
            PolicyName::Elevator => self.nearest_target(q, at(&self.cursor, 0)),
            PolicyName::Normal => self.nearest_target(q, 0),
            PolicyName::Attach => self.nearest_target(q, start_of(&self.cursor, q)),
        }
    }

    // A better chunk to load for the query than c.
    fn better_load(&self, q: u32, c: u32) -> Option<Better>
        requires reading { IsReading self.now }
        requires query { q ≤ 256 }
        requires active { is_active (seen self.now) q ≡ true }
        requires candidate { spec.is_candidate (setting self.now) (seen self.now) Choice.Load q c ≡ true }
        ensures some { IfSome result (λ b. IsBetter (setting self.now) (seen self.now) Choice.Load q c b) }
        ensures none { IfNone result (spec.NoneBetter (setting self.now) (seen self.now) Choice.Load q c) }
    {
        let taken = self.rank_of(Choice::Load, q, c);
        match self.best_load(q) {
            Some(best) => self.better_at(Choice::Load, q, best, taken),
            None => None,
        }
    }

    // The first of the chunks that is a better one to deliver to the query than one of this rank.
    fn better_among(&self, chunks: &CountedSet, q: u32, taken: Rank) -> Option<Better>
        requires reading { IsReading self.now }
        requires query { q ≤ 256 }
        ensures some { IfSome result (λ b. (x : ℕ)
            → taken ≡ spec.rank_of (setting self.now) (seen self.now) Choice.Delivery q x
            → IsBetter (setting self.now) (seen self.now) Choice.Delivery q x b) }
        ensures none { IfNone result ((y : ℕ) → has chunks.now y ≡ true
            → spec.is_candidate (setting self.now) (seen self.now) Choice.Delivery q y ≡ true
            → spec.beats (spec.rank_of (setting self.now) (seen self.now) Choice.Delivery q y) taken ≡ false) }
    {
        let mut from = 0;
        while let Some(y) = chunks.least_from(from) {
            if let Some(better) = self.better_at(Choice::Delivery, q, y, taken) {
                return Some(better);
            }
            from = y + 1;
        }
        None
    }

    // A better chunk to deliver to the query than c, where the nearest to this start is the best.
    fn better_ready(&self, q: u32, c: u32, start: u64, taken: Rank) -> Option<Better>
        requires reading { IsReading self.now }
        requires query { q ≤ 256 }
        requires candidate { spec.is_candidate (setting self.now) (seen self.now) Choice.Delivery q c ≡ true }
        requires taken { taken ≡ spec.rank_of (setting self.now) (seen self.now) Choice.Delivery q c }
        requires steps { (y : ℕ) → y < self.now.terms.now.chunks
            → spec.rank_of (setting self.now) (seen self.now) Choice.Delivery q y
            ≡ Rank.Steps (dist_from (setting self.now) start y) }
        ensures some { IfSome result (λ b. IsBetter (setting self.now) (seen self.now) Choice.Delivery q c b) }
        ensures none { IfNone result (spec.NoneBetter (setting self.now) (seen self.now) Choice.Delivery q c) }
    {
        match self.nearest_ready(q, start) {
            Some(best) => self.better_at(Choice::Delivery, q, best, taken),
            None => None,
        }
    }

    // A better chunk to deliver to the query than c.
    fn better_delivery(&self, q: u32, c: u32) -> Option<Better>
        requires reading { IsReading self.now }
        requires query { q ≤ 256 }
        requires candidate { spec.is_candidate (setting self.now) (seen self.now) Choice.Delivery q c ≡ true }
        ensures some { IfSome result (λ b. IsBetter (setting self.now) (seen self.now) Choice.Delivery q c b) }
        ensures none { IfNone result (spec.NoneBetter (setting self.now) (seen self.now) Choice.Delivery q c) }
    {
        let taken = self.rank_of(Choice::Delivery, q, c);
        match self.start_for(q) {
            None => self.better_among(&self.book.deliverable(q), q, taken),
            Some(start) => self.better_ready(q, c, start, taken),
        }
    }

    // The chunk, which nobody holds, where it is a better victim than one of this rank.
    fn better_victim_at(&self, places: &[u64; 1024], y: u32, taken: Rank) -> Option<Better>
        requires reading { IsReading self.now }
        requires chunk { y < 1024 }
        requires unheld { is_held (setting self.now) (seen self.now) y ≡ false }
        requires places { self.now.terms.now.policy ≡ names.Normal → get_or places.now y 0
            ≡ place_in (cursor_at (setting self.now) (seen self.now)) y }
        ensures some { IfSome result (λ b. (x : ℕ)
            → taken ≡ spec.rank_of (setting self.now) (seen self.now) Choice.Victim 0 x
            → IsBetter (setting self.now) (seen self.now) Choice.Victim 0 x b) }
        ensures none { IfNone result (is_victim (setting self.now) (seen self.now) y ≡ true
            → spec.beats (spec.rank_of (setting self.now) (seen self.now) Choice.Victim 0 y) taken ≡ false) }
    {
        if !self.book.may_leave(y) {
            return None;
        }
        let rank = self.victim_rank(places, y);
        if !beats(rank, taken) {
            return None;
        }
        Some(Better {
            choice: Choice::Victim,
            number: y,
            rank,
            taken,
        })
    }

    // The first better victim than c.
    fn better_victim(&self, c: u32) -> Option<Better>
        requires reading { IsReading self.now }
        requires candidate { spec.is_candidate (setting self.now) (seen self.now) Choice.Victim 0 c ≡ true }
        ensures some { IfSome result (λ b. IsBetter (setting self.now) (seen self.now) Choice.Victim 0 c b) }
        ensures none { IfNone result (spec.NoneBetter (setting self.now) (seen self.now) Choice.Victim 0 c) }
    {
        let places = self.places();
        let taken = self.victim_rank(&places, c);
        let unheld = self.book.unheld();
        let mut from = 0;
        while let Some(y) = unheld.least_from(from) {
            if let Some(better) = self.better_victim_at(&places, y, taken) {
                return Some(better);
            }
            from = y + 1;
        }
        None
    }

    fn plan_outdone(&self, q: u32, c: u32) -> Option<Better>
        requires reading { IsReading self.now }
        requires query { q ≤ 256 }
        requires active { is_active (seen self.now) q ≡ true }
        requires trigger { spec.is_candidate (setting self.now) (seen self.now) Choice.Trigger q q ≡ true }
        requires target { spec.is_candidate (setting self.now) (seen self.now) Choice.Load q c ≡ true }
        ensures some { IfSome result (IsOutdone (setting self.now) (seen self.now) (Entry.Plan 0 q c)) }
        ensures trigger { IfNone result (spec.NoneBetter (setting self.now) (seen self.now) Choice.Trigger q q) }
        ensures target { IfNone result (spec.NoneBetter (setting self.now) (seen self.now) Choice.Load q c) }
    {
        if let Some(better) = self.better_trigger(q) {
            return Some(better);
        }
        self.better_load(q, c)
    }

    /// A better choice than what the entry takes, which may follow; `None` where it takes a choice of the policy.
    pub fn outdone(&self, entry: &Entry) -> Option<Better>
        requires reading { IsReading self.now }
        requires allowed { Allowed (setting self.now) (seen self.now) entry.now }
        ensures some { IfSome result (IsOutdone (setting self.now) (seen self.now) entry.now) }
        ensures none { IfNone result (Chosen (setting self.now) (seen self.now) entry.now) }
    {
        match *entry {
            Entry::Plan { query, chunk, .. } => self.plan_outdone(query, chunk),
            Entry::Deliver { query, chunk, .. } => self.better_delivery(query, chunk),
            Entry::Evict { chunk, .. } => self.better_victim(chunk),
            _ => None,
        }
    }
}

//! The ranks of candidates under each policy.
ghost use Rattle.std.specs.Prelude.{◌≡◌, ◌<◌, ◌≤◌, ℕ, get_or, true, IfSome};
ghost use Rattle.scan_story.specs.declared.setting.PolicyName.TheVariants as names;
ghost use Rattle.scan_story.specs.Legal.{cursor_at};
ghost use Rattle.scan_story.specs.MayFollow.{is_ready, is_target};
ghost use Rattle.scan_story.specs.Policies.{dist, dist_from, place_in, reach};
ghost use Rattle.relevance.specs.Least.{PicksLeast};
ghost use Rattle.inspect_referee.specs.Ranks as spec;
ghost use Rattle.inspect_referee.specs.Seen.{setting, seen, IsReading};

use crate::cursor::{at, dist_from, first_chunk, start_of};
use crate::nearest::nearest;
use crate::places::places_in;
use crate::rank::{Choice, Rank};
use crate::referee::Referee;
use relevance::{keep_ratio, load_ratio, query_rank, use_ratio};
use scan_story::PolicyName;

impl Referee<'_> {
    // How far the chunk is from the elevator.
    fn dist(&self, c: u32) -> u64
        requires reading { IsReading self.now }
        requires chunk { c < self.now.terms.now.chunks }
        ensures { result ≡ dist (setting self.now) (cursor_at (setting self.now) (seen self.now)) c }
    {
        dist_from(self.terms.chunks, at(&self.cursor, 0), c)
    }

    // How far the chunk is from where the query's scan starts, under attach.
    fn dist_of(&self, q: u32, c: u32) -> u64
        requires reading { IsReading self.now }
        requires chunk { c < self.now.terms.now.chunks }
        ensures { result ≡ spec.from_start (setting self.now) (seen self.now) q c }
    {
        dist_from(self.terms.chunks, start_of(&self.cursor, q), c)
    }

    /// The chunk to load for the query that is nearest to the start, going up and around.
    pub fn nearest_target(&self, q: u32, start: u64) -> Option<u32>
        requires reading { IsReading self.now }
        requires query { q ≤ 256 }
        ensures { PicksLeast (is_target (setting self.now) (seen self.now) q) (dist_from (setting self.now) start)
            result }
    {
        if self.terms.chunks == 0 {
            return None;
        }
        nearest(&self.book.targets(q), first_chunk(self.terms.chunks, start))
    }

    /// The chunk available to the query that is nearest to the start, going up and around.
    pub fn nearest_ready(&self, q: u32, start: u64) -> Option<u32>
        requires reading { IsReading self.now }
        requires query { q ≤ 256 }
        ensures { PicksLeast (is_ready (setting self.now) (seen self.now) q) (dist_from (setting self.now) start)
            result }
    {
        if self.terms.chunks == 0 {
            return None;
        }
        nearest(
            &self.book.deliverable(q),
            first_chunk(self.terms.chunks, start),
        )
    }

    /// From where the policy looks for the query's next chunk; none under relevance, which goes by ratios.
    pub fn start_for(&self, q: u32) -> Option<u64>
        requires { IsReading self.now }
        ensures { IfSome result (λ start. (y : ℕ) → y < self.now.terms.now.chunks
            → spec.rank_of (setting self.now) (seen self.now) Choice.Delivery q y
            ≡ Rank.Steps (dist_from (setting self.now) start y)) }
    {
        match self.terms.policy {
            PolicyName::Relevance => None,
            PolicyName::Elevator => Some(at(&self.cursor, 0)),
            PolicyName::Normal => Some(0),
            PolicyName::Attach => Some(start_of(&self.cursor, q)),
        }
    }

    // How far the elevator's nearest chunk to load for the query is.
    fn reach(&self, q: u32) -> u64
        requires reading { IsReading self.now }
        requires query { q ≤ 256 }
        ensures { result ≡ reach (setting self.now) (seen self.now) (cursor_at (setting self.now) (seen self.now)) q }
    {
        match self.nearest_target(q, at(&self.cursor, 0)) {
            Some(c) => self.dist(c),
            None => self.terms.chunks as u64,
        }
    }

    fn trigger_rank(&self, q: u32) -> Rank
        requires reading { IsReading self.now }
        requires query { q ≤ 256 }
        ensures { result ≡ spec.rank_of (setting self.now) (seen self.now) Choice.Trigger 0 q }
    {
        match self.terms.policy {
            PolicyName::Relevance => Rank::Urgency(query_rank(&self.book, q)),
            PolicyName::Elevator => Rank::Steps(self.reach(q)),
            PolicyName::Normal | PolicyName::Attach => Rank::Waited(self.book.waiting(q)),
        }
    }

    fn load_rank(&self, q: u32, c: u32) -> Rank
        requires reading { IsReading self.now }
        requires query { q ≤ 256 }
        requires chunk { c < self.now.terms.now.chunks }
        ensures { result ≡ spec.rank_of (setting self.now) (seen self.now) Choice.Load q c }
    {
        match self.terms.policy {
            PolicyName::Relevance => Rank::Gain(load_ratio(&self.book, q, c)),
            PolicyName::Elevator => Rank::Steps(self.dist(c)),
            PolicyName::Normal => Rank::Steps(c as u64),
            PolicyName::Attach => Rank::Steps(self.dist_of(q, c)),
        }
    }

    fn delivery_rank(&self, q: u32, c: u32) -> Rank
        requires reading { IsReading self.now }
        requires query { q ≤ 256 }
        requires chunk { c < self.now.terms.now.chunks }
        ensures { result ≡ spec.rank_of (setting self.now) (seen self.now) Choice.Delivery q c }
    {
        match self.terms.policy {
            PolicyName::Relevance => Rank::Gain(use_ratio(&self.book, q, c)),
            PolicyName::Elevator => Rank::Steps(self.dist(c)),
            PolicyName::Normal => Rank::Steps(c as u64),
            PolicyName::Attach => Rank::Steps(self.dist_of(q, c)),
        }
    }

    /// Under normal the place of each chunk in the cursor; else nothing that is asked for.
    pub fn places(&self) -> [u64; 1024]
        requires reading { IsReading self.now }
        ensures { self.now.terms.now.policy ≡ names.Normal → (c : ℕ) → c < 1024 → get_or result c 0
            ≡ place_in (cursor_at (setting self.now) (seen self.now)) c }
    {
        if let PolicyName::Normal = self.terms.policy {
            return places_in(&self.cursor);
        }
        [0; 1024]
    }

    /// The rank of a victim, by the places of chunks.
    pub fn victim_rank(&self, places: &[u64; 1024], c: u32) -> Rank
        requires reading { IsReading self.now }
        requires chunk { c < self.now.terms.now.chunks }
        requires small { c < 1024 }
        requires places { self.now.terms.now.policy ≡ names.Normal → get_or places.now c 0
            ≡ place_in (cursor_at (setting self.now) (seen self.now)) c }
        ensures { result ≡ spec.rank_of (setting self.now) (seen self.now) Choice.Victim 0 c }
    {
        let close = self.book.close(c);
        match self.terms.policy {
            PolicyName::Relevance => Rank::Loss(keep_ratio(&self.book, c)),
            PolicyName::Elevator => Rank::Fitness {
                close,
                key: self.dist(c),
            },
            PolicyName::Normal => Rank::Fitness {
                close,
                key: places[c as usize],
            },
            PolicyName::Attach => Rank::Fitness {
                close,
                key: self.book.interested(c) as u64,
            },
        }
    }

    /// Whether x may be chosen, for the query where a load or a delivery is chosen.
    pub fn is_candidate(&self, choice: Choice, q: u32, x: u32) -> bool
        requires reading { IsReading self.now }
        requires query { q ≤ 256 }
        ensures { result ≡ spec.is_candidate (setting self.now) (seen self.now) choice q x }
    {
        match choice {
            Choice::Trigger => self.is_trigger(x),
            Choice::Load => self.is_target(q, x),
            Choice::Delivery => self.is_ready(q, x),
            Choice::Victim => self.book.is_victim(x),
        }
    }

    /// The rank of a candidate.
    pub fn rank_of(&self, choice: Choice, q: u32, x: u32) -> Rank
        requires reading { IsReading self.now }
        requires query { q ≤ 256 }
        requires candidate { spec.is_candidate (setting self.now) (seen self.now) choice q x ≡ true }
        ensures { result ≡ spec.rank_of (setting self.now) (seen self.now) choice q x }
    {
        match choice {
            Choice::Trigger => self.trigger_rank(x),
            Choice::Load => self.load_rank(q, x),
            Choice::Delivery => self.delivery_rank(q, x),
            Choice::Victim => self.victim_rank(&self.places(), x),
        }
    }
}

//! The policy elevator.
ghost use Rattle.std.specs.Prelude.{◌≡◌, ◌≤◌, ◌<◌, ◌∷◌, [], IfSome};
ghost use Rattle.scan_story.specs.declared.setting.Setting.{Setting};
ghost use Rattle.scan_story.specs.Views.{History};
ghost use Rattle.scan_story.specs.MayFollow.{is_trigger, is_target, is_ready};
ghost use Rattle.scan_story.specs.Policies.{dist_from, is_least_close, reach};
ghost use Rattle.interest_book.specs.Stands.{Stands};
ghost use Rattle.relevance.specs.Best.{IsFirstBest};
ghost use Rattle.interest_book.specs.Picks.{PicksQuery, PicksLoad, PicksDelivery, PicksVictim};
ghost use Rattle.interest_book.specs.Picks.{cursor_after_load, cursor_after_delivery, HasActive, HasNoneBegun};
ghost use Rattle.relevance.specs.Rated.{is_below};
ghost use Rattle.policy_box.specs.Next.{next_of};

use interest_book::Book;
use relevance::{
    Fitness, Policy, chunk_in, distance, first_to_deliver, first_to_load, fitter_of, lesser_of,
    number_in,
};
use scan_story::PolicyName;

/// Goes up the table and around, from where the last load was.
///
/// It loads for the query with the nearest chunk to load, and takes the nearest chunk to load and to deliver, and the
/// nearest of the victims that are least close. Among equals it takes the least number.
#[derive(Clone, Copy, PartialEq, Eq)]
pub struct Elevator {
    // the chunk after the one that was last picked to be loaded
    next: u32,
}

impl Elevator {
    ghost use Rattle.scan_story.specs.Setting.{first_cursor};
    ghost use Rattle.scan_story.specs.declared.setting.PolicyName.TheVariants as names;

    /// The policy with its first cursor, 0.
    pub fn new() -> Elevator
        ensures { result.next ∷ [] ≡ first_cursor names.Elevator }
    {
        Elevator { next: 0 }
    }
}

// How far the query's nearest chunk to load is; as many steps as there are chunks where it has none.
fn reach(book: &Book, next: u32, q: u32) -> u32
    requires { q ≤ 256 }
    ensures { (s : Setting) (h : History) → Stands book.now s h → result ≡ reach s h (next ∷ []) q }
{
    match first_to_load(book, q, next) {
        Some(c) => distance(book.chunks(), next, c),
        None => book.chunks(),
    }
}

// The chunk after this one, going around; 0 where there is no chunk.
fn chunk_after(chunks: u32, c: u32) -> u32
    requires { c < 1024 }
    ensures { result ≡ next_of chunks c }
{
    if chunks == 0 { 0 } else { (c + 1) % chunks }
}

impl Policy for Elevator {
    ghost use Rattle.scan_story.specs.declared.setting.PolicyName.TheVariants as names;

    ghost name = { λ _. names.Elevator };

    ghost cursor = { λ e. e.next ∷ [] };

    fn named(&self) -> PolicyName {
        PolicyName::Elevator
    }

    #[tactic(auto, using(relevance::proofs::Choosing::best_below_more))]
    fn pick_query(&mut self, book: &Book) -> Option<u32>
        ensures picks { (s : Setting) (h : History) → Stands book.now s h
            → PicksQuery names.Elevator (self.old.next ∷ []) s h result }
        ensures first { (s : Setting) (h : History) → Stands book.now s h
            → IfSome result (IsFirstBest is_below (is_trigger s h) (reach s h (self.old.next ∷ []))) }
        ensures cursor { self.new.next ∷ [] ≡ self.old.next ∷ [] }
    {
        let mut best = None;
        for q in 0..257 {
            if book.is_trigger(q) {
                best = lesser_of(best, q, reach(book, self.next, q) as u64);
            }
        }
        number_in(best)
    }

    fn pick_load(&mut self, book: &Book, q: u32) -> Option<u32>
        requires { HasActive book.now q }
        ensures picks { (s : Setting) (h : History) → Stands book.now s h
            → PicksLoad names.Elevator (self.old.next ∷ []) s h q result }
        ensures first { (s : Setting) (h : History) → Stands book.now s h
            → IfSome result (IsFirstBest is_below (is_target s h q) (dist_from s self.old.next)) }
        ensures cursor { (s : Setting) (h : History) → Stands book.now s h → self.new.next ∷ []
            ≡ cursor_after_load names.Elevator s (self.old.next ∷ []) q result }
    {
        let Some(c) = first_to_load(book, q, self.next) else {
            return None;
        };
        self.next = chunk_after(book.chunks(), c);
        Some(c)
    }

    fn pick_delivery(&mut self, book: &Book, q: u32) -> Option<u32>
        requires { HasActive book.now q }
        ensures picks { (s : Setting) (h : History) → Stands book.now s h
            → PicksDelivery names.Elevator (self.old.next ∷ []) s h q result }
        ensures first { (s : Setting) (h : History) → Stands book.now s h
            → IfSome result (IsFirstBest is_below (is_ready s h q) (dist_from s self.old.next)) }
        ensures cursor { self.new.next ∷ []
            ≡ cursor_after_delivery names.Elevator (self.old.next ∷ []) q result }
    {
        first_to_deliver(book, q, self.next)
    }

    #[tactic(auto, using(relevance::proofs::Choosing::best_below_more))]
    fn pick_victim(&mut self, book: &Book) -> Option<u32>
        requires { HasNoneBegun book.now }
        ensures picks { (s : Setting) (h : History) → Stands book.now s h
            → PicksVictim names.Elevator (self.old.next ∷ []) s h result }
        ensures first { (s : Setting) (h : History) → Stands book.now s h
            → IfSome result (IsFirstBest is_below (is_least_close s h) (dist_from s self.old.next)) }
        ensures cursor { self.new.next ∷ [] ≡ self.old.next ∷ [] }
    {
        let mut best = None;
        let chunks = book.chunks();
        for c in 0..chunks {
            if book.is_victim(c) {
                let close = book.close(c);
                let key = distance(chunks, self.next, c);
                best = fitter_of(best, c, Fitness { close, key });
            }
        }
        chunk_in(best)
    }
}

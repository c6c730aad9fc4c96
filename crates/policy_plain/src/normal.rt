//! The policy normal.
ghost use Rattle.std.specs.Prelude.{◌≡◌, ◌==◌, ◌<◌, not, true};
ghost use Rattle.std.specs.List.{filter};
ghost use Rattle.policy_plain.specs.Uses.{are_uses};

use crate::places::places_in;
use arrayvec::ArrayVec;
use interest_book::Book;
use relevance::{
    Fitness, Policy, chunk_in, first_to_deliver, first_to_load, fitter_of, longest_waiting,
};
use scan_story::PolicyName;

/// Lets each query go up the table, and evicts what was used the longest time ago.
///
/// It loads for the query that has waited longest. It takes the least chunk to load and to deliver, and of the victims
/// that are least close the least recently used, before them a chunk that was never used. Among equals it takes the
/// least number.
#[derive(Drop)]
pub struct Normal {
    // the chunks that were picked to be loaded or delivered, least recently used first; the list takes no memory
    used: ArrayVec<u32, 1024>,
    ghost uses: { are_uses used.items ≡ true },
}

// Takes the chunk out, wherever it stands.
fn without(used: &mut ArrayVec<u32, 1024>, c: u32)
    ensures { used.new.items ≡ filter (λ x. not (x == c)) used.old.items }
{
    used.retain(|x| *x != c);
}

impl Normal {
    ghost use Rattle.scan_story.specs.Setting.{first_cursor};
    ghost use Rattle.scan_story.specs.Policies.{moved_last};
    ghost use Rattle.scan_story.specs.declared.setting.PolicyName.TheVariants as names;

    /// The policy with its first cursor: no chunk was used.
    pub fn new() -> Normal
        ensures { result.used.items ≡ first_cursor names.Normal }
    {
        Normal {
            used: ArrayVec::new(),
        }
    }

    // The chunk becomes the one that was used last.
    fn use_chunk(&mut self, c: u32)
        requires { c < 1024 }
        ensures { self.new.used.items ≡ moved_last self.old.used.items c }
    {
        without(&mut self.used, c);
        self.used.push(c);
    }
}

impl Policy for Normal {
    ghost use Rattle.std.specs.Prelude.{◌≡◌, IfSome};
    ghost use Rattle.scan_story.specs.declared.setting.PolicyName.TheVariants as names;
    ghost use Rattle.scan_story.specs.declared.setting.Setting.{Setting};
    ghost use Rattle.scan_story.specs.Views.{History};
    ghost use Rattle.scan_story.specs.Numbers.{waiting};
    ghost use Rattle.scan_story.specs.MayFollow.{is_trigger, is_target, is_ready};
    ghost use Rattle.scan_story.specs.Policies.{is_least_close, place_in};
    ghost use Rattle.interest_book.specs.Stands.{Stands};
    ghost use Rattle.relevance.specs.Best.{IsFirstBest};
    ghost use Rattle.interest_book.specs.Picks.{PicksQuery, PicksLoad, PicksDelivery, PicksVictim};
    ghost use Rattle.interest_book.specs.Picks.{cursor_after_load, cursor_after_delivery, HasActive, HasNoneBegun};
    ghost use Rattle.relevance.specs.Rated.{is_above, is_below};

    ghost name = { λ _. names.Normal };

    ghost cursor = { λ n. n.used.items };

    fn named(&self) -> PolicyName {
        PolicyName::Normal
    }

    fn pick_query(&mut self, book: &Book) -> Option<u32>
        ensures picks { (s : Setting) (h : History) → Stands book.now s h
            → PicksQuery names.Normal self.old.used.items s h result }
        ensures first { (s : Setting) (h : History) → Stands book.now s h
            → IfSome result (IsFirstBest is_above (is_trigger s h) (waiting s h)) }
        ensures cursor { self.new.used.items ≡ self.old.used.items }
    {
        longest_waiting(book)
    }

    fn pick_load(&mut self, book: &Book, q: u32) -> Option<u32>
        requires { HasActive book.now q }
        ensures picks { (s : Setting) (h : History) → Stands book.now s h
            → PicksLoad names.Normal self.old.used.items s h q result }
        ensures first { (s : Setting) (h : History) → Stands book.now s h
            → IfSome result (IsFirstBest is_below (is_target s h q) (λ c. c)) }
        ensures cursor { (s : Setting) (h : History) → Stands book.now s h → self.new.used.items
            ≡ cursor_after_load names.Normal s self.old.used.items q result }
    {
        let Some(c) = first_to_load(book, q, 0) else {
            return None;
        };
        self.use_chunk(c);
        Some(c)
    }

    fn pick_delivery(&mut self, book: &Book, q: u32) -> Option<u32>
        requires { HasActive book.now q }
        ensures picks { (s : Setting) (h : History) → Stands book.now s h
            → PicksDelivery names.Normal self.old.used.items s h q result }
        ensures first { (s : Setting) (h : History) → Stands book.now s h
            → IfSome result (IsFirstBest is_below (is_ready s h q) (λ c. c)) }
        ensures cursor { self.new.used.items ≡ cursor_after_delivery names.Normal self.old.used.items q result }
    {
        let Some(c) = first_to_deliver(book, q, 0) else {
            return None;
        };
        self.use_chunk(c);
        Some(c)
    }

    #[tactic(auto, using(relevance::proofs::Choosing::best_below_more))]
    fn pick_victim(&mut self, book: &Book) -> Option<u32>
        requires { HasNoneBegun book.now }
        ensures picks { (s : Setting) (h : History) → Stands book.now s h
            → PicksVictim names.Normal self.old.used.items s h result }
        ensures first { (s : Setting) (h : History) → Stands book.now s h
            → IfSome result (IsFirstBest is_below (is_least_close s h) (place_in self.old.used.items)) }
        ensures cursor { self.new.used.items ≡ self.old.used.items }
    {
        let places = places_in(&self.used);
        let mut best = None;
        for c in 0..book.chunks() {
            if book.is_victim(c) {
                let close = book.close(c);
                let key = places[c as usize];
                best = fitter_of(best, c, Fitness { close, key });
            }
        }
        chunk_in(best)
    }
}

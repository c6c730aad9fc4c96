//! The policy that picks by rank and ratios.
ghost use Rattle.std.specs.Prelude.{◌≡◌, ℕ, List, IfSome};
ghost use Rattle.scan_story.specs.declared.setting.Setting.{Setting};
ghost use Rattle.scan_story.specs.Views.{History};
ghost use Rattle.scan_story.specs.Ratios.{query_rank, load_ratio, use_ratio, keep_ratio};
ghost use Rattle.scan_story.specs.MayFollow.{is_trigger, is_target, is_ready, is_victim};
ghost use Rattle.interest_book.specs.Stands.{Stands};
ghost use Rattle.relevance.specs.Best.{IsFirstBest, is_higher, is_greater, is_less};
ghost use Rattle.interest_book.specs.Picks.{PicksQuery, PicksLoad, PicksDelivery, PicksVictim};
ghost use Rattle.interest_book.specs.Picks.{cursor_after_load, cursor_after_delivery, HasActive, HasNoneBegun};

use crate::best::{chunk_in, greater_of, higher_of, lesser_of, query_in};
use crate::loads::gaining_more;
use crate::ranks::{keep_ratio, most_gain, most_room, query_rank, use_ratio};
use crate::search::{is_least, may_exceed, next_chunk};
use interest_book::{Book, Policy};
use scan_story::PolicyName;

/// Picks the highest rank, the greatest load and use ratio, and the least keep ratio. Among equals it picks the least
/// number. It keeps nothing.
#[derive(Clone, Copy, PartialEq, Eq)]
pub struct Relevance;

impl Policy for Relevance {
    ghost use Rattle.std.specs.Prelude.{[]};
    ghost use Rattle.scan_story.specs.declared.setting.PolicyName.TheVariants as names;

    ghost name = { λ _. names.Relevance };

    ghost cursor = { λ _. [] };

    fn named(&self) -> PolicyName {
        PolicyName::Relevance
    }

    #[tactic(auto, using(crate::proofs::Choosing::best_below_more))]
    fn pick_query(&mut self, book: &Book) -> Option<u32>
        ensures picks { (s : Setting) (h : History) → Stands book.now s h → PicksQuery names.Relevance [] s h result }
        ensures first { (s : Setting) (h : History) → Stands book.now s h
            → IfSome result (IsFirstBest is_higher (is_trigger s h) (query_rank s h)) }
    {
        let mut best = None;
        for q in 0..257 {
            if book.is_trigger(q) {
                best = higher_of(best, q, query_rank(book, q));
            }
        }
        query_in(best)
    }

    fn pick_load(&mut self, book: &Book, q: u32) -> Option<u32>
        requires { HasActive book.now q }
        ensures picks { (s : Setting) (h : History) → Stands book.now s h → PicksLoad names.Relevance [] s h q result }
        ensures first { (s : Setting) (h : History) → Stands book.now s h
            → IfSome result (IsFirstBest is_greater (is_target s h q) (load_ratio s h q)) }
        ensures cursor { (s : Setting) (h : History) → Stands book.now s h → []
            ≡ cursor_after_load names.Relevance s [] q result }
    {
        let sharing = book.sharing(q);
        let targets = book.targets(q);
        let most = most_gain(&sharing);
        let mut best = None;
        let mut from = 0;
        while let Some(c) = next_chunk(&targets, from, !may_exceed(most, best)) {
            best = gaining_more(best, book, &sharing, q, c);
            from = c + 1;
        }
        chunk_in(best)
    }

    fn pick_delivery(&mut self, book: &Book, q: u32) -> Option<u32>
        requires { HasActive book.now q }
        ensures picks { (s : Setting) (h : History) → Stands book.now s h
            → PicksDelivery names.Relevance [] s h q result }
        ensures first { (s : Setting) (h : History) → Stands book.now s h
            → IfSome result (IsFirstBest is_greater (is_ready s h q) (use_ratio s h q)) }
        ensures cursor { [] ≡ cursor_after_delivery names.Relevance [] q result }
    {
        let ready = book.deliverable(q);
        let most = most_room(book);
        let mut best = None;
        let mut from = 0;
        while let Some(c) = next_chunk(&ready, from, !may_exceed(most, best)) {
            best = greater_of(best, c, use_ratio(book, q, c));
            from = c + 1;
        }
        chunk_in(best)
    }

    fn pick_victim(&mut self, book: &Book) -> Option<u32>
        requires { HasNoneBegun book.now }
        ensures picks { (s : Setting) (h : History) → Stands book.now s h → PicksVictim names.Relevance [] s h result }
        ensures first { (s : Setting) (h : History) → Stands book.now s h
            → IfSome result (IsFirstBest is_less (is_victim s h) (keep_ratio s h)) }
    {
        let unheld = book.unheld();
        let mut best = None;
        let mut from = 0;
        while let Some(c) = next_chunk(&unheld, from, is_least(best)) {
            if book.may_leave(c) {
                best = lesser_of(best, c, keep_ratio(book, c));
            }
            from = c + 1;
        }
        chunk_in(best)
    }
}

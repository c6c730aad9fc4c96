//! The trigger that has waited longest.
ghost use Rattle.std.specs.Prelude.{◌≡◌, IfSome};
ghost use Rattle.scan_story.specs.declared.setting.Setting.{Setting};
ghost use Rattle.scan_story.specs.Views.{History};
ghost use Rattle.scan_story.specs.Numbers.{waiting};
ghost use Rattle.scan_story.specs.MayFollow.{is_trigger};
ghost use Rattle.interest_book.specs.Stands.{Stands};
ghost use Rattle.relevance.specs.Best.{IsFirstBest};
ghost use Rattle.relevance.specs.Least.{PicksGreatest};
ghost use Rattle.relevance.specs.Rated.{is_above};

use crate::rated::{greater_of, number_in};
use interest_book::Book;

/// The query that has waited longest, of those that may trigger a load; among equals the one of least number.
#[tactic(auto, using(crate::proofs::Choosing::best_below_more))]
pub fn longest_waiting(book: &Book) -> Option<u32>
    ensures longest { (s : Setting) (h : History) → Stands book.now s h
        → PicksGreatest (is_trigger s h) (waiting s h) result }
    ensures first { (s : Setting) (h : History) → Stands book.now s h
        → IfSome result (IsFirstBest is_above (is_trigger s h) (waiting s h)) }
{
    let mut best = None;
    for q in 0..257 {
        if book.is_trigger(q) {
            best = greater_of(best, q, book.waiting(q));
        }
    }
    number_in(best)
}

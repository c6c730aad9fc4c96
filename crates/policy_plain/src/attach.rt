//! The policy attach.
use interest_book::Book;
use relevance::{
    Fitness, Policy, chunk_in, first_to_deliver, first_to_load, fitter_of, longest_waiting,
};
use scan_story::PolicyName;

/// Lets a query begin where another one is, and go up the table and around from there.
///
/// It loads for the query that has waited longest. It takes the chunk to load and to deliver that is nearest to the
/// query's start, and of the victims that are least close the one in which the fewest queries are interested. Among
/// equals it takes the least number.
#[derive(Clone, Copy, PartialEq, Eq)]
pub struct Attach {
    // the chunk that was last picked to be delivered; 0 before
    last: u32,
    // the start of each query, from number 1 on, that was served; an `Option`, where the cursor has one more than the
    // start, so that no start can pass the end of its type
    starts: [Option<u32>; 256],
}

impl Attach {
    ghost use Rattle.std.specs.Prelude.{◌≡◌, ◌≤◌};
    ghost use Rattle.scan_story.specs.Setting.{first_cursor};
    ghost use Rattle.scan_story.specs.Policies.{start_of, served};
    ghost use Rattle.scan_story.specs.declared.setting.PolicyName.TheVariants as names;
    ghost use Rattle.policy_plain.specs.Starts.{cursor_of};

    /// The policy with its first cursor: no query was served.
    pub fn new() -> Attach
        ensures { cursor_of result.last result.starts ≡ first_cursor names.Attach }
    {
        Attach {
            last: 0,
            starts: [None; 256],
        }
    }

    // Where the query's scan starts: its own start, or what was last delivered.
    fn start_of(&self, q: u32) -> u32
        requires least { 1 ≤ q }
        requires most { q ≤ 256 }
        ensures { result ≡ start_of (cursor_of self.now.last self.now.starts) q }
    {
        self.starts[q as usize - 1].unwrap_or(self.last)
    }

    // A query that is first served gets its start.
    fn serve(&mut self, q: u32)
        requires least { 1 ≤ q }
        requires most { q ≤ 256 }
        ensures { cursor_of self.new.last self.new.starts ≡ served (cursor_of self.old.last self.old.starts) q }
    {
        let start = self.start_of(q);
        self.starts[q as usize - 1] = Some(start);
    }
}

impl Policy for Attach {
    ghost use Rattle.std.specs.Prelude.{◌≡◌, IfSome};
    ghost use Rattle.scan_story.specs.declared.setting.PolicyName.TheVariants as names;
    ghost use Rattle.scan_story.specs.declared.setting.Setting.{Setting};
    ghost use Rattle.scan_story.specs.Views.{History};
    ghost use Rattle.scan_story.specs.Numbers.{waiting, interested};
    ghost use Rattle.scan_story.specs.MayFollow.{is_trigger, is_target, is_ready};
    ghost use Rattle.scan_story.specs.Policies.{dist_from, is_least_close, start_of};
    ghost use Rattle.interest_book.specs.Stands.{Stands};
    ghost use Rattle.relevance.specs.Best.{IsFirstBest};
    ghost use Rattle.interest_book.specs.Picks.{PicksQuery, PicksLoad, PicksDelivery, PicksVictim};
    ghost use Rattle.interest_book.specs.Picks.{cursor_after_load, cursor_after_delivery, HasActive, HasNoneBegun};
    ghost use Rattle.relevance.specs.Rated.{is_above, is_below};
    ghost use Rattle.policy_plain.specs.Starts.{cursor_of};

    ghost name = { λ _. names.Attach };

    ghost cursor = { λ a. cursor_of a.last a.starts };

    fn named(&self) -> PolicyName {
        PolicyName::Attach
    }

    fn pick_query(&mut self, book: &Book) -> Option<u32>
        ensures picks { (s : Setting) (h : History) → Stands book.now s h
            → PicksQuery names.Attach (cursor_of self.old.last self.old.starts) s h result }
        ensures first { (s : Setting) (h : History) → Stands book.now s h
            → IfSome result (IsFirstBest is_above (is_trigger s h) (waiting s h)) }
        ensures cursor { cursor_of self.new.last self.new.starts ≡ cursor_of self.old.last self.old.starts }
    {
        longest_waiting(book)
    }

    fn pick_load(&mut self, book: &Book, q: u32) -> Option<u32>
        requires { HasActive book.now q }
        ensures picks { (s : Setting) (h : History) → Stands book.now s h
            → PicksLoad names.Attach (cursor_of self.old.last self.old.starts) s h q result }
        ensures first { (s : Setting) (h : History) → Stands book.now s h → IfSome result
            (IsFirstBest is_below (is_target s h q)
            (dist_from s (start_of (cursor_of self.old.last self.old.starts) q))) }
        ensures cursor { (s : Setting) (h : History) → Stands book.now s h → cursor_of self.new.last self.new.starts
            ≡ cursor_after_load names.Attach s (cursor_of self.old.last self.old.starts) q result }
    {
        let Some(c) = first_to_load(book, q, self.start_of(q)) else {
            return None;
        };
        self.serve(q);
        Some(c)
    }

    fn pick_delivery(&mut self, book: &Book, q: u32) -> Option<u32>
        requires { HasActive book.now q }
        ensures picks { (s : Setting) (h : History) → Stands book.now s h
            → PicksDelivery names.Attach (cursor_of self.old.last self.old.starts) s h q result }
        ensures first { (s : Setting) (h : History) → Stands book.now s h → IfSome result
            (IsFirstBest is_below (is_ready s h q)
            (dist_from s (start_of (cursor_of self.old.last self.old.starts) q))) }
        ensures cursor { cursor_of self.new.last self.new.starts
            ≡ cursor_after_delivery names.Attach (cursor_of self.old.last self.old.starts) q result }
    {
        let Some(c) = first_to_deliver(book, q, self.start_of(q)) else {
            return None;
        };
        self.serve(q);
        self.last = c;
        Some(c)
    }

    #[tactic(auto, using(relevance::proofs::Choosing::best_below_more))]
    fn pick_victim(&mut self, book: &Book) -> Option<u32>
        requires { HasNoneBegun book.now }
        ensures picks { (s : Setting) (h : History) → Stands book.now s h
            → PicksVictim names.Attach (cursor_of self.old.last self.old.starts) s h result }
        ensures first { (s : Setting) (h : History) → Stands book.now s h
            → IfSome result (IsFirstBest is_below (is_least_close s h) (interested s h)) }
        ensures cursor { cursor_of self.new.last self.new.starts ≡ cursor_of self.old.last self.old.starts }
    {
        let mut best = None;
        for c in 0..book.chunks() {
            if book.is_victim(c) {
                let close = book.close(c);
                let key = book.interested(c);
                best = fitter_of(best, c, Fitness { close, key });
            }
        }
        chunk_in(best)
    }
}

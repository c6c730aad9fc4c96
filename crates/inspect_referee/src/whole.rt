//! Whether a story is whole.
ghost use Rattle.std.specs.Prelude.{◌≡◌, ◌||◌, ◌↔◌, IsTrue, is_some, map};
ghost use Rattle.std.specs.List.{list_all};
ghost use Rattle.scan_story.specs.Counting.{any_below};
ghost use Rattle.scan_story.specs.Views.{held_by, is_ended, is_stopped};
ghost use Rattle.scan_story.specs.Whole.{IsWhole};
ghost use Rattle.chunk_interest.specs.Fresh.{as_need};
ghost use Rattle.inspect_referee.specs.Phases.{is_complete};
ghost use Rattle.inspect_referee.specs.Seen.{setting, seen, IsReading};

use crate::phase::is_over;
use crate::referee::Referee;
use chunk_interest::Need;

impl Referee<'_> {
    // Whether the query has ended or stopped.
    fn has_ended(&self, q: u32) -> bool
        requires { IsReading self.now }
        ensures { result ≡ (is_ended (seen self.now) q || is_stopped (seen self.now) q) }
    {
        if q > 256 {
            return false;
        }
        is_over(self.book.phase(q))
    }

    // Whether the query of each need has ended or stopped.
    fn have_ended(&self, needs: &[Need]) -> bool
        requires { IsReading self.now }
        ensures { result ≡ list_all (λ n. is_ended (seen self.now) n.query || is_stopped (seen self.now) n.query)
            (map as_need needs.now) }
    {
        for n in needs {
            if !self.has_ended(n.query) {
                return false;
            }
        }
        true
    }

    // Whether some worker holds a chunk.
    #[tactic(auto, using(chunk_interest::proofs::Below::any_below_more))]
    fn someone_holds(&self) -> bool
        requires { IsReading self.now }
        ensures { result ≡ any_below (λ w. is_some (held_by (seen self.now) w)) (setting self.now).workers }
    {
        let mut found = false;
        for w in 0..self.terms.workers {
            found = self.held(w).is_some() || found;
        }
        found
    }

    // Whether each query has ended or stopped, and nothing is left open.
    fn is_complete(&self) -> bool
        requires { IsReading self.now }
        ensures { result ≡ is_complete (setting self.now) (seen self.now) }
    {
        self.have_ended(&self.terms.needs) && self.is_quiet() && !self.someone_holds()
    }

    /// Whether the story is whole. In a legal story who has ended or stopped was registered, once.
    pub fn is_whole(&self) -> bool
        requires { IsReading self.now }
        ensures { IsTrue result ↔ IsWhole (setting self.now) (seen self.now) }
    {
        self.is_complete()
    }
}

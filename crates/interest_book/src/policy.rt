//! What a manager's policy picks.
ghost use Rattle.std.specs.Prelude.{◌≡◌, ℕ, List};
ghost use Rattle.scan_story.specs.declared.setting.PolicyName.{PolicyName};
ghost use Rattle.scan_story.specs.declared.setting.Setting.{Setting};
ghost use Rattle.scan_story.specs.Views.{History};
ghost use Rattle.interest_book.specs.Stands.{Stands};
ghost use Rattle.interest_book.specs.Picks.{PicksQuery, PicksLoad, PicksDelivery, PicksVictim};
ghost use Rattle.interest_book.specs.Picks.{cursor_after_load, cursor_after_delivery, HasActive, HasNoneBegun};

use crate::book::Book;
use scan_story::PolicyName;

/// Picks which query triggers a load, which chunk is loaded, delivered and evicted.
///
/// Each pick answers Some exactly where there is a candidate, and then a choice of the policy at its cursor. No pick
/// takes memory.
pub trait Policy: Send + Drop {
    ghost name: { Self → PolicyName };

    ghost cursor: { Self → List ℕ };

    /// The policy's name.
    fn named(&self) -> PolicyName
        ensures { result ≡ name self.now };

    /// A starved query to load for, while no load is underway.
    fn pick_query(&mut self, book: &Book) -> Option<u32>
        ensures picks { (s : Setting) (h : History) → Stands book.now s h
            → PicksQuery (name self.old) (cursor self.old) s h result }
        ensures name { name self.new ≡ name self.old }
        ensures cursor { cursor self.new ≡ cursor self.old };

    /// A chunk to load for the active query.
    fn pick_load(&mut self, book: &Book, q: u32) -> Option<u32>
        requires { HasActive book.now q }
        ensures picks { (s : Setting) (h : History) → Stands book.now s h
            → PicksLoad (name self.old) (cursor self.old) s h q result }
        ensures name { name self.new ≡ name self.old }
        ensures cursor { (s : Setting) (h : History) → Stands book.now s h → cursor self.new
            ≡ cursor_after_load (name self.old) s (cursor self.old) q result };

    /// A chunk to deliver to the active query.
    fn pick_delivery(&mut self, book: &Book, q: u32) -> Option<u32>
        requires { HasActive book.now q }
        ensures picks { (s : Setting) (h : History) → Stands book.now s h
            → PicksDelivery (name self.old) (cursor self.old) s h q result }
        ensures name { name self.new ≡ name self.old }
        ensures cursor { cursor self.new ≡ cursor_after_delivery (name self.old) (cursor self.old) q result };

    /// A chunk to evict, while the load underway has begun no fill.
    fn pick_victim(&mut self, book: &Book) -> Option<u32>
        requires { HasNoneBegun book.now }
        ensures picks { (s : Setting) (h : History) → Stands book.now s h
            → PicksVictim (name self.old) (cursor self.old) s h result }
        ensures name { name self.new ≡ name self.old }
        ensures cursor { cursor self.new ≡ cursor self.old };
}

//! Who may trigger a load, and which chunks may be loaded, delivered and evicted.
use crate::book::Book;
use crate::holds::unheld;
use chunk_interest::CountedSet;

impl Book {
    ghost use Rattle.std.specs.Prelude.{◌≡◌, ◌<◌, ◌≤◌, ◌&&◌, ◌==◌, ℕ, true, false, is_some, nat_lt, not};
    ghost use Rattle.scan_story.specs.Counting.{has};
    ghost use Rattle.scan_story.specs.declared.setting.Setting.{Setting};
    ghost use Rattle.scan_story.specs.Views.{History, is_held};
    ghost use Rattle.scan_story.specs.Loads.{underway, is_load_of};
    ghost use Rattle.scan_story.specs.MayFollow.{is_target, is_ready, is_trigger, is_victim};
    ghost use Rattle.interest_book.specs.Candidates.{is_target_in, is_ready_in};
    ghost use Rattle.interest_book.specs.Stands.{Stands};

    /// Whether the query needs the chunk, and it isn't wholly in frames for the query.
    pub fn is_target(&self, q: u32, c: u32) -> bool
        requires { q ≤ 256 }
        ensures { (s : Setting) (h : History) → Stands self.now s h → result ≡ is_target s h q c }
    {
        self.may_load(q, c)
    }

    fn may_load(&self, q: u32, c: u32) -> bool
        requires { q ≤ 256 }
        ensures { result ≡ is_target_in self.now.clients self.now.chunks q c }
    {
        let client = self.client(q);
        c < self.chunks && client.remaining.has(c) && !client.available.has(c)
    }

    /// The chunks that the query needs, and that aren't wholly in frames for it.
    pub fn targets(&self, q: u32) -> CountedSet
        requires { q ≤ 256 }
        ensures { (s : Setting) (h : History) → Stands self.now s h → (c : ℕ) → has result c ≡ is_target s h q c }
    {
        let client = self.client(q);
        client.remaining.without(&client.available)
    }

    /// Whether the chunk is available to the query.
    pub fn is_ready(&self, q: u32, c: u32) -> bool
        requires { q ≤ 256 }
        ensures { (s : Setting) (h : History) → Stands self.now s h → result ≡ is_ready s h q c }
    {
        self.may_deliver(q, c)
    }

    fn may_deliver(&self, q: u32, c: u32) -> bool
        requires { q ≤ 256 }
        ensures { result ≡ is_ready_in self.now.clients self.now.chunks q c }
    {
        c < self.chunks && self.client(q).available.has(c)
    }

    /// The chunks that are available to the query.
    pub fn deliverable(&self, q: u32) -> CountedSet
        requires { q ≤ 256 }
        ensures { (s : Setting) (h : History) → Stands self.now s h → (c : ℕ) → has result c ≡ is_ready s h q c }
    {
        self.client(q).available.copy()
    }

    /// Whether the query is starved and needs a chunk that isn't wholly in frames for it, while no load is underway.
    pub fn is_trigger(&self, q: u32) -> bool
        requires { q ≤ 256 }
        ensures { (s : Setting) (h : History) → Stands self.now s h → result ≡ is_trigger s h q }
    {
        if !self.has_need(q) || self.is_loading() || !self.starved(q) {
            return false;
        }
        self.available(q) < self.needed(q)
    }

    fn is_loading(&self) -> bool
        ensures { result ≡ is_some self.now.loading }
    {
        match self.loading {
            Some(_) => true,
            None => false,
        }
    }

    /// Whether the chunk has a piece in a frame, is neither loaded nor held, and available to no starved query.
    pub fn is_victim(&self, c: u32) -> bool
        ensures { (s : Setting) (h : History) → Stands self.now s h → result ≡ is_victim s h c }
    {
        self.may_leave(c) && !self.is_held(c)
    }

    /// Whether the chunk, which nobody holds, has a piece in a frame, isn't loaded, and is available to no starved
    /// query.
    pub fn may_leave(&self, c: u32) -> bool
        ensures { (s : Setting) (h : History) → Stands self.now s h → is_held s h c ≡ false → result ≡ is_victim s h c }
    {
        if c >= self.chunks || self.cached(c) == 0 || self.is_loaded(c) {
            return false;
        }
        !self.feeds_starved(c)
    }

    /// Chunks that nobody holds, among them each victim.
    pub fn unheld(&self) -> CountedSet
        ensures unheld { (s : Setting) (h : History) → Stands self.now s h → (c : ℕ) → c < 1024 → has result c ≡ true
            → is_held s h c ≡ false }
        ensures victims { (s : Setting) (h : History) → Stands self.now s h → (c : ℕ) → has result c ≡ false
            → is_victim s h c ≡ false }
    {
        CountedSet::of(&unheld(&self.buffer.occupied, &self.holds, self.workers))
    }

    // Whether the chunk is the one that is loaded.
    fn is_loaded(&self, c: u32) -> bool
        ensures { (s : Setting) (h : History) → Stands self.now s h → result ≡ is_load_of c (underway s h) }
    {
        match self.loading {
            Some(l) => l.chunk == c,
            None => false,
        }
    }
}

//! What a book answers: the numbers of the entries that it noted.
use crate::book::Book;
use crate::holds::{holds_chunk, holds_query, since};
use crate::loading::Underway;
use chunk_interest::Client;
use scan_story::Phase;
use table_sets::ColumnSet;

impl Book {
    ghost use Rattle.std.specs.Prelude.{◌≡◌, ◌<◌, ◌≤◌, ◌^◌, ℕ, false, is_some, IfNone, IfSome};
    ghost use Rattle.std.specs.Option.{option_map};
    ghost use Rattle.scan_story.specs.declared.setting.Setting.{Setting};
    ghost use Rattle.scan_story.specs.Setting.{need_of, columns_in};
    ghost use Rattle.scan_story.specs.Views.{History, phase_of, needs_chunk, is_available, held_by, is_held, piece_in};
    ghost use Rattle.scan_story.specs.Loads.{underway, free_frames};
    ghost use Rattle.scan_story.specs.Numbers.{needed, available, is_starved, holds_for, waiting};
    ghost use Rattle.scan_story.specs.Numbers.{running, interested, starved_interested, close};
    ghost use Rattle.scan_story.specs.Numbers.{missing, cached, missing_for, overlap, starved_overlap};
    ghost use Rattle.scan_story.specs.MayFollow.{feeds_starved};
    ghost use Rattle.chunk_interest.specs.Clients.{client_at};
    ghost use Rattle.interest_book.specs.Stands.{Stands, underway_of, IsLeastQuery};

    pub(crate) fn client(&self, q: u32) -> &Client
        requires { q ≤ 256 }
        ensures { result.now ≡ client_at self.now.clients q }
    {
        self.clients.of(q)
    }

    // Whether the query's worker holds a chunk for it.
    fn holds_for(&self, q: u32) -> bool
        requires { q ≤ 256 }
        ensures { (s : Setting) (h : History) → Stands self.now s h → result ≡ holds_for s h q }
    {
        holds_query(&self.holds, self.client(q).worker, q)
    }

    /// How far the query has come.
    pub fn phase(&self, q: u32) -> Phase
        requires { q ≤ 256 }
        ensures { (s : Setting) (h : History) → Stands self.now s h → result ≡ phase_of h q }
    {
        self.client(q).phase
    }

    /// How many chunks the query needs.
    pub fn needed(&self, q: u32) -> u32
        requires { q ≤ 256 }
        ensures { (s : Setting) (h : History) → Stands self.now s h → result ≡ needed s h q }
    {
        self.client(q).needed()
    }

    /// Whether the query needs the chunk.
    pub fn needs_chunk(&self, q: u32, c: u32) -> bool
        requires { q ≤ 256 }
        ensures { (s : Setting) (h : History) → Stands self.now s h → result ≡ needs_chunk s h q c }
    {
        self.client(q).remaining.has(c)
    }

    /// How many chunks are available to the query.
    pub fn available(&self, q: u32) -> u32
        requires { q ≤ 256 }
        ensures { (s : Setting) (h : History) → Stands self.now s h → result ≡ available s h q }
    {
        self.client(q).ready()
    }

    /// Whether the chunk is available to the query.
    pub fn is_available(&self, q: u32, c: u32) -> bool
        requires { q ≤ 256 }
        ensures { (s : Setting) (h : History) → Stands self.now s h → result ≡ is_available s h q c }
    {
        self.client(q).available.has(c)
    }

    /// Whether the query is active, with fewer than two chunks available.
    pub fn starved(&self, q: u32) -> bool
        requires { q ≤ 256 }
        ensures { (s : Setting) (h : History) → Stands self.now s h → result ≡ is_starved s h q }
    {
        self.client(q).is_starved()
    }

    /// How many active queries need the chunk, at most 256.
    pub fn interested(&self, c: u32) -> u32
        ensures number { (s : Setting) (h : History) → Stands self.now s h → result ≡ interested s h c }
        ensures few { result ≤ 256 }
    {
        if c >= self.chunks {
            return 0;
        }
        self.clients.interested(c)
    }

    /// How many starved queries need the chunk, at most 256.
    pub fn starved_interested(&self, c: u32) -> u32
        ensures number { (s : Setting) (h : History) → Stands self.now s h → result ≡ starved_interested s h c }
        ensures few { result ≤ 256 }
    {
        if c >= self.chunks {
            return 0;
        }
        self.clients.starved_interested(c)
    }

    /// How many active queries have the chunk available and at most two available chunks; at most 256.
    pub fn close(&self, c: u32) -> u32
        ensures number { (s : Setting) (h : History) → Stands self.now s h → result ≡ close s h c }
        ensures few { result ≤ 256 }
    {
        if c >= self.chunks {
            return 0;
        }
        self.clients.close(c)
    }

    /// How many entries the query has waited: 0 before its Register, and while its worker holds a chunk for it.
    pub fn waiting(&self, q: u32) -> u64
        requires { q ≤ 256 }
        ensures number { (s : Setting) (h : History) → Stands self.now s h → result ≡ waiting s h q }
        ensures short { result < 2 ^ 63 }
    {
        if self.holds_for(q) {
            return 0;
        }
        since(self.noted, self.client(q).began)
    }

    /// How many queries are active, at most 256.
    pub fn running(&self) -> u32
        ensures number { (s : Setting) (h : History) → Stands self.now s h → result ≡ running s h }
        ensures few { result ≤ 256 }
    {
        self.clients.running()
    }

    /// How many pieces of the chunk are in frames, at most 16.
    pub fn cached(&self, c: u32) -> u32
        requires { c < 1024 }
        ensures number { (s : Setting) (h : History) → Stands self.now s h → result ≡ cached s h c }
        ensures few { result ≤ 16 }
    {
        self.buffer.cached(c)
    }

    /// How many pieces of the chunk are in no frame.
    pub fn missing(&self, c: u32) -> u32
        requires { c < 1024 }
        ensures { (s : Setting) (h : History) → Stands self.now s h → result ≡ missing s h c }
    {
        self.buffer.groups - self.buffer.cached(c)
    }

    /// How many pieces of the chunk that the query reads are in no frame, at most 16.
    pub fn missing_for(&self, q: u32, c: u32) -> u32
        requires query { q ≤ 256 }
        requires chunk { c < 1024 }
        ensures number { (s : Setting) (h : History) → Stands self.now s h → result ≡ missing_for s h q c }
        ensures few { result ≤ 16 }
    {
        self.buffer.missing_for(&self.client(q).reads, c)
    }

    /// How many active queries need the chunk and read a piece of it that the query reads; at most 256.
    pub fn overlap(&self, q: u32, c: u32) -> u32
        requires { q ≤ 256 }
        ensures number { (s : Setting) (h : History) → Stands self.now s h → result ≡ overlap s h q c }
        ensures few { result ≤ 256 }
    {
        if c >= self.chunks {
            return 0;
        }
        self.clients.overlap(&self.sharers[q as usize], c)
    }

    /// How many starved queries need the chunk and read a piece of it that the query reads; at most 256.
    pub fn starved_overlap(&self, q: u32, c: u32) -> u32
        requires { q ≤ 256 }
        ensures number { (s : Setting) (h : History) → Stands self.now s h → result ≡ starved_overlap s h q c }
        ensures few { result ≤ 256 }
    {
        if c >= self.chunks {
            return 0;
        }
        self.clients.starved_overlap(&self.sharers[q as usize], c)
    }

    /// Whether the chunk is available to a starved query.
    pub fn feeds_starved(&self, c: u32) -> bool
        ensures { (s : Setting) (h : History) → Stands self.now s h → result ≡ feeds_starved s h c }
    {
        if c >= self.chunks {
            return false;
        }
        self.clients.fed(c) > 0
    }

    /// How many frames are free.
    pub fn free_frames(&self) -> u32
        ensures { (s : Setting) (h : History) → Stands self.now s h → result ≡ free_frames s h }
    {
        self.buffer.free()
    }

    /// The piece in the frame; `None` too where there is no such frame.
    pub fn piece_in(&self, f: u32) -> Option<u32>
        ensures { (s : Setting) (h : History) → Stands self.now s h → result ≡ piece_in s h f }
    {
        self.buffer.piece_in(f)
    }

    /// The chunk that the worker holds.
    pub fn held_by(&self, w: u32) -> Option<u32>
        requires { w < 32 }
        ensures { (s : Setting) (h : History) → Stands self.now s h → result ≡ option_map (λ o. o.chunk) (held_by h w) }
    {
        match self.holds[w as usize] {
            Some(hold) => Some(hold.chunk),
            None => None,
        }
    }

    /// Whether some worker holds the chunk.
    pub fn is_held(&self, c: u32) -> bool
        ensures { (s : Setting) (h : History) → Stands self.now s h → result ≡ is_held s h c }
    {
        holds_chunk(&self.holds, self.workers, c)
    }

    /// The load that is underway.
    pub fn underway(&self) -> Option<Underway>
        ensures { (s : Setting) (h : History) → Stands self.now s h → result ≡ option_map underway_of (underway s h) }
    {
        match self.loading {
            Some(l) => Some(Underway {
                worker: l.worker,
                query: l.query,
                chunk: l.chunk,
            }),
            None => None,
        }
    }

    /// How many chunks the table has, at most 1024.
    pub fn chunks(&self) -> u32
        ensures number { (s : Setting) (h : History) → Stands self.now s h → result ≡ s.chunks }
        ensures few { result ≤ 1024 }
    {
        self.chunks
    }

    /// The columns of the query's need.
    pub fn columns(&self, q: u32) -> ColumnSet
        requires { q ≤ 256 }
        ensures { (s : Setting) (h : History) → Stands self.now s h → result ≡ columns_in (need_of s q) }
    {
        self.client(q).columns.copy()
    }

    /// Whether the query is one of the needs.
    pub fn has_need(&self, q: u32) -> bool
        requires { q ≤ 256 }
        ensures { (s : Setting) (h : History) → Stands self.now s h → result ≡ is_some (need_of s q) }
    {
        self.client(q).worker.is_some()
    }

    /// The least query of the needs that is at least `q`, which may be any number.
    #[tactic(auto, using(crate::proofs::Shown::none_beyond))]
    pub fn least_query_from(&self, q: u32) -> Option<u32>
        ensures none { (s : Setting) (h : History) → Stands self.now s h
            → IfNone result ((r : ℕ) → q ≤ r → is_some (need_of s r) ≡ false) }
        ensures least { (s : Setting) (h : History) → Stands self.now s h → IfSome result (λ m. IsLeastQuery s q m) }
    {
        for r in q..257 {
            if self.has_need(r) {
                return Some(r);
            }
        }
        None
    }
}

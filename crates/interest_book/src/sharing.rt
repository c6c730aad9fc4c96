//! Who counts for the overlaps of a query, looked up once for many chunks.
use crate::book::Book;
use chunk_interest::QuerySet;

/// The active and the starved queries that read a group that one query reads.
#[derive(Drop)]
pub struct Sharing {
    pub(crate) active: QuerySet,
    pub(crate) starved: QuerySet,
}

/// How many active queries need a chunk and read a piece of it that one query reads, and how many of these are starved.
#[derive(Clone, Copy, PartialEq, Eq)]
pub struct Overlaps {
    pub active: u32,
    pub starved: u32,
}

impl Sharing {
    ghost use Rattle.std.specs.Prelude.{◌≤◌, ℕ};
    ghost use Rattle.scan_story.specs.declared.setting.Setting.{Setting};
    ghost use Rattle.scan_story.specs.Views.{History};
    ghost use Rattle.scan_story.specs.Numbers.{overlap, starved_overlap};
    ghost use Rattle.interest_book.specs.declared.book.Book.{Book};
    ghost use Rattle.interest_book.specs.Sharing.{IsSharing};
    ghost use Rattle.interest_book.specs.Stands.{Stands};

    /// How many queries count. The query whose sharing this is has no more overlaps with any chunk; each at most 320.
    pub fn most(&self) -> Overlaps
        ensures active { (b : Book) (s : Setting) (h : History) (q c : ℕ) → Stands b s h → IsSharing s h q self.now
            → overlap s h q c ≤ result.active }
        ensures starved { (b : Book) (s : Setting) (h : History) (q c : ℕ) → Stands b s h → IsSharing s h q self.now
            → starved_overlap s h q c ≤ result.starved }
        ensures few_active { result.active ≤ 320 }
        ensures few_starved { result.starved ≤ 320 }
    {
        Overlaps {
            active: self.active.size(),
            starved: self.starved.size(),
        }
    }
}

impl Book {
    ghost use Rattle.std.specs.Prelude.{◌≡◌, ◌≤◌, ℕ};
    ghost use Rattle.scan_story.specs.declared.setting.Setting.{Setting};
    ghost use Rattle.scan_story.specs.Views.{History};
    ghost use Rattle.interest_book.specs.Sharing.{IsSharing, overlaps};
    ghost use Rattle.interest_book.specs.Stands.{Stands};

    /// The queries that count for the overlaps of the query, with whatever chunk.
    pub fn sharing(&self, q: u32) -> Sharing
        requires { q ≤ 256 }
        ensures { (s : Setting) (h : History) → Stands self.now s h → IsSharing s h q result }
    {
        let sharers = &self.sharers[q as usize];
        Sharing {
            active: self.clients.active_among(sharers),
            starved: self.clients.starved_among(sharers),
        }
    }

    /// The `overlap` and the `starved_overlap` with the chunk, of the query whose sharing this is; each at most 320.
    pub fn overlaps(&self, sharing: &Sharing, c: u32) -> Overlaps
        ensures number { (s : Setting) (h : History) (q : ℕ) → Stands self.now s h → IsSharing s h q sharing.now
            → result ≡ overlaps s h q c }
        ensures few_active { result.active ≤ 320 }
        ensures few_starved { result.starved ≤ 320 }
    {
        if c >= self.chunks {
            return Overlaps {
                active: 0,
                starved: 0,
            };
        }
        Overlaps {
            active: self.clients.needing(&sharing.active, c),
            starved: self.clients.needing(&sharing.starved, c),
        }
    }
}

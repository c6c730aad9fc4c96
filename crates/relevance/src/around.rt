//! Chunks going up and around from a start.
ghost use Rattle.std.specs.Prelude.{◌≡◌, ◌<◌, ◌≤◌, IfSome};
ghost use Rattle.scan_story.specs.declared.setting.Setting.{Setting};
ghost use Rattle.scan_story.specs.Views.{History};
ghost use Rattle.scan_story.specs.MayFollow.{is_target, is_ready};
ghost use Rattle.scan_story.specs.Policies.{dist_from};
ghost use Rattle.interest_book.specs.Stands.{Stands};
ghost use Rattle.relevance.specs.Around.{chunk_at, far_from};
ghost use Rattle.relevance.specs.Best.{IsFirstBest};
ghost use Rattle.relevance.specs.Least.{PicksLeast};
ghost use Rattle.relevance.specs.Rated.{is_below};

use interest_book::Book;

// The chunk that is so far from the start.
fn chunk_at(chunks: u32, start: u32, far: u32) -> u32
    requires inside { far < chunks }
    requires few { chunks ≤ 1024 }
    ensures value { result ≡ chunk_at chunks start far }
    ensures inside { result < chunks }
{
    (start % chunks + far) % chunks
}

/// How far the chunk is from the start, going up and around so many chunks; 0 where there is no chunk.
pub fn distance(chunks: u32, start: u32, c: u32) -> u32
    requires few { chunks ≤ 1024 }
    requires chunk { c < 1024 }
    ensures { result ≡ far_from chunks start c }
{
    if chunks == 0 {
        0
    } else {
        (c + chunks - start % chunks) % chunks
    }
}

/// The chunk nearest to the start, going up and around, of those to be loaded for the query. No two are equally near.
pub fn first_to_load(book: &Book, q: u32, start: u32) -> Option<u32>
    requires { q ≤ 256 }
    ensures nearest { (s : Setting) (h : History) → Stands book.now s h
        → PicksLeast (is_target s h q) (dist_from s start) result }
    ensures first { (s : Setting) (h : History) → Stands book.now s h
        → IfSome result (IsFirstBest is_below (is_target s h q) (dist_from s start)) }
    ensures inside { IfSome result (λ c. c < 1024) }
{
    let chunks = book.chunks();
    for far in 0..chunks {
        let c = chunk_at(chunks, start, far);
        if book.is_target(q, c) {
            return Some(c);
        }
    }
    None
}

/// The chunk nearest to the start, going up and around, of those available to the query. No two are equally near.
pub fn first_to_deliver(book: &Book, q: u32, start: u32) -> Option<u32>
    requires { q ≤ 256 }
    ensures nearest { (s : Setting) (h : History) → Stands book.now s h
        → PicksLeast (is_ready s h q) (dist_from s start) result }
    ensures first { (s : Setting) (h : History) → Stands book.now s h
        → IfSome result (IsFirstBest is_below (is_ready s h q) (dist_from s start)) }
    ensures inside { IfSome result (λ c. c < 1024) }
{
    let chunks = book.chunks();
    for far in 0..chunks {
        let c = chunk_at(chunks, start, far);
        if book.is_ready(q, c) {
            return Some(c);
        }
    }
    None
}

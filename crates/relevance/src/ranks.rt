//! The rank of a query and the ratios of a chunk.
ghost use Rattle.std.specs.Prelude.{◌≡◌, ◌*◌, ◌<◌, ◌≤◌, ℕ};
ghost use Rattle.scan_story.specs.declared.setting.Setting.{Setting};
ghost use Rattle.scan_story.specs.Views.{History};
ghost use Rattle.scan_story.specs.Ratios.{query_rank, load_ratio, use_ratio, keep_ratio};
ghost use Rattle.interest_book.specs.declared.book.Book.{Book};
ghost use Rattle.interest_book.specs.Sharing.{IsSharing};
ghost use Rattle.interest_book.specs.Stands.{Stands};

use interest_book::{Book, Sharing};
use scan_story::Ratio;

#[tactic(auto, using(crate::proofs::Choosing::small_product))]
fn product(running: u32, needed: u32) -> u64
    requires { running ≤ 256 }
    ensures value { result ≡ running * needed }
    ensures small { result ≤ 1099511627776 }
{
    running as u64 * needed as u64
}

/// How urgent a load for the query is: what it has waited, less the running queries times the chunks it needs.
pub fn query_rank(book: &Book, q: u32) -> i64
    requires { q ≤ 256 }
    ensures { (s : Setting) (h : History) → Stands book.now s h → result ≡ query_rank s h q }
{
    let waited = book.waiting(q) as i64;
    let wanted = product(book.running(), book.needed(q)) as i64;
    waited - wanted
}

/// The number of the ratio by which a chunk is loaded for the query whose sharing this is, before it is divided.
pub fn load_gain(book: &Book, sharing: &Sharing, c: u32) -> u32
    ensures { (s : Setting) (h : History) (q : ℕ) → Stands book.now s h → IsSharing s h q sharing.now → result
        ≡ (load_ratio s h q c).num }
{
    let overlaps = book.overlaps(sharing, c);
    1024 * overlaps.starved + overlaps.active
}

/// The number of the ratio by which a chunk is loaded for the query whose sharing this is, is no greater for any chunk.
pub fn most_gain(sharing: &Sharing) -> u32
    ensures { (b : Book) (s : Setting) (h : History) (q c : ℕ) → Stands b s h → IsSharing s h q sharing.now
        → (load_ratio s h q c).num ≤ result }
{
    let most = sharing.most();
    1024 * most.starved + most.active
}

/// How much is gained by loading the chunk for the query. `den` is 0 where no piece that the query reads is missing;
/// no pick compares such a chunk.
pub fn load_ratio(book: &Book, q: u32, c: u32) -> Ratio
    requires query { q ≤ 256 }
    requires chunk { c < 1024 }
    ensures { (s : Setting) (h : History) → Stands book.now s h → result ≡ load_ratio s h q c }
{
    Ratio {
        num: load_gain(book, &book.sharing(q), c),
        den: book.missing_for(q, c),
    }
}

/// How much room is won by delivering the chunk to the query. `den` is 0 where no active query that needs the chunk
/// reads a group that this one reads; no pick compares such a chunk.
pub fn use_ratio(book: &Book, q: u32, c: u32) -> Ratio
    requires query { q ≤ 256 }
    requires chunk { c < 1024 }
    ensures { (s : Setting) (h : History) → Stands book.now s h → result ≡ use_ratio s h q c }
{
    Ratio {
        num: book.cached(c),
        den: book.overlap(q, c),
    }
}

/// The number of the ratio by which a chunk is delivered is no greater for any chunk: how many pieces each has.
pub fn most_room(book: &Book) -> u32
    ensures { (s : Setting) (h : History) (q c : ℕ) → Stands book.now s h → (use_ratio s h q c).num ≤ result }
{
    book.cached(0).saturating_add(book.missing(0))
}

/// How much is lost by evicting the chunk. `den` is 0 where no piece of it is in a frame; no pick compares such a
/// chunk.
pub fn keep_ratio(book: &Book, c: u32) -> Ratio
    requires { c < 1024 }
    ensures { (s : Setting) (h : History) → Stands book.now s h → result ≡ keep_ratio s h c }
{
    Ratio {
        num: 1024 * book.close(c) + book.interested(c),
        den: book.cached(c),
    }
}

//! The best load so far.
ghost use Rattle.std.specs.Prelude.{◌≡◌, ◌<◌, ◌≤◌, true};
ghost use Rattle.scan_story.specs.declared.setting.Setting.{Setting};
ghost use Rattle.scan_story.specs.Views.{History};
ghost use Rattle.scan_story.specs.Ratios.{load_ratio};
ghost use Rattle.scan_story.specs.MayFollow.{is_target};
ghost use Rattle.interest_book.specs.Sharing.{IsSharing};
ghost use Rattle.interest_book.specs.Stands.{Stands};
ghost use Rattle.relevance.specs.Best.{greater_of};

use crate::best::{BestChunk, greater_of};
use crate::ranks::load_gain;
use crate::search::may_exceed;
use interest_book::{Book, Sharing};
use scan_story::Ratio;

/// The chunk where its load ratio is greater than the best so far, or else the best so far. The missing pieces are
/// counted only where the ratio may be greater.
pub fn gaining_more(
    best: Option<BestChunk>,
    book: &Book,
    sharing: &Sharing,
    q: u32,
    c: u32,
) -> Option<BestChunk>
    requires query { q ≤ 256 }
    requires chunk { c < 1024 }
    ensures { (s : Setting) (h : History) → Stands book.now s h → IsSharing s h q sharing.now → is_target s h q c
        ≡ true → result ≡ greater_of best c (load_ratio s h q c) }
{
    let num = load_gain(book, sharing, c);
    if !may_exceed(num, best) {
        return best;
    }
    let den = book.missing_for(q, c);
    greater_of(best, c, Ratio { num, den })
}

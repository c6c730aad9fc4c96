//! Which query may be registered next.
ghost use Rattle.std.specs.Prelude.{◌≡◌, ◌==◌, ◌≤◌, ◌&&◌, Some, false, IsTrue};
ghost use Rattle.std.specs.List.{list_any};
ghost use Rattle.scan_story.specs.declared.setting.Setting.{Setting};
ghost use Rattle.scan_story.specs.Views.{History, is_active, is_registered};
ghost use Rattle.interest_book.specs.Stands.{Stands};
ghost use Rattle.trial_desk.specs.Rigged.{IsNext};

use help_views::worker_of;
use interest_book::{Book, Phase};
use scan_story::Setting;

/// Whether the query is active.
pub fn is_active(book: &Book, q: u32) -> bool
    requires { q ≤ 256 }
    ensures { (t : Setting) (h : History) → Stands book.now t h → result ≡ is_active h q }
{
    match book.phase(q) {
        Phase::Active => return true,
        _ => return false,
    }
}

/// Whether the query was never registered.
pub fn is_new(book: &Book, q: u32) -> bool
    requires { q ≤ 256 }
    ensures { (t : Setting) (h : History) → Stands book.now t h → IsTrue result → is_registered h q ≡ false }
{
    match book.phase(q) {
        Phase::Waiting => return true,
        _ => return false,
    }
}

/// The first query of the worker that was never registered.
pub fn next_on(s: &Setting, book: &Book, w: u32) -> Option<u32> {
    for n in s.needs.iter() {
        if n.worker == w && n.query <= 256 && is_new(book, n.query) {
            return Some(n.query);
        }
    }
    None
}

// Whether no query is active on the worker.
fn is_alone(s: &Setting, book: &Book, w: u32) -> bool
    ensures { (t : Setting) (h : History) → Stands book.now t h → IsTrue result
        → list_any (λ n. n.worker == w && is_active h n.query) s.now.needs ≡ false }
{
    for n in s.needs.iter() {
        if n.worker == w {
            if n.query > 256 {
                return false;
            }
            if is_active(book, n.query) {
                return false;
            }
        }
    }
    true
}

/// Whether the need of the query names the worker, the query was never registered, and no other is active there.
pub fn may_register(s: &Setting, book: &Book, w: u32, q: u32) -> bool
    requires { q ≤ 256 }
    ensures { (t : Setting) (h : History) → Stands book.now t h → s.now.needs ≡ t.needs → IsTrue result
        → IsNext t h w q }
{
    match worker_of(s, q) {
        Some(v) => {
            if v != w {
                return false;
            }
        }
        None => return false,
    }
    if !is_new(book, q) {
        return false;
    }
    is_alone(s, book, w)
}

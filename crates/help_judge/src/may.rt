ghost use Rattle.std.specs.Prelude.{◌≡◌, ◌&&◌, ◌==◌, ◌≤◌, ℕ, not, is_none, length};
ghost use Rattle.std.specs.List.{list_any};
ghost use Rattle.scan_story.specs.Views.{past, held_by};
ghost use Rattle.std.specs.Prelude.{◌+◌, nat_le, nat_lt};
ghost use Rattle.scan_story.specs.Counting.{is_number};
ghost use Rattle.scan_story.specs.Setting.{worker_of};
ghost use Rattle.scan_story.specs.Loads.{underway, free_frames};
ghost use Rattle.help_views.specs.Small.{IsSmall};
ghost use Rattle.help_judge.specs.Tests.{is_idle, is_active_on, has_active, is_rise, is_reason, is_fresh};
ghost use Rattle.help_judge.specs.Tests.{evicts_for, fills_for, filled_for, fails_for, with_load, is_hold, allows};

use help_views::{
    all_begun, begins, begins_in, free_frames, has_filled, held_by, is_active, is_free, is_load_by,
    is_ready, is_registered, is_starved, is_target, is_victim, misses, needed, worker_of,
};
use scan_story::{Entry, Load, Setting, Why};

/// The worker holds no chunk.
pub fn holds_nothing(entries: &[Entry], w: u32) -> bool
    ensures { result ≡ is_none (held_by (past entries.now) w) }
{
    held_by(entries, w).is_none()
}

fn is_idle(s: &Setting, entries: &[Entry], load: &Option<Load>, w: u32) -> bool
    requires { load.now ≡ underway s.now (past entries.now) }
    ensures { result ≡ is_idle s.now (past entries.now) w }
{
    holds_nothing(entries, w) && !is_load_by(w, load)
}

fn is_on(s: &Setting, q: u32, w: u32) -> bool
    ensures { result ≡ is_number w (worker_of s.now q) }
{
    match worker_of(s, q) {
        Some(v) => v == w,
        None => false,
    }
}

fn is_active_on(s: &Setting, entries: &[Entry], q: u32, w: u32) -> bool
    ensures { result ≡ is_active_on s.now (past entries.now) q w }
{
    is_active(entries, q) && is_on(s, q, w)
}

fn has_active(s: &Setting, entries: &[Entry], w: u32) -> bool
    ensures { result ≡ has_active s.now (past entries.now) w }
{
    s.needs
        .iter()
        .any(|n| n.worker == w && is_active(entries, n.query))
}

/// The count rose, or stands at its last value.
pub fn is_rise(before: u64, after: u64) -> bool
    ensures { result ≡ is_rise before after }
{
    before < after || (before == 18446744073709551615 && after == 18446744073709551615)
}

fn is_reason(why: Why) -> bool
    ensures { result ≡ is_reason why }
{
    match why {
        Why::Fault { before, after } => is_rise(before, after),
        Why::Damage { .. } => true,
    }
}

fn is_fresh(load: &Load) -> bool
    ensures { result ≡ is_fresh load.now }
{
    load.begun.len() == 0
}

fn evicts_for(s: &Setting, entries: &[Entry], load: &Option<Load>, w: u32) -> bool
    requires small { IsSmall s.now }
    requires load { load.now ≡ underway s.now (past entries.now) }
    ensures { result ≡ with_load load.now (evicts_for s.now (past entries.now) w) }
{
    match load {
        Some(l) => l.worker == w
            && is_fresh(l)
            && (free_frames(s, entries, load) as usize) < l.missing.len(),
        None => false,
    }
}

fn has_room(s: &Setting, entries: &[Entry], load: &Option<Load>, l: &Load) -> bool
    requires small { IsSmall s.now }
    requires load { load.now ≡ underway s.now (past entries.now) }
    ensures { result ≡ nat_le (length l.now.missing) (free_frames s.now (past entries.now) + length l.now.begun) }
{
    l.missing.len() <= free_frames(s, entries, load) as usize + l.begun.len()
}

fn fills_for(s: &Setting, entries: &[Entry], load: &Option<Load>, w: u32, f: u32, p: u32) -> bool
    requires small { IsSmall s.now }
    requires load { load.now ≡ underway s.now (past entries.now) }
    ensures { result ≡ with_load load.now (fills_for s.now (past entries.now) w f p) }
{
    match load {
        Some(l) => l.worker == w
            && has_room(s, entries, load, l)
            && f < s.frames
            && is_free(s, entries, load, f)
            && misses(l, p)
            && !begins(l, p),
        None => false,
    }
}

fn filled_for(load: &Option<Load>, w: u32, f: u32, p: u32) -> bool
    ensures { result ≡ with_load load.now (filled_for w f p) }
{
    match load {
        Some(l) => l.worker == w && begins_in(l, f, p) && !has_filled(l, p) && all_begun(l),
        None => false,
    }
}

fn fails_for(load: &Option<Load>, w: u32, q: u32, p: u32, why: Why) -> bool
    ensures { result ≡ with_load load.now (fails_for w q p why) }
{
    match load {
        Some(l) => l.worker == w
            && l.query == q
            && begins(l, p)
            && !has_filled(l, p)
            && all_begun(l)
            && is_reason(why),
        None => false,
    }
}

fn holds(entries: &[Entry], w: u32, q: u32, c: u32) -> bool
    ensures { result ≡ is_hold q c (held_by (past entries.now) w) }
{
    match held_by(entries, w) {
        Some(hold) => hold.query == q && hold.chunk == c,
        None => false,
    }
}

fn may_register(s: &Setting, entries: &[Entry], load: &Option<Load>, w: u32, q: u32) -> bool
    requires { load.now ≡ underway s.now (past entries.now) }
    ensures { result ≡ allows s.now (past entries.now) (Entry.Register w q) }
{
    !is_registered(entries, q)
        && is_on(s, q, w)
        && !has_active(s, entries, w)
        && is_idle(s, entries, load, w)
}

fn may_plan(s: &Setting, entries: &[Entry], load: &Option<Load>, w: u32, q: u32, c: u32) -> bool
    requires small { IsSmall s.now }
    requires load { load.now ≡ underway s.now (past entries.now) }
    ensures { result ≡ allows s.now (past entries.now) (Entry.Plan w q c) }
{
    w < s.workers
        && load.is_none()
        && holds_nothing(entries, w)
        && is_starved(s, entries, q)
        && is_target(s, entries, q, c)
}

fn may_evict(s: &Setting, entries: &[Entry], load: &Option<Load>, w: u32, c: u32) -> bool
    requires small { IsSmall s.now }
    requires load { load.now ≡ underway s.now (past entries.now) }
    ensures { result ≡ allows s.now (past entries.now) (Entry.Evict w c) }
{
    evicts_for(s, entries, load, w) && is_victim(s, entries, load, c)
}

fn may_deliver(s: &Setting, entries: &[Entry], load: &Option<Load>, w: u32, q: u32, c: u32) -> bool
    requires small { IsSmall s.now }
    requires load { load.now ≡ underway s.now (past entries.now) }
    ensures { result ≡ allows s.now (past entries.now) (Entry.Deliver w q c) }
{
    is_active_on(s, entries, q, w) && is_idle(s, entries, load, w) && is_ready(s, entries, q, c)
}

fn may_stop(s: &Setting, entries: &[Entry], load: &Option<Load>, w: u32, q: u32) -> bool
    requires { load.now ≡ underway s.now (past entries.now) }
    ensures { result ≡ allows s.now (past entries.now) (Entry.Stop w q) }
{
    is_active_on(s, entries, q, w) && is_idle(s, entries, load, w)
}

fn may_end(s: &Setting, entries: &[Entry], load: &Option<Load>, w: u32, q: u32) -> bool
    requires { load.now ≡ underway s.now (past entries.now) }
    ensures { result ≡ allows s.now (past entries.now) (Entry.End w q) }
{
    is_active_on(s, entries, q, w) && is_idle(s, entries, load, w) && needed(s, entries, q) == 0
}

/// Whether the entry may follow the entries, whose load underway is given.
pub fn allows(s: &Setting, entries: &[Entry], load: &Option<Load>, entry: &Entry) -> bool
    requires small { IsSmall s.now }
    requires load { load.now ≡ underway s.now (past entries.now) }
    ensures { result ≡ allows s.now (past entries.now) entry.now }
{
    match *entry {
        Entry::Register { worker, query } => may_register(s, entries, load, worker, query),
        Entry::Plan {
            worker,
            query,
            chunk,
        } => may_plan(s, entries, load, worker, query, chunk),
        Entry::Evict { worker, chunk } => may_evict(s, entries, load, worker, chunk),
        Entry::Fill {
            worker,
            frame,
            piece,
        } => fills_for(s, entries, load, worker, frame, piece),
        Entry::Filled {
            worker,
            frame,
            piece,
        } => filled_for(load, worker, frame, piece),
        Entry::Failed {
            worker,
            query,
            piece,
            why,
        } => fails_for(load, worker, query, piece, why),
        Entry::Deliver {
            worker,
            query,
            chunk,
        } => may_deliver(s, entries, load, worker, query, chunk),
        Entry::Release {
            worker,
            query,
            chunk,
        } => holds(entries, worker, query, chunk),
        Entry::Stop { worker, query } => may_stop(s, entries, load, worker, query),
        Entry::End { worker, query } => may_end(s, entries, load, worker, query),
    }
}

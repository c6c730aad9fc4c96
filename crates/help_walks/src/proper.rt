//! What the law of proper loads says of the load underway.
ghost use Rattle.std.specs.Prelude.{◌≡◌};
ghost use Rattle.scan_story.specs.Views.{past};
ghost use Rattle.scan_story.specs.Loads.{underway};
ghost use Rattle.help_views.specs.Small.{IsSmall};

use help_views::{
    begins, chunk_of, has_filled, is_framed, misses, piece_at, piece_in, reads_group,
};
use scan_story::{Entry, Load, Setting};
use std::process::Abort;

/// How often the number stands in the missing pieces.
fn times_missing(l: &Load, p: u64) -> usize {
    l.missing.iter().filter(|x| **x == p).count()
}

/// How many fills were begun of the piece, or in the frame.
fn times_begun(l: &Load, f: u32, p: u32) -> usize {
    l.begun.iter().filter(|b| b.0 == f || b.1 == p).count()
}

/// It misses some pieces of its chunk, at most one a group and none twice, each read by its trigger; those that it
/// hasn't filled, one at least, are in no frame.
fn expect_missing<R: Abort>(rt: &R, s: &Setting, entries: &[Entry], l: &Load)
    requires { IsSmall s.now }
{
    assert!(rt; !l.missing.is_empty() && l.missing.len() <= s.groups as usize);
    let mut open = false;
    for p in l.missing.iter() {
        assert_eq!(rt; times_missing(l, *p), 1, "piece {p} is missing");
        if let Ok(piece) = u32::try_from(*p) {
            assert_eq!(rt; chunk_of(s, piece), l.chunk, "piece {p}");
            if s.groups > 0 {
                assert!(rt; reads_group(s, l.query, piece % s.groups), "piece {p}");
            }
            if !has_filled(l, piece) {
                open = true;
                assert!(rt; !is_framed(s, entries, *p), "piece {p} is missing");
            }
        }
    }
    assert!(rt; open);
}

/// Each piece that it began is missing and has a frame of its own, which is empty until the piece is filled.
fn expect_begun<R: Abort>(rt: &R, s: &Setting, entries: &[Entry], l: &Load)
    requires { IsSmall s.now }
{
    for b in l.begun.iter() {
        let (frame, piece) = *b;
        assert!(rt;
            frame < s.frames && misses(l, piece),
            "piece {piece} in {frame}"
        );
        assert_eq!(rt; times_begun(l, frame, piece), 1, "piece {piece} in {frame}");
        let empty = piece_in(s, entries, frame).is_none();
        assert!(rt; empty || has_filled(l, piece), "piece {piece} in {frame}");
    }
}

/// What it filled was begun, and is in a frame.
fn expect_filled<R: Abort>(rt: &R, s: &Setting, entries: &[Entry], l: &Load)
    requires { IsSmall s.now }
{
    for p in l.filled.iter() {
        assert!(rt;
            begins(l, *p) && is_framed(s, entries, *p as u64),
            "piece {p}"
        );
    }
}

/// What its trigger reads of its chunk and it didn't miss is in a frame.
fn expect_rest<R: Abort>(rt: &R, s: &Setting, entries: &[Entry], l: &Load)
    requires { IsSmall s.now }
{
    for g in 0..s.groups {
        let p = piece_at(s, l.chunk, g);
        if reads_group(s, l.query, g) && times_missing(l, p) == 0 {
            assert!(rt; is_framed(s, entries, p), "piece {p}");
        }
    }
}

/// The load underway is proper.
pub fn expect_proper<R: Abort>(rt: &R, s: &Setting, entries: &[Entry], l: &Load)
    requires { IsSmall s.now }
{
    assert!(rt; l.worker < s.workers && l.chunk < s.chunks);
    expect_missing(rt, s, entries, l);
    expect_begun(rt, s, entries, l);
    expect_filled(rt, s, entries, l);
    expect_rest(rt, s, entries, l);
}

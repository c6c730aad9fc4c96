//! Two examples of what threads share, each proved: a diary that workers hand on, and a frame of two words.
//!
//! `docs/BATON.md` and `docs/FRAMES.md` tell the rules.
//!
//!     let entries = hand_on::<S, _>(rt, alloc)?;         // two workers write into one diary
//!     at_once(rt, &pool, &mut filler, &mut reader);      // one thread fills a frame, the other reads it
#![tactic(auto)]

pub mod diary;
pub mod pair;

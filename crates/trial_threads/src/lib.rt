//! Trials of what threads share: a pool of frames, a baton with a diary, what a desk is made of, and the parts of a
//! batch.
//!
//! All of it is tests. `docs/FRAMES.md`, `docs/BATON.md`, `docs/MANAGER.md` and `docs/PARTS.md` tell the rules.
#![tactic(auto)]

#[cfg(test)]
mod bells;
#[cfg(test)]
mod desks;
#[cfg(test)]
mod diaries;
#[cfg(test)]
mod parts;
#[cfg(test)]
mod pools;

//! Trials of the desk: its calls made as a story asks, and at random, with everything that it answers written down;
//! and of the policies: what each picks along a story, beside the judge's choices.
//!
//! All of it is tests. `docs/MANAGER.md` and `docs/POLICIES.md` tell the rules.
#![tactic(auto)]

#[cfg(test)]
mod bound;
#[cfg(test)]
mod calls;
#[cfg(test)]
mod counted;
#[cfg(test)]
mod expected;
#[cfg(test)]
mod follow;
#[cfg(test)]
mod next;
mod out;
#[cfg(test)]
mod policies;
#[cfg(test)]
mod reading;
#[cfg(test)]
mod rig;
#[cfg(test)]
mod said;
#[cfg(test)]
mod script;
mod seat;
#[cfg(test)]
mod tests;
#[cfg(test)]
mod walks;
#[cfg(test)]
mod worked;

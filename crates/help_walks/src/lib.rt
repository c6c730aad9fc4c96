//! Random legal stories, for tests: of any setting, the same ones for the same seed.
//!
//! Each entry is drawn among those that a manager might make next, and taken only where the judge lets it come. So a
//! walk is legal by its contract. The tests walk through both layouts under every policy, and compute the numbers of
//! which story_laws speaks.
#![tactic(auto)]

mod moves;
mod settings;
mod walks;

pub use moves::below;
pub use settings::some_setting;
pub use walks::walk;

#[cfg(test)]
mod numbers;
#[cfg(test)]
mod proper;
#[cfg(test)]
mod tests;

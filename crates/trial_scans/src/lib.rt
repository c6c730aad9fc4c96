//! Trials of scans: scans over a pool and a baton made for them, step by step, with everything that they answer
//! written down.
//!
//! All of it is tests, but for a type that specs/ names. `docs/SCANS.md` tells the rules.
#![tactic(auto)]

mod at;

pub use at::At;

#[cfg(test)]
mod desks;
#[cfg(test)]
mod fitting;
#[cfg(test)]
mod handing;
#[cfg(test)]
mod notes;
#[cfg(test)]
mod outcome;
#[cfg(test)]
mod pair;
#[cfg(test)]
mod reading;
#[cfg(test)]
mod seats;
#[cfg(test)]
mod single;
#[cfg(test)]
mod steps;
#[cfg(test)]
mod tables;
#[cfg(test)]
mod tests;

//! Trials of how workers wait for each other: a machine of their atomic steps at desk, lobby and bell, played in drawn
//! orders, with the code's bodies and with wrong ones.
//!
//! All of it is tests. `docs/BATON.md` and `docs/SCANS.md` tell the steps; the page of this crate has the machine
//! beside the code.
#![tactic(auto)]

#[cfg(test)]
mod bell;
#[cfg(test)]
mod body;
#[cfg(test)]
mod chunks;
#[cfg(test)]
mod draws;
#[cfg(test)]
mod giving;
#[cfg(test)]
mod lobby;
#[cfg(test)]
mod lying;
#[cfg(test)]
mod machine;
#[cfg(test)]
mod met;
#[cfg(test)]
mod ordering;
#[cfg(test)]
mod query;
#[cfg(test)]
mod ringing;
#[cfg(test)]
mod rules;
#[cfg(test)]
mod schedule;
#[cfg(test)]
mod story;
#[cfg(test)]
mod taking;
#[cfg(test)]
mod tests;
#[cfg(test)]
mod turning;
#[cfg(test)]
mod watching;
#[cfg(test)]
mod worker;

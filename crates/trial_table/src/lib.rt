//! Trials of tables as they are kept: cells cut into pieces and read back, pieces with damages, pieces put into depots,
//! and conditions over the zones of chunks.
//!
//! All of it is tests. docs/PIECES.md and docs/ZONES.md tell what they try.
#![tactic(auto)]

#[cfg(test)]
mod asked;
#[cfg(test)]
mod blocks;
#[cfg(test)]
mod conds;
#[cfg(test)]
mod damages;
#[cfg(test)]
mod example;
#[cfg(test)]
mod full_depot;
#[cfg(test)]
mod pieces;
#[cfg(test)]
mod putting;
#[cfg(test)]
mod reading_back;
#[cfg(test)]
mod shapes;
#[cfg(test)]
mod small_zones;
#[cfg(test)]
mod truths;
#[cfg(test)]
mod zones;

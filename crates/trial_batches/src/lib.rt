//! Trials of a batch on workers: what is answered, taken and read; depots that fail or spoil; many workers over few
//! frames while reads fail; fewer threads than workers; the stories of each policy; and what the gate is told.
//!
//! All of it is tests. `docs/BATCH.md` tells the rules.
#![tactic(auto)]

#[cfg(test)]
mod answers;
#[cfg(test)]
mod batches;
#[cfg(test)]
mod faults;
#[cfg(test)]
mod few_threads;
#[cfg(test)]
mod gates;
#[cfg(test)]
mod judged;
#[cfg(test)]
mod policies;
#[cfg(test)]
mod stress;
#[cfg(test)]
mod takings;
#[cfg(test)]
mod told;
#[cfg(test)]
mod wanted;

//! Trials of `prepare`: exports whose prepared text is written down, with what is told of it, refusals with their
//! records, and an input or an output that fails. And of dates, of the page that tells of an export, of texts in other
//! encodings, and of what a look gives.
//!
//! All of it is tests.
#![tactic(auto)]

#[cfg(test)]
mod autos;
#[cfg(test)]
mod blanks;
#[cfg(test)]
mod dates;
#[cfg(test)]
mod days;
#[cfg(test)]
mod decodings;
#[cfg(test)]
mod exports;
#[cfg(test)]
mod faults;
#[cfg(test)]
mod looks;
#[cfg(test)]
mod places;
#[cfg(test)]
mod tallies;

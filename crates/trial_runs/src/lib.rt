//! Trials of whole runs over devices in memory: answers, refusals, stories and their counts, layouts, policies in
//! boxes, devices that fail, hostile tables and batches, and the generated job; and of what makes scans wait, on
//! threads that sleep: gets that take long or fail, a scan that works long on its chunks, as many scans as there may
//! be, chunks of many pieces.
//!
//! All of it is tests. docs/COMMAND_LINE.md is the manual of what they try, and docs/SCANS.md tells the waiting
//! ("Waiting").
#![tactic(auto)]

#[cfg(test)]
mod tests;
#[cfg(test)]
mod waits;

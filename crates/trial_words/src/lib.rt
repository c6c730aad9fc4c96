//! Trials of what a run is told and what it says: the words of the command line, generated texts, inputs and stops, and
//! the lines of the output; and the words of `coop_inspect`.
//!
//! All of it is tests. `docs/COMMAND_LINE.md` and `docs/ANSWERS.md` tell the rules.
#![tactic(auto)]

#[cfg(test)]
mod asking;
#[cfg(test)]
mod inputs;
#[cfg(test)]
mod lines;
#[cfg(test)]
mod outputs;
#[cfg(test)]
mod scratch;
#[cfg(test)]
mod texts;
#[cfg(test)]
mod words;

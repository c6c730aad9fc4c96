//! Trials of what is told of a table and of a batch before it runs, the lines of profiles and those of notes; of where
//! a statement is refused, line and column, and what could stand there; of the picture of a story, and of the page with
//! it; of the verdict on an output; of stories in settings, both as text; and of the whole texts that coop_inspect
//! says.
//!
//! All of it is tests. docs/INSPECT.md tells the form of the lines, and docs/SQL.md the rules by which statements are
//! refused.
#![tactic(auto)]

#[cfg(test)]
mod calls;
#[cfg(test)]
mod loading;
#[cfg(test)]
mod notes;
#[cfg(test)]
mod pages;
#[cfg(test)]
mod pictures;
#[cfg(test)]
mod places;
#[cfg(test)]
mod profiles;
#[cfg(test)]
mod smallest_picture;
#[cfg(test)]
mod stories;
#[cfg(test)]
mod verdicts;
#[cfg(test)]
mod words;

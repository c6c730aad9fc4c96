//! Trials of a query's way behind its text: its plan, its groups or first rows, and what it gathers; and of blocks:
//! what a call says of a block is what another says of each of its rows.
//!
//! All of it is tests. `docs/SQL.md`, `docs/ANSWERS.md`, `docs/ZONES.md` and `docs/TABLES.md` tell the rules.
#![tactic(auto)]

#[cfg(test)]
mod block_truths;
#[cfg(test)]
mod blocks;
#[cfg(test)]
mod drawn;
#[cfg(test)]
mod first_rows;
#[cfg(test)]
mod firsts;
#[cfg(test)]
mod fitting;
#[cfg(test)]
mod gathering;
#[cfg(test)]
mod groups;
#[cfg(test)]
mod plans;

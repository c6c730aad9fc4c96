//! Trials of SQL text: the statements and tokens that texts have, the queries that they are, and how these are written.
//!
//! All of it is tests. `docs/SQL.md` tells the rules.
#![tactic(auto)]

#[cfg(test)]
mod line;
#[cfg(test)]
mod texts;
#[cfg(test)]
mod tokens;

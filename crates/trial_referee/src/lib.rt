//! Trials beside the plain judge: stories that the referee judges, with the reasons that it gives, and stories played
//! through the book.
//!
//! All of it is tests. `docs/MANAGER.md` tells the rules, `docs/POLICIES.md` the choices.
#![tactic(auto)]

#[cfg(test)]
mod books;
#[cfg(test)]
mod changes;
#[cfg(test)]
mod settings;
#[cfg(test)]
mod sides;
#[cfg(test)]
mod tests;

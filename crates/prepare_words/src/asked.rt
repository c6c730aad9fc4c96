// What the words ask for.
use crate::writing::Writing;

/// What the words ask for.
#[derive(Drop)]
pub enum Asked<'a> {
    /// What this file is, and what has to be done with it for coop_cli: `look`.
    Look(&'a str),
    /// The CSV that coop_cli takes, made of an export by rules: `write`.
    Write(Writing<'a>),
}

//! A plain judge of stories: whether a list of entries is a legal story of a setting, and where it first is not.
//!
//! It asks `help_views` what the list says before each entry, so it is slow, and meant for stories of tens of entries.
//! It takes every policy and both layouts, and its contracts are the definitions. `docs/MANAGER.md` tells the rules.
//!
//!     let first = first_illegal(alloc, &setting, &entries)?;    // None: the story is legal
//!     let whole = is_whole(alloc, &setting, &entries)?;    // and nothing is underway at its end
//!     let calm = is_undisturbed(&setting, &entries);    // and nobody refilled a held frame
#![tactic(auto)]

mod choices;
mod legal;
mod licensed;
mod may;
mod undisturbed;
mod whole;

pub use choices::chooses;
pub use legal::{first_illegal, is_legal, may_come, may_follow};
pub use licensed::is_licensed;
pub use undisturbed::is_undisturbed;
pub use whole::is_whole;

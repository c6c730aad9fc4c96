//! A policy in a box, and the policy elevator with the law of its loads.
//!
//!     policies.push(into_dyn_box(Elevator::new()))?;
//!     let found = choose(policies, PolicyName::Elevator);    // Some(Boxed), a policy itself, or None
//!
//! `docs/POLICIES.md` tells the rules.
#![tactic(auto)]

mod boxed;
mod elevator;
mod loads;

pub use boxed::{Boxed, choose};
pub use elevator::Elevator;
pub use loads::elevator_loads_go_around;
pub use relevance::Policy;
pub use scan_story::PolicyName;

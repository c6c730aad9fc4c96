//! The policies normal and attach.
//!
//!     let normal = Normal::new();                       // each query up the table; the least recently used leaves
//!     let attach = Attach::new();                       // each query begins where another one is
//!
//! `docs/POLICIES.md` tells the rules.
#![tactic(auto)]

mod attach;
mod normal;
mod places;

pub use attach::Attach;
pub use normal::Normal;
pub use relevance::Policy;
pub use scan_story::PolicyName;

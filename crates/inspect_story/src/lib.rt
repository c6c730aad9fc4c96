//! A story of any engine and the setting in which it is judged, both as text. `docs/INSPECT.md` tells their forms.
//!
//!     let text = write_terms(alloc, &terms)?;       // the setting of a run of this engine
//!     let freedom = Freedom { choices: true, dealing: false };
//!     match judge_story(alloc, setting, story, freedom)? {
//!         StoryVerdict::Legal { entries, counts } => ..,     // the story is right in the setting
//!         other => ..,                                       // the first that stands in the way
//!     }
#![tactic(auto)]

mod begun;
mod dealing;
mod falls;
mod freedom;
mod judging;
mod members;
mod needs;
mod plain_terms;
mod sets;
mod stories;
mod terms_text;
mod verdict;

pub use falls::count_after;
pub use freedom::Freedom;
pub use judging::judge_story;
pub use stories::{numbers_fit, one_story, story_in};
pub use terms_text::write_terms;
pub use verdict::StoryVerdict;

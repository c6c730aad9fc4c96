//! The text of the setting that a story is judged in: written and read.
//!
//! A setting's text has one form. `docs/INSPECT.md` tells it.
//!
//!     let setting = read_setting(alloc, text)?;     // the setting, or the first line that stands in the way
//!     let text = write_setting(alloc, &setting)?;   // the same text
#![tactic(auto)]

mod fault;
mod head;
mod lines;
mod lists;
mod plain;
mod reading;
mod rules;
mod words;
mod writing;

pub use fault::{HeadRule, NeedRule, SettingFault};
pub use head::Head;
pub use plain::PlainSetting;
pub use reading::read_setting;
pub use writing::write_setting;

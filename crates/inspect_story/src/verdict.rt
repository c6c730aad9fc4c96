// What is said of a story in a setting.
use inspect_referee::{Counts, Reason};
use setting_text::SettingFault;

/// What the text of a story is, in the setting that another text tells. Lines are counted from 1.
#[derive(Clone, Copy, Debug, PartialEq, Eq)]
pub enum StoryVerdict {
    /// The story is right: it has so many entries, and so many of each kind.
    Legal { entries: u64, counts: Counts },
    /// The text of the setting is refused, with its line and the cause.
    NoSetting(SettingFault),
    /// This line of the story is the first that is no entry's.
    NotStory { line: u64 },
    /// The entry of this line is the first that may not come where it stands: it breaks this rule, or there was this
    /// better choice.
    Illegal { line: u64, reason: Reason },
    /// The fault of this line is the first that begins below the count that the last one left.
    CountFell { line: u64, last: u64 },
    /// The story is legal, but a query isn't over, or something is left open. The text ends before this line.
    NotWhole { line: u64 },
}

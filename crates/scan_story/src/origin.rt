use crate::entry::Entry;
use crate::setting::Setting;
use std::collections::LinkedList;
use std::marker::Brand;

/// A setting, and the depot as the manager was made: the pieces that it told, with their bytes, and its counts.
/// Contracts alone see it; the program never makes one.
#[derive(Drop)]
pub struct Start {
    pub setting: Setting,
    /// What the depot told that it holds, by rising piece; `None` where it tells nothing.
    pub held: Option<LinkedList<(u32, LinkedList<u8>)>>,
    /// How many reads the depot had made.
    pub gets: u64,
    /// The depot's count of faults.
    pub faults: u64,
}

/// What the values of a type were made from. A type that is an `Origin` has no values of interest: the caller of a
/// function that is generic in it names a marker, and the proof of that call picks the one meaning.
pub trait Origin {
    ghost use Rattle.scan_story.specs.declared.origin.Start.{Start};

    ghost origin: { Start };
}

impl Origin for Brand {
    ghost use Rattle.scan_story.specs.Setting.{nowhere};

    ghost origin = { nowhere };
}

/// A value that has an origin, fixed when it is made, and a story, the oldest entry first.
pub trait Storied {
    ghost use Rattle.std.specs.Prelude.{List};
    ghost use Rattle.scan_story.specs.declared.origin.Start.{Start};
    ghost use Rattle.scan_story.specs.declared.entry.Entry.{Entry};

    ghost origin: { Self → Start };

    ghost story: { Self → List Entry };
}

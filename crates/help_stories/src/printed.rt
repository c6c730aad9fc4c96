//! The printed stories, each with what it is of.
ghost use Rattle.std.specs.Prelude.{IfOk};
ghost use Rattle.help_views.specs.Small.{IsSmall};

use crate::scene::Scene;
use crate::stories::{
    COLUMNS, FAULT, FIRST_OF_SIX, FROM_2, FROM_5, FULL, IN_PLACE_OF_0, IN_PLACE_OF_2,
    IN_PLACE_OF_3, ONE_COUNT, SHORTER, TRIGGER_STOPS, TWO_LOADED,
};
use scan_story::{Entry, PolicyName, Setting};
use std::alloc::{AllocError, Global};
use story_text::{StoryRefusal, read_story};

/// A story, and what it is of.
#[derive(Clone, Copy, Debug)]
pub struct Printed {
    pub scene: Scene,
    pub policy: PolicyName,
    /// The gets that fail in it, from 1.
    pub fail_gets: &'static [u64],
    // Its text is these, one behind the other.
    parts: &'static [&'static str],
}

/// The entries of a text.
pub fn entries_of(alloc: Global, text: &str) -> Result<Vec<Entry>, StoryRefusal> {
    if text.len() >= 1073741824 {
        return Err(StoryRefusal::Memory);
    }
    read_story(alloc, text.as_bytes())
}

impl Printed {
    /// The setting that it is of.
    pub fn setting(&self, alloc: Global) -> Result<Setting, AllocError>
        ensures { IfOk result IsSmall }
    {
        self.scene.setting(alloc, self.policy)
    }

    /// Its entries.
    pub fn entries(&self, alloc: Global) -> Result<Vec<Entry>, StoryRefusal> {
        let mut text = String::new(alloc);
        for part in self.parts {
            if text.push_str(part).is_err() {
                return Err(StoryRefusal::Memory);
            }
        }
        entries_of(alloc, text.as_str())
    }
}

/// The counts of one query, and of two of which the first meets a fault.
pub const COUNTS: [Printed; 2] = [
    Printed {
        scene: Scene::OneCount,
        policy: PolicyName::Relevance,
        fail_gets: &[],
        parts: &[ONE_COUNT],
    },
    Printed {
        scene: Scene::TwoCounts,
        policy: PolicyName::Relevance,
        fail_gets: &[2],
        parts: &[FAULT],
    },
];

/// Two queries over six chunks under relevance.
pub const SIX_RELEVANCE: Printed = Printed {
    scene: Scene::SixChunks,
    policy: PolicyName::Relevance,
    fail_gets: &[],
    parts: &[FIRST_OF_SIX, FROM_2, IN_PLACE_OF_2, IN_PLACE_OF_0],
};

/// The same under elevator.
pub const SIX_ELEVATOR: Printed = Printed {
    scene: Scene::SixChunks,
    policy: PolicyName::Elevator,
    fail_gets: &[],
    parts: &[FIRST_OF_SIX, FROM_2, IN_PLACE_OF_2, IN_PLACE_OF_3],
};

/// The same under normal.
pub const SIX_NORMAL: Printed = Printed {
    scene: Scene::SixChunks,
    policy: PolicyName::Normal,
    fail_gets: &[],
    parts: &[FIRST_OF_SIX, FROM_2, IN_PLACE_OF_2, IN_PLACE_OF_3],
};

/// The same under attach.
pub const SIX_ATTACH: Printed = Printed {
    scene: Scene::SixChunks,
    policy: PolicyName::Attach,
    fail_gets: &[],
    parts: &[FIRST_OF_SIX, FROM_5, IN_PLACE_OF_2, IN_PLACE_OF_0],
};

/// The four of them.
pub const SIX: [Printed; 4] = [SIX_RELEVANCE, SIX_ELEVATOR, SIX_NORMAL, SIX_ATTACH];

/// The worked turns: a load for the shorter query, one of a column, and a trigger that stops.
pub const TURNS: [Printed; 3] = [
    Printed {
        scene: Scene::Shorter,
        policy: PolicyName::Relevance,
        fail_gets: &[],
        parts: &[SHORTER],
    },
    Printed {
        scene: Scene::Columns,
        policy: PolicyName::Relevance,
        fail_gets: &[],
        parts: &[COLUMNS],
    },
    Printed {
        scene: Scene::TriggerStops,
        policy: PolicyName::Relevance,
        fail_gets: &[2],
        parts: &[TRIGGER_STOPS],
    },
];

/// Two chunks to deliver to one query.
pub const TWO_TO_DELIVER: Printed = Printed {
    scene: Scene::Shorter,
    policy: PolicyName::Relevance,
    fail_gets: &[],
    parts: &[TWO_LOADED],
};

/// A chunk to be evicted.
pub const TO_EVICT: Printed = Printed {
    scene: Scene::NineChunks,
    policy: PolicyName::Elevator,
    fail_gets: &[],
    parts: &[FULL],
};

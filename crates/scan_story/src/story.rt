ghost use Rattle.std.specs.Prelude.{◌≡◌, ℕ, ◌+◌, ◌*◌, ◌<◌, ◌≤◌, [], ◌∷◌, ◌++◌, IfOk};

use crate::bytes::Memory;
use crate::entry::Entry;
use std::alloc::Global;
use std::marker::Model;

/// The entries so far, the oldest first, with room for more.
#[derive(Drop)]
pub struct Story {
    entries: Vec<Entry>,
    room: u64,
}

impl Model for Story {
    ghost use Rattle.std.specs.Prelude.{◌≡◌, ◌+◌, ◌≤◌, vec_len, vec_capacity};
    ghost use Rattle.scan_story.specs.Kept.{Kept};

    ghost Value = { Kept };

    ghost view = { λ s. record { entries = s.entries.items; spare = s.room } };

    ghost invariant = { λ s. vec_len s.entries + s.room ≤ vec_capacity s.entries };
}

impl Story {
    /// An empty story with room for `n` entries and no more.
    pub fn with_room(alloc: Global, n: u64) -> Result<Story, Memory>
        ensures empty { IfOk result (λ s. s.entries ≡ []) }
        ensures room { IfOk result (λ s. s.spare ≡ n) }
    {
        match Vec::with_capacity(alloc, n as usize) {
            Ok(entries) => Ok(Story { entries, room: n }),
            Err(_) => Err(Memory),
        }
    }

    /// Appends an entry, in the room that is kept. It takes no memory.
    pub fn push(&mut self, entry: Entry)
        requires { 0 < self.old.spare }
        ensures entries { self.new.entries ≡ self.old.entries ++ entry ∷ [] }
        ensures spare { self.new.spare + 1 ≡ self.old.spare }
    {
        let pushed = self.entries.push(entry);
        prove!(pushed.is_ok());
        self.room -= 1;
    }

    /// The entries, the oldest first.
    pub fn entries(&self) -> &[Entry]
        ensures { result.now ≡ self.now.entries }
    {
        self.entries.as_slice()
    }

    /// The entries, as a vector. It takes no memory.
    pub fn into_entries(self) -> Vec<Entry>
        ensures { result.items ≡ self.entries }
    {
        self.entries
    }
}

/// How many entries a legal story has at most: `d` is the number of chunks that the needs name together, at most
/// 262144, `q` the number of queries, at most 256, and `g` the number of pieces of a chunk, at most 16.
pub fn capacity(d: u64, q: u64, g: u64) -> u64
    requires chunks { d ≤ 262144 }
    requires queries { q ≤ 256 }
    requires groups { g ≤ 16 }
    ensures { result ≡ 3 * q + 2 * d + (d + 3 * q) * (2 + 2 * g) }
{
    3 * q + 2 * d + (d + 3 * q) * (2 + 2 * g)
}

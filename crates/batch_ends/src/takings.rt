// The chunks that the scans took, noted as the story delivered them.
ghost use Rattle.std.specs.Prelude.{◌≡◌, ◌<◌, ◌≤◌, All, IfOk, length, vec_capacity};
ghost use Rattle.std.specs.List.{AllZip};
ghost use Rattle.batch_ends.specs.Noting.{HasRoomFor, IsNamed, IsOpened, NotesAll, NotesOne, number_of};

use crate::taken::Taken;
use batch_plan::scan_number;
use chunk_interest::Need;
use scan_story::Entry;
use std::alloc::Global;
use table_core::Memory;

/// Who each scan is, by its need, with room for all chunks that it needs. None is noted yet.
pub fn takings_of(alloc: Global, needs: &[Need], parts: u32) -> Result<Vec<Taken>, Memory>
    requires parts { 1 ≤ parts }
    requires numbers { All (λ n. (1 ≤ n.query) × (n.query ≤ 256)) needs.now }
    ensures { IfOk result (λ taken. AllZip (IsOpened parts) needs.now taken.items) }
{
    let mut taken = Vec::with_capacity(alloc, needs.len())?;
    for need in needs {
        let chunks = Vec::with_capacity(alloc, need.chunks.len() as usize)?;
        taken.push_reserved(Taken {
            query: (need.query - 1) / parts + 1,
            part: (need.query - 1) % parts,
            worker: need.worker,
            chunks,
        });
    }
    Ok(taken)
}

impl Taken {
    // Notes a chunk that was delivered to the scan of this number, where it is this one.
    fn note(&mut self, parts: u32, number: u32, chunk: u32)
        requires named { IsNamed parts self.old }
        requires room { number_of parts self.old ≡ number
            → length self.old.chunks.items < vec_capacity self.old.chunks }
        ensures { NotesOne parts number chunk self.old self.new }
    {
        if scan_number(parts, self.query, self.part) == number {
            self.chunks.push_reserved(chunk);
        }
    }
}

// Notes a chunk that was delivered to the scan of this number.
fn note(taken: &mut [Taken], parts: u32, number: u32, chunk: u32)
    requires named { All (IsNamed parts) taken.old }
    requires room { All (λ t. number_of parts t ≡ number → length t.chunks.items < vec_capacity t.chunks) taken.old }
    ensures { AllZip (NotesOne parts number chunk) taken.old taken.new }
{
    for place in 0..taken.len() {
        taken[place].note(parts, number, chunk);
    }
}

/// Notes the chunks that a story delivered, each at its scan, in the story's order.
pub fn note_all(taken: &mut [Taken], parts: u32, story: &[Entry])
    requires { All (HasRoomFor parts story.now) taken.old }
    ensures { AllZip (NotesAll parts story.now) taken.old taken.new }
{
    for entry in story {
        if let Entry::Deliver { query, chunk, .. } = *entry {
            note(taken, parts, query, chunk);
        }
    }
}

ghost use Rattle.std.specs.Prelude.{◌≡◌, ◌≤◌, ◌^◌, length};
ghost use Rattle.inspect_picture.specs.Scales.{scale_of, seen, with_room};

use crate::view::View;
use scan_story::Entry;

// What a picture has to have room for: how many entries, the first that it shows and the first behind those, and the
// greatest worker, frame and chunk that they name.
#[derive(Clone, Copy, Debug, PartialEq, Eq)]
pub(crate) struct Scale {
    pub(crate) entries: u32,
    pub(crate) first: u32,
    pub(crate) last: u32,
    pub(crate) last_worker: u32,
    pub(crate) last_frame: u32,
    pub(crate) last_chunk: u32,
    pub(crate) groups: u32,
}

impl Scale {
    // The same, with room for these too.
    fn with(self, worker: u32, frame: u32, chunk: u32) -> Scale
        ensures room { result ≡ with_room self worker frame chunk }
        ensures groups { result.groups ≡ self.groups }
    {
        Scale {
            last_worker: self.last_worker.max(worker),
            last_frame: self.last_frame.max(frame),
            last_chunk: self.last_chunk.max(chunk),
            ..self
        }
    }

    // The same, with room for what the entry names.
    fn seen(self, entry: Entry) -> Scale
        requires groups { 1 ≤ self.groups }
        ensures room { result ≡ seen self entry }
        ensures groups { result.groups ≡ self.groups }
    {
        match entry {
            Entry::Register { worker, .. } => self.with(worker, 0, 0),
            Entry::Plan { worker, chunk, .. } => self.with(worker, 0, chunk),
            Entry::Evict { worker, chunk } => self.with(worker, 0, chunk),
            Entry::Fill {
                worker,
                frame,
                piece,
            } => self.with(worker, frame, piece / self.groups),
            Entry::Filled {
                worker,
                frame,
                piece,
            } => self.with(worker, frame, piece / self.groups),
            Entry::Failed { worker, piece, .. } => self.with(worker, 0, piece / self.groups),
            Entry::Deliver { worker, chunk, .. } => self.with(worker, 0, chunk),
            Entry::Release { worker, chunk, .. } => self.with(worker, 0, chunk),
            Entry::Stop { worker, .. } => self.with(worker, 0, 0),
            Entry::End { worker, .. } => self.with(worker, 0, 0),
        }
    }
}

// The scale of a story.
pub(crate) fn scale_of(entries: &[Entry], groups: u32, view: View) -> Scale
    requires groups { 1 ≤ groups }
    requires size { length entries.now ≤ 2 ^ 30 }
    ensures scale { result ≡ scale_of groups view.from view.to entries.now }
    ensures groups { result.groups ≡ groups }
{
    let count = entries.len() as u32;
    let first = view.from.min(count);
    let mut scale = Scale {
        entries: count,
        first,
        last: first.max(view.to.min(count)) + 1,
        last_worker: 0,
        last_frame: 0,
        last_chunk: 0,
        groups,
    };
    for entry in entries {
        scale = scale.seen(*entry);
    }
    scale
}

// The frames of a plain buffer manager.

use crate::ordered_scan::OrderedScan;
use std::alloc::{AllocError, Global};

// A frame, free or with a chunk.
#[derive(Clone, Copy, Debug)]
struct Frame {
    chunk: Option<u32>,
    pins: u32,
    // when it was used last
    used: u64,
}

// The bit of a stream.
fn bit(stream: usize) -> u32 {
    1 << (stream % 32)
}

// What a stream is at.
#[derive(Clone, Copy, Debug)]
struct Seat {
    scan: Option<OrderedScan>,
    // the chunk that it waits for, and since when
    wish: Option<(u32, u64)>,
}

/// What a stream does next.
#[derive(Clone, Copy, Debug)]
pub(crate) enum Step {
    /// It works on its chunk, which is pinned.
    Work,
    /// It loads its chunk into the frame at this place.
    Load(usize),
    /// Nothing: each frame is pinned.
    Stuck,
}

/// The frames of a plain buffer manager, for comparison with the engine alone: a chunk leaves its frame where another
/// one is to be loaded and it is, of those that aren't pinned, the one that was used least recently. One chunk is
/// loaded at a time, in the order in which they were asked for.
#[derive(Drop)]
pub(crate) struct LruPool {
    frames: Vec<Frame>,
    seats: Vec<Seat>,
    is_loading: bool,
    ticks: u64,
    reads: u64,
    // the chunks that were handed out, in their order
    handed: Vec<u32>,
}

impl LruPool {
    /// So many free frames, for so many streams, with room to note so many chunks.
    pub(crate) fn new(
        alloc: Global,
        frames: u32,
        streams: u32,
        room: usize,
    ) -> Result<Self, AllocError> {
        let free = Frame {
            chunk: None,
            pins: 0,
            used: 0,
        };
        let seat = Seat {
            scan: None,
            wish: None,
        };
        Ok(LruPool {
            frames: vec![in alloc; free; frames as usize]?,
            seats: vec![in alloc; seat; streams as usize]?,
            is_loading: false,
            ticks: 0,
            reads: 0,
            handed: Vec::with_capacity(alloc, room)?,
        })
    }

    /// How many chunks were loaded.
    pub(crate) fn reads(&self) -> u64 {
        self.reads
    }

    /// The chunks that were handed out, in their order.
    pub(crate) fn into_handed(self) -> Vec<u32> {
        let LruPool { handed, .. } = self;
        handed
    }

    // The next moment.
    fn tick(&mut self) -> u64 {
        self.ticks = self.ticks.wrapping_add(1);
        self.ticks
    }

    // Of the scans that run, the last chunk of the one that has most of this scan's chunks to come.
    fn place_to_attach(&self, scan: &OrderedScan) -> Option<u32> {
        self.seats
            .iter()
            .filter_map(|seat| seat.scan)
            .filter(|other| other.shared_with(scan) > 0)
            .max_by_key(|other| other.shared_with(scan))
            .map(|other| other.last())
    }

    /// The stream begins a scan; where it attaches, at the place of another one that runs.
    pub(crate) fn begin(&mut self, stream: usize, scan: OrderedScan, attaches: bool) {
        let found = if attaches {
            self.place_to_attach(&scan)
        } else {
            None
        };
        let placed = match found {
            Some(chunk) => scan.beginning_at(chunk),
            None => scan,
        };
        if let Some(seat) = self.seats.get_mut(stream) {
            seat.scan = Some(placed);
        }
    }

    /// The stream's scan has ended.
    pub(crate) fn end(&mut self, stream: usize) {
        if let Some(seat) = self.seats.get_mut(stream) {
            seat.scan = None;
        }
    }

    /// The stream asks for the next chunk of its scan. The chunk is pinned where it lies in a frame, and else the
    /// stream waits for it.
    pub(crate) fn ask(&mut self, stream: usize) -> Option<u32> {
        let now = self.tick();
        let seat = self.seats.get_mut(stream)?;
        let scan = seat.scan.as_mut()?;
        let chunk = scan.ask()?;
        match self
            .frames
            .iter_mut()
            .find(|frame| frame.chunk == Some(chunk))
        {
            Some(frame) => {
                frame.pins = frame.pins.wrapping_add(1);
                frame.used = now;
            }
            None => seat.wish = Some((chunk, now)),
        }
        // (there is room for all of them)
        let _ = self.handed.push(chunk);
        Some(chunk)
    }

    /// The stream that is to load next: the one that has waited longest, where no load is underway.
    pub(crate) fn next(&self) -> Option<usize> {
        if self.is_loading {
            return None;
        }
        let waiting = self.seats.iter().enumerate();
        waiting
            .filter_map(|(stream, seat)| seat.wish.map(|(_, since)| (stream, since)))
            .min_by_key(|(_, since)| *since)
            .map(|(stream, _)| stream)
    }

    /// Whether the stream has to wait: another one loads, or is to load before it.
    pub(crate) fn must_wait(&self, stream: usize) -> bool {
        let waits = self
            .seats
            .get(stream)
            .is_some_and(|seat| seat.wish.is_some());
        waits && self.next() != Some(stream)
    }

    // Of the frames that aren't pinned, the one that was used least recently.
    fn victim(&self) -> Option<usize> {
        self.frames
            .iter()
            .enumerate()
            .filter(|(_, frame)| frame.pins == 0)
            .min_by_key(|(_, frame)| frame.used)
            .map(|(place, _)| place)
    }

    /// What a stream does that hasn't to wait. Where it loads, the frame's chunk has left.
    pub(crate) fn step(&mut self, stream: usize) -> Step {
        if !self
            .seats
            .get(stream)
            .is_some_and(|seat| seat.wish.is_some())
        {
            return Step::Work;
        }
        let Some(place) = self.victim() else {
            return Step::Stuck;
        };
        if let Some(frame) = self.frames.get_mut(place) {
            frame.chunk = None;
        }
        self.is_loading = true;
        self.reads = self.reads.wrapping_add(1);
        Step::Load(place)
    }

    // A chunk's waiting streams have it from here on. It answers which they are, a bit for each.
    fn serve(&mut self, chunk: u32) -> u32 {
        let mut served = 0;
        for (stream, seat) in self.seats.iter_mut().enumerate() {
            if seat.wish.is_some_and(|(wanted, _)| wanted == chunk) {
                seat.wish = None;
                served |= bit(stream);
            }
        }
        served
    }

    /// The chunk was loaded into the frame at the place, and is pinned for those that waited for it. It answers who has
    /// to wait no longer, a bit for each stream.
    pub(crate) fn loaded(&mut self, place: usize, chunk: u32) -> u32 {
        let (now, served) = (self.tick(), self.serve(chunk));
        if let Some(frame) = self.frames.get_mut(place) {
            *frame = Frame {
                chunk: Some(chunk),
                pins: served.count_ones(),
                used: now,
            };
        }
        self.is_loading = false;
        served | self.next().map_or(0, bit)
    }

    /// A stream has worked on the chunk, which it had pinned.
    pub(crate) fn release(&mut self, chunk: u32) {
        if let Some(frame) = self
            .frames
            .iter_mut()
            .find(|frame| frame.chunk == Some(chunk))
        {
            frame.pins = frame.pins.saturating_sub(1);
        }
    }
}

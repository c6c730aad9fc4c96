//! The frames with what is in them, and the frame of each piece.
ghost use Rattle.std.specs.Prelude.{◌≡◌, ◌+◌, ◌*◌, ◌/◌, ◌<◌, ◌≤◌, ◌∷◌, ◌&&◌, ℕ, IfOk, None};
ghost use Rattle.std.specs.Prelude.{Some, nat_lt, nat_le, length, is_some, set, if◌then◌else◌};
ghost use Rattle.chunk_interest.specs.Frames.{IsSized, NamesFrames, Covers, frame_at, place_at, is_named, settled};
ghost use Rattle.chunk_interest.specs.Frames.{has_of, missing_in, cached_in, free_in, is_free_frame, held_piece};
ghost use Rattle.chunk_interest.specs.declared.frame.Frame.TheVariants.{Free, Holds};

use crate::frame::Frame;
use crate::frames::Frames;
use std::alloc::{AllocError, Global};
use table_sets::{ChunkSet, ColumnSet, Memory};

/// The frames and the places of pieces.
#[derive(Drop)]
pub struct Buffer {
    /// What is in each frame.
    pub frames: Frames,
    /// The frame of each piece that is in one.
    pub places: Vec<Option<u32>>,
    /// By group, the frames that the load underway began to fill.
    pub begun: Vec<Option<u32>>,
    /// How many pieces a chunk has.
    pub groups: u32,
    /// Chunks, among them each that has a piece in a frame.
    pub occupied: ChunkSet,
    ghost covered: { Covers places.items groups occupied },
    ghost sized: { IsSized frames places.items begun.items groups },
}

// The frames that are named and have no piece are free.
fn settle(frames: &mut Frames, begun: &[Option<u32>])
    requires inside { NamesFrames frames.old begun.now }
    ensures length { length frames.new ≡ length frames.old }
    ensures each { (f : ℕ) → frame_at frames.new f
        ≡ (if is_named begun.now (length begun.now) f then settled (frame_at frames.old f) else frame_at frames.old f) }
{
    for g in 0..begun.len() {
        if let Some(f) = begun[g] {
            if frames.at(f) == Frame::Begun {
                frames.put(f, Frame::Free);
            }
        }
    }
}

// The n pieces from a piece on leave their frames.
fn leave(frames: &mut Frames, places: &mut [Option<u32>], from: usize, n: usize)
    requires inside { NamesFrames frames.old places.old }
    requires there { from + n ≤ length places.old }
    ensures length { length frames.new ≡ length frames.old }
    ensures length_places { length places.new ≡ length places.old }
    ensures places { (p : ℕ) → place_at places.new p
        ≡ (if nat_le from p && nat_lt p (from + n) then None else place_at places.old p) }
    ensures frames { (f : ℕ) → frame_at frames.new f
        ≡ (if has_of places.old from n f then Free else frame_at frames.old f) }
{
    for g in 0..n {
        if let Some(f) = places[from + g] {
            frames.put(f, Frame::Free);
            places[from + g] = None;
        }
    }
}

fn no_numbers(alloc: Global, n: usize) -> Result<Vec<Option<u32>>, AllocError>
    ensures length { IfOk result (λ v. length v.items ≡ n) }
    ensures none { IfOk result (λ v. (p : ℕ) → place_at v.items p ≡ None) }
{
    vec![in alloc; None; n]
}

impl Buffer {
    ghost use Rattle.scan_story.specs.declared.entry.Entry.TheVariants.{Evict, Fill, Filled, Failed};
    ghost use Rattle.scan_story.specs.declared.entry.Why.{Why};
    ghost use Rattle.scan_story.specs.Loads.{underway};
    ghost use Rattle.std.specs.Prelude.{is_none};
    ghost use Rattle.scan_story.specs.declared.setting.Setting.{Setting};
    ghost use Rattle.scan_story.specs.Setting.{IsSetting};
    ghost use Rattle.scan_story.specs.Views.{History};
    ghost use Rattle.scan_story.specs.MayFollow.{MayEvict, MayFill, MayFilled};
    ghost use Rattle.chunk_interest.specs.Follows.{AllMayFollow};
    ghost use Rattle.chunk_interest.specs.Buffers.{IsBuffer};

    /// Frames without pieces.
    pub fn new(alloc: Global, frames: u32, groups: u32) -> Result<Buffer, Memory>
        requires frames { frames ≤ 33554432 }
        requires groups { (1 ≤ groups) × (groups ≤ 16) }
        ensures groups { IfOk result (λ b. b.groups ≡ groups) }
        ensures length { IfOk result (λ b. length b.frames ≡ frames) }
        ensures free { IfOk result (λ b. (f : ℕ) → frame_at b.frames f ≡ Free) }
        ensures places { IfOk result (λ b. (p : ℕ) → place_at b.places.items p ≡ None) }
    {
        let frames = Frames::new(alloc, frames)?;
        let places = no_numbers(alloc, 16384)?;
        let begun = no_numbers(alloc, 16)?;
        Ok(Buffer {
            frames,
            places,
            begun,
            groups,
            occupied: ChunkSet::empty(),
        })
    }

    /// Follows a Fill of the frame with the piece.
    pub fn begin(&mut self, frame: u32, piece: u32)
        requires { frame < length self.old.frames }
        ensures { (s : Setting) (h : History) (w : ℕ) → IsSetting s → AllMayFollow s h → MayFill s h w frame piece
            → IsBuffer s h self.old → IsBuffer s (Fill w frame piece ∷ h) self.new }
    {
        self.frames.put(frame, Frame::Begun);
        self.begun[(piece % self.groups) as usize] = Some(frame);
    }

    // The frame has the piece.
    fn hold(&mut self, frame: u32, piece: u32)
        requires frame { frame < length self.old.frames }
        requires piece { piece < 16384 }
        requires chunk { piece / self.old.groups < 1024 }
        ensures frames { self.new.frames ≡ set self.old.frames frame (Holds piece) }
        ensures places { self.new.places.items ≡ set self.old.places.items piece (Some frame) }
        ensures begun { self.new.begun.items ≡ self.old.begun.items }
        ensures groups { self.new.groups ≡ self.old.groups }
    {
        self.frames.put(frame, Frame::Holds(piece));
        self.places[piece as usize] = Some(frame);
        self.occupied.insert(piece / self.groups);
    }

    // The frames that the load began and that have no piece are free.
    fn settle(&mut self)
        ensures length { length self.new.frames ≡ length self.old.frames }
        ensures frames { (f : ℕ) → frame_at self.new.frames f
            ≡ (if is_named self.old.begun.items (length self.old.begun.items) f then settled
            (frame_at self.old.frames f) else frame_at self.old.frames f) }
        ensures places { self.new.places.items ≡ self.old.places.items }
        ensures begun { self.new.begun.items ≡ self.old.begun.items }
        ensures groups { self.new.groups ≡ self.old.groups }
    {
        settle(&mut self.frames, &self.begun);
    }

    /// Follows a Filled of the frame with the piece, which is the load's last one or not.
    #[tactic(auto, using(crate::proofs::Buffering::small_piece))]
    pub fn finish(&mut self, frame: u32, piece: u32, last: bool)
        requires frame { frame < length self.old.frames }
        requires piece { piece / self.old.groups < 1024 }
        ensures groups { self.new.groups ≡ self.old.groups }
        ensures follows { (s : Setting) (h : History) (w : ℕ) → IsSetting s → AllMayFollow s h
            → MayFilled s h w frame piece → is_none (underway s (Filled w frame piece ∷ h)) ≡ last
            → IsBuffer s h self.old → IsBuffer s (Filled w frame piece ∷ h) self.new }
    {
        self.hold(frame, piece);
        if last {
            self.settle();
        }
    }

    /// Follows a Failed: the frames that the load began and that have no piece are free.
    pub fn give_up(&mut self)
        ensures { (s : Setting) (h : History) (w q p : ℕ) (why : Why) → IsBuffer s h self.old
            → IsBuffer s (Failed w q p why ∷ h) self.new }
    {
        self.settle();
    }

    /// Follows an Evict of the chunk.
    pub fn evict(&mut self, chunk: u32)
        requires { chunk < 1024 }
        ensures { (s : Setting) (h : History) (w : ℕ) → IsSetting s → AllMayFollow s h → MayEvict s h w chunk
            → chunk < s.chunks → IsBuffer s h self.old → IsBuffer s (Evict w chunk ∷ h) self.new }
    {
        let n = self.groups as usize;
        leave(&mut self.frames, &mut self.places, chunk as usize * n, n);
        self.occupied.remove(chunk);
    }

    /// Whether some frame has the piece.
    pub fn is_framed(&self, piece: u32) -> bool
        requires { piece < 16384 }
        ensures { result ≡ is_some (place_at self.now.places.items piece) }
    {
        self.places[piece as usize].is_some()
    }

    /// How many pieces of the chunk at these groups are in no frame.
    #[tactic(auto, using(crate::proofs::Below::count_below_more, crate::proofs::Buffering::at_small_chunk))]
    pub fn missing_for(&self, reads: &ColumnSet, chunk: u32) -> u32
        requires { chunk < 1024 }
        ensures number { result ≡ missing_in self.now.places.items self.now.groups reads.now chunk }
        ensures few { result ≤ 16 }
    {
        let mut count = 0;
        for g in 0..self.groups {
            if reads.has(g) && !self.is_framed(chunk * self.groups + g) {
                count += 1;
            }
        }
        count
    }

    /// How many pieces of the chunk are in frames.
    #[tactic(auto, using(crate::proofs::Below::count_below_more, crate::proofs::Buffering::at_small_chunk))]
    pub fn cached(&self, chunk: u32) -> u32
        requires { chunk < 1024 }
        ensures number { result ≡ cached_in self.now.places.items self.now.groups chunk }
        ensures few { result ≤ self.now.groups }
    {
        let mut count = 0;
        for g in 0..self.groups {
            if self.is_framed(chunk * self.groups + g) {
                count += 1;
            }
        }
        count
    }

    /// How many frames are free.
    pub fn free(&self) -> u32
        ensures { result ≡ free_in self.now.frames }
    {
        self.frames.free()
    }

    /// The piece in the frame, if there is one.
    pub fn piece_in(&self, f: u32) -> Option<u32>
        ensures { result ≡ held_piece (frame_at self.now.frames f) }
    {
        match self.frames.at(f) {
            Frame::Holds(piece) => Some(piece),
            _ => None,
        }
    }
}

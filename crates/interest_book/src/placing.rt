//! Where pieces stand, and which pieces a query reads.
ghost use Rattle.std.specs.Prelude.{◌≡◌, ◌<◌, ◌≤◌, ℕ, All, length};
ghost use Rattle.scan_story.specs.declared.setting.Setting.{Setting};
ghost use Rattle.scan_story.specs.Setting.{pieces_read};
ghost use Rattle.scan_story.specs.Views.{History};
ghost use Rattle.scan_story.specs.Loads.{is_free, missing_pieces};
ghost use Rattle.interest_book.specs.Firsts.{FindsFirst};
ghost use Rattle.chunk_interest.specs.Frames.{frame_at, place_at, is_free_frame, IsPlace};
ghost use Rattle.interest_book.specs.Placed.{read_below, unplaced};
ghost use Rattle.interest_book.specs.Stands.{Stands};

use crate::book::Book;
use crate::pieces::Pieces;
use chunk_interest::{Buffer, Frame, Frames};
use table_sets::ColumnSet;

// The free frame of least number.
fn least_free(frames: &Frames) -> Option<u32>
    ensures { FindsFirst (λ f. is_free_frame (frame_at frames.now f)) (length frames.now) result }
{
    for f in 0..frames.len() {
        if frames.at(f) == Frame::Free {
            return Some(f);
        }
    }
    None
}

// The pieces of the chunk at the groups that are read, of so many groups.
fn read_pieces(reads: &ColumnSet, chunk: u32, groups: u32) -> Pieces
    requires chunk { chunk < 1024 }
    requires groups { groups ≤ 16 }
    ensures pieces { result ≡ read_below reads.now chunk groups groups }
    ensures small { All (λ p. p < 16384) result }
{
    let mut pieces = Pieces::new();
    for g in 0..groups {
        if reads.has(g) {
            pieces.push(chunk * groups + g);
        }
    }
    pieces
}

// Those of the pieces that stand in no frame.
fn unplaced(buffer: &Buffer, pieces: &Pieces) -> Pieces
    requires { All (λ p. p < 16384) pieces.now }
    ensures { result ≡ unplaced buffer.now.places.items pieces.now }
{
    let mut left = Pieces::new();
    for i in 0..pieces.len() {
        let piece = pieces.at(i);
        if !buffer.is_framed(piece) {
            left.push(piece);
        }
    }
    left
}

impl Book {
    /// The free frame of least number.
    pub fn least_free(&self) -> Option<u32>
        ensures { (s : Setting) (h : History) → Stands self.now s h → FindsFirst (is_free s h) s.frames result }
    {
        least_free(&self.buffer.frames)
    }

    /// The frame in which the piece stands.
    pub fn frame_of(&self, piece: u32) -> Option<u32>
        requires { piece < 16384 }
        ensures { (s : Setting) (h : History) → Stands self.now s h → IsPlace s h piece result }
    {
        self.buffer.places[piece as usize]
    }

    /// The pieces of the chunk that the query reads, by rising piece.
    pub fn pieces_read(&self, q: u32, c: u32) -> Pieces
        requires query { q ≤ 256 }
        requires chunk { c < 1024 }
        ensures pieces { (s : Setting) (h : History) → Stands self.now s h → result ≡ pieces_read s q c }
        ensures small { All (λ p. p < 16384) result }
    {
        read_pieces(&self.client(q).reads, c, self.buffer.groups)
    }

    /// Those of these pieces that stand in no frame.
    pub fn missing_pieces(&self, q: u32, c: u32) -> Pieces
        requires query { q ≤ 256 }
        requires chunk { c < 1024 }
        ensures { (s : Setting) (h : History) → Stands self.now s h → result ≡ missing_pieces s h q c }
    {
        unplaced(&self.buffer, &self.pieces_read(q, c))
    }
}

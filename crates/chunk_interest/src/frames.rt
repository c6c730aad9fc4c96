//! The frames, each with what is in it.
ghost use Rattle.std.specs.Prelude.{◌≡◌, ◌<◌, ◌≤◌, ℕ, IfOk, length, set};
ghost use Rattle.chunk_interest.specs.declared.frame.Frame.TheVariants.{Free};
ghost use Rattle.chunk_interest.specs.Frames.{frame_at, free_in, is_free_frame};

use crate::frame::Frame;
use crate::shifting::exchanged;
use std::alloc::{AllocError, Global};
use std::marker::Model;

/// At most 33554432 frames, with the number of those that are free.
#[derive(Drop)]
pub struct Frames {
    list: Vec<Frame>,
    free: u32,
}

impl Model for Frames {
    ghost use Rattle.std.specs.Prelude.{List};
    ghost use Rattle.chunk_interest.specs.declared.frame.Frame.{Frame};
    ghost use Rattle.chunk_interest.specs.Freed.{CountsFree};

    ghost Value = { List Frame };

    ghost view = { λ f. f.list.items };

    ghost invariant = { λ f. CountsFree f.list.items f.free };
}

fn is_free(frame: Frame) -> bool
    ensures { result ≡ is_free_frame frame }
{
    matches!(frame, Frame::Free)
}

fn free_frames(alloc: Global, n: usize) -> Result<Vec<Frame>, AllocError>
    ensures length { IfOk result (λ v. length v.items ≡ n) }
    ensures free { IfOk result (λ v. (f : ℕ) → frame_at v.items f ≡ Free) }
{
    vec![in alloc; Frame::Free; n]
}

impl Frames {
    /// Free frames.
    pub fn new(alloc: Global, n: u32) -> Result<Frames, AllocError>
        requires { n ≤ 33554432 }
        ensures length { IfOk result (λ v. length v ≡ n) }
        ensures free { IfOk result (λ v. (f : ℕ) → frame_at v f ≡ Free) }
    {
        let list = free_frames(alloc, n as usize)?;
        Ok(Frames { list, free: n })
    }

    /// How many frames there are.
    pub fn len(&self) -> u32
        ensures { result ≡ length self.now }
    {
        self.list.len() as u32
    }

    /// What is in a frame; nothing where there is no such frame.
    pub fn at(&self, f: u32) -> Frame
        ensures { result ≡ frame_at self.now f }
    {
        match self.list.get(f as usize) {
            Some(frame) => *frame,
            None => Frame::Free,
        }
    }

    /// Changes what is in a frame.
    pub fn put(&mut self, f: u32, frame: Frame)
        requires { f < length self.old }
        ensures { self.new ≡ set self.old f frame }
    {
        let old = self.list[f as usize];
        self.free = exchanged(self.free, is_free(old), is_free(frame));
        self.list[f as usize] = frame;
    }

    /// How many frames are free.
    pub fn free(&self) -> u32
        ensures { result ≡ free_in self.now }
    {
        self.free
    }
}

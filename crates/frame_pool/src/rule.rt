//! The rule of a pool's table.
use crate::content::Content;
use crate::geometry::Geometry;
use crate::view::Duty;
use atomic_table::{Seat, Table, TableRule};
use std::alloc::Global;
use std::marker::PhantomData;

/// What holds of every frame at every moment: `Framed`.
pub struct Frames<C> {
    content: PhantomData<C>,
}

impl<C: Content> TableRule<(), Duty, Geometry> for Frames<C> {
    ghost use Rattle.frame_pool.specs.Frames.{Framed};
    ghost use Rattle.frame_pool.specs.Views.{blank};

    ghost holds = { λ shape. Framed C.pieces shape };

    ghost first = { λ shape. blank shape };
}

pub type Board<C> = Table<(), Duty, Geometry, Frames<C>, Global>;

pub type Place = Seat<(), Duty>;

ghost use Rattle.std.specs.Prelude.{Some};
ghost use Rattle.inspect_picture.specs.Svg.{rect_text};

use std::fmt;

// A box in a picture: its left upper corner and its size.
#[derive(Clone, Copy, Debug, PartialEq, Eq)]
pub(crate) struct Rect {
    pub(crate) x: u64,
    pub(crate) y: u64,
    pub(crate) width: u64,
    pub(crate) height: u64,
}

impl fmt::Display for Rect {
    ghost output = { λ r. Some (rect_text r) };

    fn fmt<W: fmt::Write>(&self, f: &mut fmt::Formatter<W>) -> fmt::Result {
        let Rect {
            x,
            y,
            width,
            height,
        } = *self;
        write!(f, "x='{x}' y='{y}' ")?;
        write!(f, "width='{width}' height='{height}'")
    }
}

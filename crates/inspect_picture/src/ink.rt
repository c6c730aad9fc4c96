ghost use Rattle.std.specs.Prelude.{Some};
ghost use Rattle.inspect_picture.specs.Svg.{ink_text};

use std::fmt;

// The colour of a mark.
#[derive(Clone, Copy, Debug, PartialEq, Eq)]
pub(crate) enum Ink {
    // Of a chunk, by degrees from orange on.
    Hue(u64),
    // Of marks of several colours that are drawn as one.
    Many,
    // Of the life of a query.
    Pale,
    // Of a piece that is read.
    Thin,
    // Of a failure, and of nothing else.
    Red,
}

impl fmt::Display for Ink {
    ghost output = { λ i. Some (ink_text i) };

    fn fmt<W: fmt::Write>(&self, f: &mut fmt::Formatter<W>) -> fmt::Result {
        match *self {
            Ink::Hue(hue) => write!(f, "hsl({hue},60%,50%)"),
            Ink::Many => write!(f, "#7d8799"),
            Ink::Pale => write!(f, "#e2e5ea"),
            Ink::Thin => write!(f, "#4a5468"),
            Ink::Red => write!(f, "#e00000"),
        }
    }
}

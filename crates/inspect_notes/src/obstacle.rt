// What stands in the way of leaving chunks out.

/// Which choice a condition leaves.
#[derive(Clone, Copy, Debug, PartialEq, Eq)]
pub enum Choice {
    /// An OR: one side is to be true.
    Either,
    /// An AND below NOT: one side is to be false.
    NotBoth,
}

/// What stands in the way where a query needs each chunk. Columns are numbered from 0, and told by their names.
///
/// A condition demands some of its parts: both sides of an AND, but of an OR only one or the other. Below a NOT an AND
/// is like an OR, and an OR like an AND. Each of the parts that it demands stands in the way, since the zones of no
/// chunk rule it out.
#[derive(Clone, Copy, Debug, PartialEq, Eq)]
pub enum Obstacle {
    /// The query has no WHERE.
    NoWhere,
    /// A column is compared with a number, and its least and greatest number in each chunk allow that.
    Numbers { column: u32 },
    /// A column is compared with a text, and its least and greatest text in each chunk allow that.
    Texts { column: u32 },
    /// A column is tested for NULL, or for a value, and has what is tested for in each chunk.
    Nulls { column: u32 },
    /// One side of a choice is by itself allowed in each chunk, whatever the other side rules out. The column is the
    /// first that this side names.
    Side { column: u32, choice: Choice },
    /// Each side of a choice rules some chunks out, but none is ruled out by both.
    Sides { choice: Choice },
}

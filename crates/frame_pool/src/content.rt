//! What the frames of a pool are filled with.
ghost use Rattle.std.specs.Prelude.{ℕ, List, Option};

use std::marker::Brand;

/// The words of each piece, or none where they are not told.
///
/// It has no calls: contracts alone see it, and a pool keeps no copy. A pool is made and closed inside a function that
/// is generic in its content. The caller of that function names a marker type, such as `std::marker::Brand`, and the
/// proof of that call picks the content.
pub trait Content {
    ghost pieces: { Option (List (List ℕ)) };
}

impl Content for Brand {
    ghost use Rattle.std.specs.Prelude.{None};

    ghost pieces = { None };
}

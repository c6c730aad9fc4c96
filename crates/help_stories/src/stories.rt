//! The texts of the printed stories, and of those of the worked examples.

/// One query over three chunks, alone.
pub const ONE_COUNT: &str = "register 0 1
plan 0 1 0
fill 0 0 0
filled 0 0 0
deliver 0 1 0
release 0 1 0
plan 0 1 1
fill 0 1 1
filled 0 1 1
deliver 0 1 1
release 0 1 1
plan 0 1 2
fill 0 2 2
filled 0 2 2
deliver 0 1 2
release 0 1 2
end 0 1
";

/// Two queries over three chunks; the second read of the first one fails.
pub const FAULT: &str = "register 0 1
plan 0 1 0
fill 0 0 0
filled 0 0 0
deliver 0 1 0
release 0 1 0
plan 0 1 1
fill 0 1 1
failed 0 1 1 fault 0 1
register 0 2
deliver 0 2 0
release 0 2 0
plan 0 2 1
fill 0 1 1
filled 0 1 1
deliver 0 2 1
release 0 2 1
plan 0 2 2
fill 0 2 2
filled 0 2 2
deliver 0 2 2
release 0 2 2
end 0 2
";

/// Two queries over six chunks, one after the other, with four frames: the first one, which is the same under each
/// policy.
pub const FIRST_OF_SIX: &str = "register 0 1
plan 0 1 0
fill 0 0 0
filled 0 0 0
deliver 0 1 0
release 0 1 0
plan 0 1 1
fill 0 1 1
filled 0 1 1
deliver 0 1 1
release 0 1 1
plan 0 1 2
fill 0 2 2
filled 0 2 2
deliver 0 1 2
release 0 1 2
plan 0 1 3
fill 0 3 3
filled 0 3 3
deliver 0 1 3
release 0 1 3
plan 0 1 4
evict 0 0
fill 0 0 4
filled 0 0 4
deliver 0 1 4
release 0 1 4
plan 0 1 5
evict 0 1
fill 0 1 5
filled 0 1 5
deliver 0 1 5
release 0 1 5
end 0 1
";

/// The second one takes what the first one left, chunk 2 first.
pub const FROM_2: &str = "register 0 2
deliver 0 2 2
release 0 2 2
deliver 0 2 3
release 0 2 3
deliver 0 2 4
release 0 2 4
deliver 0 2 5
release 0 2 5
";

/// The same, but chunk 5 first.
pub const FROM_5: &str = "register 0 2
deliver 0 2 5
release 0 2 5
deliver 0 2 2
release 0 2 2
deliver 0 2 3
release 0 2 3
deliver 0 2 4
release 0 2 4
";

/// It loads chunk 0 in place of chunk 2, and plans for chunk 1.
pub const IN_PLACE_OF_2: &str = "plan 0 2 0
evict 0 2
fill 0 2 0
filled 0 2 0
deliver 0 2 0
release 0 2 0
plan 0 2 1
";

/// It loads chunk 1 in place of chunk 0, and ends.
pub const IN_PLACE_OF_0: &str = "evict 0 0
fill 0 2 1
filled 0 2 1
deliver 0 2 1
release 0 2 1
end 0 2
";

/// It loads chunk 1 in place of chunk 3, and ends.
pub const IN_PLACE_OF_3: &str = "evict 0 3
fill 0 3 1
filled 0 3 1
deliver 0 2 1
release 0 2 1
end 0 2
";

/// Query 1 needs chunks 0, 1, 2 and query 2 chunk 2 alone: the load is for query 2.
pub const SHORTER: &str = "register 0 1
register 1 2
plan 0 2 2
fill 0 0 2
filled 0 0 2
deliver 0 1 2
";

/// Two columns a chunk: query 1 reads the first, query 2 both.
pub const COLUMNS: &str = "register 0 1
register 1 2
plan 0 1 1
fill 0 0 2
filled 0 0 2
deliver 0 1 1
plan 1 2 1
fill 1 1 3
filled 1 1 3
";

/// A load for query 1 by worker 1 fails while worker 0 holds a chunk for query 1.
pub const TRIGGER_STOPS: &str = "register 0 1
register 1 2
plan 0 1 0
fill 0 0 0
filled 0 0 0
deliver 0 1 0
deliver 1 2 0
release 1 2 0
plan 1 1 1
fill 1 1 1
failed 1 1 1 fault 0 1
release 0 1 0
plan 1 2 1
fill 1 1 1
";

/// Query 1 has chunks 0 and 2, of which query 2 needs chunk 2 alone.
pub const TWO_LOADED: &str = "register 0 1
plan 0 1 0
fill 0 0 0
filled 0 0 0
register 1 2
plan 0 1 2
fill 0 1 2
filled 0 1 2
";

/// Seven frames are full, and worker 0 has to make room for chunk 8.
pub const FULL: &str = "register 0 1
register 1 2
plan 0 1 0
fill 0 0 0
filled 0 0 0
plan 0 1 1
fill 0 1 1
filled 0 1 1
plan 1 2 2
fill 1 2 2
filled 1 2 2
deliver 1 2 2
release 1 2 2
plan 1 2 3
fill 1 3 3
filled 1 3 3
plan 1 2 4
fill 1 4 4
filled 1 4 4
deliver 1 2 3
release 1 2 3
plan 1 2 5
fill 1 5 5
filled 1 5 5
deliver 1 2 4
release 1 2 4
plan 1 2 6
fill 1 6 6
filled 1 6 6
deliver 1 2 5
plan 0 2 8
";

//! Tables of the worked examples.

/// Five rows of a number, a text and a number.
pub const TABLE_A: &str = "id,dept,pay\n1,a,10\n2,b,20\n3,a,\n4,c,40\n5,b,-5\n";

/// Six rows of a number.
pub const SIX_ROWS: &str = "v\n1\n2\n3\n4\n5\n6\n";

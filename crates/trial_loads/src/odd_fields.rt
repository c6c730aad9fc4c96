// Fields by hand, most of them odd, in lists for columns of each kind.

// Fields from which one is drawn.
pub(crate) type Pool = &'static [&'static [u8]];

const WHOLE: Pool = &[
    b"0",
    b"7",
    b"-5",
    b"10",
    b"",
    b"9",
    b"123456789",
    b"9223372036854775807",
    b"-9223372036854775808",
];

// In a column with a point `-0` is a number, and one of 9 places leaves less than 10 digits before the point.
const DECIMAL: Pool = &[
    b"0.1", b"0.10", b"-0.00", b"-0", b"3", b"-0.25", b"1.50", b"", b"10.5", b"0", b"-7.125",
];

const FINE: Pool = &[
    b"0.123456789",
    b"-0.5",
    b"1",
    b"",
    b"9.223372036",
    b"9223372036.854775807",
    b"-9223372036.854775808",
    b"-0.000000001",
];

// What ends a column of numbers, or makes it one of texts by its digits and not by its letters.
const WIDE: Pool = &[
    b"9223372036.854775808",
    b"9223372037",
    b"92233720368547758.07",
    b"-92233720368547758.08",
    b"9223372036854775808",
    b"-9223372036854775809",
    b"99999999999999999999999999999999999999999",
    b"0.1234567890",
    b"-0",
    b"007",
    b"1.",
    b".5",
    b"+1",
    b"1e3",
    b"-",
    b"1.2.3",
    b" 1",
    b"1 ",
    b"00",
    b"--1",
];

const NAMES: Pool = &[
    b"a", b"b", b"ab", b"a", b"", b"B", b"a b", b"red", b"c", b"aa", b"a\0", b"a\0\0",
];

const ODD: Pool = &[
    b"\"",
    b"\"\"",
    b"say \"x\", y",
    b",",
    b"\r",
    b"\n",
    b"\r\n",
    b"a\rb",
    b" ",
    b"\0",
    b"\xff\xfe",
    b"\xef\xbb\xbf",
    b"\xc3\xa4",
    b"'",
    b"x\"",
    b"\\\"",
    b"NULL",
];

// The same 64 bytes, and what follows them.
const LONG: Pool = &[
    b"the same sixty-four bytes stand at the front of each of these -a",
    b"the same sixty-four bytes stand at the front of each of these -ab",
    b"the same sixty-four bytes stand at the front of each of these -aa",
    b"the same sixty-four bytes stand at the front of each of these -a\0",
    b"the same sixty-four bytes stand at the front of each of these -a\xff",
    b"the same sixty-four bytes stand at the front of each of these -a,\"",
    b"the same sixty-four bytes stand at the front of each of these ",
];

// Columns by the fields of the rows before the last two, of the last but one and of the last.
const COLUMNS: [[Pool; 3]; 16] = [
    [WHOLE, WHOLE, WHOLE],
    [WHOLE, WHOLE, DECIMAL],
    [WHOLE, DECIMAL, NAMES],
    [WHOLE, DECIMAL, WIDE],
    [WHOLE, WHOLE, NAMES],
    [DECIMAL, DECIMAL, DECIMAL],
    [DECIMAL, DECIMAL, FINE],
    [DECIMAL, FINE, WIDE],
    [DECIMAL, DECIMAL, ODD],
    [FINE, FINE, FINE],
    [FINE, WHOLE, DECIMAL],
    [WIDE, WIDE, WIDE],
    [NAMES, NAMES, NAMES],
    [NAMES, ODD, WHOLE],
    [LONG, LONG, LONG],
    [ODD, LONG, NAMES],
];

// The pool of a column of a sort, for the row behind which so many stand.
pub(crate) fn pool_of(sort: u32, behind: u32) -> Pool {
    let pools = COLUMNS[sort as usize % 16];
    match behind {
        0 => pools[2],
        1 => pools[1],
        _ => pools[0],
    }
}

// Names of columns that differ.
const HEADER: [&[u8]; 17] = [
    b"id", b"day", b"pay", b"tag", b"e", b"f", b"g", b"h", b"i", b"j", b"k", b"l", b"m", b"n",
    b"o", b"p", b"q",
];

// The name of a column: of 32 draws 25 give one of its own, and 7 others.
pub(crate) fn name_of(column: u32, draw: u32) -> &'static [u8] {
    match draw % 32 {
        0 => b"",
        1 => b"id",
        2 => b"day",
        3 =>
            b"a name of 128 bytes, which is the longest that a column may have, and so this one goes on until it has \
all of them and no more..",
        4 =>
            b"a name of 129 bytes, which is one more than the longest that a column may have, and so this one goes on \
until it has all of them.",
        5 => b"say \"x\",\r\ny",
        6 => b"\xff id",
        _ => HEADER[column as usize % 17],
    }
}

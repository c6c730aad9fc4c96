// Why a run stops before it answers.
ghost use Rattle.std.specs.Prelude.{◌≡◌, ◌≤◌, ◌+◌, ◌++◌, decimal, length};
ghost use Rattle.run_stops.specs.Stops.{line_of, status_of};
ghost use Rattle.run_stops.specs.declared.stop.Stop.TheVariants as stop;

use crate::stop_line::StopLine;
use std::alloc::AllocError;
use table_core::Memory;

/// Why a run stops before it answers. Each way has a status and a line.
#[derive(Clone, Copy, Debug, PartialEq, Eq)]
pub enum Stop {
    /// The words of the command line are not accepted, or a number is outside its limit.
    Usage,
    /// The table's text has more than 268435456 bytes.
    TableTooLong,
    /// The table has no record.
    NoHeader,
    /// The header has so many fields, which are more than 16.
    Columns { columns: u32 },
    /// The name of this column, counted from 0, has more than 128 bytes. It is the first such column.
    LongName { column: u32 },
    /// These two columns, counted from 0, have one name.
    TwiceNamed { first: u32, second: u32 },
    /// This data row, counted from 1, has so many fields, another number than the header. It is the first such row.
    Ragged { row: u32, fields: u32 },
    /// The table has more than 2097152 data rows.
    TooManyRows,
    /// The table has so many chunks, which are more than 1024.
    Chunks { chunks: u32 },
    /// The shelf failed while the table was read.
    TableFault,
    /// The shelf failed while the batch was read.
    BatchFault,
    /// The depot failed while this piece, counted from 0, was stored.
    NotStored { piece: u32 },
    /// The run needs so many frames, and was given fewer.
    FramesNeeded { frames: u64 },
    /// The frames would have so many words together, which are more than 33554432.
    FrameWords { words: u64 },
    /// The batch has more than 1048576 bytes.
    BatchTooLong,
    /// The batch has so many statements, which are more than 256.
    Statements { statements: u32 },
    /// The statements and parts make so many scans, which are more than 256.
    Scans { scans: u32 },
    /// Out of memory.
    Memory,
}

impl From<Memory> for Stop {
    ghost from_gives = { λ _ e. e ≡ stop.Memory };

    fn from(_: Memory) -> Self {
        Stop::Memory
    }
}

impl From<AllocError> for Stop {
    ghost from_gives = { λ _ e. e ≡ stop.Memory };

    fn from(_: AllocError) -> Self {
        Stop::Memory
    }
}

// A line with one number.
fn numbered(before: &[u8], number: u32, after: &[u8]) -> StopLine
    requires { length before.now + 20 + length after.now ≤ 80 }
    ensures text { result ≡ before.now ++ (decimal number ++ after.now) }
    ensures short { length result ≤ length before.now + 20 + length after.now }
{
    StopLine::new(before).number(number as u64, after)
}

impl Stop {
    /// The status that the program ends with: 2 to 5 or 7 to 9.
    pub fn status(self) -> u8
        ensures status { result ≡ status_of self }
    {
        match self {
            Stop::Usage => 2,
            Stop::TableTooLong
            | Stop::NoHeader
            | Stop::Columns { .. }
            | Stop::LongName { .. }
            | Stop::TwiceNamed { .. }
            | Stop::Ragged { .. }
            | Stop::TooManyRows
            | Stop::Chunks { .. } => 3,
            Stop::TableFault | Stop::BatchFault => 4,
            Stop::NotStored { .. } => 5,
            Stop::Memory => 7,
            Stop::FramesNeeded { .. } | Stop::FrameWords { .. } => 8,
            Stop::BatchTooLong | Stop::Statements { .. } | Stop::Scans { .. } => 9,
        }
    }

    /// The line that says so, with its line end; the empty line when out of memory. It takes no memory.
    pub fn line(self) -> StopLine
        ensures line { result ≡ line_of self }
    {
        match self {
            Stop::Usage => StopLine::new(b"stopped 2: usage\n"),
            Stop::TableTooLong => StopLine::new(b"stopped 3: table text too long\n"),
            Stop::NoHeader => StopLine::new(b"stopped 3: no header\n"),
            Stop::Columns { columns } => numbered(b"stopped 3: ", columns, b" columns\n"),
            Stop::LongName { column } => {
                numbered(b"stopped 3: name of column ", column, b" too long\n")
            }
            Stop::TwiceNamed { first, second } => {
                numbered(b"stopped 3: columns ", first, b" and ").number(
                    second as u64,
                    b" have one name\n",
                )
            }
            Stop::Ragged { row, fields } => {
                numbered(b"stopped 3: row ", row, b" has ").number(fields as u64, b" fields\n")
            }
            Stop::TooManyRows => StopLine::new(b"stopped 3: too many rows\n"),
            Stop::Chunks { chunks } => numbered(b"stopped 3: ", chunks, b" chunks\n"),
            Stop::TableFault => StopLine::new(b"stopped 4: table read fault\n"),
            Stop::BatchFault => StopLine::new(b"stopped 4: batch read fault\n"),
            Stop::NotStored { piece } => numbered(b"stopped 5: piece ", piece, b" not stored\n"),
            Stop::FramesNeeded { frames } => {
                StopLine::new(b"stopped 8: ").number(frames, b" frames needed\n")
            }
            Stop::FrameWords { words } => {
                StopLine::new(b"stopped 8: ").number(words, b" words in frames\n")
            }
            Stop::BatchTooLong => StopLine::new(b"stopped 9: batch text too long\n"),
            Stop::Statements { statements } => {
                numbered(b"stopped 9: ", statements, b" statements\n")
            }
            Stop::Scans { scans } => numbered(b"stopped 9: ", scans, b" scans\n"),
            Stop::Memory => StopLine::new(b""),
        }
    }
}

// A line in an array, so that what is shown in it takes no memory and can't fail.

use itoa::Buffer;

// The most bytes of a line, which are more than any test asks for.
const ROOM: usize = 200;

// Bytes that are put past the room are counted alone, and the line is then unlike any other.
#[derive(Drop)]
pub(crate) struct Line {
    bytes: [u8; ROOM],
    len: usize,
}

impl Line {
    pub(crate) fn new() -> Line {
        Line {
            bytes: [0; ROOM],
            len: 0,
        }
    }

    // The line of these bytes.
    pub(crate) fn of(bytes: &[u8]) -> Line {
        let mut line = Line::new();
        line.put(bytes);
        line
    }

    pub(crate) fn put(&mut self, bytes: &[u8]) {
        for byte in bytes {
            if self.len < ROOM {
                self.bytes[self.len] = *byte;
            }
            self.len = self.len.saturating_add(1);
        }
    }

    pub(crate) fn put_number(&mut self, number: i64) {
        self.put(Buffer::new().format(number).as_bytes());
    }

    pub(crate) fn as_slice(&self) -> &[u8] {
        &self.bytes[..self.len.min(ROOM)]
    }

    // Whether the line is just these bytes.
    pub(crate) fn is(&self, bytes: &[u8]) -> bool {
        self.len <= ROOM && self.as_slice() == bytes
    }
}

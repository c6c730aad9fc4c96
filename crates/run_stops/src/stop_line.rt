// The line of a run that stopped.
ghost use Rattle.std.specs.Prelude.{◌≡◌, ◌≤◌, ◌+◌, ◌++◌, ℕ, List, decimal, length, take};

use itoa::Buffer;
use std::marker::Model;

/// The line of a run that stopped, with its line end. It lies in a fixed buffer and takes no memory.
#[derive(Drop)]
pub struct StopLine {
    bytes: [u8; 80],
    len: usize,
}

impl Model for StopLine {
    ghost Value = { List ℕ };

    ghost view = { λ s. take s.len s.bytes };

    ghost invariant = { λ s. s.len ≤ 80 };
}

impl StopLine {
    // A line that begins with this text.
    pub(crate) fn new(text: &[u8]) -> Self
        requires { length text.now ≤ 80 }
        ensures { result ≡ text.now }
    {
        let mut line = StopLine {
            bytes: [0; 80],
            len: 0,
        };
        line.push(text);
        line
    }

    // The line with a number behind it, and a text behind the number.
    pub(crate) fn number(mut self, number: u64, after: &[u8]) -> Self
        requires { length self + 20 + length after.now ≤ 80 }
        ensures text { result ≡ self ++ (decimal number ++ after.now) }
        ensures short { length result ≤ length self + 20 + length after.now }
    {
        let mut buffer = Buffer::new();
        self.push(buffer.format(number).as_bytes());
        self.push(after);
        self
    }

    // Puts a text behind the line.
    fn push(&mut self, text: &[u8])
        requires { length self.old + length text.now ≤ 80 }
        ensures { self.new ≡ self.old ++ text.now }
    {
        let end = self.len + text.len();
        self.bytes[self.len..end].copy_from_slice(text);
        self.len = end;
    }

    /// The bytes of the line; none when out of memory.
    pub fn as_slice(&self) -> &[u8]
        ensures bytes { result.now ≡ self.now }
    {
        &self.bytes[..self.len]
    }
}

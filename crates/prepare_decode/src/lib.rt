//! How the characters of a text are written, guessed by its bytes, and the same text in UTF-8.
#![tactic(auto)]

mod decoding;
mod encoding;
mod single;
mod wide;

pub use decoding::{BadBytes, decode};
pub use encoding::{Encoding, encoding_of};

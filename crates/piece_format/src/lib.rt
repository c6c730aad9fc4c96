//! Pieces: the chunks of a table as words of 64 bits and as bytes, row by row or column by column. docs/PIECES.md has
//! the formats.
//!
//!     let piece = piece_of(&shape, chunk, group);
//!     let words = encode(alloc, &shape, &table, piece)?;
//!     let bytes = words_to_bytes(alloc, &words)?;       // what a depot holds
//!     check(&shape, piece, bytes.as_slice())?;          // or the first word that is damaged
//!     let piece = Piece::of(&shape, piece);
//!     let null = word_at(bytes.as_slice(), piece.null_place(row)) >> piece.null_bit(row, column) & 1 == 1;
//!     let cell = cell_of(kind, dict_len, null, word_at(bytes.as_slice(), piece.value_place(row, column)));
#![tactic(auto)]

mod cells;
mod checking;
mod encoding;
mod fours;
mod layout;
mod pieces;
mod row_words;
mod shape;
mod sound;
mod word_bytes;

pub use cells::cell_of;
pub use checking::{Damage, check};
pub use encoding::{encode, encode_into};
pub use layout::Layout;
pub use pieces::Piece;
pub use shape::{Shape, frame_words, groups, groups_in, piece_of, piece_words, word_count};
pub use word_bytes::{bytes_give_words, word_at, words_into_bytes, words_to_bytes};

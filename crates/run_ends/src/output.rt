// What a run writes where nothing stops it.

use table_core::Bytes;

/// What a run writes where nothing stops it, made whole before its first byte is written.
#[derive(Drop)]
pub struct Output {
    /// The status if all is written: 0 where every statement is answered, else 1.
    pub status: u8,
    /// The text.
    pub text: Bytes,
}

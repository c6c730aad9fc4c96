// Words as bytes.
ghost use Rattle.std.specs.Prelude.{◌≡◌, ◌<◌, ◌≤◌, ◌+◌, ◌*◌, ℕ, IfOk, OnOk, length, slice_index};
ghost use Rattle.piece_format.specs.Bytes as spec;

use byteorder::{ByteOrder, LittleEndian};
use std::alloc::Global;
use table_core::{Bytes, Memory};

/// Words read back from their bytes: a law, for proofs. It does nothing.
pub fn bytes_give_words(words: &[u64])
    ensures { (i : ℕ) → i < length words.now → spec.word_of (spec.bytes_of words.now) i ≡ slice_index words.now i }
{}

// Makes bytes so many, whichever they are. The error means out of memory.
fn make_long(bytes: &mut Vec<u8>, len: usize) -> Result<(), Memory>
    ensures { OnOk result (length bytes.new.items ≡ len) }
{
    bytes.resize(len, 0)?;
    Ok(())
}

/// The bytes of words, in place of the bytes that stood in the vector, whose room is used again: in order, each word as
/// 8 bytes with the lowest first. After an `Err`, which is out of memory, any bytes stand there.
pub fn words_into_bytes(words: &[u64], bytes: &mut Vec<u8>) -> Result<(), Memory>
    ensures bytes { OnOk result (bytes.new.items ≡ spec.bytes_of words.now) }
    ensures len { OnOk result (length bytes.new.items ≡ 8 * length words.now) }
    ensures back { OnOk result ((i : ℕ) → i < length words.now → spec.word_of bytes.new.items i
        ≡ slice_index words.now i) }
{
    bytes_give_words(words);
    make_long(bytes, 8 * words.len())?;
    LittleEndian::write_u64_into(words, bytes.as_mut_slice());
    Ok(())
}

/// The bytes of words: in order, each as 8 bytes with the lowest first.
pub fn words_to_bytes(alloc: Global, words: &[u64]) -> Result<Bytes, Memory>
    ensures bytes { IfOk result (λ b. b ≡ spec.bytes_of words.now) }
    ensures len { IfOk result (λ b. length b ≡ 8 * length words.now) }
    ensures back { IfOk result (λ b. (i : ℕ) → i < length words.now → spec.word_of b i ≡ slice_index words.now i) }
{
    let mut bytes = Vec::new(alloc);
    words_into_bytes(words, &mut bytes)?;
    Ok(Bytes::new(bytes))
}

/// The word at a place, from its 8 bytes.
pub fn word_at(bytes: &[u8], i: u32) -> u64
    requires { 8 * i + 8 ≤ length bytes.now }
    ensures { result ≡ spec.word_of bytes.now i }
{
    LittleEndian::read_u64(&bytes[8 * i as usize..])
}

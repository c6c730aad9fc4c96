// The front of a text as numbers, by which texts are compared before their bytes are.
ghost use Rattle.std.specs.Prelude.{◌≡◌, ◌≤◌, ◌<◌, ◌+◌, ℕ, slice_index_or};
ghost use Rattle.csv_load.specs.Fronts.{IsFront, front_number};

// How many bytes a number of a front has.
const NUMBER_BYTES: usize = 16;

// The byte at a place, or zero behind the text's end.
fn byte_at(text: &[u8], place: usize) -> u8
    ensures { result ≡ slice_index_or text.now place 0 }
{
    match text.get(place) {
        Some(byte) => *byte,
        None => 0,
    }
}

// The number that 16 bytes spell, from a place on, the first one weighing most. Behind the text's end stand zeros.
fn number_from(text: &[u8], from: usize) -> u128
    requires { from ≤ NUMBER_BYTES }
    ensures number { result ≡ front_number from text.now 16 }
    ensures bytes { (k : ℕ) → k < 16 → slice_index_or text.now (from + k) 0 < 256 }
{
    let mut number: u128 = 0;
    for place in 0..NUMBER_BYTES {
        number = number * 256 + byte_at(text, from + place) as u128;
    }
    number
}

// The numbers of the first 16 bytes and of the next 16.
pub(crate) fn front(text: &[u8]) -> (u128, u128)
    ensures { IsFront text.now result }
{
    (number_from(text, 0), number_from(text, NUMBER_BYTES))
}

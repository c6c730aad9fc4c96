// The fields of numbers that are spelled alike.
ghost use Rattle.std.specs.Prelude.{◌≡◌, ◌≤◌, ◌++◌, ◌∷◌, [], IfOk};
ghost use Rattle.std.specs.Fmt.{signed_decimal};
ghost use Rattle.csv_load.specs.Gathered.{number_fields, places_or_none, spelled};
ghost use Rattle.table_core.specs.Value.{number_text};

use crate::kept_texts::KeptTexts;
use crate::seeded::Seeded;
use itoa::Buffer;
use std::alloc::{AllocError, Global};
use table_core::{Bytes, MOST_PLACES, Numbers, write_number};

// The same bytes' memory without bytes.
fn cleared(bytes: Bytes) -> Bytes
    ensures { result ≡ [] }
{
    let mut bytes = bytes.into_vec();
    bytes.clear();
    Bytes::new(bytes)
}

// The text of a whole number.
fn whole_text(buffer: &mut Buffer, value: i64) -> &[u8]
    ensures { result.now ≡ signed_decimal value }
{
    buffer.format(value).as_bytes()
}

// Puts the field of a number without places at the end.
fn put_whole(texts: &mut KeptTexts, value: i64) -> Result<(), AllocError>
    ensures { IfOk result (λ _. texts.new ≡ texts.old ++ number_text 0 value ∷ []) }
{
    let mut buffer = Buffer::new();
    texts.put(whole_text(&mut buffer, value))?;
    Ok(())
}

// Puts the field of a number with places at the end. The bytes are memory to write it.
fn put_decimal(
    texts: &mut KeptTexts,
    places: u32,
    value: i64,
    bytes: Bytes,
) -> Result<Bytes, AllocError>
    requires { places ≤ MOST_PLACES }
    ensures { IfOk result (λ _. texts.new ≡ texts.old ++ number_text places value ∷ []) }
{
    let mut text = cleared(bytes);
    match write_number(&mut text, value as i128, places) {
        Ok(()) => {}
        Err(_) => return Err(AllocError),
    }
    texts.put(text.as_slice())?;
    Ok(text)
}

// Puts the field of a number with so many places at the end, an empty one where there is none.
fn put_number(
    texts: &mut KeptTexts,
    places: u32,
    number: Option<i64>,
    bytes: Bytes,
) -> Result<Bytes, AllocError>
    requires { places ≤ MOST_PLACES }
    ensures { IfOk result (λ _. texts.new ≡ texts.old ++ spelled places number ∷ []) }
{
    let value = match number {
        Some(value) => value,
        None => {
            texts.put(b"")?;
            return Ok(bytes);
        }
    };
    if places == 0 {
        put_whole(texts, value)?;
        return Ok(bytes);
    }
    let bytes = put_decimal(texts, places, value, bytes)?;
    Ok(bytes)
}

// The places of the numbers, 0 where there is no number.
fn places_of(places: Option<u32>) -> u32
    ensures { result ≡ places_or_none places }
{
    match places {
        Some(places) => places,
        None => 0,
    }
}

// The fields of these numbers as texts.
pub(crate) fn spelled_texts(
    alloc: Global,
    hash: Seeded,
    places: Option<u32>,
    numbers: &Numbers,
) -> Result<KeptTexts, AllocError>
    requires { places_or_none places ≤ MOST_PLACES }
    ensures { IfOk result (λ texts. texts ≡ number_fields places numbers.now) }
{
    let few = places_of(places);
    let mut texts = KeptTexts::new(alloc, hash)?;
    let mut bytes = Bytes::new(Vec::new(alloc));
    for row in 0..numbers.len() {
        bytes = put_number(&mut texts, few, numbers.get(row), bytes)?;
    }
    Ok(texts)
}

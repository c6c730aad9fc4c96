// The fields of a column as texts.
ghost use Rattle.std.specs.Prelude.{◌≡◌, ◌≢◌, ◌<◌, ◌++◌, ◌∷◌, [], List, ℕ, IfOk, IfSome, length, map, slice_index_or};
ghost use Rattle.csv_load.specs.Gathered.{AreKept};
ghost use Rattle.csv_load.specs.Ranks.{stands_for};
ghost use Rattle.csv_load.specs.Seen.{AreSound};
ghost use Rattle.csv_load.specs.Judged.{Fields};

use crate::recent::{Recent, mark_of};
use crate::seeded::Seeded;
use std::alloc::{AllocError, Global};
use std::collections::HashMap;
use std::marker::Model;
use table_core::{Codes, Texts};

// How many texts of a column are looked up. Once there are more, each is kept as it comes, and a sort finds the equal
// ones.
const MOST_SEEN: usize = 32768;

// The place of a text among these, where it is the one that was guessed.
fn place_guessed(texts: &Texts, guess: usize, field: &[u8]) -> Option<u32>
    ensures { IfSome result (λ c. (c < length texts.now) × (slice_index_or texts.now c [] ≡ field.now)) }
{
    if guess >= texts.len() || guess > u32::MAX as usize {
        return None;
    }
    if texts.get(guess) == field {
        return Some(guess as u32);
    }
    None
}

// The place of a text, where one that had its mark last is the same.
fn place_marked(texts: &Texts, recent: &Recent, mark: usize, field: &[u8]) -> Option<u32>
    ensures { IfSome result (λ c. (c < length texts.now) × (slice_index_or texts.now c [] ≡ field.now)) }
{
    let (last, other) = recent.guesses(mark);
    if let Some(known) = place_guessed(texts, last as usize, field) {
        return Some(known);
    }
    place_guessed(texts, other as usize, field)
}

// The place of a text, where it was remembered.
fn place_seen(seen: &HashMap<Vec<u8>, u32, Seeded>, field: &[u8]) -> Option<u32>
    ensures { (texts : Fields) → AreSound texts seen.now.entries
        → IfSome result (λ c. (c < length texts) × (slice_index_or texts c [] ≡ field.now)) }
{
    match seen.get(field) {
        Some(place) => Some(*place),
        None => None,
    }
}

// Remembers the place of a text, unless there are too many.
fn remember(
    alloc: Global,
    seen: &mut HashMap<Vec<u8>, u32, Seeded>,
    field: &[u8],
    place: u32,
) -> Result<(), AllocError>
    ensures { (texts : Fields) → AreSound texts seen.old.entries → place < length texts
        → slice_index_or texts place [] ≡ field.now → AreSound texts seen.new.entries }
{
    if place as usize >= MOST_SEEN {
        return Ok(());
    }
    let key = Vec::from_slice(alloc, field)?;
    match seen.insert(key, place) {
        Ok(_) => return Ok(()),
        Err(_) => return Err(AllocError),
    }
}

// The fields of a column, seen as their list, each as the place of its text. Texts that are looked up stand there once.
#[derive(Drop)]
pub(crate) struct KeptTexts {
    alloc: Global,
    texts: Texts,
    places: Codes,
    seen: HashMap<Vec<u8>, u32, Seeded>,
    recent: Recent,
}

impl Model for KeptTexts {
    ghost use Rattle.std.specs.Prelude.{List, ℕ, map};
    ghost use Rattle.csv_load.specs.Gathered.{AreKept};
    ghost use Rattle.csv_load.specs.Ranks.{stands_for};

    ghost Value = { List (List ℕ) };

    ghost view = { λ s. map (stands_for s.texts) s.places };

    ghost invariant = { λ s. AreKept s.texts s.places s.seen.entries };
}

impl KeptTexts {
    // Without fields. The hash is the look-up's.
    pub(crate) fn new(alloc: Global, hash: Seeded) -> Result<Self, AllocError>
        ensures { IfOk result (λ column. column ≡ []) }
    {
        Ok(KeptTexts {
            alloc,
            texts: Texts::new(alloc),
            places: Codes::new(alloc),
            seen: HashMap::with_hasher(alloc, hash),
            recent: Recent::new(alloc)?,
        })
    }

    // The same in a column that may never have a text: it takes no memory.
    pub(crate) fn none(alloc: Global, hash: Seeded) -> Self
        ensures { result ≡ [] }
    {
        KeptTexts {
            alloc,
            texts: Texts::new(alloc),
            places: Codes::new(alloc),
            seen: HashMap::with_hasher(alloc, hash),
            recent: Recent::none(alloc),
        }
    }

    // How many texts are kept.
    pub(crate) fn text_count(&self) -> usize {
        self.texts.len()
    }

    // The texts, and the place of each field's text. The look-up is let go.
    pub(crate) fn into_parts(self) -> (Texts, Codes)
        ensures fields { map (stands_for result.0) result.1 ≡ self }
        ensures kept { AreKept result.0 result.1 [] }
    {
        let KeptTexts { texts, places, .. } = self;
        (texts, places)
    }

    // Puts a field at the end, and its text where it isn't found.
    pub(crate) fn put(&mut self, field: &[u8]) -> Result<(), AllocError>
        ensures { IfOk result (λ _. self.new ≡ self.old ++ field.now ∷ []) }
    {
        if field.len() == 0 {
            self.places.push(None)?;
            return Ok(());
        }
        let count = self.texts.len();
        if count > MOST_SEEN {
            return self.put_among_many(field);
        }
        let mark = mark_of(field);
        if let Some(known) = place_marked(&self.texts, &self.recent, mark, field) {
            self.places.push(Some(known))?;
            return Ok(());
        }
        if let Some(known) = place_seen(&self.seen, field) {
            self.recent.note(mark, known);
            self.places.push(Some(known))?;
            return Ok(());
        }
        self.put_new(field)?;
        self.recent.note(mark, count as u32);
        Ok(())
    }

    // The same without a look-up, for a field that isn't empty. Among many texts only the last one is worth a look.
    fn put_among_many(&mut self, field: &[u8]) -> Result<(), AllocError>
        requires { field.now ≢ [] }
        ensures { IfOk result (λ _. self.new ≡ self.old ++ field.now ∷ []) }
    {
        let count = self.texts.len();
        if count > 0 {
            if let Some(last) = place_guessed(&self.texts, count - 1, field) {
                self.places.push(Some(last))?;
                return Ok(());
            }
        }
        self.put_new(field)
    }

    // Puts a field that isn't empty at the end, and its text behind the others. The field stands as an empty one until
    // its text is there, so that out of memory leaves no text without a field.
    fn put_new(&mut self, field: &[u8]) -> Result<(), AllocError>
        requires { field.now ≢ [] }
        ensures { IfOk result (λ _. self.new ≡ self.old ++ field.now ∷ []) }
    {
        let count = self.texts.len();
        if count >= u32::MAX as usize {
            return Err(AllocError);
        }
        let row = self.places.len();
        self.places.push(None)?;
        self.texts.push(field)?;
        self.places.set(row, Some(count as u32));
        remember(self.alloc, &mut self.seen, field, count as u32)?;
        Ok(())
    }
}

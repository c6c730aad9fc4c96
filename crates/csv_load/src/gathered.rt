// The fields of one column, gathered as they come.
ghost use Rattle.std.specs.Prelude.{◌≡◌, ◌≤◌, ◌++◌, ◌∷◌, [], false, true, IfOk, IfSome, Some};
ghost use Rattle.csv_load.specs.Gathered.{Follows};
ghost use Rattle.csv_load.specs.Kept.{IsKept};
ghost use Rattle.csv_load.specs.Number.{number_read};

use crate::kept_texts::KeptTexts;
use crate::number::Number;
use crate::numeral::number_of;
use crate::seeded::Seeded;
use crate::spelling::spelled_texts;
use std::alloc::{AllocError, Global};
use std::marker::Model;
use table_core::{MOST_PLACES, Numbers};

// What is kept of a column's fields.
#[derive(Drop)]
pub(crate) enum Kept {
    // Numbers with so many places after the point. Without a number there are none.
    Numbers(Option<u32>, Numbers),
    Texts(KeptTexts),
}

// Whether a number with so many places is spelled as those before it.
fn follows(before: Option<u32>, places: u32) -> bool
    ensures { result ≡ true → Follows before places }
{
    match before {
        Some(before) => before == places,
        None => true,
    }
}

// The number that a field spells, where it spells one as those before it are spelled, which have so many places.
fn number_after(before: Option<u32>, field: &[u8]) -> Option<Number>
    ensures { IfSome result (λ n. (number_read field.now ≡ Some n) × (n.zero_below ≡ false)
        × (n.places ≤ MOST_PLACES) × Follows before n.places) }
{
    let number = match number_of(field) {
        Some(number) => number,
        None => return None,
    };
    if number.zero_below {
        return None;
    }
    if follows(before, number.places) {
        return Some(number);
    }
    None
}

// The fields of a column, seen as their list. Fields that are empty or spell numbers in one way, which their values
// give back, are kept as numbers, until the first one that is another: from then on they are kept as texts.
#[derive(Drop)]
pub(crate) struct Gathered {
    alloc: Global,
    hash: Seeded,
    places: Option<u32>,
    numbers: Numbers,
    has_texts: bool,
    texts: KeptTexts,
}

impl Model for Gathered {
    ghost use Rattle.std.specs.Prelude.{◌≡◌, false, List, ℕ, if◌then◌else◌};
    ghost use Rattle.csv_load.specs.Gathered.{AreNumbers, number_fields};

    ghost Value = { List (List ℕ) };

    ghost view = { λ s. if s.has_texts then s.texts else number_fields s.places s.numbers };

    ghost invariant = { λ s. s.has_texts ≡ false → AreNumbers s.places s.numbers };
}

impl Gathered {
    // Without fields. The hash is the look-up's.
    pub(crate) fn new(alloc: Global, hash: Seeded) -> Self
        ensures { result ≡ [] }
    {
        Gathered {
            alloc,
            hash,
            places: None,
            numbers: Numbers::new(alloc),
            has_texts: false,
            texts: KeptTexts::none(alloc, hash),
        }
    }

    // What is kept.
    pub(crate) fn into_kept(self) -> Kept
        ensures { IsKept self result }
    {
        let Gathered {
            places,
            numbers,
            has_texts,
            texts,
            ..
        } = self;
        if has_texts {
            return Kept::Texts(texts);
        }
        Kept::Numbers(places, numbers)
    }

    // How many texts are kept.
    pub(crate) fn text_count(&self) -> usize {
        self.texts.text_count()
    }

    // Puts a field at the end. The first one that isn't spelled as the numbers before it makes texts of them.
    pub(crate) fn put(&mut self, field: &[u8]) -> Result<(), AllocError>
        ensures { IfOk result (λ _. self.new ≡ self.old ++ field.now ∷ []) }
    {
        if self.has_texts {
            self.texts.put(field)?;
            return Ok(());
        }
        if field.len() == 0 {
            self.numbers.push(None)?;
            return Ok(());
        }
        if let Some(number) = number_after(self.places, field) {
            self.numbers.push(Some(number.value))?;
            self.places = Some(number.places);
            return Ok(());
        }
        self.put_first_text(field)
    }

    // Puts a field at the end as a text, behind numbers that become texts. It stands apart from `put`, which would pay
    // for these locals at each field.
    fn put_first_text(&mut self, field: &[u8]) -> Result<(), AllocError>
        ensures { IfOk result (λ _. self.new ≡ self.old ++ field.now ∷ []) }
    {
        if self.has_texts {
            self.texts.put(field)?;
            return Ok(());
        }
        let mut texts = spelled_texts(self.alloc, self.hash, self.places, &self.numbers)?;
        texts.put(field)?;
        self.texts = texts;
        self.numbers = Numbers::new(self.alloc);
        self.has_texts = true;
        Ok(())
    }
}

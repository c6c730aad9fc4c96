// A column whose kind is known.
ghost use Rattle.std.specs.Prelude.{◌≡◌, ◌≢◌, ◌≤◌, ◌<◌, [], ℕ, All, IfOk, IfSome, length, map};
ghost use Rattle.std.specs.List.{AllZip};
ghost use Rattle.csv_load.specs.Gathered.{AreNumbers, ArePlaced, kind_with, number_fields};
ghost use Rattle.csv_load.specs.Kinds.{kind_of};
ghost use Rattle.csv_load.specs.Ranks.{stands_for};
ghost use Rattle.csv_load.specs.Typed.{AreNumbersOf, IsTyped, through};
ghost use Rattle.csv_load.specs.declared.typed.Typed.{Typed};
ghost use Rattle.table_core.specs.Codes.{IsCode};
ghost use Rattle.table_core.specs.Value.{places_of};
ghost use Rattle.table_core.specs.declared.schema.Kind.TheVariants.{Text};

use crate::gathered::{Gathered, Kept};
use crate::kept_texts::KeptTexts;
use crate::kind::{kind_of_texts, number_in};
use crate::rank::{Ranked, rank_texts};
use std::alloc::{AllocError, Global};
use table_core::{Cells, Codes, Dict, Kind, MOST_PLACES, Numbers, Texts};

// A column with its kind, a cell for each of its fields, and its dictionary, an empty one but for a column of texts.
#[derive(Drop)]
pub(crate) struct Typed {
    pub kind: Kind,
    pub cells: Cells,
    pub dict: Dict,
}

// The kind of a column of numbers that all have so many places.
fn kind_of_places(places: Option<u32>) -> Kind
    ensures { result ≡ kind_with places }
{
    match places {
        None | Some(0) => Kind::Int,
        Some(places) => Kind::Dec { places },
    }
}

// The column of numbers that are spelled alike: they are its cells.
fn type_numbers(alloc: Global, places: Option<u32>, numbers: Numbers) -> Typed
    requires { AreNumbers places numbers }
    ensures { IsTyped (number_fields places numbers) result }
{
    Typed {
        kind: kind_of_places(places),
        cells: Cells::Numbers(numbers),
        dict: Dict::new(alloc),
    }
}

// The number of each text.
fn numbers_of(alloc: Global, kind: Kind, texts: &Texts) -> Result<Numbers, AllocError>
    requires few { places_of kind ≤ MOST_PLACES }
    requires numbers { kind ≢ Text }
    ensures { IfOk result (λ numbers. AreNumbersOf kind texts.now numbers) }
{
    let mut numbers = Numbers::new(alloc);
    for place in 0..texts.len() {
        numbers.push(number_in(kind, texts.get(place)))?;
    }
    Ok(numbers)
}

// The number at a place, none for no place.
fn number_at(numbers: &Numbers, place: Option<u32>) -> Option<i64>
    requires { IfSome place (λ p. p < length numbers.now) }
    ensures { result ≡ through numbers.now place }
{
    match place {
        Some(place) => numbers.get(place as usize),
        None => None,
    }
}

// The numbers at these places.
fn numbers_at(alloc: Global, numbers: &Numbers, places: &Codes) -> Result<Numbers, AllocError>
    requires { All (λ o. IfSome o (λ p. p < length numbers.now)) places.now }
    ensures { IfOk result (λ v. v ≡ map (through numbers.now) places.now) }
{
    let mut found = Numbers::new(alloc);
    for row in 0..places.len() {
        found.push(number_at(numbers, places.get(row)))?;
    }
    Ok(found)
}

// The column of texts that spell numbers. Each text is read once, and let go before the rows have their numbers.
fn type_numerals(
    alloc: Global,
    kind: Kind,
    texts: Texts,
    places: Codes,
) -> Result<Typed, AllocError>
    requires placed { ArePlaced texts places }
    requires kind { kind ≡ kind_of texts }
    requires few { places_of kind ≤ MOST_PLACES }
    requires numbers { kind ≢ Text }
    ensures { IfOk result (λ column. IsTyped (map (stands_for texts) places) column) }
{
    let numbers = numbers_of(alloc, kind, &texts)?;
    drop(texts);
    let found = numbers_at(alloc, &numbers, &places)?;
    Ok(Typed {
        kind,
        cells: Cells::Numbers(found),
        dict: Dict::new(alloc),
    })
}

// The code at a place, none for no place.
fn code_at(codes: &[Option<u32>], place: Option<u32>) -> Option<u32>
    requires { IfSome place (λ p. p < length codes.now) }
    ensures { result ≡ through codes.now place }
{
    match place {
        Some(place) => codes[place as usize],
        None => None,
    }
}

// Makes codes of the places of texts.
fn recode(places: &mut Codes, codes: &[Option<u32>])
    requires inside { All (λ o. IfSome o (λ p. p < length codes.now)) places.old }
    requires small { All IsCode codes.now }
    ensures { places.new ≡ map (through codes.now) places.old }
{
    for row in 0..places.len() {
        places.set(row, code_at(codes, places.get(row)));
    }
}

// The column of texts that don't all spell numbers. They are let go once they are ranked.
fn type_ranked(alloc: Global, texts: Texts, places: Codes) -> Result<Typed, AllocError>
    requires placed { ArePlaced texts places }
    requires kind { kind_of texts ≡ Text }
    ensures { IfOk result (λ column. IsTyped (map (stands_for texts) places) column) }
{
    let Ranked { dict, codes } = rank_texts(alloc, &texts)?;
    drop(texts);
    let mut cells = places;
    recode(&mut cells, codes.as_slice());
    Ok(Typed {
        kind: Kind::Text,
        cells: Cells::Codes(cells),
        dict,
    })
}

// The column of fields that are kept as texts. Their look-up is let go before the sort.
fn type_texts(alloc: Global, kept: KeptTexts) -> Result<Typed, AllocError>
    ensures { IfOk result (λ column. IsTyped kept column) }
{
    let (texts, places) = kept.into_parts();
    let kind = kind_of_texts(&texts);
    match kind {
        Kind::Text => type_ranked(alloc, texts, places),
        Kind::Int | Kind::Dec { .. } => type_numerals(alloc, kind, texts, places),
    }
}

// The column of these fields.
fn type_column(alloc: Global, fields: Gathered) -> Result<Typed, AllocError>
    ensures { IfOk result (λ column. IsTyped fields column) }
{
    match fields.into_kept() {
        Kept::Numbers(places, numbers) => Ok(type_numbers(alloc, places, numbers)),
        Kept::Texts(kept) => type_texts(alloc, kept),
    }
}

// The columns of these fields.
pub(crate) fn type_columns(alloc: Global, columns: Vec<Gathered>) -> Result<Vec<Typed>, AllocError>
    ensures { IfOk result (λ v. AllZip IsTyped columns.items v.items) }
{
    let mut typed = Vec::new(alloc);
    for gathered in columns {
        let column = type_column(alloc, gathered)?;
        typed.push(column)?;
    }
    Ok(typed)
}

// The columns that are written.
ghost use Rattle.std.specs.Prelude.{◌≡◌, IfOk, map};
ghost use Rattle.csv.specs.Records.{fields_of};
ghost use Rattle.prepare_rules.specs.Columns.{both_from, from_on, is_few, kind_at, listed, lost_name};
ghost use Rattle.prepare_rules.specs.Columns.{pick_at, picks_among, picks_of};
ghost use Rattle.prepare_rules.specs.Columns.{place_from, place_of, places_from, renamed, written_places};

use crate::cause::Cause;
use crate::field::field_or_none;
use crate::kind::Kind;
use crate::rules::{Column, Rename, Rules};
use csv::ByteRecord;
use std::alloc::{AllocError, Global};
use table_sets::MOST_COLUMNS;

/// A column that is written: its place in the export, from 0, and what it holds.
#[derive(Clone, Copy, Debug, PartialEq, Eq)]
pub struct Pick {
    pub place: usize,
    pub kind: Kind,
}

/// How many names there are, and which columns are written.
#[derive(Drop)]
pub(crate) struct Plan {
    pub names: usize,
    pub picks: Vec<Pick>,
}

/// The columns that are written of an export with these names, or why there are none.
pub(crate) fn picks_of(
    alloc: Global,
    rules: &Rules<'_>,
    names: &ByteRecord,
) -> Result<Result<Vec<Pick>, Cause>, AllocError>
    ensures { IfOk result (λ found. listed found ≡ picks_of rules.now (fields_of names.now)) }
{
    if let Some(word) = lost_name(names, rules.renames) {
        return Ok(Err(Cause::NoName { word }));
    }
    let places = match written_places(alloc, rules.columns, names)? {
        Ok(places) => places,
        Err(word) => return Ok(Err(Cause::NoColumn { word })),
    };
    if !is_few(places.len()) {
        return Ok(Err(Cause::Columns {
            columns: places.len(),
        }));
    }
    picks_among(alloc, rules, names, places.as_slice())
}

// The columns at these places, with what they hold.
fn picks_among(
    alloc: Global,
    rules: &Rules<'_>,
    names: &ByteRecord,
    places: &[usize],
) -> Result<Result<Vec<Pick>, Cause>, AllocError>
    ensures { IfOk result
        (λ found. listed found ≡ picks_among (places_from (fields_of names.now) 0 rules.now.numbers.now)
        (places_from (fields_of names.now) 0 rules.now.dates.now) places.now) }
{
    let numbers = match places_of(alloc, rules.numbers, names)? {
        Ok(numbers) => numbers,
        Err(word) => return Ok(Err(Cause::NoNumbers { word })),
    };
    let dates = match places_of(alloc, rules.dates, names)? {
        Ok(dates) => dates,
        Err(word) => return Ok(Err(Cause::NoDates { word })),
    };
    match both_at(numbers.as_slice(), dates.as_slice()) {
        Some(word) => Ok(Err(Cause::NumberAndDate { word })),
        None => Ok(Ok(picks_at(alloc, places, numbers.as_slice(), dates.as_slice())?)),
    }
}

// The number of the first column of dates that is one of numbers too.
fn both_at(numbers: &[usize], dates: &[usize]) -> Option<usize>
    ensures { result ≡ both_from 0 numbers.now dates.now }
{
    for word in 0..dates.len() {
        if numbers.contains(&dates[word]) {
            return Some(word);
        }
    }
    None
}

// What the column at a place holds.
fn kind_at(numbers: &[usize], dates: &[usize], place: usize) -> Kind
    ensures { result ≡ kind_at numbers.now dates.now place }
{
    if dates.contains(&place) {
        return Kind::Dates;
    }
    if numbers.contains(&place) {
        return Kind::Numbers;
    }
    Kind::Texts
}

// Whether a table may have so many columns.
fn is_few(columns: usize) -> bool
    ensures { result ≡ is_few columns }
{
    1 <= columns && columns <= MOST_COLUMNS as usize
}

/// Where a name stands first.
pub(crate) fn place_of_name(names: &ByteRecord, name: &[u8]) -> Option<usize>
    ensures { result ≡ place_from 0 (fields_of names.now) name.now }
{
    for at in 0..names.len() {
        if field_or_none(names, at) == name {
            return Some(at);
        }
    }
    None
}

// The place of a column, from 0.
fn place_of(names: &ByteRecord, column: Column<'_>) -> Option<usize>
    ensures { result ≡ place_of (fields_of names.now) column.entry }
{
    match column {
        Column::Named(name) => return place_of_name(names, name.as_bytes()),
        Column::Placed(place) => {
            let place = place as usize;
            if 1 <= place && place <= names.len() {
                return Some(place - 1);
            }
            return None;
        }
    }
}

// The places of columns, or the number of the first that isn't there.
fn places_of(
    alloc: Global,
    columns: &[Column<'_>],
    names: &ByteRecord,
) -> Result<Result<Vec<usize>, usize>, AllocError>
    ensures { IfOk result (λ found. listed found ≡ places_from (fields_of names.now) 0 columns.now) }
{
    let mut places = Vec::new(alloc);
    for word in 0..columns.len() {
        match place_of(names, columns[word]) {
            Some(place) => places.push(place)?,
            None => return Ok(Err(word)),
        }
    }
    Ok(Ok(places))
}

// The places of the columns that are written.
fn written_places(
    alloc: Global,
    columns: &[Column<'_>],
    names: &ByteRecord,
) -> Result<Result<Vec<usize>, usize>, AllocError>
    ensures { IfOk result (λ found. listed found ≡ written_places columns.now (fields_of names.now)) }
{
    if columns.is_empty() {
        return Ok(Ok(all_places(alloc, names.len())?));
    }
    places_of(alloc, columns, names)
}

fn all_places(alloc: Global, count: usize) -> Result<Vec<usize>, AllocError>
    ensures { IfOk result (λ places. places.items ≡ from_on 0 count) }
{
    let mut places = Vec::new(alloc);
    for place in 0..count {
        places.push(place)?;
    }
    Ok(places)
}

// The number of the first name that is given up and isn't there.
fn lost_name(names: &ByteRecord, renames: &[Rename<'_>]) -> Option<usize>
    ensures { result ≡ lost_name (fields_of names.now) 0 renames.now }
{
    for word in 0..renames.len() {
        if place_of_name(names, renames[word].from.as_bytes()).is_none() {
            return Some(word);
        }
    }
    None
}

fn picks_at(
    alloc: Global,
    places: &[usize],
    numbers: &[usize],
    dates: &[usize],
) -> Result<Vec<Pick>, AllocError>
    ensures { IfOk result (λ picks. picks.items ≡ map (pick_at numbers.now dates.now) places.now) }
{
    let mut picks = Vec::new(alloc);
    for i in 0..places.len() {
        let place = places[i];
        picks.push(Pick {
            place,
            kind: kind_at(numbers, dates, place),
        })?;
    }
    Ok(picks)
}

/// The name as it is written.
pub(crate) fn renamed<'a>(renames: &[Rename<'a>], name: &'a [u8]) -> &'a [u8]
    ensures { result.now ≡ renamed renames.now name.now }
{
    for i in 0..renames.len() {
        if name == renames[i].from.as_bytes() {
            return renames[i].to.as_bytes();
        }
    }
    name
}

// The drawn texts are of all sorts, so that what agrees over them was tried.
ghost use Rattle.std.specs.Prelude.{◌<◌, IfSome};

use crate::drawn_texts::drawn_text;
use crate::plain_columns::plain_column;
use crate::plain_records::{column_at, plain_refusal, records_of};
use csv::ByteRecord;
use csv_load::LoadRefusal;
use std::alloc::{AllocError, Global};
use std::test::Fail;
use table_core::Kind;

// How many texts have each cause or none, then how many columns have each kind, then how many have another kind by
// their last row.
type Counts = [u32; 12];

fn add(counts: &mut Counts, place: usize)
    requires { place < 12 }
{
    counts[place] = counts[place].wrapping_add(1);
}

fn cause_place(refusal: Option<LoadRefusal>) -> usize
    ensures { result < 12 }
{
    match refusal {
        None => 0,
        Some(LoadRefusal::NoHeader) => 1,
        Some(LoadRefusal::TooManyColumns { .. }) => 2,
        Some(LoadRefusal::LongName { .. }) => 3,
        Some(LoadRefusal::TwiceNamed { .. }) => 4,
        Some(LoadRefusal::Ragged { .. }) => 5,
        Some(LoadRefusal::TooManyRows | LoadRefusal::Memory) => 11,
    }
}

fn kind_place(kind: Kind) -> usize
    ensures { result < 12 }
{
    match kind {
        Kind::Int => 6,
        Kind::Dec { .. } => 7,
        Kind::Text => 8,
    }
}

// Where a column is counted that has one kind without its last row and another one with it.
fn late_place(before: Kind, kind: Kind) -> Option<usize>
    ensures { IfSome result (λ place. place < 12) }
{
    match (before, kind) {
        (Kind::Int, Kind::Dec { .. }) => Some(9),
        (Kind::Int, Kind::Text) => Some(10),
        (Kind::Dec { .. }, Kind::Text) => Some(11),
        (_, _) => None,
    }
}

// Counts a column by the kind of its fields, and by the kind of those before the last.
fn count_column(alloc: Global, counts: &mut Counts, fields: &[&[u8]]) -> Result<(), AllocError> {
    let kind = plain_column(alloc, fields)?.kind;
    add(counts, kind_place(kind));
    if let [front @ .., _last] = fields {
        let before = plain_column(alloc, front)?.kind;
        if let Some(place) = late_place(before, kind) {
            add(counts, place);
        }
    }
    Ok(())
}

fn count_columns(
    alloc: Global,
    counts: &mut Counts,
    records: &[ByteRecord],
) -> Result<(), AllocError> {
    if let [header, rows @ ..] = records {
        for place in 0..header.len() {
            let fields = column_at(alloc, rows, place)?;
            count_column(alloc, counts, &fields)?;
        }
    }
    Ok(())
}

// Counts a text; of one that is refused no columns.
fn count_text(alloc: Global, counts: &mut Counts, text: &[u8]) -> Result<(), AllocError> {
    let records = records_of(alloc, text)?;
    let refusal = plain_refusal(&records);
    add(counts, cause_place(refusal));
    if refusal.is_none() {
        count_columns(alloc, counts, &records)?;
    }
    Ok(())
}

fn counted(alloc: Global) -> Result<Counts, AllocError> {
    let mut counts = [0; 12];
    for seed in 0..2000 {
        let text = drawn_text(alloc, seed)?;
        count_text(alloc, &mut counts, &text)?;
    }
    Ok(counts)
}

#[test]
fn drawn_texts_are_of_all_sorts(rt: HostRuntime) -> Result<(), Fail> {
    let counts = counted(rt.alloc())?;
    for place in 0..12 {
        assert!(rt; counts[place] >= 25, "{counts:?}");
    }
    Ok(())
}

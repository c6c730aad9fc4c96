// Damages: the first word of a piece that breaks the rules, of pieces with one word changed.
ghost use Rattle.piece_format.specs.Cells.{IsTableOf};
ghost use Rattle.piece_format.specs.Shape.{IsShape};

use crate::example::{CELLS, COUNTS, Example, KINDS, cut_of, seventy};
use crate::pieces::{checked, words_of};
use piece_format::{Damage, Layout, words_to_bytes};
use std::alloc::Global;
use std::process::Abort;
use std::test::Fail;
use table_core::{Cell, Kind};

// The word that is refused, if there is one.
fn refused(found: Result<(), Damage>) -> Option<u32> {
    match found {
        Ok(()) => None,
        Err(damage) => Some(damage.word),
    }
}

// A place of a piece that is changed, its new word, and the place of the damage; None where the piece is sound still.
type Change = (usize, u64, Option<u32>);

// The word that is refused of a piece with one word changed.
fn refused_of(
    rt: &impl Abort,
    alloc: Global,
    cut: &Example,
    piece: u32,
    place: usize,
    word: u64,
) -> Result<Option<u32>, Fail>
    requires shape { IsShape cut.now.shape }
    requires table { IsTableOf cut.now.shape cut.now.table }
{
    let mut words = words_of(rt, alloc, cut, piece)?;
    assert!(rt; place < words.len());
    words[place] = word;
    let bytes = words_to_bytes(alloc, words.as_slice())?;
    Ok(refused(checked(rt, &cut.shape, piece, bytes.as_slice())))
}

// Tries each change of a piece by itself.
fn try_changes(
    rt: &impl Abort,
    alloc: Global,
    cut: &Example,
    piece: u32,
    changes: &[Change],
) -> Result<(), Fail>
    requires shape { IsShape cut.now.shape }
    requires table { IsTableOf cut.now.shape cut.now.table }
{
    for (place, word, damage) in changes {
        let found = refused_of(rt, alloc, cut, piece, *place, *word)?;
        assert!(rt; found == *damage, "{piece} {place} {word}");
    }
    Ok(())
}

// A layout, the rows in a chunk, a piece, and the changes of it that are tried.
type Case = (Layout, u32, u32, &'static [Change]);

// Tries the changes of pieces of one table.
fn try_cases(
    rt: &impl Abort,
    alloc: Global,
    kinds: &[Kind],
    counts: &[u8],
    cells: &[Cell],
    cases: &[Case],
) -> Result<(), Fail> {
    for (layout, per, piece, changes) in cases {
        let cut = cut_of(rt, alloc, kinds, counts, cells, *layout, *per)?;
        try_changes(rt, alloc, &cut, *piece, changes)?;
    }
    Ok(())
}

// Of the words 4, 3, 0, 0, 0, 4, 2, 40: the masks, numbers and codes, a value under a set bit.
const ROW_CHANGES: &[Change] = &[
    (0, 12, Some(0)),
    (0, 1 << 63, Some(0)),
    (0, 5, Some(1)),
    (0, 6, None),
    (0, 0, None),
    (4, 8, Some(4)),
    (4, 2, Some(6)),
    (4, 4, Some(7)),
    (1, 1 << 40, None),
    (2, 2, None),
    (2, 3, Some(2)),
    (3, 1, Some(3)),
    (6, 3, Some(6)),
    (6, 1 << 32, Some(6)),
    (7, 41, None),
];

// Of the first two of five rows, the words 0, 1, 0, 10 and 0, 2, 1, 20, which are looked at four at a time.
const EARLY_CHANGES: &[Change] = &[
    (0, 8, Some(0)),
    (0, 1, Some(1)),
    (0, 2, None),
    (1, u64::MAX, None),
    (2, 3, Some(2)),
    (4, 2, Some(6)),
    (4, 4, Some(7)),
    (6, 1 << 63, Some(6)),
    (7, 0, None),
];

// Of the words 0, 40, 1.
const NUMBER_CHANGES: &[Change] = &[
    (0, 1, Some(0)),
    (2, 3, Some(1)),
    (2, 5, Some(2)),
    (2, 0, None),
];

// Of the words 0, 2, 0, which are codes.
const CODE_CHANGES: &[Change] = &[(1, 3, Some(1)), (1, 1, None), (2, 4, Some(2)), (2, 1, None)];

const FIVE_ROWS: &[Case] = &[
    (Layout::Row, 2, 1, ROW_CHANGES),
    (Layout::Row, 5, 0, EARLY_CHANGES),
    (Layout::Column, 2, 5, NUMBER_CHANGES),
    (Layout::Column, 2, 4, CODE_CHANGES),
];

#[test]
fn each_kind_of_broken_word_is_found_at_its_place(rt: HostRuntime) -> Result<(), Fail> {
    try_cases(&rt, rt.alloc(), &KINDS, &COUNTS, &CELLS, FIVE_ROWS)
}

const LATE_CHANGES: &[Change] = &[
    (63, 1, Some(63)),
    (64, 1, None),
    (71, 1 << 1, Some(65)),
    (71, 1 << 5, Some(69)),
    (71, 1 << 6, Some(71)),
    (71, 1 << 63, Some(71)),
    (70, 0, None),
    (70, u64::MAX, Some(1)),
];

const LATE: &[Case] = &[(Layout::Column, 70, 0, LATE_CHANGES)];

#[test]
fn a_damage_is_found_behind_the_first_64_rows(rt: HostRuntime) -> Result<(), Fail> {
    let cells = seventy(rt.alloc(), false)?;
    try_cases(&rt, rt.alloc(), &[Kind::Int], &[0], &cells, LATE)
}

// Of a column of 70 codes of 70 texts, each seventh NULL, whose value words are looked at eight at a time.
const MANY_CODES_CHANGES: &[Change] = &[
    (8, 70, Some(8)),
    (8, 69, None),
    (9, 1 << 32, Some(9)),
    (14, 1, Some(14)),
    (64, 70, Some(64)),
    (70, 1 << 62, Some(62)),
];

const MANY_CODES: &[Case] = &[(Layout::Column, 70, 0, MANY_CODES_CHANGES)];

#[test]
fn a_broken_code_is_found_among_many(rt: HostRuntime) -> Result<(), Fail> {
    let cells = seventy(rt.alloc(), true)?;
    try_cases(&rt, rt.alloc(), &[Kind::Text], &[70], &cells, MANY_CODES)
}

// Of the words 1, 0, 1, 0, in columns of texts without codes.
const CODELESS_CHANGES: &[Change] = &[(2, 0, Some(3)), (3, 1, Some(3)), (0, 3, Some(0))];

const CODELESS: &[Case] = &[
    (Layout::Row, 2, 0, CODELESS_CHANGES),
    (Layout::Column, 2, 0, &[(2, 1, Some(1)), (0, 1, Some(0))]),
];

#[test]
fn a_column_of_texts_without_codes_has_nulls_alone(rt: HostRuntime) -> Result<(), Fail> {
    try_cases(
        &rt,
        rt.alloc(),
        &[Kind::Text],
        &[0],
        &[Cell::Null; 2],
        CODELESS,
    )
}

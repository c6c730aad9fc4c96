// A chunk that is out.
ghost use Rattle.std.specs.Prelude.{◌≡◌, ◌<◌, ◌≤◌, ◌+◌, ◌%◌, true, List, None, Some, length};
ghost use Rattle.table_core.specs.Chunk.{chunk as chunk_of};
ghost use Rattle.table_core.specs.declared.cell.Cell.{Cell};
ghost use Rattle.piece_format.specs.Cells.{FitsKind, cell_at, dict_len_at, kind_at};
ghost use Rattle.cscan.specs.Answers.{Releases, delivery_to};
ghost use Rattle.frame_rows.specs.Blocks.{EachRow};
ghost use Rattle.frame_rows.specs.Rows.{FitColumns, HasCellsOf, OthersAreNull};
ghost use Rattle.cscan.specs.Scans.{IsSameScan, IsScan, ReadsColumns, reads_column};
ghost use Rattle.frame_rows.specs.Tables.{HoldsTable};

use crate::gate::Gate;
use crate::releasing::note_release;
use crate::scan::CScan;
use crate::slots::place_of;
use coop_outside::Depot;
use frame_pool::Content;
use frame_rows::{
    Framed, Given, Span, cell_in_frame, group_with, piece_with, put_columns, put_slots,
    read_columns, read_slots, unpin_all,
};
use interest_book::Policy;
use piece_format::Layout;
use row_blocks::Block;
use scan_story::Origin;
use std::sync::Wait;
use table_core::{Cell, ColumnSet};

/// A chunk that a scan has out, whose frames are pinned. It must be released.
pub struct Held {
    pub(crate) given: Given,
}

impl Held {
    /// The chunk, from 0.
    pub fn chunk(&self) -> u32
        ensures { result ≡ self.now.given.chunk }
    {
        self.given.chunk
    }

    /// How many rows the chunk has.
    pub fn rows(&self) -> u32
        ensures { result ≡ self.now.given.rows }
    {
        self.given.rows
    }

    /// The cell of a row of the chunk, from 0, and a column that the query reads. It can't wait.
    ///
    /// Where the depot tells what it holds, it is the table's cell. Over every depot it is NULL, or in a column of
    /// texts a code below the length of the column's dictionary, or in any other column a number.
    pub fn cell<S: Origin, C: Content, P: Policy, D: Depot, T: Gate>(
        &self,
        scan: &mut CScan<'_, S, C, P, D, T>,
        row: u32,
        column: u32,
    ) -> Cell
        requires scan { IsScan S.origin C.pieces scan.old }
        requires out { scan.old.out ≡ Some self.now.given }
        requires row { row < self.now.given.rows }
        requires column { reads_column S.origin.setting scan.old.query column ≡ true }
        ensures same { scan.new ≡ scan.old }
        ensures fits { FitsKind (kind_at scan.old.shape.now column) (dict_len_at scan.old.shape.now column) result }
        ensures cell { (rows : List (List Cell)) → HoldsTable S.origin.held C.pieces scan.old.shape.now rows
            → result ≡ cell_at (chunk_of rows scan.old.shape.now.per self.now.given.chunk) row column }
    {
        let pool = scan.pool;
        let shape = scan.shape;
        let piece = piece_with(shape, self.given.chunk, column);
        let slot = self.given.slots.at(place_of(&self.given.slots, piece));
        let framed = Framed::of(shape, slot, self.given.rows, group_with(shape, column));
        cell_in_frame(pool, shape, &mut scan.station.berth, framed, row, column)
    }

    /// Reads a row of the chunk, from 0, for some columns that the query reads: each one's cell, as `cell` says it,
    /// comes into its place, and NULL into every other place. There is a place for each column of the table. It can't
    /// wait.
    pub fn row<S: Origin, C: Content, P: Policy, D: Depot, T: Gate>(
        &self,
        scan: &mut CScan<'_, S, C, P, D, T>,
        row: u32,
        columns: &ColumnSet,
        cells: &mut [Cell],
    )
        requires scan { IsScan S.origin C.pieces scan.old }
        requires out { scan.old.out ≡ Some self.now.given }
        requires row { row < self.now.given.rows }
        requires columns { ReadsColumns S.origin.setting scan.old.query columns.now }
        requires width { length cells.old ≡ length scan.old.shape.now.kinds }
        ensures same { scan.new ≡ scan.old }
        ensures width { length cells.new ≡ length cells.old }
        ensures fits { FitColumns scan.old.shape.now columns.now cells.new }
        ensures others { OthersAreNull columns.now cells.new }
        ensures cells { (rows : List (List Cell)) → HoldsTable S.origin.held C.pieces scan.old.shape.now rows
            → HasCellsOf (chunk_of rows scan.old.shape.now.per self.now.given.chunk) row columns.now cells.new }
    {
        let pool = scan.pool;
        let shape = scan.shape;
        let berth = &mut scan.station.berth;
        match shape.layout {
            Layout::Row => {
                let framed = Framed::of(shape, self.given.slots.at(0), self.given.rows, 0);
                read_columns(pool, shape, berth, framed, row, columns, cells);
            }
            Layout::Column => read_slots(pool, shape, berth, &self.given, row, columns, cells),
        }
    }

    /// Reads some rows of the chunk as a block, `count` of them from the row `first` on, for some columns that the
    /// query reads: each one's cells, as `cell` says them, come into its column, and NULL into every other column.
    ///
    /// The block has a column for each column of the table, and 1 to 64 rows; `first` is a multiple of 64. It can't
    /// wait.
    pub fn block<S: Origin, C: Content, P: Policy, D: Depot, T: Gate>(
        &self,
        scan: &mut CScan<'_, S, C, P, D, T>,
        first: u32,
        count: u32,
        columns: &ColumnSet,
        block: &mut Block,
    )
        requires scan { IsScan S.origin C.pieces scan.old }
        requires out { scan.old.out ≡ Some self.now.given }
        requires first { first % 64 ≡ 0 }
        requires count { (0 < count) × (count ≤ 64) }
        requires rows { first + count ≤ self.now.given.rows }
        requires columns { ReadsColumns S.origin.setting scan.old.query columns.now }
        ensures same { scan.new ≡ scan.old }
        ensures count { block.new.count ≡ count }
        ensures width { block.new.width ≡ length scan.old.shape.now.kinds }
        ensures fits { EachRow (λ i cells. FitColumns scan.old.shape.now columns.now cells) block.new }
        ensures others { EachRow (λ i cells. OthersAreNull columns.now cells) block.new }
        ensures cells { (rows : List (List Cell)) → HoldsTable S.origin.held C.pieces scan.old.shape.now rows
            → EachRow (λ i cells. HasCellsOf (chunk_of rows scan.old.shape.now.per self.now.given.chunk) (first + i)
            columns.now cells) block.new }
    {
        let pool = scan.pool;
        let shape = scan.shape;
        let berth = &mut scan.station.berth;
        let span = Span { first, count };
        block.begin(shape.kinds.len() as u32, count);
        match shape.layout {
            Layout::Row => {
                let framed = Framed::of(shape, self.given.slots.at(0), self.given.rows, 0);
                put_columns(pool, shape, berth, framed, span, columns, block);
            }
            Layout::Column => put_slots(pool, shape, berth, &self.given, span, columns, block),
        }
    }

    /// Gives the chunk back: unpins its frames, and then appends a Release. `called` is what the scan's gate left when
    /// it was called for this delivery.
    pub fn release<S: Origin, C: Content, P: Policy, D: Depot, T: Gate, R: Wait>(
        self,
        rt: &R,
        scan: &mut CScan<'_, S, C, P, D, T>,
        called: T::Called,
    )
        requires scan { IsScan S.origin C.pieces scan.old }
        requires out { scan.old.out ≡ Some self.given }
        requires called { T.delivery_of called ≡
            delivery_to scan.old.station.now.number scan.old.query self.given.chunk }
        ensures same { IsSameScan scan.old scan.new }
        ensures out { scan.new.out ≡ None }
        ensures scan { IsScan S.origin C.pieces scan.new }
        ensures released { Releases scan.old.station.now.number scan.old.query scan.old.station.now.pass
            scan.new.station.now.pass self.given.chunk }
    {
        let Held { given } = self;
        let _called = called;
        let pool = scan.pool;
        let baton = scan.baton;
        let query = scan.query;
        unpin_all(pool, &mut scan.station.berth, &given.slots);
        note_release(rt, baton, scan.station, query, &given);
        scan.out = None;
    }
}

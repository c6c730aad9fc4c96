// Rows of a chunk, read as a block from frames that a berth pins.
ghost use Rattle.std.specs.Prelude.{◌≡◌, ◌<◌, length};
ghost use Rattle.piece_format.specs.Shape.{IsShape, chunk_of, chunks, frame_words, rows_in};
ghost use Rattle.piece_format.specs.declared.layout.Layout.TheVariants as layouts;
ghost use Rattle.frame_rows.specs.Blocks.{HasReadAll, HasReadSlots, IsSpan, EachRow};
ghost use Rattle.frame_rows.specs.Framed.{ArePinned, IsFramed};
ghost use Rattle.frame_rows.specs.Rows.{AreOfColumns, OthersAreNull};

use crate::cells::nulls_of;
use crate::framed::Framed;
use crate::given::Given;
use crate::lanes::{column_bits, read_lane, read_masks};
use crate::span::Span;
use frame_pool::{Berth, Content, Pool};
use piece_format::Shape;
use row_blocks::{Block, Holds, Lane};
use table_core::ColumnSet;

/// Reads these columns of some rows of a framed piece in the row layout. The words with the rows' null bits are read
/// once.
pub fn put_columns<C: Content>(
    pool: &Pool<C>,
    shape: &Shape,
    berth: &mut Berth<C>,
    framed: Framed,
    span: Span,
    columns: &ColumnSet,
    block: &mut Block,
)
    requires shape { IsShape shape.now }
    requires layout { shape.now.layout ≡ layouts.Row }
    requires framed { IsFramed shape.now pool.now berth.old framed }
    requires span { IsSpan framed.piece.rows span }
    requires count { block.old.count ≡ span.count }
    requires width { block.old.width ≡ length shape.now.kinds }
    requires null { EachRow (λ i cells. OthersAreNull columns.now cells) block.old }
    ensures same { berth.new ≡ berth.old }
    ensures count { block.new.count ≡ block.old.count }
    ensures width { block.new.width ≡ block.old.width }
    ensures read { HasReadAll C.pieces shape.now (chunk_of shape.now framed.number) span.first columns.now block.new }
{
    if columns.len() == 0 {
        return;
    }
    let mut room = [0; 64];
    let masks = &mut room[..span.count as usize];
    read_masks(pool, shape, berth, framed, span, masks);
    let mut lane = Lane::empty(Holds::Numbers);
    for x in 0..block.width() {
        if columns.has(x) {
            let nulls = column_bits(masks, x);
            read_lane(pool, shape, berth, framed, span, x, nulls, &mut lane);
            block.put(x, &lane);
        }
    }
}

/// Reads these columns of some rows of a chunk in the column layout: those in its slots, one after another.
pub fn put_slots<C: Content>(
    pool: &Pool<C>,
    shape: &Shape,
    berth: &mut Berth<C>,
    given: &Given,
    span: Span,
    columns: &ColumnSet,
    block: &mut Block,
)
    requires shape { IsShape shape.now }
    requires layout { shape.now.layout ≡ layouts.Column }
    requires chunk { given.now.chunk < chunks shape.now }
    requires rows { given.now.rows ≡ rows_in shape.now given.now.chunk }
    requires pinned { ArePinned pool.now berth.old given.now.slots }
    requires room { pool.now.shape.words ≡ frame_words shape.now }
    requires columns { AreOfColumns shape.now given.now.chunk given.now.slots }
    requires span { IsSpan given.now.rows span }
    requires count { block.old.count ≡ span.count }
    requires width { block.old.width ≡ length shape.now.kinds }
    requires null { EachRow (λ i cells. OthersAreNull columns.now cells) block.old }
    ensures same { berth.new ≡ berth.old }
    ensures count { block.new.count ≡ block.old.count }
    ensures width { block.new.width ≡ block.old.width }
    ensures read { HasReadSlots C.pieces shape.now given.now.chunk span.first columns.now given.now.slots
        (length given.now.slots) block.new }
{
    let first = given.chunk * block.width();
    let mut lane = Lane::empty(Holds::Numbers);
    for k in 0..given.slots.len() {
        let slot = given.slots.at(k);
        let column = slot.1 - first;
        if columns.has(column) {
            let framed = Framed::of(shape, slot, given.rows, column);
            let nulls = nulls_of(pool, shape, berth, framed, span.first);
            read_lane(pool, shape, berth, framed, span, column, nulls, &mut lane);
            block.put(column, &lane);
        }
    }
}

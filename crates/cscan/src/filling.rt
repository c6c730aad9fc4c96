// A frame filled with a piece of the depot.
ghost use Rattle.std.specs.Prelude.{◌≡◌, ◌≤◌, ◌<◌, ◌+◌, ◌-◌, ◌*◌, ◌^◌, [], false, length, IfErr, OnOk, Some};
ghost use Rattle.frame_pool.specs.Views.{filling};
ghost use Rattle.frame_pool.specs.Berths.{IsOf, IsAt, IsBlank};
ghost use Rattle.piece_format.specs.Broken.{NoneBroken};
ghost use Rattle.piece_format.specs.Bytes.{word_of};
ghost use Rattle.piece_format.specs.Shape.{IsShape, frame_words, piece_at, pieces, words_in};
ghost use Rattle.frame_rows.specs.Tables.{TellAlike, first_words};
ghost use Rattle.cscan.specs.Reads.{AreThere, MayReport, with_words};
ghost use Rattle.cscan.specs.Stations.{PinsJust};

use abm_policy::Desk;
use baton::Pass;
use coop_outside::Depot;
use frame_pool::{Berth, Content, Pool};
use interest_book::Policy;
use piece_format::{Shape, check, piece_words, word_at};
use scan_story::{Origin, Why};
use std::sync::Wait;
use table_sets::Slots;

/// The first read of a load that failed: how many slots were read before it, and why it failed.
#[derive(Clone, Copy)]
pub(crate) struct Failure {
    pub(crate) done: u32,
    pub(crate) why: Why,
}

// Puts the words of a piece, one after another.
fn put_all<C: Content>(pool: &Pool<C>, berth: &mut Berth<C>, frame: u32, bytes: &[u8], words: u32)
    requires of { IsOf pool.now berth.old }
    requires fill { berth.old.fill ≡ Some (filling frame []) }
    requires room { words ≤ pool.now.shape.words }
    requires bytes { length bytes.now ≡ 8 * words }
    ensures { berth.new ≡ with_words berth.old frame (first_words (word_of bytes.now) words) }
{
    for i in 0..words {
        pool.put(berth, word_at(bytes, i));
    }
}

// Reads a piece into a frame: marks and claims the frame, gets the piece, checks it, puts its words and publishes it.
//
// Where the get fails or a word of the piece is broken, the frame is given up, and is free again. The pass isn't
// holding, so others have their turns meanwhile.
fn read_in<S: Origin, C: Content, P: Policy, D: Depot, R: Wait>(
    rt: &R,
    pass: &Pass<Desk<S, P, D>>,
    pool: &Pool<C>,
    shape: &Shape,
    berth: &mut Berth<C>,
    bytes: &mut [u8],
    depot: &mut D,
    slot: (u32, u32),
) -> Result<(), Why>
    requires free { pass.now.holding ≡ false }
    requires shape { IsShape shape.now }
    requires at { IsAt pool.now berth.old slot.0 }
    requires blank { IsBlank berth.old }
    requires there { slot.1 < pieces shape.now }
    requires room { pool.now.shape.words ≡ frame_words shape.now }
    requires bytes { length bytes.old ≡ 8 * words_in (piece_at shape.now slot.1) }
    requires gets { D.gets depot.old < 2 ^ 64 - 1 }
    requires alike { TellAlike (D.held depot.old) C.pieces shape.now }
    ensures berth { berth.new ≡ berth.old }
    ensures gets { D.gets depot.new ≡ D.gets depot.old + 1 }
    ensures held { D.held depot.new ≡ D.held depot.old }
    ensures later { D.faults depot.old ≤ D.faults depot.new }
    ensures why { IfErr result (λ why. MayReport (D.held depot.old) (D.faults depot.old) (D.faults depot.new) why) }
    ensures sound { let q = piece_at shape.now slot.1 in OnOk result
        (NoneBroken shape.now q (word_of bytes.new) (words_in q)) }
{
    let _pass = pass;
    let (frame, piece) = slot;
    pool.mark(rt, berth, frame);
    pool.claim(rt, berth, frame);
    let before = depot.faults();
    if depot.get(piece, bytes).is_err() {
        pool.abandon(berth);
        return Err(Why::Fault {
            before,
            after: depot.faults(),
        });
    }
    if let Err(damage) = check(shape, piece, bytes) {
        pool.abandon(berth);
        return Err(Why::Damage { word: damage.word });
    }
    put_all(pool, berth, frame, bytes, piece_words(shape, piece));
    pool.publish(berth, piece);
    Ok(())
}

/// Reads the piece of each slot into its frame, one after another, until one fails, while the baton lies free. `buf`
/// has room for any piece.
pub(crate) fn read_all<S: Origin, C: Content, P: Policy, D: Depot, R: Wait>(
    rt: &R,
    pass: &Pass<Desk<S, P, D>>,
    pool: &Pool<C>,
    shape: &Shape,
    berth: &mut Berth<C>,
    buf: &mut [u8],
    depot: &mut D,
    slots: &Slots,
) -> Result<(), Failure>
    requires free { pass.now.holding ≡ false }
    requires shape { IsShape shape.now }
    requires berth { PinsJust pool.now [] berth.old }
    requires frames { AreThere pool.now.shape.frames (pieces shape.now) slots.now }
    requires room { pool.now.shape.words ≡ frame_words shape.now }
    requires buf { length buf.old ≡ 8 * pool.now.shape.words }
    requires gets { D.gets depot.old + length slots.now ≤ 2 ^ 64 - 1 }
    requires alike { TellAlike (D.held depot.old) C.pieces shape.now }
    ensures berth { berth.new ≡ berth.old }
    ensures held { D.held depot.new ≡ D.held depot.old }
    ensures later { D.faults depot.old ≤ D.faults depot.new }
    ensures read { OnOk result (D.gets depot.new ≡ D.gets depot.old + length slots.now) }
    ensures failed { IfErr result (λ f. (f.done < length slots.now)
        × (D.gets depot.new ≡ D.gets depot.old + f.done + 1)) }
    ensures why { IfErr result (λ f. MayReport (D.held depot.old) (D.faults depot.old) (D.faults depot.new) f.why) }
{
    for i in 0..slots.len() {
        let slot = slots.at(i);
        let len = 8 * piece_words(shape, slot.1) as usize;
        if let Err(why) = read_in(rt, pass, pool, shape, berth, &mut buf[..len], depot, slot) {
            return Err(Failure { done: i, why });
        }
    }
    Ok(())
}

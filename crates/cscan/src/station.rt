// One worker's kit.
ghost use Rattle.std.specs.Prelude.{◌≡◌, false, IfErr, IfOk, vec_len};
ghost use Rattle.frame_pool.specs.Berths.{IsBlank};

use abm_policy::Desk;
use baton::Pass;
use coop_outside::Depot;
use frame_pool::{Berth, Content};
use interest_book::Policy;
use scan_story::{Memory, Origin};
use std::alloc::Global;

/// What a worker runs its scans with, one after another: its number from 0, its berth at the pool, its pass of the
/// baton, and a buffer for the bytes of one piece.
///
/// It can't be dropped: `into_parts` gives the berth and the pass back.
pub struct Station<S: Origin, C: Content, P: Policy, D: Depot> {
    pub(crate) number: u32,
    pub(crate) berth: Berth<C>,
    pub(crate) pass: Pass<Desk<S, P, D>>,
    pub(crate) buf: Vec<u8>,
}

impl<S: Origin, C: Content, P: Policy, D: Depot> Station<S, C, P, D> {
    /// The station of a worker, whose buffer has so many bytes: 8 for each word of a frame.
    ///
    /// The pass is the worker's and isn't holding; the berth has no pin and no fill. `Memory` gives both back.
    pub fn new(
        alloc: Global,
        number: u32,
        berth: Berth<C>,
        pass: Pass<Desk<S, P, D>>,
        piece_bytes: u32,
    ) -> Result<Station<S, C, P, D>, (Berth<C>, Pass<Desk<S, P, D>>, Memory)>
        requires number { pass.number ≡ number }
        requires free { pass.holding ≡ false }
        requires blank { IsBlank berth }
        ensures number { IfOk result (λ s. s.number ≡ number) }
        ensures parts { IfOk result (λ s. (s.berth ≡ berth) × (s.pass ≡ pass)) }
        ensures buf { IfOk result (λ s. vec_len s.buf ≡ piece_bytes) }
        ensures back { IfErr result (λ r. (r.0 ≡ berth) × (r.1 ≡ pass)) }
    {
        match vec![in alloc; 0u8; piece_bytes as usize] {
            Ok(buf) => Ok(Station {
                number,
                berth,
                pass,
                buf,
            }),
            Err(_) => Err((berth, pass, Memory)),
        }
    }

    /// The berth and the pass. The berth has no pin and no fill, and the pass isn't holding.
    pub fn into_parts(self) -> (Berth<C>, Pass<Desk<S, P, D>>)
        requires blank { IsBlank self.berth }
        requires free { self.pass.holding ≡ false }
        ensures { (result.0 ≡ self.berth) × (result.1 ≡ self.pass) }
    {
        let Station {
            number: _,
            berth,
            pass,
            buf: _,
        } = self;
        (berth, pass)
    }
}

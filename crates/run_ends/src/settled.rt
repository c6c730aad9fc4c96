// What a run has come to when all is written.
ghost use Rattle.std.specs.Prelude.{◌≡◌, Err, None};
ghost use Rattle.run_ends.specs.OverDevices.{sink_over};
ghost use Rattle.run_ends.specs.Ending.{Prints};

use crate::printing::print;
use batch_ends::Ran;
use coop_outside::Sink;
use run_stops::Stop;

/// What a run has come to when all is written.
#[derive(Drop)]
pub struct Settled<D> {
    /// The status.
    pub status: u8,
    /// What the workers left; none where no worker ran.
    pub ran: Option<Ran>,
    /// The depot.
    pub depot: D,
}

/// Writes the line of a stop that comes of the words, before anything was read.
pub fn refuse<D, O: Sink>(stop: Stop, depot: D, out: &mut O) -> Settled<D>
    ensures prints { Prints (Err stop) result.status (sink_over O.Sink out.old out.new) }
    ensures depot { result.depot ≡ depot }
    ensures idle { result.ran ≡ None }
{
    let status = print(Err(stop), out);
    Settled {
        status,
        ran: None,
        depot,
    }
}

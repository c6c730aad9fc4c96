// What is written of a decision.
ghost use Rattle.run_ends.specs.Deciding.{shown};
ghost use Rattle.run_ends.specs.OverDevices.{sink_over};
ghost use Rattle.run_ends.specs.Ending.{Prints};

use crate::output::Output;
use coop_outside::{Sink, write_all};
use run_stops::Stop;

/// Writes the text of a decision, or the line of its stop, and answers the status. It takes no memory.
pub fn print<O: Sink>(ending: Result<Output, Stop>, out: &mut O) -> u8
    ensures prints { Prints (shown ending) result (sink_over O.Sink out.old out.new) }
{
    match ending {
        Ok(output) => match write_all(out, output.text.as_slice()) {
            Ok(()) => output.status,
            Err(_) => 6,
        },
        Err(stop) => {
            let line = stop.line();
            let _ = write_all(out, line.as_slice());
            stop.status()
        }
    }
}

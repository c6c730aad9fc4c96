// How the program ends.
ghost use Rattle.std.specs.Prelude.{◌≡◌, Err, IfErr, IfOk};
ghost use Rattle.std.specs.Process.{exit_status};
ghost use Rattle.run_ends.specs.OverDevices.{sink_over};
ghost use Rattle.run_ends.specs.Ending.{Prints};

use coop_outside::{Sink, write_all};
use run_stops::Stop;
use std::process::ExitCode;

/// The status that a run ended with; or, where a stop came before it, that of the stop, whose line is written. It takes
/// no memory.
pub fn end<O: Sink>(ended: Result<u8, Stop>, out: &mut O) -> ExitCode
    ensures ran { IfOk ended (λ status. (exit_status result ≡ status) × (O.taken out.new ≡ O.taken out.old)) }
    ensures stopped { IfErr ended (λ stop. Prints (Err stop) (exit_status result) (sink_over O.Sink out.old out.new)) }
{
    match ended {
        Ok(status) => ExitCode::from(status),
        Err(stop) => {
            let _ = write_all(out, stop.line().as_slice());
            ExitCode::from(stop.status())
        }
    }
}

// What each run of a comparison is given.
ghost use Rattle.std.specs.Prelude.{◌≡◌, IfErr, IfOk, IfSome, None, Some};
ghost use Rattle.command_words.specs.Limits.{IsWithinLimits};
ghost use Rattle.command_words.specs.Views.{request_view};
ghost use Rattle.run_stops.specs.declared.stop.Stop.TheVariants as stop;
ghost use Rattle.run_inputs.specs.Ending.{AreInputs, AreKept};
ghost use Rattle.run_inputs.specs.Order.{first_stop};

use command_words::Request;
use run_inputs::{Inputs, ReadTexts, inputs_again};
use run_stops::Stop;
use std::alloc::Global;
use std::hash::RandomState;
use std::thread::Threads;

/// What a run is given: the inputs that were read first, or else those of the texts that were read.
pub fn inputs_for<R: Threads + Sync>(
    rt: &R,
    alloc: Global,
    keys: RandomState,
    request: &Request<'_>,
    texts: &ReadTexts,
    first: Option<Inputs>,
) -> Result<Inputs, Stop>
    requires limits { IsWithinLimits (request_view request.now) }
    requires kept { AreKept (Some texts.now.table) (Some texts.now.batch) texts.now }
    requires accepted { first_stop (request_view request.now) (Some texts.now.table) (Some texts.now.batch) ≡ None }
    requires first { IfSome first (AreInputs (request_view request.now) (Some texts.now.table) (Some texts.now.batch)) }
    ensures given { IfOk result (AreInputs (request_view request.now) (Some texts.now.table) (Some texts.now.batch)) }
    ensures memory { IfErr result (λ s. s ≡ stop.Memory) }
{
    match first {
        Some(inputs) => Ok(inputs),
        None => inputs_again(rt, alloc, keys, request, texts),
    }
}

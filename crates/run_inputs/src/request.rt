// What the words ask for.
ghost use Rattle.std.specs.Prelude.{◌≡◌, ◌⊎◌, Err, IfErr, IfOk, None, Some};
ghost use Rattle.run_inputs.specs.Asked.{asked_of};
ghost use Rattle.command_words.specs.Limits.{IsWithinLimits};
ghost use Rattle.command_words.specs.Views.{request_view};
ghost use Rattle.run_stops.specs.declared.stop.Stop.TheVariants as stop;

use command_words::{Call, Refused, Request, options_of};
use run_stops::Stop;
use std::alloc::Global;

/// What the words after the program's name ask of a call.
///
/// # Errors
///
/// `Usage` exactly where the words are refused, unless out of memory, and `Memory`.
pub fn request_in<'a>(alloc: Global, call: Call, words: &'a [String]) -> Result<Request<'a>, Stop>
    ensures asked { IfOk result (λ r. asked_of call words.now ≡ Some (request_view r)) }
    ensures limits { IfOk result (λ r. IsWithinLimits (request_view r)) }
    ensures usage { result ≡ Err stop.Usage → asked_of call words.now ≡ None }
    ensures errors { IfErr result (λ s. (s ≡ stop.Usage) ⊎ (s ≡ stop.Memory)) }
{
    match options_of(alloc, call, words) {
        Ok(request) => Ok(request),
        Err(Refused::Usage) => Err(Stop::Usage),
        Err(Refused::Memory) => Err(Stop::Memory),
    }
}

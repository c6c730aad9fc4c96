ghost use Rattle.std.specs.Prelude.{◌≡◌, Err, IfOk, None, Some, option_map};
ghost use Rattle.command_words.specs.Matched.{texts};
ghost use Rattle.command_words.specs.Options.{options_of, scratch_of};
ghost use Rattle.command_words.specs.Limits.{IsWithinLimits};
ghost use Rattle.command_words.specs.Views.{request_view};

use crate::call::{Call, Refused};
use crate::command::matches_in;
use crate::request::Request;
use crate::values::Values;
use scan_story::Memory;
use std::alloc::Global;

/// What the words after the program's name ask for.
///
/// Ok comes only with what the accepted words give, and `Usage` only where they give nothing. `Memory` may come at any
/// time and leaves nothing behind.
pub fn options_of<'a>(
    alloc: Global,
    call: Call,
    words: &'a [String],
) -> Result<Request<'a>, Refused>
    ensures ok { IfOk result (λ r. options_of call (texts words.now) ≡ Some (request_view r)) }
    ensures usage { result ≡ Err Refused.Usage → options_of call (texts words.now) ≡ None }
    ensures limits { IfOk result (λ r. IsWithinLimits (request_view r)) }
{
    let matches = matches_in(alloc, call, words)?;
    match Request::of(Values::found(&matches)) {
        Some(request) => Ok(request),
        None => Err(Refused::Usage),
    }
}

/// The value of `--scratch`, where the words are accepted by `Call::RunBoxed` and have it; which policies there are
/// doesn't matter. `Memory` leaves nothing behind.
pub fn scratch_of<'a>(alloc: Global, words: &'a [String]) -> Result<Option<&'a str>, Memory>
    ensures { IfOk result (λ o. option_map (λ s. s.now) o ≡ scratch_of (texts words.now)) }
{
    match options_of(alloc, Call::RunBoxed, words) {
        Ok(request) => Ok(request.scratch),
        Err(Refused::Usage) => Ok(None),
        Err(Refused::Memory) => Err(Memory),
    }
}

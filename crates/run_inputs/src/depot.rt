// The depot that the words ask for.
ghost use Rattle.std.specs.Prelude.{◌≡◌, Err, IfOk, is_some, option_map, string_bytes};
ghost use Rattle.command_words.specs.Matched.{texts};
ghost use Rattle.command_words.specs.Options.{scratch_of as name_of_file};
ghost use Rattle.coop_outside.specs.Either.{any_gets};
ghost use Rattle.run_inputs.specs.Depots.{IsNewFor, is_in_file};

use command_words::scratch_of;
use coop_outside::{AnyDepot, MemDepot, ScratchDepot};
use run_stops::Stop;
use std::alloc::Global;
use std::fs::File;
use std::rt::Files;

// The name of the file that the words ask for, where they ask for one.
fn file_name(alloc: Global, words: &[String]) -> Result<Option<String>, Stop>
    ensures name { IfOk result (λ name. option_map string_bytes name ≡ name_of_file (texts words.now)) }
    ensures refused { (stop : Stop) → result ≡ Err stop → stop ≡ Stop.Memory }
{
    match scratch_of(alloc, words) {
        Ok(Some(name)) => Ok(Some(String::from_str(alloc, name)?)),
        Ok(None) => Ok(None),
        Err(_) => Err(Stop::Memory),
    }
}

// A depot over a file of this name, which isn't made yet, or in memory.
fn depot_named<R: Files<File = File> + Drop>(
    alloc: Global,
    rt: R,
    name: Option<String>,
) -> AnyDepot<R>
    ensures new { IsNewFor (option_map string_bytes name) result }
{
    match name {
        Some(name) => AnyDepot::Scratch(ScratchDepot::new(alloc, rt, name)),
        None => AnyDepot::Mem(MemDepot::new(alloc)),
    }
}

/// The depot that the words behind the program's name ask for: a file of the name behind `--scratch`, which isn't made
/// yet, or memory. docs/COMMAND_LINE.md has the option.
///
/// The error is `Memory`, out of memory; no file was touched.
pub fn depot_of<R: Files<File = File> + Drop>(
    alloc: Global,
    rt: R,
    words: &[String],
) -> Result<AnyDepot<R>, Stop>
    ensures fresh { IfOk result (λ depot. any_gets depot ≡ 0) }
    ensures asked { IfOk result (λ depot. is_in_file depot ≡ is_some (name_of_file (texts words.now))) }
    ensures new { IfOk result (IsNewFor (name_of_file (texts words.now))) }
    ensures refused { (stop : Stop) → result ≡ Err stop → stop ≡ Stop.Memory }
{
    let name = file_name(alloc, words)?;
    Ok(depot_named(alloc, rt, name))
}

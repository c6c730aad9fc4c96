// What the program says.
ghost use Rattle.std.specs.Prelude.{◌⊎◌};
ghost use Rattle.inspect_calls.specs.Saying.{IsSaid, over};
ghost use Rattle.inspect_calls.specs.Replies.{IsAnswer, IsFault, IsMemory, IsStop};

use coop_outside::{Sink, write_all};
use run_stops::Stop;
use std::alloc::Global;

/// What the program says: a text, where it goes, and the status that the program ends with.
#[derive(Drop)]
pub struct Reply {
    pub text: Vec<u8>,
    pub status: u8,
    /// The text goes to standard error, and not to standard output.
    pub is_fault: bool,
}

impl Reply {
    /// Out of memory: 7, without a text.
    pub fn memory(alloc: Global) -> Reply
        ensures { IsMemory result }
    {
        Reply {
            text: Vec::new(alloc),
            status: 7,
            is_fault: true,
        }
    }

    /// This line on standard error, and this status; or out of memory.
    pub fn fault(alloc: Global, status: u8, line: &[u8]) -> Reply
        ensures { IsFault status line.now result ⊎ IsMemory result }
    {
        match Vec::from_slice(alloc, line) {
            Ok(text) => Reply {
                text,
                status,
                is_fault: true,
            },
            Err(_) => Reply::memory(alloc),
        }
    }

    /// What coop_cli says of a table or a batch that it refuses.
    pub(crate) fn stop(alloc: Global, stop: Stop) -> Reply
        ensures { IsStop stop result }
    {
        Reply::fault(alloc, stop.status(), stop.line().as_slice())
    }

    /// This text on standard output, and this status.
    pub(crate) fn answer(status: u8, text: Vec<u8>) -> Reply
        ensures { IsAnswer status text.items result }
    {
        Reply {
            text,
            status,
            is_fault: false,
        }
    }
}

/// Says it, and answers the status that the program ends with: that of the reply, or 6 where standard output failed.
pub fn say<O: Sink, E: Sink>(reply: &Reply, out: &mut O, err: &mut E) -> u8
    ensures { IsSaid reply.now (over (O.taken out.old) (O.taken out.new) (O.faults out.old) (O.faults out.new))
        (over (E.taken err.old) (E.taken err.new) (E.faults err.old) (E.faults err.new)) result }
{
    if reply.is_fault {
        let _ = write_all(err, reply.text.as_slice());
        return reply.status;
    }
    match write_all(out, reply.text.as_slice()) {
        Ok(()) => reply.status,
        Err(_) => 6,
    }
}

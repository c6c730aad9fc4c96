// All of some bytes, to a sink.
ghost use Rattle.std.specs.Prelude.{◌≡◌, ◌≤◌, ◌<◌, take, length, OnOk, IfErr, OnErr};
ghost use Rattle.coop_outside.specs.Causes.{Rose};
ghost use Rattle.coop_outside.specs.Taken.{grown};

use crate::sink::Sink;

/// The sink failed: its count of faults rose, or stands at its last value.
#[derive(Clone, Copy, PartialEq, Eq)]
pub struct WriteFault {
    /// How many bytes the sink had taken: exactly the first ones, and fewer than all.
    pub gone: u64,
}

/// Writes all the bytes, in as many writes as the sink wants. It takes no memory. After an `Err` the sink
/// has taken exactly the first `gone` bytes.
pub fn write_all<O: Sink>(sink: &mut O, bytes: &[u8]) -> Result<(), WriteFault>
    ensures all { OnOk result (O.taken sink.new ≡ grown (O.taken sink.old) bytes.now) }
    ensures part { IfErr result (λ e. (e.gone < length bytes.now)
        × (O.taken sink.new ≡ grown (O.taken sink.old) (take e.gone bytes.now))) }
    ensures cause { OnErr result (Rose (O.faults sink.old) (O.faults sink.new)) }
    ensures later { O.faults sink.old ≤ O.faults sink.new }
{
    let mut gone = 0;
    while gone < bytes.len() {
        match sink.write(&bytes[gone..]) {
            Ok(count) => gone += count,
            Err(_) => return Err(WriteFault { gone: gone as u64 }),
        }
    }
    Ok(())
}

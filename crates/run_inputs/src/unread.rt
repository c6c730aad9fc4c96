// Why the words of the command line could not be had.
ghost use Rattle.std.specs.Prelude.{◌≡◌};
ghost use Rattle.std.specs.IoError.{error_kind};
ghost use Rattle.run_inputs.specs.Unread.{stop_for};

use run_stops::Stop;
use std::io;

/// Why the words could not be had: one that isn't UTF-8 is a faulty command line, and all else is out of memory.
pub fn stop_of(error: io::Error) -> Stop
    ensures stop { result ≡ stop_for (error_kind error) }
{
    if error.kind() == io::ErrorKind::InvalidData {
        Stop::Usage
    } else {
        Stop::Memory
    }
}

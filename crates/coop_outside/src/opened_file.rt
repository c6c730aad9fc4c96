// A file that is read on from where its last read ended.
ghost use Rattle.std.specs.Prelude.{◌≤◌, IfOk, length};

use std::fs::{self, File};
use std::io::{self, ErrorKind, Read, Seek, SeekFrom};
use std::rt::Files;

/// An open file, the name under which it was opened, and where its next read begins, in bytes from 0. Where there was
/// no memory for the name, it has none, and isn't read on.
#[derive(Drop)]
pub(crate) struct OpenedFile {
    name: Option<String>,
    file: File,
    place: u64,
}

impl OpenedFile {
    /// Opens the file of this name, to be read from a place on. What can't be read from another place than its begin,
    /// as a pipe, gives an error where the place isn't 0.
    pub(crate) fn open<R: Files<File = File> + AllocGlobal>(
        rt: &R,
        name: &str,
        place: u64,
    ) -> io::Result<Self> {
        let mut file = fs::open(rt, name)?;
        if place > 0 {
            file.seek(SeekFrom::Start(place))?;
        }
        let name = String::from_str(rt.alloc(), name).ok();
        Ok(OpenedFile { name, file, place })
    }

    /// Tells whether the next read is of this name, from this place on.
    pub(crate) fn is_at(&self, name: &str, place: u64) -> bool {
        match &self.name {
            Some(own) => self.place == place && own.as_str() == name,
            None => false,
        }
    }

    /// Reads on, and says how many bytes it read; a read that the system interrupts is made again.
    pub(crate) fn read(&mut self, buf: &mut [u8]) -> io::Result<usize>
        ensures bound { IfOk result (λ n. n ≤ length buf.new) }
    {
        for _ in 0..u64::MAX {
            match self.file.read(buf) {
                Ok(count) => {
                    self.place = self.place.saturating_add(count as u64);
                    return Ok(count);
                }
                Err(error) if error.kind() == ErrorKind::Interrupted => {}
                Err(error) => return Err(error),
            }
        }
        Err(io::Error::from(ErrorKind::Interrupted))
    }
}

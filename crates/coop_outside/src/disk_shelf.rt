// The files of the system as a shelf.
ghost use Rattle.std.specs.Prelude.{◌≡◌, ◌≤◌, None, IfOk, length};
ghost use Rattle.coop_outside.specs.Real.{shelf_faults};

use crate::failed::Failed;
use crate::opened_file::OpenedFile;
use crate::shelf::Shelf;
use std::fs::File;
use std::io;
use std::rt::Files;

/// The files of the system by their paths, as `std::fs` opens them. It tells no contents, so a name that
/// isn't there is a fault that is counted.
///
/// A file that is read from its begin to its end is opened once, so that it may be a pipe too, as `/dev/stdin` or what
/// a shell puts in the place of `<(..)`. A read elsewhere than where the last one ended opens the file anew.
#[derive(Drop)]
pub struct DiskShelf<R> {
    rt: R,
    opened: Option<OpenedFile>,
    faults: u64,
}

impl<R: Files<File = File> + AllocGlobal + Drop> DiskShelf<R> {
    /// The shelf of the system's files, with no fault counted yet.
    pub fn new(rt: R) -> Self
        ensures fresh { shelf_faults result ≡ 0 }
    {
        DiskShelf {
            rt,
            opened: None,
            faults: 0,
        }
    }

    // Reads on where this is the file and the place, and else opens it; a file whose read fails is closed.
    fn read_part(&mut self, name: &str, place: u64, buf: &mut [u8]) -> io::Result<usize>
        ensures bound { IfOk result (λ n. n ≤ length buf.new) }
        ensures uncounted { shelf_faults self.new ≡ shelf_faults self.old }
    {
        let mut file = match self.opened.take() {
            Some(file) if file.is_at(name, place) => file,
            _ => OpenedFile::open(&self.rt, name, place)?,
        };
        let count = file.read(buf)?;
        self.opened = Some(file);
        Ok(count)
    }
}

impl<R: Files<File = File> + AllocGlobal + Drop> Shelf for DiskShelf<R> {
    ghost held = { λ s. None };

    ghost faults = { λ s. s.faults };

    ghost given = { λ s. 0 };

    fn read_at(&mut self, name: &str, place: u64, buf: &mut [u8]) -> Result<usize, Failed> {
        match self.read_part(name, place, buf) {
            Ok(count) => Ok(count),
            Err(_) => {
                self.faults = self.faults.saturating_add(1);
                Err(Failed)
            }
        }
    }
}

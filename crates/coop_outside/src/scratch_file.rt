// Pieces in a file of its own, one after another, and where each stands.
ghost use Rattle.std.specs.Prelude.{◌≡◌};

use crate::depot::DepotFault;
use std::alloc::Global;
use std::collections::BTreeMap;
use std::fs::{self, File, OpenOptions};
use std::io;
use std::os::unix::fs::FileExt;
use std::rt::Files;

// Where a piece stands in the file, and how many bytes it has.
#[derive(Clone, Copy)]
struct Place {
    from: u64,
    size: usize,
}

/// The file of a scratch depot. A piece is written behind all others, also one that was there before, so a write that
/// fails spoils no piece.
#[derive(Drop)]
pub(crate) struct ScratchFile<R> {
    rt: R,
    path: String,
    file: Option<File>,
    places: BTreeMap<u32, Place>,
    end: u64,
}

impl<R: Files<File = File> + Drop> ScratchFile<R> {
    /// A file of this name, not made yet.
    pub(crate) fn new(alloc: Global, rt: R, path: String) -> Self
        ensures named { result.path ≡ path }
    {
        ScratchFile {
            rt,
            path,
            file: None,
            places: BTreeMap::new(alloc),
            end: 0,
        }
    }

    // The file, which is made where it isn't yet. A file whose name can't be taken away is not kept.
    fn made(&mut self) -> io::Result<&File> {
        if self.file.is_none() {
            let file = OpenOptions::new()
                .read(true)
                .write(true)
                .create_new(true)
                .open(&self.rt, self.path.as_str())?;
            fs::remove_file(&self.rt, self.path.as_str())?;
            self.file = Some(file);
        }
        match &self.file {
            Some(file) => Ok(file),
            None => Err(io::Error::from(io::ErrorKind::NotFound)),
        }
    }

    // Writes the bytes behind all others, and says where they stand; None where that fails.
    fn write(&mut self, bytes: &[u8]) -> Option<Place> {
        let from = self.end;
        let end = from.checked_add(bytes.len() as u64)?;
        let size = bytes.len();
        self.made().ok()?.write_all_at(bytes, from).ok()?;
        self.end = end;
        Some(Place { from, size })
    }

    /// Stores a piece.
    pub(crate) fn put(&mut self, piece: u32, bytes: &[u8]) -> Result<(), DepotFault> {
        match self.write(bytes) {
            Some(place) => match self.places.insert(piece, place) {
                Ok(_) => Ok(()),
                Err(_) => Err(DepotFault::Memory),
            },
            None => Err(DepotFault::Failed),
        }
    }

    /// Reads a piece, and says whether that went well: it was put, it has the length of `buf`, and the file gave all of
    /// it.
    pub(crate) fn get(&self, piece: u32, buf: &mut [u8]) -> bool {
        let Some(place) = self.places.get(&piece) else {
            return false;
        };
        if place.size != buf.len() {
            return false;
        }
        match &self.file {
            Some(file) => file.read_exact_at(buf, place.from).is_ok(),
            None => false,
        }
    }
}

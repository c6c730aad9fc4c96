// Files in memory, for tests.
ghost use Rattle.std.specs.Prelude.{◌≡◌, ◌≤◌, ◌<◌, ◌+◌, ◌&&◌, length, take, drop, not, is_ok, is_some, OnErr};
ghost use Rattle.std.specs.Option.{option_copied};
ghost use Rattle.coop_outside.specs.Files.{file_of, held_in};
ghost use Rattle.coop_outside.specs.Held.{ReadFails, ReadsAt, count_of};
ghost use Rattle.coop_outside.specs.Listed.{counted, counted_if, is_listed};

use crate::bytes::Bytes;
use crate::failed::Failed;
use crate::shelf::Shelf;

/// Files in memory, which it tells. Of several files under one name the first counts.
#[derive(Drop)]
pub struct MemShelf {
    /// Each name with its bytes.
    pub files: Vec<(String, Bytes)>,
    /// The numbers of the reads, counted from 1, that fail.
    pub fail_reads: Vec<u64>,
    /// How many reads there were; it stands still at 2^64 - 1.
    pub calls: u64,
    /// How many reads failed because they are listed; it stands still at 2^64 - 1.
    pub faults: u64,
}

// The bytes of the first file of a name.
fn find<'a>(files: &'a [(String, Bytes)], name: &str) -> Option<&'a Bytes>
    ensures first { option_copied result ≡ file_of files.now name.now }
{
    let mut rest = files;
    while let [file, after @ ..] = rest {
        if file.0.as_str() == name {
            return Some(&file.1);
        }
        rest = after;
    }
    None
}

// Copies the bytes from a place on, as many as there is room for, and says how many.
fn copy_from(bytes: &[u8], place: u64, buf: &mut [u8]) -> usize
    ensures bound { result ≤ length buf.new }
    ensures part { take result buf.new ≡ take result (drop place bytes.now) }
    ensures ended { result ≡ 0 → 0 < length buf.new → length bytes.now ≤ place }
{
    if place >= bytes.len() as u64 {
        return 0;
    }
    let rest = &bytes[place as usize..];
    let count = rest.len().min(buf.len());
    buf[..count].copy_from_slice(&rest[..count]);
    count
}

impl Shelf for MemShelf {
    ghost held = { λ s. held_in s.files.items };

    ghost faults = { λ s. s.faults };

    ghost given = { λ s. 0 };

    fn read_at(&mut self, name: &str, place: u64, buf: &mut [u8]) -> Result<usize, Failed>
        ensures reads { ReadsAt (held_in self.old.files.items) name.now place result buf.new }
        ensures held { held_in self.new.files.items ≡ held_in self.old.files.items }
        ensures later { self.old.faults ≤ self.new.faults }
        ensures given { 0 ≤ 0 + count_of result }
        ensures cause { OnErr result (ReadFails (held_in self.old.files.items) name.now self.old.faults
            self.new.faults) }
        // it fails where the call is listed or the name isn't there, and nowhere else
        ensures answers { is_ok result ≡ (not (is_listed self.old.fail_reads.items self.new.calls)
            && is_some (file_of self.old.files.items name.now)) }
        ensures calls { self.new.calls ≡ counted self.old.calls }
        ensures faults { self.new.faults ≡ counted_if (is_listed self.old.fail_reads.items self.new.calls)
            self.old.faults }
        ensures same { (self.new.files ≡ self.old.files) × (self.new.fail_reads ≡ self.old.fail_reads) }
    {
        self.calls = self.calls.saturating_add(1);
        if self.fail_reads.contains(&self.calls) {
            self.faults = self.faults.saturating_add(1);
            return Err(Failed);
        }
        match find(&self.files, name) {
            Some(file) => Ok(copy_from(file.as_slice(), place, buf)),
            None => Err(Failed),
        }
    }
}

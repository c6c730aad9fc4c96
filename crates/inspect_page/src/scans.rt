ghost use Rattle.std.specs.Prelude.{◌≡◌, ◌+◌, ◌<◌, ◌≤◌, ◌^◌, ◌++◌, ◌∷◌, drop, length, IfOk, OnOk};
ghost use Rattle.inspect_page.specs.Scans.{scan_list, scans};

use crate::scan::Scan;
use crate::tallies::Tallies;
use scan_story::{Entry, Memory};
use std::alloc::Global;

// Puts the scan at the end, where there is one.
fn put(scans: &mut Vec<Scan>, scan: Option<Scan>) -> Result<(), Memory>
    ensures { OnOk result (scans.new.items ≡ scans.old.items ++ scan_list scan) }
{
    let Some(scan) = scan else {
        return Ok(());
    };
    match scans.push(scan) {
        Ok(()) => Ok(()),
        Err(_) => Err(Memory),
    }
}

fn entry_at(entries: &[Entry], place: usize) -> Entry
    requires { place < length entries.now }
    ensures { drop place entries.now ≡ result ∷ drop (place + 1) entries.now }
{
    entries[place]
}

/// The scans of a story, in the order in which their queries register: what the entries from there on say of each. At
/// most 2^30 entries.
///
/// It takes time for each entry, however many queries there are.
pub fn scans_of(alloc: Global, entries: &[Entry]) -> Result<Vec<Scan>, Memory>
    requires size { length entries.now ≤ 2 ^ 30 }
    ensures { IfOk result (λ ss. ss.items ≡ scans entries.now) }
{
    let mut ahead = Tallies::new(alloc);
    let mut scans = Vec::new(alloc);
    let mut place = entries.len();
    while place > 0 {
        place -= 1;
        let number = place as u32 + 1;
        let entry = entry_at(entries, place);
        put(&mut scans, ahead.scan(number, entry))?;
        ahead.note(number, entry)?;
    }
    scans.reverse();
    Ok(scans)
}

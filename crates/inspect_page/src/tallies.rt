// The queries of the entries that are ahead in a story, as a walk back from its end knows them.
ghost use Rattle.std.specs.Prelude.{◌≡◌, ◌==◌, ◌+◌, ◌<◌, ◌^◌, ◌∷◌, [], ℕ, List, OnOk, Some, length, nat_eq};
ghost use Rattle.std.specs.Prelude.{if◌then◌else◌};
ghost use Rattle.std.specs.HashMap.{get};
ghost use Rattle.scan_story.specs.declared.entry.Entry.{Entry};
ghost use Rattle.inspect_page.specs.Ahead.{IsAhead};
ghost use Rattle.inspect_page.specs.Scans.{scan_at, tally_of};

use crate::scan::Scan;
use crate::tally::{Tally, query_of};
use scan_story::{Entry, Memory};
use std::alloc::Global;
use std::collections::HashMap;

#[derive(Drop)]
pub(crate) struct Tallies {
    pub(crate) queries: HashMap<u32, Tally>,
}

fn put(map: &mut HashMap<u32, Tally>, key: u32, tally: Tally) -> Result<(), Memory>
    ensures { OnOk result ((k : ℕ) → get nat_eq map.new k
        ≡ (if key == k then Some tally else get nat_eq map.old k)) }
{
    match map.insert(key, tally) {
        Ok(_) => Ok(()),
        Err(_) => Err(Memory),
    }
}

impl Tallies {
    // Nothing is ahead of the end.
    pub(crate) fn new(alloc: Global) -> Self
        ensures { (i : ℕ) → IsAhead result i [] }
    {
        Tallies {
            queries: HashMap::new(alloc),
        }
    }

    // What the entries ahead say of a query.
    fn of(&self, query: u32) -> Tally
        ensures { (i : ℕ) (es : List Entry) → IsAhead self.now i es → result ≡ tally_of query i es }
    {
        match self.queries.get(&query) {
            Some(tally) => *tally,
            None => Tally::blank(),
        }
    }

    // The walk goes back over the entry with this number.
    pub(crate) fn note(&mut self, number: u32, entry: Entry) -> Result<(), Memory>
        ensures { (es : List Entry) → length es < 2 ^ 31 → IsAhead self.old (number + 1) es
            → OnOk result (IsAhead self.new number (entry ∷ es)) }
    {
        match query_of(entry) {
            None => Ok(()),
            Some(query) => {
                let tally = self.of(query).with_entry(number, entry);
                put(&mut self.queries, query, tally)
            }
        }
    }

    // The scan of a query that registers by the entry with this number.
    pub(crate) fn scan(&self, number: u32, entry: Entry) -> Option<Scan>
        ensures { (es : List Entry) → IsAhead self.now (number + 1) es → result ≡ scan_at number entry es }
    {
        match entry {
            Entry::Register { worker, query } => {
                let tally = self.of(query);
                Some(Scan {
                    worker,
                    query,
                    loads: tally.loads,
                    deliveries: tally.deliveries,
                    failures: tally.failures,
                    first: number,
                    end: tally.end,
                })
            }
            _ => None,
        }
    }
}

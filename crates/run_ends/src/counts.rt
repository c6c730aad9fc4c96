// The counts of a story.
ghost use Rattle.std.specs.Prelude.{◌≡◌, ◌<◌, ◌+◌, ◌-◌, ◌^◌, ◌||◌, ◌==◌, ◌∷◌, [], ℕ, length};
ghost use Rattle.table_sets.specs.Sets.{has};
ghost use Rattle.scan_story.specs.Views.{History, past};
ghost use Rattle.run_ends.specs.Counts.{AreCounts, AreFew};

use scan_story::Entry;
use table_core::ChunkSet;

/// What a story spent, by its entries alone: no setting is asked for.
#[derive(Drop)]
pub struct Counts {
    /// How many pieces were read, or failed to be: the Filled and Failed entries.
    pub reads: u64,
    /// How many chunks were evicted.
    pub evictions: u64,
    /// How many chunks were delivered.
    pub deliveries: u64,
    /// The scans that were stopped, by their numbers, which are below 1024. Each counts once.
    pub stopped: ChunkSet,
}

// Makes a scan's number a member, where it may be one.
fn add(set: &mut ChunkSet, number: u32)
    ensures { (x : ℕ) → x < 1024 → has set.new x ≡ (number == x || has set.old x) }
{
    if number < 1024 {
        set.insert(number);
    }
}

impl Counts {
    // Those of no entry.
    fn none() -> Self
        ensures counts { AreCounts [] result }
        ensures few { AreFew 0 result }
    {
        Counts {
            reads: 0,
            evictions: 0,
            deliveries: 0,
            stopped: ChunkSet::empty(),
        }
    }

    // Counts one entry more.
    fn note(&mut self, entry: &Entry)
        requires few { (n : ℕ) × AreFew n self.old × (n < 2 ^ 64 - 1) }
        ensures counts { (h : History) → AreCounts h self.old → AreCounts (entry.now ∷ h) self.new }
        ensures few { (n : ℕ) → AreFew n self.old → AreFew (n + 1) self.new }
    {
        match *entry {
            Entry::Filled { .. } => self.reads += 1,
            Entry::Failed { query, .. } => {
                self.reads += 1;
                add(&mut self.stopped, query);
            }
            Entry::Evict { .. } => self.evictions += 1,
            Entry::Deliver { .. } => self.deliveries += 1,
            Entry::Stop { query, .. } => add(&mut self.stopped, query),
            _ => {}
        }
    }

    /// The counts of a story, the oldest entry first. It takes no memory.
    pub fn of(story: &[Entry]) -> Self
        ensures counts { AreCounts (past story.now) result }
        ensures few { AreFew (length story.now) result }
    {
        let mut counts = Counts::none();
        for entry in story {
            counts.note(entry);
        }
        counts
    }
}

//! What is kept of one query.
ghost use Rattle.std.specs.Prelude.{◌≡◌, ◌+◌, ◌<◌, ◌^◌, ◌∷◌, ◌==◌, ◌&&◌, ℕ, []};
ghost use Rattle.std.specs.Prelude.{None, Some, length, true, false, if◌then◌else◌};
ghost use Rattle.scan_story.specs.Counting.{has};
ghost use Rattle.chunk_interest.specs.Frames.{missing_in};
ghost use Rattle.chunk_interest.specs.Counted.{size_of};
ghost use Rattle.chunk_interest.specs.Fresh.{IsFresh, as_need};
ghost use Rattle.chunk_interest.specs.Renewed.{IsRenewed};
ghost use Rattle.scan_story.specs.declared.entry.Why.{Why};
ghost use Rattle.scan_story.specs.declared.entry.Entry.TheVariants.{Register, Failed, Deliver, Release, Stop, End};
ghost use Rattle.scan_story.specs.declared.setting.Setting.{Setting};
ghost use Rattle.scan_story.specs.Views.{History, is_stopped};
ghost use Rattle.chunk_interest.specs.Clients.{IsClient, IsReady, is_active_phase};
ghost use Rattle.chunk_interest.specs.Marked.{is_active, is_starved, is_near, is_over, IsNear};

use crate::buffer::Buffer;
use crate::counted_set::CountedSet;
use crate::need::Need;
use scan_story::Phase;
use table_sets::ColumnSet;

/// The query with one number: its need, if it has one, and how far it has come.
#[derive(Drop)]
pub struct Client {
    /// The worker of its need; none where it has no need.
    pub worker: Option<u32>,
    /// The columns of its need.
    pub columns: ColumnSet,
    /// The groups that it reads.
    pub reads: ColumnSet,
    /// How far it has come.
    pub phase: Phase,
    /// The chunks that it needs.
    pub remaining: CountedSet,
    /// The chunks that are available to it.
    pub available: CountedSet,
    /// The entry with which its wait began, counted from 1.
    pub began: Option<u64>,
}

// The groups that are read: the one group, or else the columns.
fn groups_read(columns: &ColumnSet, groups: u32) -> ColumnSet
    ensures { (g : ℕ) → has result g ≡ has (if groups == 1 then 0 ∷ [] else columns.now) g }
{
    if groups != 1 {
        return columns.copy();
    }
    let mut one = ColumnSet::empty();
    one.insert(0);
    one
}

impl Client {
    /// The query of a number without a need.
    pub fn vacant(groups: u32) -> Client
        ensures { IsFresh groups None result }
    {
        let columns = ColumnSet::empty();
        Client {
            worker: None,
            reads: groups_read(&columns, groups),
            columns,
            phase: Phase::Waiting,
            remaining: CountedSet::empty(),
            available: CountedSet::empty(),
            began: None,
        }
    }

    /// Becomes the query of a need.
    pub fn take(&mut self, need: &Need, groups: u32)
        ensures { IsFresh groups (Some (as_need need.now)) self.new }
    {
        self.worker = Some(need.worker);
        self.columns = need.columns.copy();
        self.reads = groups_read(&need.columns, groups);
        self.phase = Phase::Waiting;
        self.remaining = CountedSet::of(&need.chunks);
        self.available = CountedSet::empty();
        self.began = None;
    }

    /// The same once more.
    pub fn copy(&self) -> Client
        ensures { result ≡ self.now }
    {
        Client {
            worker: self.worker,
            columns: self.columns.copy(),
            reads: self.reads.copy(),
            phase: self.phase,
            remaining: self.remaining.copy(),
            available: self.available.copy(),
            began: self.began,
        }
    }

    /// Follows its Register, which has `noted` entries before it.
    pub fn register(&mut self, noted: u64)
        requires { noted < 2 ^ 63 }
        ensures follows { (s : Setting) (h : History) (w q : ℕ) → length h ≡ noted → IsClient s h q self.old
            → IsClient s (Register w q ∷ h) q self.new }
        ensures available { self.new.available ≡ self.old.available }
        ensures near { IsNear 0 self.old self.new }
    {
        if self.phase == Phase::Waiting {
            self.phase = Phase::Active;
        }
        self.began = Some(noted + 1);
    }

    /// Follows a Release of a chunk that was held for it.
    pub fn release(&mut self, noted: u64)
        requires { noted < 2 ^ 63 }
        ensures follows { (s : Setting) (h : History) (w q c : ℕ) → length h ≡ noted → IsClient s h q self.old
            → IsClient s (Release w q c ∷ h) q self.new }
        ensures phase { self.new.phase ≡ self.old.phase }
        ensures available { self.new.available ≡ self.old.available }
        ensures near { IsNear 0 self.old self.new }
    {
        let now = noted + 1;
        self.began = Some(now);
    }

    /// Follows a Deliver of the chunk to it.
    pub fn deliver(&mut self, c: u32)
        requires { c < 1024 }
        ensures follows { (s : Setting) (h : History) (w q : ℕ) → IsClient s h q self.old
            → IsClient s (Deliver w q c ∷ h) q self.new }
        ensures ready { (s : Setting) (h : History) (w q : ℕ) → IsReady s h q self.old
            → IsReady s (Deliver w q c ∷ h) q self.new }
        ensures phase { self.new.phase ≡ self.old.phase }
        ensures near { IsNear c self.old self.new }
    {
        self.remaining.remove(c);
        self.available.remove(c);
    }

    /// Follows its Stop, or the Failed of a load that it triggered.
    pub fn stop(&mut self)
        ensures stop { (s : Setting) (h : History) (w q : ℕ) → IsClient s h q self.old
            → IsClient s (Stop w q ∷ h) q self.new }
        ensures failed { (s : Setting) (h : History) (w q p : ℕ) (why : Why) → IsClient s h q self.old
            → IsClient s (Failed w q p why ∷ h) q self.new }
        ensures stop_ready { (s : Setting) (h : History) (w q : ℕ) → IsReady s (Stop w q ∷ h) q self.new }
        ensures failed_ready { (s : Setting) (h : History) (w q p : ℕ) (why : Why)
            → IsReady s (Failed w q p why ∷ h) q self.new }
        ensures over { is_over self.new ≡ true }
    {
        self.phase = Phase::Stopped;
        self.remaining = CountedSet::empty();
        self.available = CountedSet::empty();
    }

    /// Follows its End.
    pub fn end(&mut self)
        ensures follows { (s : Setting) (h : History) (w q : ℕ) → is_stopped h q ≡ false → IsClient s h q self.old
            → IsClient s (End w q ∷ h) q self.new }
        ensures ready { (s : Setting) (h : History) (w q : ℕ) → IsReady s (End w q ∷ h) q self.new }
        ensures over { is_over self.new ≡ true }
    {
        self.phase = Phase::Ended;
        self.remaining = CountedSet::empty();
        self.available = CountedSet::empty();
    }

    /// Whether it is registered, neither stopped nor ended.
    pub fn is_active(&self) -> bool
        ensures { result ≡ is_active_phase self.now.phase }
    {
        matches!(self.phase, Phase::Active)
    }

    /// Whether it ended or was stopped.
    pub fn is_over(&self) -> bool
        ensures { result ≡ is_over self.now }
    {
        matches!(self.phase, Phase::Ended | Phase::Stopped)
    }

    /// Whether it is active, with fewer than two chunks available.
    pub fn is_starved(&self) -> bool
        ensures { result ≡ is_starved self.now }
    {
        self.is_active() && self.ready() < 2
    }

    /// Whether it is active, with at most two chunks available.
    pub fn is_near(&self) -> bool
        ensures { result ≡ is_near self.now }
    {
        self.is_active() && self.ready() <= 2
    }

    /// Whether it needs the chunk, and no piece of it that it reads is missing.
    pub fn can_take(&self, buffer: &Buffer, c: u32) -> bool
        requires { c < 1024 }
        ensures { result ≡ (has self.now.remaining c && missing_in buffer.now.places.items buffer.now.groups
            self.now.reads c == 0) }
    {
        self.remaining.has(c) && buffer.missing_for(&self.reads, c) == 0
    }

    /// Looks up anew whether the chunk is available, and answers whether that has changed.
    pub fn renew(&mut self, buffer: &Buffer, c: u32) -> bool
        requires { c < 1024 }
        ensures renewed { IsRenewed buffer.now.places.items buffer.now.groups c self.old self.new }
        ensures same { result ≡ false → self.new ≡ self.old }
    {
        let is = self.can_take(buffer, c);
        if is == self.available.has(c) {
            return false;
        }
        if is {
            self.available.insert(c);
        } else {
            self.available.remove(c);
        }
        true
    }

    /// How many chunks it needs.
    pub fn needed(&self) -> u32
        ensures { result ≡ size_of self.now.remaining }
    {
        self.remaining.size()
    }

    /// How many chunks are available to it.
    pub fn ready(&self) -> u32
        ensures { result ≡ size_of self.now.available }
    {
        self.available.size()
    }
}

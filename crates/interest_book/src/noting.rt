//! A book follows entries, each kind in its own way.
use crate::book::Book;
use crate::loading::{Loading, after_fill};
use scan_story::{Entry, Hold};

impl Book {
    ghost use Rattle.std.specs.Prelude.{◌≡◌, ◌∷◌, ◌^◌, ◌-◌, ◌/◌, ◌<◌, ◌≤◌, ℕ, length};
    ghost use Rattle.scan_story.specs.declared.entry.Why.{Why};
    ghost use Rattle.scan_story.specs.declared.entry.Entry.TheVariants.{Register, Plan, Evict, Fill, Filled};
    ghost use Rattle.scan_story.specs.declared.entry.Entry.TheVariants.{Failed, Deliver, Release, Stop, End};
    ghost use Rattle.scan_story.specs.declared.setting.Setting.{Setting};
    ghost use Rattle.scan_story.specs.Views.{History};
    ghost use Rattle.scan_story.specs.MayFollow.{Allowed};
    ghost use Rattle.interest_book.specs.Stands.{Stands, MayFollow};

    fn note_register(&mut self, query: u32)
        requires query { query ≤ 256 }
        requires some { 0 < query }
        requires few { self.old.noted < 2 ^ 63 - 1 }
        ensures { (s : Setting) (h : History) (w : ℕ) → Stands self.old s h → Allowed s h (Register w query)
            → Stands self.new s (Register w query ∷ h) }
    {
        self.clients.register(query, self.noted);
        self.noted += 1;
    }

    fn note_plan(&mut self, worker: u32, query: u32, chunk: u32)
        requires query { query ≤ 256 }
        requires chunk { chunk < 1024 }
        requires few { self.old.noted < 2 ^ 63 - 1 }
        ensures { (s : Setting) (h : History) → Stands self.old s h → Allowed s h (Plan worker query chunk)
            → Stands self.new s (Plan worker query chunk ∷ h) }
    {
        let left = self
            .buffer
            .missing_for(&self.clients.of(query).reads, chunk);
        self.loading = Some(Loading {
            worker,
            query,
            chunk,
            left,
        });
        self.noted += 1;
    }

    fn note_evict(&mut self, chunk: u32)
        requires chunk { chunk < 1024 }
        requires few { self.old.noted < 2 ^ 63 - 1 }
        ensures { (s : Setting) (h : History) (w : ℕ) → Stands self.old s h → Allowed s h (Evict w chunk)
            → Stands self.new s (Evict w chunk ∷ h) }
    {
        self.buffer.evict(chunk);
        self.clients.renew(&self.buffer, chunk);
        self.noted += 1;
    }

    fn note_fill(&mut self, frame: u32, piece: u32)
        requires frame { frame < length self.old.buffer.frames }
        requires few { self.old.noted < 2 ^ 63 - 1 }
        ensures { (s : Setting) (h : History) (w : ℕ) → Stands self.old s h → Allowed s h (Fill w frame piece)
            → Stands self.new s (Fill w frame piece ∷ h) }
    {
        self.buffer.begin(frame, piece);
        self.noted += 1;
    }

    fn note_filled(&mut self, frame: u32, piece: u32)
        requires frame { frame < length self.old.buffer.frames }
        requires piece { piece / self.old.buffer.groups < 1024 }
        requires few { self.old.noted < 2 ^ 63 - 1 }
        ensures { (s : Setting) (h : History) (w : ℕ) → Stands self.old s h → Allowed s h (Filled w frame piece)
            → Stands self.new s (Filled w frame piece ∷ h) }
    {
        let chunk = piece / self.buffer.groups;
        let loading = after_fill(self.loading);
        self.loading = loading;
        self.buffer.finish(frame, piece, loading.is_none());
        self.clients.renew(&self.buffer, chunk);
        self.noted += 1;
    }

    fn note_failed(&mut self, query: u32)
        requires query { query ≤ 256 }
        requires few { self.old.noted < 2 ^ 63 - 1 }
        ensures { (s : Setting) (h : History) (w p : ℕ) (why : Why) → Stands self.old s h
            → Allowed s h (Failed w query p why) → Stands self.new s (Failed w query p why ∷ h) }
    {
        self.clients.stop(query);
        self.buffer.give_up();
        self.loading = None;
        self.noted += 1;
    }

    fn note_deliver(&mut self, worker: u32, query: u32, chunk: u32)
        requires worker { worker < 32 }
        requires query { query ≤ 256 }
        requires chunk { chunk < 1024 }
        requires few { self.old.noted < 2 ^ 63 - 1 }
        ensures { (s : Setting) (h : History) → Stands self.old s h → Allowed s h (Deliver worker query chunk)
            → Stands self.new s (Deliver worker query chunk ∷ h) }
    {
        self.clients.deliver(query, chunk);
        self.holds[worker as usize] = Some(Hold { query, chunk });
        self.noted += 1;
    }

    fn note_release(&mut self, worker: u32, query: u32)
        requires worker { worker < 32 }
        requires query { query ≤ 256 }
        requires few { self.old.noted < 2 ^ 63 - 1 }
        ensures { (s : Setting) (h : History) (c : ℕ) → Stands self.old s h → Allowed s h (Release worker query c)
            → Stands self.new s (Release worker query c ∷ h) }
    {
        self.clients.release(query, self.noted);
        self.holds[worker as usize] = None;
        self.noted += 1;
    }

    fn note_stop(&mut self, query: u32)
        requires query { query ≤ 256 }
        requires few { self.old.noted < 2 ^ 63 - 1 }
        ensures { (s : Setting) (h : History) (w : ℕ) → Stands self.old s h → Allowed s h (Stop w query)
            → Stands self.new s (Stop w query ∷ h) }
    {
        self.clients.stop(query);
        self.noted += 1;
    }

    fn note_end(&mut self, query: u32)
        requires query { query ≤ 256 }
        requires few { self.old.noted < 2 ^ 63 - 1 }
        ensures { (s : Setting) (h : History) (w : ℕ) → Stands self.old s h → Allowed s h (End w query)
            → Stands self.new s (End w query ∷ h) }
    {
        self.clients.end(query);
        self.noted += 1;
    }

    /// Stands for one entry more. It takes no memory.
    ///
    /// The entry may follow those before it, which are fewer than 9223372036854775807.
    pub fn note(&mut self, entry: &Entry)
        requires { MayFollow self.old entry.now }
        ensures { (s : Setting) (h : History) → Stands self.old s h → Allowed s h entry.now
            → Stands self.new s (entry.now ∷ h) }
    {
        match *entry {
            Entry::Register { query, .. } => self.note_register(query),
            Entry::Plan {
                worker,
                query,
                chunk,
            } => self.note_plan(worker, query, chunk),
            Entry::Evict { chunk, .. } => self.note_evict(chunk),
            Entry::Fill { frame, piece, .. } => self.note_fill(frame, piece),
            Entry::Filled { frame, piece, .. } => self.note_filled(frame, piece),
            Entry::Failed { query, .. } => self.note_failed(query),
            Entry::Deliver {
                worker,
                query,
                chunk,
            } => self.note_deliver(worker, query, chunk),
            Entry::Release { worker, query, .. } => self.note_release(worker, query),
            Entry::Stop { query, .. } => self.note_stop(query),
            Entry::End { query, .. } => self.note_end(query),
        }
    }
}

//! Workers that write into one diary, each in a thread of its own.
ghost use Rattle.std.specs.Prelude.{◌≡◌, ◌+◌, ◌<◌, ◌≤◌, ◌++◌, ◌∷◌, [], All, IfOk};
ghost use Rattle.std.specs.Prelude.{OnOk, OnErr, length, vec_len, vec_capacity};
ghost use Rattle.std.specs.List.{AllZip};
ghost use Rattle.scan_story.specs.Makers.{maker_of, entries_by};
ghost use Rattle.scan_story.specs.declared.entry.Entry.TheVariants.{Register};
ghost use Rattle.baton.specs.Passes.{IsFree, Went, new_passes};
ghost use Rattle.example_threads.specs.Diaries.{IsReady, HasWritten, IsDone, IsLeft, HasNotes};

use baton::{Baton, Pass};
use scan_story::{Entry, Memory, Origin, Storied};
use std::alloc::Global;
use std::marker::{Model, PhantomData};
use std::sync::Wait;
use std::thread;
use std::thread::Threads;

/// A state whose story is all that it has. Contracts see its entries.
#[derive(Drop)]
pub struct Diary<S: Origin> {
    entries: Vec<Entry>,
    origin: PhantomData<S>,
}

impl<S: Origin> Model for Diary<S> {
    ghost use Rattle.std.specs.Prelude.{List};
    ghost use Rattle.scan_story.specs.declared.entry.Entry.{Entry};

    ghost Value = { List Entry };

    ghost view = { λ d. d.entries.items };
}

impl<S: Origin> Storied for Diary<S> {
    ghost origin = { λ _. S.origin };

    ghost story = { λ d. d };
}

impl<S: Origin> Diary<S> {
    /// An empty diary.
    pub fn new(alloc: Global) -> Diary<S>
        ensures { result ≡ [] }
    {
        Diary {
            entries: Vec::new(alloc),
            origin: PhantomData,
        }
    }

    /// Writes the entry behind the others. Where memory runs out, nothing is written.
    pub fn write(&mut self, entry: Entry) -> Result<(), Memory>
        ensures wrote { OnOk result (self.new ≡ self.old ++ entry ∷ []) }
        ensures kept { OnErr result (self.new ≡ self.old) }
    {
        match self.entries.push(entry) {
            Ok(()) => Ok(()),
            Err(_) => Err(Memory),
        }
    }

    /// What was written.
    pub fn into_entries(self) -> Vec<Entry>
        ensures { result.items ≡ self }
    {
        let Diary { entries, origin: _ } = self;
        entries
    }
}

/// A turn: the pass's worker takes the diary, writes an entry of its own and gives the diary back.
pub fn turn<S: Origin, R: Wait>(
    rt: &R,
    baton: &Baton<Diary<S>>,
    pass: &mut Pass<Diary<S>>,
    entry: Entry,
) -> Result<(), Memory>
    requires free { IsFree baton.now pass.old }
    requires own { maker_of entry ≡ pass.old.number }
    ensures wrote { OnOk result (Went pass.old pass.new (entry ∷ [])) }
    ensures kept { OnErr result (Went pass.old pass.new []) }
{
    let mut diary = baton.take(rt, pass);
    match diary.write(entry) {
        Ok(()) => {
            baton.give(rt, pass, diary);
            Ok(())
        }
        Err(Memory) => {
            baton.give(rt, pass, diary);
            Err(Memory)
        }
    }
}

/// Two workers register a query each: the second worker first, and then the first.
pub fn hand_on<S: Origin, R: Wait>(rt: &R, alloc: Global) -> Result<Vec<Entry>, Memory>
    ensures first { IfOk result (λ all. entries_by 0 all.items ≡ Register 0 1 ∷ []) }
    ensures second { IfOk result (λ all. entries_by 1 all.items ≡ Register 1 2 ∷ []) }
{
    let (baton, mut passes) = match Baton::new(alloc, Diary::<S>::new(alloc), 2) {
        Ok(made) => made,
        Err((_, Memory)) => return Err(Memory),
    };
    let second = Entry::Register {
        worker: 1,
        query: 2,
    };
    turn(rt, &baton, &mut passes[1], second)?;
    let first = Entry::Register {
        worker: 0,
        query: 1,
    };
    turn(rt, &baton, &mut passes[0], first)?;
    let diary = baton.finish(rt, passes);
    Ok(diary.into_entries())
}

/// A worker with its number and its pass, that is to take so many turns and has taken some.
#[derive(Drop)]
pub struct Writer<S: Origin> {
    pub number: u32,
    pub turns: u32,
    pub done: u32,
    pub pass: Pass<Diary<S>>,
}

// Takes the writer's turns, as long as there is memory, and notes a chunk in each.
fn write_notes<S: Origin, R: Wait>(rt: &R, baton: &Baton<Diary<S>>, writer: &mut Writer<S>)
    requires { IsReady baton.now writer.old }
    ensures { HasWritten writer.old writer.new }
{
    for chunk in 0..writer.turns {
        let note = Entry::Release {
            worker: writer.number,
            query: 1,
            chunk,
        };
        if turn(rt, baton, &mut writer.pass, note).is_err() {
            break;
        }
        writer.done += 1;
    }
}

// Lets all writers take their turns at once, each in a thread of its own as far as there are threads.
fn write_all<S: Origin + Send + Sync, R: Threads + Wait + Sync>(
    rt: &R,
    baton: &Baton<Diary<S>>,
    writers: &mut [Writer<S>],
)
    requires some { 0 < length writers.old }
    requires ready { All (IsReady baton.now) writers.old }
    ensures { AllZip HasWritten writers.old writers.new }
{
    let threads = writers.len();
    thread::for_each_mut(
        rt,
        writers,
        threads,
        &|_, writer|
            requires { IsReady baton.now writer.now }
            ensures { HasWritten writer.entry.now writer.exit.now }
        { write_notes(rt, baton, writer) },
    );
}

/// Writers in a thread each: the diary, and beside each writer's number how many turns it took. The diary has just each
/// writer's notes, in their order.
pub fn write_at_once<S: Origin + Send + Sync, R: Threads + Wait + Sync>(
    rt: &R,
    alloc: Global,
    workers: u32,
    turns: u32,
) -> Result<(Vec<Entry>, Vec<(u32, u32)>), Memory>
    requires { (1 ≤ workers) × (workers ≤ 32) }
    ensures { IfOk result (λ r. (vec_len r.1 ≡ workers) × All (HasNotes r.0.items) r.1.items) }
{
    let Ok(writers) = Vec::with_capacity(alloc, workers as usize) else {
        return Err(Memory);
    };
    let Ok(back) = Vec::with_capacity(alloc, workers as usize) else {
        return Err(Memory);
    };
    let Ok(counts) = Vec::with_capacity(alloc, workers as usize) else {
        return Err(Memory);
    };
    let (baton, passes) = match Baton::new(alloc, Diary::<S>::new(alloc), workers) {
        Ok(made) => made,
        Err((_, Memory)) => return Err(Memory),
    };
    let mut writers = seated(&baton, passes, writers, turns);
    write_all(rt, &baton, writers.as_mut_slice());
    let (passes, counts) = unseated(&baton, writers, back, counts);
    let diary = baton.finish(rt, passes);
    Ok((diary.into_entries(), counts))
}

// A writer for each pass, the last one first.
fn seated<S: Origin>(
    baton: &Baton<Diary<S>>,
    mut passes: Vec<Pass<Diary<S>>>,
    mut writers: Vec<Writer<S>>,
    turns: u32,
) -> Vec<Writer<S>>
    requires passes { passes.items ≡ new_passes baton.now S.origin [] (vec_len passes) }
    requires count { vec_len passes ≤ 32 }
    requires room { (writers.items ≡ []) × (vec_len passes ≤ vec_capacity writers) }
    ensures ready { All (IsReady baton.now) result.items }
    ensures count { vec_len result ≡ vec_len passes }
{
    while let Some(pass) = passes.pop() {
        writers.push_reserved(Writer {
            number: passes.len() as u32,
            turns,
            done: 0,
            pass,
        });
    }
    writers
}

// The writers' passes, and beside each pass the writer's number and turns.
fn unseated<S: Origin>(
    baton: &Baton<Diary<S>>,
    mut writers: Vec<Writer<S>>,
    mut passes: Vec<Pass<Diary<S>>>,
    mut counts: Vec<(u32, u32)>,
) -> (Vec<Pass<Diary<S>>>, Vec<(u32, u32)>)
    requires done { All (IsDone baton.now) writers.items }
    requires room { (passes.items ≡ []) × (counts.items ≡ []) × (vec_len writers ≤ vec_capacity passes)
        × (vec_len writers ≤ vec_capacity counts) }
    ensures left { AllZip (IsLeft baton.now) result.0.items result.1.items }
    ensures count { (vec_len result.0 ≡ vec_len writers) × (vec_len result.1 ≡ vec_len writers) }
{
    while let Some(writer) = writers.pop() {
        let Writer {
            number,
            turns: _,
            done,
            pass,
        } = writer;
        passes.push_reserved(pass);
        counts.push_reserved((number, done));
    }
    (passes, counts)
}

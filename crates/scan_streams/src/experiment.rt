// What is played.
ghost use Rattle.std.specs.Prelude.{◌≡◌, ◌≤◌, ◌+◌, ◌-◌, ◌/◌, IfOk};
ghost use Rattle.command_words.specs.declared.limits.TheConstants.{MOST_FRAMES, MOST_GENERATED_ROWS, MOST_WORKERS};
ghost use Rattle.table_sets.specs.declared.limits.TheConstants.{MOST_CHUNK_ROWS};
ghost use Rattle.scan_streams.specs.declared.experiment.TheConstants.{MOST_QUERIES};

use crate::kind::Kind;
use coop_run::{Layout, Settings};
use std::alloc::{AllocError, Global};

/// The most queries of a stream.
pub(crate) const MOST_QUERIES: u32 = 256;

/// The name under which the batch lies on the shelf.
pub(crate) const BATCH: &str = "streams.sql";

/// How many streams of how many queries are played, over which table, with how many frames and how slow a depot.
#[derive(Clone, Copy, Debug)]
pub(crate) struct Experiment {
    /// How many streams there are, each on a worker of its own.
    pub streams: u32,
    /// How many queries a stream has, which run one after another.
    pub queries: u32,
    /// How many rows a chunk has.
    pub chunk_rows: u32,
    /// How many rows the table has.
    pub table_rows: u32,
    /// How many frames the buffer has.
    pub frames: u32,
    /// How many microseconds a get takes.
    pub get_us: u32,
    /// How many microseconds a fast query takes for each chunk, beside its work on the rows.
    pub fast_us: u32,
    /// How many microseconds a slow query takes for each chunk, beside its work on the rows.
    pub slow_us: u32,
    /// How many queries may be at such work at once.
    pub processors: u32,
    /// How many microseconds after the stream before it each stream begins.
    pub stagger_us: u32,
    /// The kind of all queries; where there is none, that of each is drawn.
    pub kind: Option<Kind>,
    /// The seed of the table and of the queries.
    pub seed: u32,
    ghost streams_within: { (1 ≤ streams) × (streams ≤ MOST_WORKERS) },
    ghost queries_within: { (1 ≤ queries) × (queries ≤ MOST_QUERIES) },
    ghost chunk_within: { (1 ≤ chunk_rows) × (chunk_rows ≤ MOST_CHUNK_ROWS) },
    ghost table_within: { (1 ≤ table_rows) × (table_rows ≤ MOST_GENERATED_ROWS) },
    ghost processors_within: { (1 ≤ processors) × (processors ≤ MOST_WORKERS) },
    ghost frames_within: { (1 ≤ frames) × (frames ≤ MOST_FRAMES) },
}

impl Experiment {
    ghost use Rattle.command_words.specs.Limits.{IsFrom, IsWithinLimits};
    ghost use Rattle.run_ends.specs.Settings.{asked_in_settings};

    /// How many queries stand before those that were drawn: one for each stream, where they don't begin together.
    pub(crate) fn starters(&self) -> usize
        ensures few { result ≤ self.now.streams }
    {
        if self.stagger_us == 0 {
            return 0;
        }
        self.streams as usize
    }

    /// How many chunks the table has.
    pub(crate) fn chunks(&self) -> u32
        ensures { result ≡ (self.now.table_rows + self.now.chunk_rows - 1) / self.now.chunk_rows }
    {
        self.table_rows.div_ceil(self.chunk_rows)
    }

    /// The settings of a run on so many workers.
    pub(crate) fn settings(&self, alloc: Global, workers: u32) -> Result<Settings, AllocError>
        requires workers { IsFrom 1 MOST_WORKERS workers }
        ensures limits { IfOk result (λ settings. IsWithinLimits (asked_in_settings settings)) }
        ensures workers { IfOk result (λ settings. settings.workers ≡ workers) }
    {
        let Experiment {
            seed,
            table_rows,
            ..
        } = *self;
        Ok(Settings {
            workers,
            frames: Some(self.frames),
            per: self.chunk_rows,
            layout: Layout::Row,
            parts: 1,
            summary: false,
            trace: false,
            table: format!(in alloc; "gen:{seed}:{table_rows}")?,
            batch: String::from_str(alloc, BATCH)?,
        })
    }
}

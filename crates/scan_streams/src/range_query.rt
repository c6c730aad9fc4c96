// The queries that are played.
ghost use Rattle.std.specs.Prelude.{◌≡◌, ◌≤◌, ◌<◌, ◌+◌, ◌-◌, ◌*◌, ◌/◌, ◌^◌, All, IfOk, Some, length, max, vec_len};
ghost use Rattle.command_words.specs.declared.limits.TheConstants.{MOST_GENERATED_ROWS};

use crate::experiment::Experiment;
use crate::kind::Kind;
use rand_core::Rng;
use rand_pcg::Pcg32;
use std::alloc::{AllocError, Global};

// The stream of the generator that draws the queries.
const DRAWS: u64 = 35;

/// A sum and a count over the rows whose `id` lies in a range.
#[derive(Clone, Copy, Debug)]
pub(crate) struct RangeQuery {
    /// What it reads, and how fast.
    pub kind: Kind,
    /// The first row of its range, from 0.
    pub least: u32,
    /// How many rows its range has.
    pub width: u32,
    ghost some: { 1 ≤ width },
    ghost within: { least + width ≤ MOST_GENERATED_ROWS },
}

impl RangeQuery {
    /// A query of the kind over a table of so many rows, at a place that the draw picks. Its range has at least one
    /// row.
    pub(crate) fn placed(kind: Kind, table_rows: u32, draw: u32) -> Self
        requires some { 1 ≤ table_rows }
        requires within { table_rows ≤ MOST_GENERATED_ROWS }
        ensures kind { result.kind ≡ kind }
        ensures width { result.width ≡ max 1 (table_rows * kind.percent / 100) }
        ensures inside { result.least + result.width ≤ table_rows }
    {
        let width = (table_rows * kind.percent / 100).max(1);
        let least = draw % (table_rows - width + 1);
        RangeQuery { kind, least, width }
    }

    /// How many chunks of so many rows its range lies in.
    pub(crate) fn chunks(&self, chunk_rows: u32) -> u32
        requires some { 1 ≤ chunk_rows }
        ensures chunks { result + self.now.least / chunk_rows
            ≡ (self.now.least + self.now.width - 1) / chunk_rows + 1 }
    {
        let last = self.least + self.width - 1;
        last / chunk_rows - self.least / chunk_rows + 1
    }
}

/// The queries of an experiment, in the order of their numbers. Query i, from 0, is in the stream i modulo the streams.
pub(crate) fn drawn(alloc: Global, experiment: &Experiment) -> Result<Vec<RangeQuery>, AllocError>
    ensures all { IfOk result (λ queries. vec_len queries ≡ experiment.now.streams * experiment.now.queries) }
    ensures kind { (kind : Kind) → experiment.now.kind ≡ Some kind
        → IfOk result (λ queries. All (λ query. query.kind ≡ kind) queries.items) }
{
    let mut draws = Pcg32::new(u64::from(experiment.seed), DRAWS);
    let mut queries = Vec::new(alloc);
    for _ in 0..experiment.streams * experiment.queries {
        let drawn = Kind::numbered(draws.next_u32());
        let kind = experiment.kind.unwrap_or(drawn);
        queries.push(RangeQuery::placed(kind, experiment.table_rows, draws.next_u32()))?;
    }
    Ok(queries)
}

/// The queries that were drawn, in each stream behind one over the first row where streams don't begin together. Such a
/// query is held until its stream is to begin.
pub(crate) fn with_starters(
    alloc: Global,
    experiment: &Experiment,
    drawn: Vec<RangeQuery>,
) -> Result<Vec<RangeQuery>, AllocError>
    requires { vec_len drawn < 2 ^ 31 }
    ensures all { IfOk result (λ queries. vec_len queries ≤ vec_len drawn + experiment.now.streams) }
{
    let mut queries = Vec::new(alloc);
    for _ in 0..experiment.starters() {
        queries.push(RangeQuery::placed(Kind::starter(), experiment.table_rows, 0))?;
    }
    for query in &drawn {
        queries.push(*query)?;
    }
    Ok(queries)
}

/// The batch of the queries: a statement for each.
pub(crate) fn batch_text(alloc: Global, queries: &[RangeQuery]) -> Result<String, AllocError> {
    let mut text = String::new(alloc);
    for query in queries {
        let (least, end) = (query.least, query.least + query.width);
        writeln!(
            text,
            "SELECT SUM(val), COUNT(*) FROM t WHERE id >= {least} AND id < {end};"
        )?;
    }
    Ok(text)
}

/// How many chunks the queries need together.
pub(crate) fn chunks_needed(queries: &[RangeQuery], chunk_rows: u32) -> u64
    requires some { 1 ≤ chunk_rows }
    requires few { length queries.now < 2 ^ 32 }
{
    queries
        .iter()
        .map(|query| u64::from(query.chunks(chunk_rows)))
        .sum()
}

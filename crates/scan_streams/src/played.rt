// What a run came to.
ghost use Rattle.std.specs.Prelude.{◌≡◌, ◌≤◌, ◌<◌, IfOk, Some, length, slice_index, vec_len};
ghost use Rattle.scan_streams.specs.Times.{begin_of, time_between};

use crate::kind::Kind;
use crate::range_query::RangeQuery;
use crate::times::{average, query_time, stream_time};
use coop_outside::Bytes;
use std::alloc::{AllocError, Global};

/// What a run of queries under a policy came to.
#[derive(Drop)]
pub(crate) struct Played {
    /// How it ended; docs/COMMAND_LINE.md lists the statuses.
    pub status: u8,
    /// What it wrote: its answers, or the line that says why there are none.
    pub answers: Bytes,
    /// How many gets the depot counted.
    pub gets: u64,
    /// How many chunks were read.
    pub reads: u64,
    /// The chunks that were handed out, in their order.
    pub taken: Vec<u32>,
    /// The microseconds of all work on chunks.
    pub work: u64,
    /// On how many workers it ran, of which each has a stream of the queries.
    pub streams: usize,
    /// When the scans began, in microseconds.
    pub began: u64,
    /// When each query had its last chunk, in microseconds.
    pub ends: Vec<u64>,
}

impl Played {
    /// How long the query at a place took, in microseconds; none where there is no such query.
    pub(crate) fn query_time(&self, place: usize) -> Option<u32>
        ensures time { place < vec_len self.now.ends
            → result ≡ Some (time_between (begin_of self.now.began self.now.ends.items self.now.streams place)
            (slice_index self.now.ends.items place)) }
    {
        if place < self.ends.len() {
            return Some(query_time(self.began, &self.ends, self.streams, place));
        }
        None
    }

    /// How long each stream took, in microseconds. With a query for each stream that only waits for its begin, a stream
    /// begins when that has ended.
    pub(crate) fn stream_times(&self, alloc: Global, waited: bool) -> Result<Vec<u32>, AllocError>
        ensures few { IfOk result (λ times. vec_len times ≤ vec_len self.now.ends) }
    {
        let all = self.ends.len();
        let mut times = Vec::new(alloc);
        for last in all.saturating_sub(self.streams)..all {
            let begin = if waited {
                let place = last % self.streams.max(1);
                self.ends.get(place).copied().unwrap_or(self.began)
            } else {
                self.began
            };
            times.push(stream_time(begin, &self.ends, last))?;
        }
        Ok(times)
    }

    /// How long all streams took together, in microseconds.
    pub(crate) fn all_time(&self) -> u64 {
        let last = self.ends.iter().copied().max().unwrap_or(0);
        last.saturating_sub(self.began)
    }

    /// How long the queries of a kind took, in microseconds.
    pub(crate) fn kind_times(
        &self,
        alloc: Global,
        queries: &[RangeQuery],
        kind: Kind,
    ) -> Result<Vec<u32>, AllocError>
        ensures few { IfOk result (λ times. vec_len times ≤ length queries.now) }
    {
        let mut times = Vec::new(alloc);
        for (place, query) in queries.iter().enumerate() {
            if query.kind == kind {
                if let Some(time) = self.query_time(place) {
                    times.push(time)?;
                }
            }
        }
        Ok(times)
    }
}

// Times of queries and streams, in microseconds.
ghost use Rattle.std.specs.Prelude.{◌≡◌, ◌<◌, ◌/◌, ◌^◌, length, max, slice_index, sum};
ghost use Rattle.scan_streams.specs.Times.{begin_of, time_between};

use std::fmt;

/// The average of some times; 0 where there are none.
pub(crate) fn average(times: &[u32]) -> u64
    requires few { length times.now < 2 ^ 32 }
    ensures average { result ≡ sum times.now / max 1 (length times.now) }
{
    let all: u64 = times.iter().map(|time| u64::from(*time)).sum();
    all / (times.len() as u64).max(1)
}

// The time from one moment to another; none where the other isn't later.
fn between(from: u64, to: u64) -> u32
    ensures { result ≡ time_between from to }
{
    u32::try_from(to.saturating_sub(from)).unwrap_or(u32::MAX)
}

/// How long a query took, from its begin to its end. The queries of a stream stand as far from one another as there are
/// streams; the first of each begins with the run, and each other one where the one before it ends.
pub(crate) fn query_time(began: u64, ends: &[u64], streams: usize, place: usize) -> u32
    requires place { place < length ends.now }
    ensures time { result ≡ time_between (begin_of began ends.now streams place) (slice_index ends.now place) }
{
    let begin = if place < streams {
        began
    } else {
        ends[place - streams]
    };
    between(begin, ends[place])
}

/// How long a stream took that began then and whose last query stands at this place: to the query's end.
pub(crate) fn stream_time(began: u64, ends: &[u64], last: usize) -> u32
    requires place { last < length ends.now }
    ensures time { result ≡ time_between began (slice_index ends.now last) }
{
    between(began, ends[last])
}

/// Microseconds, written as milliseconds with one digit after the point.
#[derive(Clone, Copy, Debug)]
pub(crate) struct Millis(pub u64);

impl fmt::Display for Millis {
    fn fmt<W: fmt::Write>(&self, f: &mut fmt::Formatter<W>) -> fmt::Result {
        let (whole, tenths) = (self.0 / 1000, self.0 % 1000 / 100);
        write!(f, "{whole}.{tenths}")
    }
}

// A scan in table order.
ghost use Rattle.std.specs.Prelude.{◌≡◌, ◌≤◌, ◌<◌, ◌+◌, ◌%◌};
ghost use Rattle.command_words.specs.declared.limits.TheConstants.{MOST_GENERATED_ROWS};

use crate::range_query::RangeQuery;
use command_words::MOST_GENERATED_ROWS;

/// A scan that asks for the chunks of its range one after another, from one of them on and around.
#[derive(Clone, Copy, Debug)]
pub(crate) struct OrderedScan {
    first: u32,
    count: u32,
    // how far behind the first chunk it begins
    start: u32,
    // how many chunks it asked for so far
    asked: u32,
    ghost some: { 1 ≤ count },
    ghost within: { first + count ≤ MOST_GENERATED_ROWS },
    ghost begins: { start < count },
    ghost ends: { asked ≤ count },
}

impl OrderedScan {
    /// A scan over the chunks of a query, in table order.
    pub(crate) fn over(query: &RangeQuery, chunk_rows: u32) -> Self
        requires some { 1 ≤ chunk_rows }
        ensures from_the_first { (result.start ≡ 0) × (result.asked ≡ 0) }
    {
        let first = (query.least / chunk_rows).min(MOST_GENERATED_ROWS - 1);
        let count = query
            .chunks(chunk_rows)
            .clamp(1, MOST_GENERATED_ROWS - first);
        OrderedScan {
            first,
            count,
            start: 0,
            asked: 0,
        }
    }

    /// The same scan, which begins at a chunk where it is one of its own.
    pub(crate) fn beginning_at(self, chunk: u32) -> Self
        ensures same { (result.first ≡ self.first) × (result.count ≡ self.count) }
    {
        if chunk < self.first || chunk - self.first >= self.count {
            return self;
        }
        OrderedScan {
            first: self.first,
            count: self.count,
            start: chunk - self.first,
            asked: self.asked,
        }
    }

    /// How many chunks it asks for.
    pub(crate) fn count(&self) -> u32
        ensures count { result ≡ self.now.count }
    {
        self.count
    }

    // The chunk at a place of its order.
    fn at(&self, place: u32) -> u32
        requires few { place ≤ self.now.count }
        ensures around { result ≡ self.now.first + (self.now.start + place) % self.now.count }
    {
        self.first + (self.start + place) % self.count
    }

    /// The chunk that it asked for last; where it asked for none, its first one.
    pub(crate) fn last(&self) -> u32 {
        self.at(self.asked.saturating_sub(1))
    }

    /// Asks for the next chunk; none where it had all.
    pub(crate) fn ask(&mut self) -> Option<u32> {
        if self.asked == self.count {
            return None;
        }
        let chunk = self.at(self.asked);
        self.asked += 1;
        Some(chunk)
    }

    // Whether a chunk is still to come, or the last one that it asked for.
    fn is_to_come(&self, chunk: u32) -> bool {
        if chunk < self.first || chunk - self.first >= self.count {
            return false;
        }
        let place = (chunk - self.first + self.count - self.start) % self.count;
        place >= self.asked
    }

    /// How many chunks of another scan are still to come in this one.
    pub(crate) fn shared_with(&self, other: &OrderedScan) -> usize {
        let (first, count) = (other.first, other.count);
        (first..first + count)
            .filter(|chunk| self.is_to_come(*chunk))
            .count()
    }
}

// Why an entry doesn't fit the words of its run, in words.
ghost use Rattle.std.specs.Prelude.{Some};
ghost use Rattle.inspect_calls.specs.Verdicts as spec;

use inspect_verdict::Unfit;
use std::fmt;

/// Why an entry doesn't fit the words of its run, as a line tells it behind "may not come".
#[derive(Clone, Copy)]
pub(crate) struct ShownUnfit {
    pub(crate) why: Unfit,
}

impl fmt::Display for ShownUnfit {
    ghost output = { λ s. Some (spec.unfit_words s.why) };

    fn fmt<W: fmt::Write>(&self, f: &mut fmt::Formatter<W>) -> fmt::Result {
        match self.why {
            Unfit::OutOfOrder { due: Some(query) } => write!(
                f,
                "the worker registers query {query} next"
            ),
            Unfit::OutOfOrder { due: None } => write!(
                f,
                "the worker has registered each of its queries"
            ),
            Unfit::InMemory => write!(f, "without --scratch no read fails"),
            Unfit::CountFell { last } => write!(f, "the count of faults had come to {last} before"),
            Unfit::NoSuchWord => write!(f, "the piece has no such word"),
        }
    }
}

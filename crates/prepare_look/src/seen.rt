// How many there are, and where the first is.
ghost use Rattle.std.specs.Prelude.{◌≡◌, ◌<◌, ◌^◌};
ghost use Rattle.prepare_look.specs.Seeing.{none_seen, noted, one_more};

/// How many there are, and the line of the first, counted from 1; 0 where there is none.
#[derive(Clone, Copy, Debug, PartialEq, Eq)]
pub struct Seen {
    pub count: u64,
    pub line: usize,
}

impl Seen {
    pub(crate) fn none() -> Seen
        ensures { result ≡ none_seen }
    {
        Seen { count: 0, line: 0 }
    }

    // One more, on this line.
    fn more(self, line: usize) -> Seen
        requires { self.count < 2 ^ 63 }
        ensures { result ≡ one_more line self }
    {
        if self.count == 0 {
            return Seen { count: 1, line };
        }
        Seen {
            count: self.count + 1,
            line: self.line,
        }
    }

    /// One more, where it is one.
    pub(crate) fn noted(self, is: bool, line: usize) -> Seen
        requires { self.count < 2 ^ 63 }
        ensures { result ≡ noted is line self }
    {
        if is {
            return self.more(line);
        }
        self
    }
}

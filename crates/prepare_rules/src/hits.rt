// How often a rule changed something, and where first.
ghost use Rattle.std.specs.Prelude.{◌≡◌, IfOk};
ghost use Rattle.prepare_rules.specs.Tally.{hit, hit_if, no_hit};

use crate::failure::Failure;

/// How often a rule changed something, and where it first did.
#[derive(Clone, Copy, Debug, PartialEq, Eq)]
pub struct Hits {
    /// How many fields, or records, it changed.
    pub count: u64,
    /// The line of the export on which the first of their records begins, from 1; 0 where there is none.
    pub line: u64,
}

impl Hits {
    pub(crate) fn none() -> Hits
        ensures { result ≡ no_hit }
    {
        Hits { count: 0, line: 0 }
    }

    // One more, in a record that begins on this line.
    fn hit(self, line: u64) -> Result<Hits, Failure>
        ensures { IfOk result (λ h. h ≡ hit line self) }
    {
        if self.count == 0 {
            return Ok(Hits { count: 1, line });
        }
        match self.count.checked_add(1) {
            Some(count) => Ok(Hits { count, ..self }),
            None => Err(Failure::TooLong),
        }
    }

    /// One more, where it is one.
    pub(crate) fn hit_if(self, is: bool, line: u64) -> Result<Hits, Failure>
        ensures { IfOk result (λ h. h ≡ hit_if is line self) }
    {
        if is {
            return self.hit(line);
        }
        Ok(self)
    }
}

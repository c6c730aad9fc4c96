// Why words are refused.
ghost use Rattle.std.specs.Prelude.{◌≡◌};
ghost use Rattle.inspect_words.specs.Refusals.{is_fault, is_shown, status_of};
ghost use Rattle.inspect_words.specs.declared.refused.Refused.TheVariants as refused;

use crate::culprit::Culprit;
use clap::Error;
use clap::error::ErrorKind;
use std::alloc::AllocError;
use std::fmt;

/// Why the words give nothing to do.
#[derive(Debug, Drop)]
pub enum Refused<'a> {
    /// They ask for help or the version, or something is wrong with them: clap says it.
    Said(Error),
    /// `coop_cli` would refuse the words of the run, for this word.
    Run(Option<Culprit<'a>>),
    /// Out of memory.
    Memory,
}

impl From<AllocError> for Refused<'_> {
    ghost from_gives = { λ _ e. e ≡ refused.Memory };

    fn from(_: AllocError) -> Self {
        Refused::Memory
    }
}

// Help and the version are shown, and are no fault.
fn is_shown(kind: ErrorKind) -> bool
    ensures { result ≡ is_shown kind }
{
    match kind {
        ErrorKind::DisplayHelp => true,
        ErrorKind::DisplayVersion => true,
        _ => false,
    }
}

impl Refused<'_> {
    /// Whether its text goes to standard error: all but help and the version.
    pub fn is_fault(&self) -> bool
        ensures { result ≡ is_fault self.now }
    {
        match self {
            Refused::Said(error) => !is_shown(error.kind()),
            _ => true,
        }
    }

    /// The status that the program ends with: 0 for help and the version, 2 for faulty words, 7 for out of memory.
    pub fn status(&self) -> u8
        ensures { result ≡ status_of self.now }
    {
        match self {
            Refused::Said(error) => {
                if is_shown(error.kind()) {
                    return 0;
                }
                2
            }
            Refused::Run(_) => 2,
            Refused::Memory => 7,
        }
    }
}

impl fmt::Display for Refused<'_> {
    fn fmt<W: fmt::Write>(&self, f: &mut fmt::Formatter<W>) -> fmt::Result {
        match self {
            Refused::Said(error) => write!(f, "{error}"),
            Refused::Run(Some(culprit)) => writeln!(f, "error: {culprit}"),
            Refused::Run(None) => writeln!(f, "error: coop_cli doesn't take these words"),
            Refused::Memory => Ok(()),
        }
    }
}

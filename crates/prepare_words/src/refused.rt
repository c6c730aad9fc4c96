// Why words are refused.
ghost use Rattle.std.specs.Prelude.{◌≡◌};
ghost use Rattle.prepare_words.specs.Refusals.{is_fault, is_shown, status_of};
ghost use Rattle.prepare_words.specs.declared.fault.Fault.TheVariants as fault;
ghost use Rattle.prepare_words.specs.declared.refused.Refused.TheVariants as refused;

use crate::fault::Fault;
use clap::Error;
use clap::error::ErrorKind;
use std::alloc::AllocError;
use std::fmt;

/// Why the words give nothing to do.
#[derive(Debug, Drop)]
pub enum Refused<'a> {
    /// They ask for help or the version, or something is wrong with them: clap says it.
    Said(Error),
    /// A rule has a value that it can't have, or memory ran out.
    Rule(Fault<'a>),
}

impl From<AllocError> for Refused<'_> {
    ghost from_gives = { λ _ e. e ≡ refused.Rule fault.Memory };

    fn from(_: AllocError) -> Self {
        Refused::Rule(Fault::Memory)
    }
}

// Help and the version are shown, and are no fault.
fn is_shown(kind: ErrorKind) -> bool
    ensures { result ≡ is_shown kind }
{
    match kind {
        ErrorKind::DisplayHelp => true,
        ErrorKind::DisplayVersion => true,
        _ => false,
    }
}

impl Refused<'_> {
    /// Whether its text goes to standard error: all but help and the version.
    pub fn is_fault(&self) -> bool
        ensures { result ≡ is_fault self.now }
    {
        match self {
            Refused::Said(error) => !is_shown(error.kind()),
            _ => true,
        }
    }

    /// The status that the program ends with: 0 for help and the version, 2 for faulty words, 7 for out of memory.
    pub fn status(&self) -> u8
        ensures { result ≡ status_of self.now }
    {
        match self {
            Refused::Said(error) => {
                if is_shown(error.kind()) {
                    return 0;
                }
                2
            }
            Refused::Rule(Fault::Memory) => 7,
            Refused::Rule(_) => 2,
        }
    }
}

impl fmt::Display for Refused<'_> {
    fn fmt<W: fmt::Write>(&self, f: &mut fmt::Formatter<W>) -> fmt::Result {
        match self {
            Refused::Said(error) => write!(f, "{error}"),
            Refused::Rule(fault) => write!(f, "{fault}"),
        }
    }
}

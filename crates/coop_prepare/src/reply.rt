// What the program says.
ghost use Rattle.std.specs.Prelude.{◌⊎◌};
ghost use Rattle.coop_prepare.specs.Replies.{IsFault, IsMemory, IsShown, IsText};

use std::alloc::{AllocError, Global};

/// What the program says beside the CSV: a text, where it goes, and the status that the program ends with.
#[derive(Drop)]
pub(crate) struct Reply {
    pub text: Vec<u8>,
    pub status: u8,
    /// The text goes to standard error, and not to standard output.
    pub is_fault: bool,
}

impl Reply {
    /// Out of memory: 7, without a text.
    pub fn memory(alloc: Global) -> Reply
        ensures { IsMemory result }
    {
        Reply {
            text: Vec::new(alloc),
            status: 7,
            is_fault: true,
        }
    }

    /// This line on standard error, and this status; or out of memory.
    pub fn fault(alloc: Global, status: u8, line: &[u8]) -> Reply
        ensures { IsFault status line.now result ⊎ IsMemory result }
    {
        match Vec::from_slice(alloc, line) {
            Ok(text) => Reply {
                text,
                status,
                is_fault: true,
            },
            Err(_) => Reply::memory(alloc),
        }
    }

    /// This text on standard output, and status 0; or out of memory, where there was none for the text.
    pub fn shown(alloc: Global, text: Result<String, AllocError>) -> Reply
        ensures { IsShown result ⊎ IsMemory result }
    {
        match text {
            Ok(text) => Reply {
                text: text.into_bytes(),
                status: 0,
                is_fault: false,
            },
            Err(_) => Reply::memory(alloc),
        }
    }

    /// This text on standard error, and this status; or out of memory, where there was none for the text.
    pub fn told(alloc: Global, status: u8, text: Result<String, AllocError>) -> Reply
        ensures { IsText status result ⊎ IsMemory result }
    {
        match text {
            Ok(text) => Reply {
                text: text.into_bytes(),
                status,
                is_fault: true,
            },
            Err(_) => Reply::memory(alloc),
        }
    }
}

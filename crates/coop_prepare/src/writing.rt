// The CSV on standard output.
use crate::ending::{broken, ended};
use crate::guessing::{encoding_by, guessed};
use crate::reply::Reply;
use crate::text::{text_of, whole_of};
use prepare_blanks::with_tabs;
use prepare_decode::Encoding;
use prepare_rules::prepare;
use prepare_words::{Delimiter, Writing};
use std::alloc::Global;
use std::fs::File;
use std::io::{Read, Write};

/// Writes the CSV that the rules make of the export to standard output, and gives what is to be said of it.
pub(crate) fn written(rt: &HostRuntime, alloc: Global, writing: &Writing<'_>) -> Reply {
    let mut input = match File::open(rt, writing.file) {
        Ok(input) => input,
        Err(error) => {
            let text = format!(in alloc; "stopped 4: {}: {error}\n", writing.file);
            return Reply::told(alloc, 4, text);
        }
    };
    if streams(writing) {
        return prepared(alloc, writing, input, rt.stdout());
    }
    match whole_of(alloc, writing.file, &mut input) {
        Ok(bytes) => made_of(alloc, writing, bytes, rt.stdout()),
        Err(reply) => reply,
    }
}

// Whether the export is read record by record, and not whole.
fn streams(writing: &Writing<'_>) -> bool {
    !writing.is_auto && writing.encoding == Encoding::Utf8 && writing.delimiter != Delimiter::Blanks
}

// Writes what the rules make of an export that was read whole.
fn made_of<W: Write + Drop>(
    alloc: Global,
    writing: &Writing<'_>,
    bytes: Vec<u8>,
    output: W,
) -> Reply {
    let encoding = encoding_by(writing, bytes.as_slice());
    let text = match text_of(alloc, encoding, bytes) {
        Ok(text) => text,
        Err(reply) => return reply,
    };
    if writing.is_auto {
        return guessed(alloc, writing, encoding, text, output);
    }
    decoded(alloc, writing, text.as_slice(), output)
}

// Writes what the rules make of a whole text in UTF-8, whose fields may be its words.
fn decoded<W: Write + Drop>(alloc: Global, writing: &Writing<'_>, text: &[u8], output: W) -> Reply {
    if writing.delimiter != Delimiter::Blanks {
        return prepared(alloc, writing, text, output);
    }
    match with_tabs(alloc, writing.quote, text) {
        Ok(text) => prepared(alloc, writing, text.as_slice(), output),
        Err(_) => Reply::memory(alloc),
    }
}

// Writes what the rules make of a text in UTF-8, record by record.
fn prepared<R: Read + Drop, W: Write + Drop>(
    alloc: Global,
    writing: &Writing<'_>,
    input: R,
    output: W,
) -> Reply {
    match prepare(alloc, &writing.rules(), input, output) {
        Ok((_, report)) => ended(alloc, writing, report),
        Err(failure) => broken(alloc, writing.file, failure),
    }
}

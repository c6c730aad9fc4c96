// The page that tells of an export, on standard output.
ghost use Rattle.coop_prepare.specs.Looking.{IsLooked};

use crate::reply::Reply;
use crate::text::{text_of, whole_of};
use prepare_decode::{Encoding, encoding_of};
use prepare_look::Failure;
use prepare_page::{Look, look_at, page_of, tabs_in};
use std::alloc::Global;
use std::fs::File;

/// Looks at the file, and gives the page that tells of it.
pub(crate) fn looked(rt: &HostRuntime, alloc: Global, file: &str) -> Reply {
    match File::open(rt, file) {
        Ok(mut input) => match whole_of(alloc, file, &mut input) {
            Ok(bytes) => told(alloc, file, bytes),
            Err(reply) => reply,
        },
        Err(error) => Reply::told(alloc, 4, format!(in alloc; "stopped 4: {file}: {error}\n")),
    }
}

// What is told of the bytes of an export.
fn told(alloc: Global, file: &str, bytes: Vec<u8>) -> Reply
    ensures { IsLooked result }
{
    let encoding = encoding_of(bytes.as_slice());
    match text_of(alloc, encoding, bytes) {
        Ok(text) => page(alloc, file, encoding, text.as_slice()),
        Err(reply) => reply,
    }
}

// What is told of a text.
fn page(alloc: Global, file: &str, encoding: Encoding, text: &[u8]) -> Reply
    ensures { IsLooked result }
{
    match look_at(alloc, text) {
        Ok(look) => match tabs_in(alloc, text, look.guess) {
            Ok(Some(made)) => by_words(alloc, file, encoding, made.as_slice()),
            Ok(None) => shown(alloc, file, encoding, false, text, &look),
            Err(failure) => broken(alloc, failure),
        },
        Err(failure) => broken(alloc, failure),
    }
}

// What is told of a text whose fields are its words, by the one with tabs between them.
fn by_words(alloc: Global, file: &str, encoding: Encoding, made: &[u8]) -> Reply
    ensures { IsLooked result }
{
    match look_at(alloc, made) {
        Ok(look) => shown(alloc, file, encoding, true, made, &look),
        Err(failure) => broken(alloc, failure),
    }
}

// The page of what is seen of a text.
fn shown(
    alloc: Global,
    file: &str,
    encoding: Encoding,
    by_blanks: bool,
    text: &[u8],
    look: &Look,
) -> Reply
    ensures { IsLooked result }
{
    match page_of(alloc, file, encoding, by_blanks, text, look) {
        Ok(page) => Reply::shown(alloc, format!(in alloc; "{page}")),
        Err(failure) => broken(alloc, failure),
    }
}

// What is said where the look was broken off.
fn broken(alloc: Global, failure: Failure) -> Reply
    ensures { IsLooked result }
{
    match failure {
        Failure::TooLong => Reply::fault(alloc, 9, b"stopped 9: too many records\n"),
        Failure::Memory => Reply::fault(alloc, 7, b"stopped 7: memory\n"),
    }
}

//! `coop_prepare`: tells what an export is, and makes of it the CSV that coop_cli takes. docs/EXPORT.md is its manual.
//! `main` hands the words to prepare_words, the export and standard output to `prepare` of prepare_rules or to
//! `write_auto` of prepare_auto, behind `with_tabs` of prepare_blanks where blanks part its columns, and a text to
//! `look_at` of prepare_page; the theorems are theirs.
#![tactic(auto)]

mod ending;
mod guessing;
mod looking;
mod reply;
mod telling;
mod text;
mod words;
mod writing;

use crate::looking::looked;
use crate::reply::Reply;
use crate::words::{all_words, behind_name, refusal, unread};
use crate::writing::written;
use prepare_words::{Asked, asked_of};
use std::io::Write;
use std::process::ExitCode;

// Does what the words ask for, and gives what is to be said of it.
fn reply_to(rt: HostRuntime) -> Reply {
    let alloc = rt.alloc();
    let all = match all_words(&rt) {
        Ok(all) => all,
        Err(error) => return unread(alloc, &error),
    };
    match asked_of(alloc, behind_name(&all)) {
        Ok(Asked::Look(file)) => looked(&rt, alloc, file),
        Ok(Asked::Write(writing)) => written(&rt, alloc, &writing),
        Err(refused) => refusal(alloc, &refused),
    }
}

// Says it, and answers the status that the program ends with.
fn say(rt: HostRuntime, reply: &Reply) -> u8 {
    if reply.is_fault {
        let _ = rt.stderr().write_all(reply.text.as_slice());
        return reply.status;
    }
    match rt.stdout().write_all(reply.text.as_slice()) {
        Ok(()) => reply.status,
        Err(_) => 6,
    }
}

fn main(rt: HostRuntime) -> ExitCode {
    let reply = reply_to(rt);
    ExitCode::from(say(rt, &reply))
}

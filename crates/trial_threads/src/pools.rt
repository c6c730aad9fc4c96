//! The pool in use: by one berth, by two, by two threads, and by eight.
mod eight;
mod halves;
mod many;
mod two;

// A batch as statements.

ghost use Rattle.std.specs.Prelude.{◌≡◌, ◌<◌, ◌≤◌, ◌^◌, length, drop, IfOk, OnOk, ◌++◌, true};
ghost use Rattle.sql_tokens.specs.Statements as spec;
ghost use Rattle.sql_tokens.specs.declared.statements.Mode.TheVariants.{Plain};

use crate::class::{Class, is_in};
use crate::span::Span;
use std::alloc::{AllocError, Global};
use table_sets::Memory;

/// What a byte of a batch stands in.
#[derive(Clone, Copy)]
pub enum Mode {
    Plain,
    InText,
    InName,
    InComment,
}

/// What a byte of a batch is to its statement.
#[derive(Clone, Copy)]
pub enum Mark {
    /// A part of something that counts.
    Inside,
    /// White space or a part of a comment.
    Gap,
    /// The semicolon that ends the statement.
    End,
}

fn begins_dash(bytes: &[u8]) -> bool
    ensures { result ≡ spec.begins_dash bytes.now }
{
    matches!(bytes.first(), Some(b'-'))
}

fn mode_after(mode: Mode, b: u8, rest: &[u8]) -> Mode
    ensures { result ≡ spec.mode_after mode b rest.now }
{
    match mode {
        Mode::Plain if b == b'\'' => Mode::InText,
        Mode::Plain if b == b'"' => Mode::InName,
        Mode::Plain if b == b'-' && begins_dash(rest) => Mode::InComment,
        Mode::InText if b == b'\'' => Mode::Plain,
        Mode::InName if b == b'"' => Mode::Plain,
        Mode::InComment if b == b'\n' => Mode::Plain,
        _ => mode,
    }
}

fn mark_of(mode: Mode, b: u8, rest: &[u8]) -> Mark
    ensures { result ≡ spec.mark_of mode b rest.now }
{
    match mode {
        Mode::Plain => {
            if b == b';' {
                Mark::End
            } else if is_in(Class::White, b) || (b == b'-' && begins_dash(rest)) {
                Mark::Gap
            } else {
                Mark::Inside
            }
        }
        Mode::InText | Mode::InName => Mark::Inside,
        Mode::InComment => Mark::Gap,
    }
}

/// One more statement, unless it is empty.
fn close(spans: &mut Vec<Span>, from: usize, to: usize, is_empty: bool) -> Result<(), AllocError>
    requires { (from < 2 ^ 32) × (to < 2 ^ 32) }
    ensures { OnOk result (spans.new.items ≡ spans.old.items ++ spec.close from to is_empty) }
{
    if !is_empty {
        spans.push(Span {
            from: from as u32,
            to: to as u32,
        })?;
    }
    Ok(())
}

/// The length of the mark of UTF-8 at the front of a batch, which is skipped.
fn start_of(bytes: &[u8]) -> usize
    ensures value { result ≡ spec.start_of bytes.now }
    ensures within { result ≤ length bytes.now }
{
    if bytes.starts_with(b"\xEF\xBB\xBF") {
        3
    } else {
        0
    }
}

fn spans_from(alloc: Global, bytes: &[u8], start: usize) -> Result<Vec<Span>, AllocError>
    requires { (length bytes.now < 2 ^ 32) × (start ≤ length bytes.now) }
    ensures { IfOk result (λ spans. spans.items
        ≡ spec.statements start start true (spec.marks Plain (drop start bytes.now))) }
{
    let mut spans = Vec::new(alloc);
    let (mut from, mut at, mut is_empty, mut mode) = (start, start, true, Mode::Plain);
    while at < bytes.len() {
        let b = bytes[at];
        let rest = &bytes[at + 1..];
        match mark_of(mode, b, rest) {
            Mark::End => {
                close(&mut spans, from, at, is_empty)?;
                from = at + 1;
                is_empty = true;
            }
            Mark::Gap => {}
            Mark::Inside => is_empty = false,
        }
        mode = mode_after(mode, b, rest);
        at += 1;
    }
    close(&mut spans, from, at, is_empty)?;
    Ok(spans)
}

/// The statements of a batch, in order: the parts between its semicolons, by the part "Statements" of `docs/SQL.md`.
/// Parts with nothing but white space and comments are left out. Each span is the whole part, without its semicolon.
///
/// The batch has at most 1048576 bytes. The time grows with its length.
///
/// # Errors
///
/// `Memory` alone.
pub fn split(alloc: Global, bytes: &[u8]) -> Result<Vec<Span>, Memory>
    requires { length bytes.now ≤ 1048576 }
    ensures { IfOk result (λ spans. spec.HasStatements bytes.now spans.items) }
{
    let spans = spans_from(alloc, bytes, start_of(bytes))?;
    Ok(spans)
}

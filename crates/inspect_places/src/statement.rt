// Where a statement's text is refused.

ghost use Rattle.std.specs.Prelude.{◌≡◌, ◌<◌, ◌^◌, IfOk, length, slice_index};
ghost use Rattle.inspect_places.specs.Statements as spec;

use crate::place::Place;
use crate::prefix::longest_prefix;
use crate::refused::refusal_place;
use crate::spelled::char_end;
use sql_bind::StatementRefusal;
use sql_tokens::{Span, TextRefusal, Token, lex};
use std::alloc::Global;
use table_core::{Column, Memory};

fn byte_at(text: &[u8], at: usize) -> u8
    ensures { result ≡ slice_index text.now at }
{
    match text.get(at) {
        Some(byte) => *byte,
        None => 0,
    }
}

fn is_quote(byte: u8) -> bool
    ensures { result ≡ spec.is_quote byte }
{
    byte == b'\'' || byte == b'"'
}

// Whether the token ends just before another quote of its kind, which goes on with it.
fn is_reopened(text: &[u8], prefix: usize, token: Token) -> bool
    ensures { result ≡ spec.is_reopened text.now prefix token }
{
    let quote = byte_at(text, prefix);
    let first = byte_at(text, token.span.from as usize);
    is_quote(quote) && token.span.to as usize == prefix && first == quote
}

// The quote that opens what is open behind these tokens, or else the byte behind the prefix.
fn opening(text: &[u8], prefix: usize, before: &[Token]) -> usize
    requires { prefix < 2 ^ 32 }
    ensures value { result ≡ spec.opening text.now prefix before.now }
    ensures short { result < 2 ^ 32 }
{
    match before.get(before.len().saturating_sub(1)) {
        Some(last) => {
            if is_reopened(text, prefix, *last) {
                return last.span.from as usize;
            }
            prefix
        }
        None => prefix,
    }
}

// The character at which no token begins.
fn no_token(alloc: Global, text: &[u8]) -> Result<Place, Memory>
    requires { length text.now < 2 ^ 32 }
    ensures { IfOk result (λ place. spec.IsNoToken text.now place) }
{
    let prefix = longest_prefix(text);
    let Ok(before) = lex(alloc, &text[..prefix]) else {
        return Err(Memory);
    };
    let from = opening(text, prefix, &before);
    let to = char_end(text, from);
    Ok(Place {
        span: Span {
            from: from as u32,
            to: to as u32,
        },
        stands: Vec::new(alloc),
        is_table: false,
        most: None,
        foreign: None,
    })
}

/// Where a statement is refused, among its tokens as `refusal_place` says. A text that has no tokens is refused at the
/// first character at which none begins: the quote that opens what is open, `""`, or a character such as a lone `!`.
///
/// The text has at most 4294967295 bytes. The columns are those of the table that the statement was bound to.
///
/// # Errors
///
/// `Memory` alone; also where the statement was refused since memory ran out.
pub fn statement_place(
    alloc: Global,
    text: &[u8],
    columns: &[Column],
    refusal: &StatementRefusal,
) -> Result<Place, Memory>
    requires short { length text.now < 2 ^ 32 }
    ensures place { IfOk result (λ place. spec.IsStatementPlace text.now columns.now refusal.now place) }
{
    match lex(alloc, text) {
        Ok(tokens) => refusal_place(alloc, text, &tokens, columns, refusal),
        Err(TextRefusal::Memory) => Err(Memory),
        Err(_) => no_token(alloc, text),
    }
}

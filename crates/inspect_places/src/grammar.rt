// The first token with which no query goes on.

ghost use Rattle.std.specs.Prelude.{◌≡◌, ◌<◌, ◌≤◌, ◌^◌, IfOk, length, map};
ghost use Rattle.std.specs.List.{filter};
ghost use Rattle.sql_text.specs.Words.{StandIn, meaning_in};
ghost use Rattle.sql_tokens.specs.Tokens.{AreInOrder};
ghost use Rattle.inspect_places.specs.Places.{IsGrammarPlace, span_at, told_most};
ghost use Rattle.inspect_places.specs.Steps as spec;
ghost use Rattle.inspect_places.specs.declared.state.State.TheVariants as state;

use crate::foreign::{foreign_at, takes_text};
use crate::kind::{KINDS, Kind};
use crate::near::{is_limit_at, is_number_at, is_table_at};
use crate::place::Place;
use crate::state::State;
use crate::steps::{after, most, stands};
use crate::word::word_at;
use sql_tokens::{Span, Token};
use std::alloc::{AllocError, Global};
use table_core::Memory;

/// How many tokens go on with a query, and the state behind them.
fn first_stop(limited: bool, bytes: &[u8], tokens: &[Token]) -> (usize, State)
    requires { StandIn bytes.now tokens.now }
    ensures stop { result ≡ spec.stop_from limited 0 state.Start (map (meaning_in bytes.now) tokens.now) }
    ensures few { spec.opened result.1 < 2 ^ 63 }
{
    let mut state = State::Start;
    let mut number = 0;
    let mut left = tokens;
    while let [token, rest @ ..] = left {
        match after(limited, state, word_at(bytes, *token)) {
            Some(next) => state = next,
            None => return (number, state),
        }
        number += 1;
        left = rest;
    }
    (number, state)
}

/// The kinds that can stand in this state.
fn kinds_at(alloc: Global, limited: bool, state: State) -> Result<Vec<Kind>, AllocError>
    requires { spec.opened state < 2 ^ 63 }
    ensures { IfOk result (λ kinds. kinds.items ≡ filter (spec.stands limited state) spec.all_kinds) }
{
    let mut kinds = Vec::new(alloc);
    let mut left: &[Kind] = &KINDS;
    while let [kind, rest @ ..] = left {
        if stands(limited, state, *kind) {
            kinds.push(*kind)?;
        }
        left = rest;
    }
    Ok(kinds)
}

/// The bytes of the token of this number; behind the last one the end of the text.
pub fn span_of(end: u32, tokens: &[Token], number: usize) -> Span
    ensures { result ≡ span_at end tokens.now number }
{
    match tokens.get(number) {
        Some(token) => token.span,
        None => Span { from: end, to: end },
    }
}

/// The greatest number that is told: that of the limits, or where a number is refused the one of the grammar.
fn most_at(limited: bool, state: State, is_limit: bool, is_number: bool) -> Option<u64>
    ensures { result ≡ told_most is_limit is_number (spec.most limited state) }
{
    if is_limit {
        return most(true, State::Limit);
    }
    if is_number {
        return most(limited, state);
    }
    None
}

/// The first of the tokens with which no query goes on, or the end of the text, what could stand there, and what is
/// known there from other SQL.
///
/// With `limited` only queries count that pass no limit: at most 32 items, key columns and orders, and at most 4096
/// behind LIMIT. How deep a condition is nested doesn't count. The tokens are those of `lex`.
///
/// # Errors
///
/// `Memory` alone.
pub fn grammar_place(
    alloc: Global,
    limited: bool,
    bytes: &[u8],
    tokens: &[Token],
) -> Result<Place, Memory>
    requires short { length bytes.now < 2 ^ 32 }
    requires in_order { AreInOrder 0 (length bytes.now) tokens.now }
    ensures place { IfOk result (λ place. IsGrammarPlace limited bytes.now tokens.now place) }
{
    let (number, state) = first_stop(limited, bytes, tokens);
    let stands = kinds_at(alloc, limited, state)?;
    let span = span_of(bytes.len() as u32, tokens, number);
    let foreign = foreign_at(bytes, takes_text(&stands), tokens, number);
    let is_limit = is_limit_at(bytes, tokens, number);
    let is_number = is_number_at(tokens, number);
    Ok(Place {
        span,
        stands,
        is_table: is_table_at(bytes, tokens, number),
        most: most_at(limited, state, is_limit, is_number),
        foreign,
    })
}

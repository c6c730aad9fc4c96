// Where a statement is refused, for each refusal.

ghost use Rattle.std.specs.Prelude.{◌≡◌, ◌<◌, ◌≤◌, ◌^◌, IfOk, length, map};
ghost use Rattle.sql_text.specs.Words.{StandIn, meaning_in};
ghost use Rattle.sql_tokens.specs.Tokens.{AreInOrder};
ghost use Rattle.inspect_places.specs.Refusals as spec;

use crate::grammar::{grammar_place, span_of};
use crate::names::name_number;
use crate::nesting::nested_number;
use crate::place::Place;
use crate::role::About;
use sql_bind::{BindRefusal, StatementRefusal};
use sql_tokens::{TextRefusal, Token};
use std::alloc::Global;
use table_core::{Bytes, Column, Memory};

/// The token of this number, or the end of the text.
fn place_at(alloc: Global, bytes: &[u8], tokens: &[Token], number: usize) -> Place
    requires { length bytes.now < 2 ^ 32 }
    ensures { spec.IsAt bytes.now tokens.now number result }
{
    Place {
        span: span_of(bytes.len() as u32, tokens, number),
        stands: Vec::new(alloc),
        is_table: false,
        most: None,
        foreign: None,
    }
}

fn named(
    alloc: Global,
    bytes: &[u8],
    tokens: &[Token],
    columns: &[Column],
    about: About,
    name: &Bytes,
) -> Place
    requires short { length bytes.now < 2 ^ 32 }
    requires within { StandIn bytes.now tokens.now }
    ensures { spec.IsNamePlace bytes.now columns.now tokens.now about name.now result }
{
    let number = name_number(bytes, tokens, columns, about, name.as_slice());
    place_at(alloc, bytes, tokens, number)
}

fn text_place(
    alloc: Global,
    bytes: &[u8],
    tokens: &[Token],
    refusal: TextRefusal,
) -> Result<Place, Memory>
    requires short { length bytes.now < 2 ^ 32 }
    requires in_order { AreInOrder 0 (length bytes.now) tokens.now }
    requires within { StandIn bytes.now tokens.now }
    ensures { IfOk result (λ place. spec.IsTextPlace bytes.now tokens.now refusal place) }
{
    match refusal {
        TextRefusal::Syntax => grammar_place(alloc, false, bytes, tokens),
        TextRefusal::TooNested => {
            let number = nested_number(bytes, tokens);
            Ok(place_at(alloc, bytes, tokens, number))
        }
        TextRefusal::TooManyItems => grammar_place(alloc, true, bytes, tokens),
        TextRefusal::Memory => Err(Memory),
    }
}

fn query_place(
    alloc: Global,
    bytes: &[u8],
    tokens: &[Token],
    columns: &[Column],
    refusal: &BindRefusal,
) -> Result<Place, Memory>
    requires short { length bytes.now < 2 ^ 32 }
    requires within { StandIn bytes.now tokens.now }
    ensures { IfOk result (λ place. spec.IsQueryPlace bytes.now columns.now tokens.now refusal.now place) }
{
    let (about, name) = match refusal {
        BindRefusal::UnknownTable { name } => (About::Table, name),
        BindRefusal::UnknownColumn { name } => (About::Column, name),
        BindRefusal::WrongKind { name } => (About::Use, name),
        BindRefusal::NotGrouped { name } => (About::Key, name),
        BindRefusal::Memory => return Err(Memory),
    };
    Ok(named(alloc, bytes, tokens, columns, about, name))
}

/// Where a statement is refused.
///
/// - no query: the first token with which no query goes on, or the end, and what could stand there;
/// - too many items: the first token with which no query goes on that passes no limit, and what could stand there;
/// - nested too deep: the first token behind which more than 256 nest;
/// - a name: the first token that is this name in the part that is refused.
///
/// The tokens are those of `lex`; the columns are those of the table that the statement was bound to.
///
/// # Errors
///
/// `Memory` alone; also where the statement was refused since memory ran out.
#[tactic(auto, using(sql_text::proofs::ReadTexts::stand_in))]
pub fn refusal_place(
    alloc: Global,
    bytes: &[u8],
    tokens: &[Token],
    columns: &[Column],
    refusal: &StatementRefusal,
) -> Result<Place, Memory>
    requires short { length bytes.now < 2 ^ 32 }
    requires in_order { AreInOrder 0 (length bytes.now) tokens.now }
    ensures place { IfOk result (λ place. spec.IsRefusalPlace bytes.now columns.now tokens.now refusal.now place) }
{
    match refusal {
        StatementRefusal::Text(refusal) => text_place(alloc, bytes, tokens, *refusal),
        StatementRefusal::Query(refusal) => query_place(alloc, bytes, tokens, columns, refusal),
    }
}

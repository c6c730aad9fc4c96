// The name that a refusal is about.

ghost use Rattle.std.specs.Prelude.{◌≡◌, ◌<◌, ◌≤◌, ◌^◌, length, map, true};
ghost use Rattle.std.specs.Str.{bytes_eq};
ghost use Rattle.sql_bind.specs.Names as columns_by_name;
ghost use Rattle.sql_bind.specs.Refusals as refusals;
ghost use Rattle.sql_text.specs.Words as words;
ghost use Rattle.sql_text.specs.Words.{StandIn, meaning_in};
ghost use Rattle.sql_tokens.specs.declared.token.TokenKind.TheVariants as kind;
ghost use Rattle.inspect_places.specs.Names as spec;
ghost use Rattle.inspect_places.specs.declared.role.Before.TheVariants as before;

use crate::kind::Kind;
use crate::role::{About, Before, Role};
use crate::word::word_at;
use sql_tokens::{Keyword, Token, TokenKind, keyword_of};
use table_core::{Column, Kind as ColumnKind};

/// Whether the bytes behind an opening quote are this name.
fn is_inside(quote: u8, inside: &[u8], name: &[u8]) -> bool
    ensures { result ≡ bytes_eq (words.«inside» quote true inside.now) name.now }
{
    let mut is_open = true;
    let mut left = inside;
    let mut wanted = name;
    while let [b, rest @ ..] = left {
        if is_open && *b == quote {
            is_open = false;
        } else {
            match wanted {
                [first, more @ ..] if *first == *b => wanted = more,
                _ => return false,
            }
            is_open = true;
        }
        left = rest;
    }
    wanted.is_empty()
}

fn is_unquoted(quoted: &[u8], name: &[u8]) -> bool
    ensures { result ≡ bytes_eq (words.unquoted quoted.now) name.now }
{
    match quoted {
        [] => name.is_empty(),
        [quote, inside @ ..] => is_inside(*quote, inside, name),
    }
}

fn is_word(word: &[u8], name: &[u8]) -> bool
    ensures { result ≡ spec.is_called name.now (words.meaning kind.Keyword word.now) }
{
    match keyword_of(word) {
        Some(_) => false,
        None => word == name,
    }
}

/// Whether a token of this kind that is spelled so is this name.
fn is_called(kind: TokenKind, spelling: &[u8], name: &[u8]) -> bool
    ensures { result ≡ spec.is_called name.now (words.meaning kind spelling.now) }
{
    match kind {
        TokenKind::Keyword => is_word(spelling, name),
        TokenKind::Name => spelling == name,
        TokenKind::QuotedName => is_unquoted(spelling, name),
        _ => false,
    }
}

fn is_called_at(bytes: &[u8], token: Token, name: &[u8]) -> bool
    requires { (token.span.from ≤ token.span.to) × (token.span.to ≤ length bytes.now) }
    ensures { result ≡ spec.is_called name.now (meaning_in bytes.now token) }
{
    let spelling = &bytes[token.span.from as usize..token.span.to as usize];
    is_called(token.kind, spelling, name)
}

/// Behind one token more.
fn next(before: Before, kind: Kind) -> Before
    ensures { result ≡ spec.next before kind }
{
    match before {
        Before::Rest | Before::From => Before::Rest,
        _ if kind == Kind::Key(Keyword::From) => Before::From,
        Before::Items => match kind {
            Kind::Key(Keyword::Sum) => Before::Sum,
            Kind::Open => Before::Open,
            _ => Before::Items,
        },
        Before::Sum if kind == Kind::Open => Before::SumOpen,
        _ => Before::Items,
    }
}

/// The kind of the first token.
fn first_kind(bytes: &[u8], tokens: &[Token]) -> Option<Kind>
    requires { StandIn bytes.now tokens.now }
    ensures { result ≡ spec.first_kind (map (meaning_in bytes.now) tokens.now) }
{
    match tokens {
        [token, ..] => Some(word_at(bytes, *token).kind),
        [] => None,
    }
}

/// Compared with what is of this kind.
fn compared_with(kind: Option<Kind>) -> Role
    ensures { result ≡ spec.compared_with kind }
{
    match kind {
        Some(Kind::Text) => Role::WithText,
        _ => Role::WithNumber,
    }
}

/// The part of a name behind the table, by the tokens behind the name.
#[tactic(auto, using(crate::proofs::Rests::stand_rest, crate::proofs::Rests::map_rest))]
fn tested(bytes: &[u8], tokens: &[Token]) -> Role
    requires { StandIn bytes.now tokens.now }
    ensures { result ≡ spec.tested (map (meaning_in bytes.now) tokens.now) }
{
    match tokens {
        [token, rest @ ..] => match word_at(bytes, *token).kind {
            Kind::Comparison => compared_with(first_kind(bytes, rest)),
            _ => Role::Bare,
        },
        [] => Role::Bare,
    }
}

fn role_at(bytes: &[u8], before: Before, tokens: &[Token]) -> Role
    requires { StandIn bytes.now tokens.now }
    ensures { result ≡ spec.role_at before (map (meaning_in bytes.now) tokens.now) }
{
    match before {
        Before::Items | Before::Sum => Role::Item,
        Before::SumOpen => Role::Summed,
        Before::Open => Role::Called,
        Before::From => Role::Table,
        Before::Rest => tested(bytes, tokens),
    }
}

/// The kind of the first column of this name, if there is one.
fn kind_of(columns: &[Column], name: &[u8]) -> Option<ColumnKind>
    ensures { result ≡ columns_by_name.kind_of columns.now name.now }
{
    columns
        .iter()
        .find(|column| column.name.as_slice() == name)
        .map(|column| column.kind)
}

/// Whether the kind of a column doesn't allow this part.
fn misuses(kind: ColumnKind, role: Role) -> bool
    ensures { result ≡ refusals.misuses kind (spec.use_of role) }
{
    match kind {
        ColumnKind::Text => matches!(role, Role::Summed | Role::WithNumber),
        ColumnKind::Int | ColumnKind::Dec { .. } => matches!(role, Role::WithText),
    }
}

/// Whether a part is one that is refused, where the name's column has this kind.
fn fits(kind: Option<ColumnKind>, about: About, role: Role) -> bool
    ensures { result ≡ spec.fits kind about role }
{
    match about {
        About::Table => matches!(role, Role::Table),
        About::Column => !matches!(role, Role::Table),
        About::Use => match kind {
            Some(kind) => misuses(kind, role),
            None => false,
        },
        About::Key => matches!(role, Role::Item),
    }
}

/// Whether the token, before these ones, is the name in a part that is refused.
#[tactic(auto, using(crate::proofs::NameSteps::sought_is))]
fn is_sought(
    bytes: &[u8],
    token: Token,
    rest: &[Token],
    before: Before,
    kind: Option<ColumnKind>,
    about: About,
    name: &[u8],
) -> bool
    requires token { (token.span.from ≤ token.span.to) × (token.span.to ≤ length bytes.now) }
    requires rest { StandIn bytes.now rest.now }
    ensures { result ≡ spec.is_sought kind about name.now
        (spec.name_at before (meaning_in bytes.now token) (map (meaning_in bytes.now) rest.now)) }
{
    is_called_at(bytes, token, name) && fits(kind, about, role_at(bytes, before, rest))
}

/// The number of the first token that is this name in the part that is refused; without one, how many tokens there are.
pub fn name_number(
    bytes: &[u8],
    tokens: &[Token],
    columns: &[Column],
    about: About,
    name: &[u8],
) -> usize
    requires { StandIn bytes.now tokens.now }
    ensures { result ≡ spec.first_index (spec.is_about columns.now about name.now)
        (spec.names_at (map (meaning_in bytes.now) tokens.now)) }
{
    let kind = kind_of(columns, name);
    let mut before = Before::Items;
    let mut number = 0;
    let mut left = tokens;
    while let [token, rest @ ..] = left {
        if is_sought(bytes, *token, rest, before, kind, about, name) {
            return number;
        }
        before = next(before, word_at(bytes, *token).kind);
        number += 1;
        left = rest;
    }
    number
}

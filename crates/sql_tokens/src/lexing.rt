// A text as tokens.

ghost use Rattle.std.specs.Prelude.{◌≡◌, ◌<◌, ◌≤◌, ◌^◌, length, IfOk, IfErr, List, OnOk, ◌++◌, ℕ};
ghost use Rattle.sql_tokens.specs.Statements.{HasStatements};
ghost use Rattle.sql_tokens.specs.declared.span.Span.{Span};
ghost use Rattle.sql_tokens.specs.declared.token.Token.{Token};
ghost use Rattle.sql_tokens.specs.Tokens as spec;

use crate::piece::{Piece, first_piece};
use crate::refusal::TextRefusal;
use crate::span::Span;
use crate::token::Token;
use std::alloc::{AllocError, Global};

/// One more token, if the piece is one.
fn add(tokens: &mut Vec<Token>, piece: Piece, from: usize, to: usize) -> Result<(), AllocError>
    requires { (from ≤ to) × (to < 2 ^ 32) }
    ensures { OnOk result (tokens.new.items ≡ tokens.old.items ++ spec.tokens_of piece from to) }
{
    if let Piece::Lexeme(kind) = piece {
        let span = Span {
            from: from as u32,
            to: to as u32,
        };
        tokens.push(Token { kind, span })?;
    }
    Ok(())
}

/// The tokens of a text, in order, by the table "Tokens" of `docs/SQL.md`. White space and comments between them leave
/// no token.
///
/// The text has at most 4294967295 bytes. The time grows with its length.
///
/// # Errors
///
/// `Syntax` exactly where the bytes have no list of tokens, and `Memory`. The other refusals never come.
pub fn lex(alloc: Global, bytes: &[u8]) -> Result<Vec<Token>, TextRefusal>
    requires { length bytes.now < 2 ^ 32 }
    // The tokens are those that the text has.
    ensures found { IfOk result (λ tokens. spec.HasTokens 0 bytes.now tokens.items) }
    // Each token has a byte, ends before the next one begins, and ends within the text.
    ensures in_order { IfOk result (λ tokens. spec.AreInOrder 0 (length bytes.now) tokens.items) }
    // A text that is refused has no list of tokens, unless memory ran out.
    ensures refused { IfErr result (λ e. spec.IsLexRefusal bytes.now e) }
{
    let mut tokens = Vec::new(alloc);
    let mut at = 0;
    while at < bytes.len() {
        let Some((piece, n)) = first_piece(&bytes[at..]) else {
            return Err(TextRefusal::Syntax);
        };
        add(&mut tokens, piece, at, at + n)?;
        at += n;
    }
    Ok(tokens)
}

/// A text has one list of tokens at most, and a batch one list of statements.
pub fn one_reading()
    ensures tokens { (bs : List ℕ) (ts us : List Token) → spec.HasTokens 0 bs ts → spec.HasTokens 0 bs us → ts ≡ us }
    ensures statements { (bs : List ℕ) (a b : List Span) → HasStatements bs a → HasStatements bs b → a ≡ b }
{}

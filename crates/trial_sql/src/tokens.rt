// Texts with their tokens and statements, written by hand from the rules of `docs/SQL.md`.

ghost use Rattle.std.specs.Prelude.{◌≤◌, length};

use crate::line::Line;
use sql_tokens::{Span, TextRefusal, Token, TokenKind, lex, split};
use std::alloc::{AllocError, Global};
use std::process::Abort;
use std::test::Fail;

fn letter(kind: TokenKind) -> &'static [u8] {
    match kind {
        TokenKind::Keyword => b"k",
        TokenKind::Name => b"n",
        TokenKind::QuotedName => b"q",
        TokenKind::Text => b"t",
        TokenKind::Number => b"i",
        TokenKind::Decimal => b"d",
        TokenKind::Symbol => b"s",
    }
}

// Writes a span, and a blank behind it.
fn put(out: &mut Line, span: Span) {
    out.put_number(i64::from(span.from));
    out.put(b"-");
    out.put_number(i64::from(span.to));
    out.put(b" ");
}

fn show(tokens: &[Token]) -> Line {
    let mut out = Line::new();
    for token in tokens {
        out.put(letter(token.kind));
        put(&mut out, token.span);
    }
    out
}

fn show_spans(spans: &[Span]) -> Line {
    let mut out = Line::new();
    for span in spans {
        put(&mut out, *span);
    }
    out
}

fn lexed(rt: &impl Abort, alloc: Global, text: &[u8]) -> Line {
    assert!(rt; text.len() <= 1 << 20);
    match lex(alloc, text) {
        Ok(tokens) => show(&tokens),
        Err(TextRefusal::Syntax) => Line::of(b"syntax"),
        Err(_) => Line::of(b"another refusal"),
    }
}

fn parts(rt: &impl Abort, alloc: Global, batch: &[u8]) -> Line {
    assert!(rt; batch.len() <= 1 << 20);
    match split(alloc, batch) {
        Ok(spans) => show_spans(&spans),
        Err(_) => Line::of(b"a refusal"),
    }
}

// Tests the tokens of each text.
fn expect_lexed(rt: &impl Abort, alloc: Global, rows: &[(&[u8], &[u8])]) {
    for (text, want) in rows {
        assert!(rt; lexed(rt, alloc, text).is(want), "{text:?}");
    }
}

// Tests the statements of each batch.
fn expect_parts(rt: &impl Abort, alloc: Global, rows: &[(&[u8], &[u8])]) {
    for (batch, want) in rows {
        assert!(rt; parts(rt, alloc, batch).is(want), "{batch:?}");
    }
}

// k keyword, n name, q quoted name, t text, i number, d decimal, s symbol, each with its span.
const WORDS: &[(&[u8], &[u8])] = &[
    (b"", b""),
    (b" \t\r\n", b""),
    (b"-- only a comment", b""),
    (b"-- a\nb", b"n5-6 "),
    (b"--1", b""),
    (b"select", b"k0-6 "),
    (b"SeLeCt", b"k0-6 "),
    (b"selects", b"n0-7 "),
    (b"_a1", b"n0-3 "),
    (
        b"from where group by count sum min max and or not is null",
        b"k0-4 k5-10 k11-16 k17-19 k20-25 k26-29 k30-33 k34-37 k38-41 k42-44 k45-48 k49-51 k52-56 ",
    ),
    (b"ORDER LIMIT ASC DESC", b"k0-5 k6-11 k12-15 k16-20 "),
    (b"a-b", b"n0-1 s1-2 n2-3 "),
    (b"a--b", b"n0-1 "),
    (b"a- -b", b"n0-1 s1-2 s3-4 n4-5 "),
    (b"-- \xFF\na", b"n5-6 "),
];

#[test]
fn words_are_told_from_blanks_and_comments(rt: HostRuntime) {
    expect_lexed(&rt, rt.alloc(), WORDS);
}

// Numbers, and tokens without a blank between them.
const NUMBERS: &[(&[u8], &[u8])] = &[
    (b"007", b"i0-3 "),
    (b"1.5", b"d0-3 "),
    (b"-1.50", b"s0-1 d1-5 "),
    (b"1 .5", b"syntax"),
    (b"1.", b"syntax"),
    (b".5", b"syntax"),
    (b"1.2.3", b"syntax"),
    (b"1a", b"i0-1 n1-2 "),
    (b"1.5a", b"d0-3 n3-4 "),
    (b"id=1GROUP", b"n0-2 s2-3 i3-4 k4-9 "),
    (b"a<-1", b"n0-1 s1-2 s2-3 i3-4 "),
    (
        b"SELECT 'a''b'--c\n,\"x\"<=-5",
        b"k0-6 t7-13 s17-18 q18-21 s21-23 s23-24 i24-25 ",
    ),
];

#[test]
fn numbers_have_their_digits_and_one_point(rt: HostRuntime) {
    expect_lexed(&rt, rt.alloc(), NUMBERS);
}

const QUOTED: &[(&[u8], &[u8])] = &[
    (b"'a'", b"t0-3 "),
    (b"''", b"t0-2 "),
    (b"'a''b'", b"t0-6 "),
    (b"''''", b"t0-4 "),
    (b"'a'b", b"t0-3 n3-4 "),
    (b"'a' 'b'", b"t0-3 t4-7 "),
    (b"'--'", b"t0-4 "),
    (b"'a;\nb'", b"t0-6 "),
    (b"'", b"syntax"),
    (b"'''", b"syntax"),
    (b"'a", b"syntax"),
    (b"'a''b", b"syntax"),
    (b"\"a\"", b"q0-3 "),
    (b"\"a\"\"b\"", b"q0-6 "),
    (b"\"\"\"\"", b"q0-4 "),
    (b"\"select\"", b"q0-8 "),
    (b"\"\"", b"syntax"),
    (b"\"a", b"syntax"),
    (b"\"a'", b"syntax"),
    (b"'\xC3\xA9\0'", b"t0-5 "),
    (b"\"\xFF\"", b"q0-3 "),
];

#[test]
fn quotes_hold_texts_and_names(rt: HostRuntime) {
    expect_lexed(&rt, rt.alloc(), QUOTED);
}

// Symbols, and bytes that no token has.
const SYMBOLS: &[(&[u8], &[u8])] = &[
    (b"(),*", b"s0-1 s1-2 s2-3 s3-4 "),
    (b"<>", b"s0-2 "),
    (b"!=", b"s0-2 "),
    (b"<=", b"s0-2 "),
    (b">=", b"s0-2 "),
    (b"<", b"s0-1 "),
    (b">", b"s0-1 "),
    (b"==", b"s0-1 s1-2 "),
    (b"=<", b"s0-1 s1-2 "),
    (b"><", b"s0-1 s1-2 "),
    (b"<=>", b"s0-2 s2-3 "),
    (b"<>=", b"s0-2 s2-3 "),
    (b"!", b"syntax"),
    (b"! =", b"syntax"),
    (b"a;", b"syntax"),
    (b"a + b", b"syntax"),
    (b"a/b", b"syntax"),
    (b"a.b", b"syntax"),
    (b"\0", b"syntax"),
    (b"a\0", b"syntax"),
    (b"a\x0Cb", b"syntax"),
    (b"\xC3\xA9", b"syntax"),
    (b"a \xFF", b"syntax"),
    (b"\xEF\xBB\xBFa", b"syntax"),
];

#[test]
fn symbols_are_the_longest_that_fit(rt: HostRuntime) {
    expect_lexed(&rt, rt.alloc(), SYMBOLS);
}

// Batches, and where their statements stand.
const SPLIT: &[(&[u8], &[u8])] = &[
    (b"", b""),
    (b" ;\n; -- x\n", b""),
    (b"--a;b", b""),
    (b"\xEF\xBB\xBF", b""),
    (b"a", b"0-1 "),
    (b"a;", b"0-1 "),
    (b"a;b", b"0-1 2-3 "),
    (b" a ; b ", b"0-3 4-7 "),
    (b";;a;;", b"2-3 "),
    (b"'a;b'", b"0-5 "),
    (b"\"a;b\";c", b"0-5 6-7 "),
    (b"-- a;b\nc;d", b"0-8 9-10 "),
    (b"a--;b", b"0-5 "),
    (b"a-;-b", b"0-2 3-5 "),
    (b"--\n;x", b"4-5 "),
    (b"--'\n;'", b"5-6 "),
    (b"'--';a", b"0-4 5-6 "),
    (b"'a;b", b"0-4 "),
    (b"\"a;", b"0-3 "),
    (b"'a'';b';c", b"0-7 8-9 "),
    (b"'a\";b';c", b"0-6 7-8 "),
    (b"\r\n\t ;\x0B", b"5-6 "),
    (b"\xEF\xBB\xBFa;b", b"3-4 5-6 "),
    (b"\xEF\xBB;a", b"0-2 3-4 "),
    (b"a;\xEF\xBB\xBF", b"0-1 2-5 "),
];

#[test]
fn each_batch_has_its_statements(rt: HostRuntime) {
    expect_parts(&rt, rt.alloc(), SPLIT);
}

// A byte, and how many tokens and statements a text of it has; no statement stands between semicolons.
const LONG: &[(u8, Option<usize>, Option<usize>)] = &[
    (b'(', Some(1 << 20), Some(1)),
    (b'\'', Some(1), Some(1)),
    (b' ', Some(0), Some(0)),
    (b'-', Some(0), Some(0)),
    (b'7', Some(1), Some(1)),
    (b'"', Some(1), Some(1)),
    (b'a', Some(1), Some(1)),
    (b';', None, Some(0)),
];

// How many tokens a text has; nothing where it is refused.
fn token_count(alloc: Global, text: &[u8]) -> Option<usize>
    requires { length text.now ≤ 1048576 }
{
    match lex(alloc, text) {
        Ok(tokens) => Some(tokens.len()),
        Err(_) => None,
    }
}

// How many statements a text has; nothing where memory is refused.
fn statement_count(alloc: Global, text: &[u8]) -> Option<usize>
    requires { length text.now ≤ 1048576 }
{
    match split(alloc, text) {
        Ok(spans) => Some(spans.len()),
        Err(_) => None,
    }
}

// How many tokens and statements a long text of this byte has.
fn counts(
    rt: &impl Abort,
    alloc: Global,
    byte: u8,
) -> Result<(Option<usize>, Option<usize>), AllocError> {
    let text = vec![in alloc; byte; 1 << 20]?;
    assert!(rt; text.len() <= 1 << 20);
    Ok((token_count(alloc, &text), statement_count(alloc, &text)))
}

fn expect_counts(
    rt: &impl Abort,
    alloc: Global,
    rows: &[(u8, Option<usize>, Option<usize>)],
) -> Result<(), Fail> {
    for (byte, tokens, statements) in rows {
        let found = counts(rt, alloc, *byte)?;
        assert!(rt; found == (*tokens, *statements), "{byte}");
    }
    Ok(())
}

#[test]
fn long_texts_take_time_that_grows_with_them(rt: HostRuntime) -> Result<(), Fail> {
    expect_counts(&rt, rt.alloc(), LONG)
}

ghost use Rattle.std.specs.Prelude.{◌≡◌, [], ◌≢◌, ◌==◌, ◌∷◌, ◌++◌, ◌+◌, ◌-◌, ◌*◌, ◌^◌, ◌<◌, ◌≤◌, ℕ, List, IfOk};
ghost use Rattle.std.specs.Prelude.{IfErr, Err, IfSome, IsNone, true, false, Some, length, codes, decimal};
ghost use Rattle.std.specs.List.{position, AllByRecursion};
ghost use Rattle.story_text.specs.declared.read.StoryRefusal.TheVariants as StoryRefusal;
ghost use Rattle.std.specs.Option.{option_map};
ghost use Rattle.std.specs.Str.{bytes_eq};
ghost use Rattle.story_text.specs.Text.{entry_text, why_text, story_text};
ghost use Rattle.scan_story.specs.declared.entry.Entry.{Entry};
ghost use Rattle.scan_story.specs.declared.entry.Why.{Why};
ghost use Rattle.story_text.specs.Reading.{Fits, FitsWhy, number_of, lacks, failed_entry, why_read, IsCut};
ghost use Rattle.story_text.specs.Reading.{IsEntryOf, BeginsBadly, IsFirstBad, IsRefusal, pair_entry, triple_entry};

use crate::line::Line;
use scan_story::{Entry, Memory, Why};
use std::alloc::Global;

/// Why a text is no story's.
#[derive(Clone, Copy, Debug, PartialEq, Eq)]
pub enum StoryRefusal {
    /// This line, counted from 1, is the first that is no entry's text or doesn't end with LF.
    BadLine { line: u32 },
    /// Out of memory.
    Memory,
}

fn place_of(bytes: &[u8], mark: u8) -> Option<usize>
    ensures value { result ≡ position (λ b. b == mark) bytes.now }
    ensures bound { IfSome result (λ i. i < length bytes.now) }
{
    bytes.iter().position(|b| *b == mark)
}

/// What stands before the first mark, and what after it.
fn cut(bytes: &[u8], mark: u8) -> Option<(&[u8], &[u8])>
    ensures parts { IfSome result (λ p. IsCut mark bytes.now p.0.now p.1.now) }
    ensures whole { IsNone result → lacks mark bytes.now ≡ true }
{
    match place_of(bytes, mark) {
        Some(i) => Some((&bytes[..i], &bytes[i + 1..])),
        None => None,
    }
}

fn with_digit(number: u64, byte: u8) -> Option<u64>
    ensures value { IfSome result (λ n. n ≡ number * 10 + (byte - 48)) }
    ensures none { IsNone result → 2 ^ 64 ≤ number * 10 + (byte - 48) }
{
    let digit = byte.saturating_sub(48) as u64;
    match number.checked_mul(10) {
        Some(tens) => tens.checked_add(digit),
        None => None,
    }
}

/// The number that digits make; `None` where it takes more than 64 bits.
fn number(word: &[u8]) -> Option<u64>
    ensures value { IfSome result (λ n. n ≡ number_of word.now) }
    ensures none { IsNone result → 2 ^ 64 ≤ number_of word.now }
{
    let mut number = 0;
    for byte in word {
        match with_digit(number, *byte) {
            Some(longer) => number = longer,
            None => return None,
        }
    }
    Some(number)
}

/// The same, where it takes at most 32 bits.
fn short_number(word: &[u8]) -> Option<u32>
    ensures value { IfSome result (λ n. n ≡ number_of word.now) }
    ensures none { IsNone result → 2 ^ 32 ≤ number_of word.now }
{
    match number(word) {
        Some(n) if n < 4294967296 => Some(n as u32),
        _ => None,
    }
}

fn is_word(bytes: &[u8], word: &[u8]) -> bool
    ensures { result ≡ bytes_eq bytes.now word.now }
{
    bytes == word
}

/// Two numbers with a blank between.
fn pair(text: &[u8]) -> Option<(u32, u32)>
    ensures reads { (a b : ℕ) → a < 2 ^ 32 → b < 2 ^ 32 → text.now ≡ decimal a ++ (codes " " ++ decimal b) → result
        ≡ Some (a, b) }
{
    match cut(text, b' ') {
        Some((first, second)) => short_number(first).zip(short_number(second)),
        None => None,
    }
}

/// Two numbers of 64 bits with a blank between.
fn long_pair(text: &[u8]) -> Option<(u64, u64)>
    ensures reads { (a b : ℕ) → a < 2 ^ 64 → b < 2 ^ 64 → text.now ≡ decimal a ++ (codes " " ++ decimal b) → result
        ≡ Some (a, b) }
{
    match cut(text, b' ') {
        Some((first, second)) => number(first).zip(number(second)),
        None => None,
    }
}

/// Three numbers with blanks between.
fn triple(text: &[u8]) -> Option<(u32, (u32, u32))>
    ensures reads { (a b c : ℕ) → a < 2 ^ 32 → b < 2 ^ 32 → c < 2 ^ 32 → text.now ≡ decimal a
        ++ (codes " " ++ (decimal b ++ (codes " " ++ decimal c))) → result ≡ Some (a, (b, c)) }
{
    match cut(text, b' ') {
        Some((first, rest)) => short_number(first).zip(pair(rest)),
        None => None,
    }
}

fn of_why(word: &[u8], counts: Option<(u64, u64)>, place: Option<u32>) -> Option<Why>
    ensures { result ≡ why_read word.now counts place }
{
    if is_word(word, b"fault") {
        return counts.map(|(before, after)| Why::Fault { before, after });
    }
    if is_word(word, b"damage") {
        return place.map(|word| Why::Damage { word });
    }
    None
}

/// The reason of a failed load.
fn why(text: &[u8]) -> Option<Why>
    ensures reads { (y : Why) → FitsWhy y → text.now ≡ why_text y → result ≡ Some y }
{
    match cut(text, b' ') {
        Some((word, rest)) => of_why(word, long_pair(rest), short_number(rest)),
        None => None,
    }
}

fn piece_and_why(text: &[u8]) -> Option<(u32, Why)>
    ensures reads { (p : ℕ) (y : Why) → p < 2 ^ 32 → FitsWhy y → text.now ≡ decimal p ++ (codes " " ++ why_text y)
        → result ≡ Some (p, y) }
{
    match cut(text, b' ') {
        Some((piece, rest)) => short_number(piece).zip(why(rest)),
        None => None,
    }
}

fn query_piece_and_why(text: &[u8]) -> Option<(u32, (u32, Why))>
    ensures reads { (q p : ℕ) (y : Why) → q < 2 ^ 32 → p < 2 ^ 32 → FitsWhy y → text.now ≡ decimal q
        ++ (codes " " ++ (decimal p ++ (codes " " ++ why_text y))) → result ≡ Some (q, (p, y)) }
{
    match cut(text, b' ') {
        Some((query, rest)) => short_number(query).zip(piece_and_why(rest)),
        None => None,
    }
}

/// Worker, query, piece and reason of a failed load.
fn failed(text: &[u8]) -> Option<(u32, (u32, (u32, Why)))>
    ensures reads { (w q p : ℕ) (y : Why) → w < 2 ^ 32 → q < 2 ^ 32 → p < 2 ^ 32 → FitsWhy y → text.now ≡ decimal w
        ++ (codes " " ++ (decimal q ++ (codes " " ++ (decimal p ++ (codes " " ++ why_text y))))) → result
        ≡ Some (w, (q, (p, y))) }
{
    match cut(text, b' ') {
        Some((worker, rest)) => short_number(worker).zip(query_piece_and_why(rest)),
        None => None,
    }
}

fn of_pair(word: &[u8], pair: Option<(u32, u32)>) -> Option<Entry>
    ensures entry { result ≡ pair_entry word.now pair }
    ensures fits { IfSome result Fits }
{
    let (worker, second) = match pair {
        Some(numbers) => numbers,
        None => return None,
    };
    if is_word(word, b"register") {
        return Some(Entry::Register {
            worker,
            query: second,
        });
    }
    if is_word(word, b"evict") {
        return Some(Entry::Evict {
            worker,
            chunk: second,
        });
    }
    if is_word(word, b"stop") {
        return Some(Entry::Stop {
            worker,
            query: second,
        });
    }
    if is_word(word, b"end") {
        return Some(Entry::End {
            worker,
            query: second,
        });
    }
    None
}

fn of_triple(word: &[u8], triple: Option<(u32, (u32, u32))>) -> Option<Entry>
    ensures entry { result ≡ triple_entry word.now triple }
    ensures fits { IfSome result Fits }
{
    let (worker, (second, third)) = match triple {
        Some(numbers) => numbers,
        None => return None,
    };
    if is_word(word, b"plan") {
        return Some(Entry::Plan {
            worker,
            query: second,
            chunk: third,
        });
    }
    if is_word(word, b"fill") {
        return Some(Entry::Fill {
            worker,
            frame: second,
            piece: third,
        });
    }
    if is_word(word, b"filled") {
        return Some(Entry::Filled {
            worker,
            frame: second,
            piece: third,
        });
    }
    if is_word(word, b"deliver") {
        return Some(Entry::Deliver {
            worker,
            query: second,
            chunk: third,
        });
    }
    if is_word(word, b"release") {
        return Some(Entry::Release {
            worker,
            query: second,
            chunk: third,
        });
    }
    None
}

fn of_failed(word: &[u8], parts: Option<(u32, (u32, (u32, Why)))>) -> Option<Entry>
    ensures entry { result ≡ failed_entry word.now parts }
    ensures fits { IfSome result Fits }
{
    let (worker, (query, (piece, why))) = match parts {
        Some(parts) => parts,
        None => return None,
    };
    if is_word(word, b"failed") {
        return Some(Entry::Failed {
            worker,
            query,
            piece,
            why,
        });
    }
    None
}

/// The entry that the line's words and numbers make. It is the line's where its text is the line.
fn candidate(line: &[u8]) -> Option<Entry>
    ensures reads { (e : Entry) → Fits e → line.now ≡ entry_text e → result ≡ Some e }
    ensures fits { IfSome result Fits }
{
    match cut(line, b' ') {
        Some((word, rest)) => of_pair(word, pair(rest))
            .or(of_triple(word, triple(rest)))
            .or(of_failed(word, failed(rest))),
        None => None,
    }
}

/// The entry whose text the line is, if there is one.
fn read_line(alloc: Global, line: &[u8]) -> Result<Option<Entry>, Memory>
    ensures { IfOk result (IsEntryOf line.now) }
{
    let Some(entry) = candidate(line) else {
        return Ok(None);
    };
    let written = Line(entry);
    let Ok(text) = format!(in alloc; "{written}") else {
        return Err(Memory);
    };
    if is_word(text.as_bytes(), line) {
        Ok(Some(entry))
    } else {
        Ok(None)
    }
}

/// The entry of the first line, and the text behind that line.
fn first_line(alloc: Global, text: &[u8]) -> Result<Option<(Entry, &[u8])>, Memory>
    requires { text.now ≢ [] }
    ensures line { IfOk result (λ o. IfSome o (λ p. Fits p.0 × (text.now ≡ entry_text p.0 ++ 10 ∷ p.1.now))) }
    ensures none { IfOk result (λ o. IsNone o → BeginsBadly text.now) }
{
    let Some((line, rest)) = cut(text, b'\n') else {
        return Ok(None);
    };
    match read_line(alloc, line) {
        Ok(Some(entry)) => Ok(Some((entry, rest))),
        Ok(None) => Ok(None),
        Err(memory) => Err(memory),
    }
}

/// The entries of a text, a line each, as `write_story` writes them. The text has at most 2^30 bytes.
///
/// `BadLine` comes exactly where the text is no story's. It names the first line that isn't an entry's text followed
/// by LF: an unknown word, a number with a leading zero or past its range, a blank too many, an empty line, a last
/// line without LF.
pub fn read_story(alloc: Global, bytes: &[u8]) -> Result<Vec<Entry>, StoryRefusal>
    requires { length bytes.now ≤ 2 ^ 30 }
    ensures story { IfOk result (λ es. bytes.now ≡ story_text es.items) }
    ensures refused { IfErr result (IsRefusal bytes.now) }
    ensures no_story { (es : List Entry) → AllByRecursion Fits es → bytes.now ≡ story_text es → (line : ℕ)
        → result ≢ Err (StoryRefusal.BadLine line) }
{
    let mut entries = Vec::new(alloc);
    let mut rest = bytes;
    while !rest.is_empty() {
        match first_line(alloc, rest) {
            Ok(Some((entry, after))) => {
                if entries.push(entry).is_err() {
                    return Err(StoryRefusal::Memory);
                }
                rest = after;
            }
            Ok(None) => {
                return Err(StoryRefusal::BadLine {
                    line: entries.len() as u32 + 1,
                });
            }
            Err(Memory) => return Err(StoryRefusal::Memory),
        }
    }
    Ok(entries)
}

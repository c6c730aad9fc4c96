// A part of an output.
ghost use Rattle.std.specs.Prelude.{◌≡◌, ◌≢◌, ◌==◌, ◌<◌, ◌++◌, ◌∷◌, [], ℕ, List, Option, Some, IfNone, IfSome};
ghost use Rattle.std.specs.Prelude.{MatchOption, is_some, length, true};
ghost use Rattle.std.specs.List.{position};
ghost use Rattle.story_text.specs.Reading.{IsCut, lacks};
ghost use Rattle.inspect_verdict.specs.Ends.{EndsWith};
ghost use Rattle.inspect_verdict.specs.Parts as spec;

use table_core::Bytes;

/// A part of an output: a text, or a line in its place.
#[derive(Debug, Drop)]
pub struct Part {
    /// The text that is looked for.
    pub text: Bytes,
    /// How the line begins that may stand in its place; none where no line may.
    pub head: Option<Bytes>,
}

// What stands behind a beginning, where the text has it.
fn behind<'a>(text: &'a [u8], begin: &[u8]) -> Option<&'a [u8]>
    ensures { MatchOption result ((rest : List ℕ) → text.now ≢ begin.now ++ rest) (λ r. text.now ≡ begin.now ++ r.now) }
{
    text.strip_prefix(begin)
}

/// Where the first line end is.
pub(crate) fn end_of_line(text: &[u8]) -> Option<usize>
    ensures place { result ≡ position (λ b. b == 10) text.now }
    ensures there { IfSome result (λ i. i < length text.now) }
{
    text.iter().position(|b| *b == b'\n')
}

/// What stands behind the first line of a text; none where no line ends.
pub fn behind_line(text: &[u8]) -> Option<&[u8]>
    ensures line { IfSome result (λ r. (words : List ℕ) × IsCut 10 text.now words r.now) }
    ensures end { IfSome result (λ r. EndsWith text.now r.now) }
    ensures rest { (words rest : List ℕ) → lacks 10 words ≡ true → text.now ≡ words ++ 10 ∷ rest
        → MatchOption result ⊥ (λ r. r.now ≡ rest) }
{
    match end_of_line(text) {
        Some(end) => Some(&text[end + 1..]),
        None => None,
    }
}

/// What stands behind a line that begins so; none where the text begins with no such line.
pub(crate) fn behind_line_with<'a>(text: &'a [u8], head: &[u8]) -> Option<&'a [u8]>
    ensures line { IfSome result (λ r. (line : List ℕ) × spec.IsHeadedLine (Some head.now) line
        × (text.now ≡ line ++ r.now)) }
    ensures end { IfSome result (λ r. EndsWith text.now r.now) }
    ensures rest { (words rest : List ℕ) → lacks 10 words ≡ true → text.now ≡ (head.now ++ (words ++ 10 ∷ [])) ++ rest
        → MatchOption result ⊥ (λ r. r.now ≡ rest) }
{
    match behind(text, head) {
        Some(words) => behind_line(words),
        None => None,
    }
}

impl Part {
    /// Whether a line stands for the part at the beginning of a text, and what stands behind it; none where neither the
    /// part's own text stands there nor such a line.
    pub fn standing<'a>(&self, text: &'a [u8]) -> Option<(bool, &'a [u8])>
        ensures stands { IfSome result (λ r. (begin : List ℕ) × spec.StandsFor self.now begin
            × (text.now ≡ begin ++ r.1.now)) }
        ensures end { IfSome result (λ r. EndsWith text.now r.1.now) }
        ensures found { (words : Option (List ℕ)) (rest : List ℕ) → spec.MayStand self.now words
            → text.now ≡ spec.text_of self.now words ++ rest
            → MatchOption result ⊥ (λ r. (r.0 ≡ is_some words) × (r.1.now ≡ rest)) }
        ensures none { IfNone result (spec.HasNone self.now text.now) }
    {
        if let Some(rest) = behind(text, self.text.as_slice()) {
            return Some((false, rest));
        }
        match &self.head {
            Some(head) => match behind_line_with(text, head.as_slice()) {
                Some(rest) => Some((true, rest)),
                None => None,
            },
            None => None,
        }
    }
}

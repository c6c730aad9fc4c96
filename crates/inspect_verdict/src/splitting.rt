// An output in its parts.
ghost use Rattle.std.specs.Prelude.{◌≡◌, ◌++◌, ℕ, List, IfNone, IfOk, IfSome, Option, length};
ghost use Rattle.std.specs.List.{AllZip};
ghost use Rattle.inspect_verdict.specs.Ends.{EndsWith};
ghost use Rattle.inspect_verdict.specs.Parts as spec;

use crate::part::Part;
use crate::parting::ends_apart;
use std::alloc::{AllocError, Global};

/// An output in its parts.
#[derive(Drop)]
pub struct Split<'a> {
    /// Whether a line stands for a part, for each part in order, up to the first for which nothing stands.
    pub lines: Vec<bool>,
    /// What stands behind the last part; none where nothing stands for a part.
    pub behind: Option<&'a [u8]>,
    /// What is left of the text: behind the last part, or else from the first byte on in which it isn't the text of the
    /// part for which nothing stands.
    pub left: &'a [u8],
    /// What that part's text goes on with there; nothing where something stands for each part.
    pub more: &'a [u8],
}

/// Takes a text apart: for each part in order its own text, or else a line that begins with its head.
///
/// So a line end inside of a part's text ends no line. The error is out of memory.
pub fn take_apart<'a>(
    alloc: Global,
    parts: &'a [Part],
    text: &'a [u8],
) -> Result<Split<'a>, AllocError>
    ensures behind { IfOk result (λ split. IfSome split.behind (λ b. spec.StandsBehind parts.now text.now b.now)) }
    ensures end { IfOk result (λ split. IfSome split.behind (λ b. EndsWith text.now b.now)) }
    ensures split { IfOk result (λ split. (words : List (Option (List ℕ))) (rest : List ℕ)
        → AllZip spec.MayStand parts.now words → text.now ≡ spec.texts_of parts.now words ++ rest
        → spec.IsSplit words rest split) }
    ensures left { IfOk result (λ split. EndsWith text.now split.left.now) }
    ensures lacks { IfOk result (λ split. IfNone split.behind
        (spec.LacksPart parts.now text.now (length split.lines.items) split.left.now split.more.now)) }
{
    let mut lines = Vec::new(alloc);
    let mut rest = text;
    for part in parts {
        let Some((line, behind)) = part.standing(rest) else {
            let (left, more) = ends_apart(rest, part.text.as_slice());
            return Ok(Split {
                lines,
                behind: None,
                left,
                more,
            });
        };
        lines.push(line)?;
        rest = behind;
    }
    Ok(Split {
        lines,
        behind: Some(rest),
        left: rest,
        more: b"".as_slice(),
    })
}

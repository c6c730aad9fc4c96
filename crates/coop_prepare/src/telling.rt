// What the rules did, a line a rule.
use prepare_rules::{Hits, Tally};
use prepare_words::Writing;
use std::alloc::{AllocError, Global};
use std::fmt;

// What the rules did: a line for each that changed something, with how often and where first.
#[derive(Clone, Copy)]
struct Lines<'a>(&'a Tally);

/// The lines of what the rules did; none where it isn't to be told.
pub(crate) fn told(
    alloc: Global,
    writing: &Writing<'_>,
    tally: &Tally,
) -> Result<String, AllocError> {
    if writing.is_quiet {
        return Ok(String::new(alloc));
    }
    format!(in alloc; "{}", Lines(tally))
}

// The line of a rule, where it changed something.
fn write_hits<W: fmt::Write>(
    f: &mut fmt::Formatter<W>,
    rule: &str,
    hits: Hits,
    (one, more): (&str, &str),
    what: &str,
) -> fmt::Result {
    let (count, line) = (hits.count, hits.line);
    if count == 0 {
        return Ok(());
    }
    let noun = if count == 1 { one } else { more };
    writeln!(f, "{rule}: {count} {noun} {what}, the first in line {line}")
}

impl fmt::Display for Lines<'_> {
    fn fmt<W: fmt::Write>(&self, f: &mut fmt::Formatter<W>) -> fmt::Result {
        let (tally, fields) = (self.0, ("field", "fields"));
        write_hits(f, "--trim", tally.trimmed, fields, "trimmed")?;
        write_hits(f, "--missing", tally.missing, fields, "made empty")?;
        write_hits(f, "--numbers", tally.spelled, fields, "spelled anew")?;
        write_hits(f, "--round", tally.rounded, fields, "rounded")?;
        write_hits(f, "--dates", tally.dated, fields, "written as YYYY-MM-DD")?;
        write_hits(
            f,
            "--ragged pad",
            tally.padded,
            ("record", "records"),
            "padded",
        )
    }
}

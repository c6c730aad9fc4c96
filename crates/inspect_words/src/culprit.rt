// The word for which words that clap takes are refused.

use clap::ArgMatches;
use command_words::Table;
use std::fmt;

/// The word for which `coop_cli` refuses the words of a run.
#[derive(Clone, Copy, Debug, PartialEq, Eq)]
pub enum Culprit<'a> {
    /// A word that is empty or the lone `-`, and its number from 1, that of the subcommand's name.
    Bare { number: usize, word: &'a str },
    /// A value that an option or a place doesn't take; the name is that of the manual.
    Value { name: &'static str, value: &'a str },
    /// A value that may be `any` alone.
    NotAny { name: &'static str, value: &'a str },
    /// The last word, where OUTPUT has to stand.
    Last { word: &'a str },
    /// The value of `--from` is greater than that of `--to`.
    Order { from: &'a str, to: &'a str },
}

impl fmt::Display for Culprit<'_> {
    fn fmt<W: fmt::Write>(&self, f: &mut fmt::Formatter<W>) -> fmt::Result {
        match *self {
            Culprit::Bare { number, word } => {
                write!(
                    f,
                    "word {number} is '{word}', which is no file and no value"
                )
            }
            Culprit::Value { name, value } => write!(f, "coop_cli takes no '{value}' for {name}"),
            Culprit::NotAny { name, value } => {
                write!(f, "{name} takes any alone, and '{value}' stands there")
            }
            Culprit::Last { word } => {
                write!(
                    f,
                    "OUTPUT has to be the last word, and '{word}' stands there"
                )
            }
            Culprit::Order { from, to } => { write!(f, "--from {from} lies behind --to {to}") }
        }
    }
}

/// The values of `--from` and `--to`, where both are there.
pub(crate) fn order_culprit<'a>(from: Option<&'a str>, to: Option<&'a str>) -> Option<Culprit<'a>> {
    Some(Culprit::Order {
        from: from?,
        to: to?,
    })
}

/// The first of the words that is empty or the lone `-`, where the first of them has this number.
pub(crate) fn bare_in<'a>(words: &'a [String], first: usize) -> Option<Culprit<'a>> {
    for (behind, word) in words.iter().enumerate() {
        let word = word.as_str();
        if matches!(word, "" | "-") {
            return Some(Culprit::Bare {
                number: behind.saturating_add(first),
                word,
            });
        }
    }
    None
}

/// A value that `coop_cli` doesn't take though clap does: a name that it doesn't know, or a number that isn't one to
/// ten digits.
pub(crate) fn value_in<'a>(found: &ArgMatches<'a>) -> Option<Culprit<'a>> {
    for (id, name) in NUMBERS {
        if let Some(value) = found.get_str(*id)
            && !is_number(value)
        {
            return Some(Culprit::Value { name: *name, value });
        }
    }
    name_in(found)
}

// The options with a number, as clap and as the manual have them.
const NUMBERS: &[(&str, &str)] = &[
    ("threads", "--threads"),
    ("frames", "--frames"),
    ("rows", "--rows"),
    ("parts", "--parts"),
];

// One to ten digits; clap has seen how large the number is.
fn is_number(text: &str) -> bool {
    let digits = text.as_bytes();
    matches!(digits.len(), 1..=10) && digits.iter().all(|b| b.is_ascii_digit())
}

// A name that `coop_cli` doesn't know.
fn name_in<'a>(found: &ArgMatches<'a>) -> Option<Culprit<'a>> {
    if let Some(value) = found.get_str("layout")
        && !matches!(value, "row" | "column")
    {
        return Some(refused_value("--layout", value));
    }
    if let Some(value) = found.get_str("policy")
        && !matches!(value, "relevance" | "elevator" | "normal" | "attach")
    {
        return Some(refused_value("--policy", value));
    }
    if let Some("") = found.get_str("scratch") {
        return Some(refused_value("--scratch", ""));
    }
    if let Some(value) = found.get_str("TABLE")
        && Table::named(value).is_none()
    {
        return Some(refused_value("TABLE", value));
    }
    None
}

fn refused_value<'a>(name: &'static str, value: &'a str) -> Culprit<'a> {
    Culprit::Value { name, value }
}

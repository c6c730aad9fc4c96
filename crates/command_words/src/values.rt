//! The values of the options, as they stand in the words.
ghost use Rattle.std.specs.Prelude.{◌≡◌, List, option_map};
ghost use Rattle.clap.specs.Words.{found_of};
ghost use Rattle.command_words.specs.Pairs.{Known, Pairs};
ghost use Rattle.command_words.specs.Matched.{HasPairs, KnowsValues, is_true};
ghost use Rattle.command_words.specs.Options.{values_of};
ghost use Rattle.command_words.specs.Views.{values_view};

use clap::ArgMatches;

/// The text of each option that was named, and of each place; of a flag, whether it was named.
#[derive(Clone, Copy)]
pub(crate) struct Values<'a> {
    pub(crate) threads: Option<&'a str>,
    pub(crate) frames: Option<&'a str>,
    pub(crate) rows: Option<&'a str>,
    pub(crate) layout: Option<&'a str>,
    pub(crate) parts: Option<&'a str>,
    pub(crate) scratch: Option<&'a str>,
    pub(crate) policy: Option<&'a str>,
    pub(crate) summary: bool,
    pub(crate) trace: bool,
    pub(crate) compare: bool,
    pub(crate) table: Option<&'a str>,
    pub(crate) batch: Option<&'a str>,
}

impl<'a> Values<'a> {
    /// The values that the matches hold.
    pub(crate) fn found(matches: &ArgMatches<'a>) -> Values<'a>
        ensures { (known : List Known) (pairs : Pairs) → HasPairs known (found_of matches.now) pairs
            → KnowsValues known → values_view result ≡ values_of pairs }
    {
        Values {
            threads: matches.get_str("threads"),
            frames: matches.get_str("frames"),
            rows: matches.get_str("rows"),
            layout: matches.get_str("layout"),
            parts: matches.get_str("parts"),
            scratch: matches.get_str("scratch"),
            policy: matches.get_str("policy"),
            summary: is_true(matches.get_str("summary")),
            trace: is_true(matches.get_str("trace")),
            compare: is_true(matches.get_str("compare")),
            table: matches.get_str("TABLE"),
            batch: matches.get_str("BATCH"),
        }
    }
}

// A flag that was named has the value `true`.
fn is_true(text: Option<&str>) -> bool
    ensures { result ≡ is_true (option_map (λ s. s.now) text.entry) }
{
    matches!(text, Some("true"))
}

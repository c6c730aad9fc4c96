//! What the words name.
ghost use Rattle.std.specs.List.{list_any};
ghost use Rattle.std.specs.Prelude.{◌≡◌, None, if◌then◌else◌, option_map};
ghost use Rattle.command_words.specs.Options.{generated_by, is_colon, layout_or};
ghost use Rattle.command_words.specs.Options.{policy_or, scratch_or, table_of, batch_of};
ghost use Rattle.command_words.specs.Views.{table_view, batch_view};

use crate::limits::MOST_GENERATED_ROWS;
use crate::numbers::{number_in, small_number};
use piece_format::Layout;
use scan_story::PolicyName;

/// What a TABLE names.
#[derive(Clone, Copy, PartialEq, Eq)]
pub enum Table<'a> {
    /// The table that is generated from the seed, with so many rows, at most `MOST_GENERATED_ROWS`:
    /// `gen:SEED:ROWS`.
    Generated { seed: u64, rows: u32 },
    /// The file of this name.
    File(&'a str),
}

impl<'a> Table<'a> {
    /// What the word names; none where it begins with `gen:` and names no generated table.
    pub fn named(word: &'a str) -> Option<Table<'a>>
        ensures { option_map table_view result ≡ table_of word.now }
    {
        match word.strip_prefix("gen:") {
            Some(rest) => generated(rest),
            None => Some(Table::File(word)),
        }
    }
}

// The generated table that `SEED:ROWS` names.
fn generated<'a>(text: &str) -> Option<Table<'a>>
    ensures { option_map table_view result ≡ (if list_any is_colon text.now then generated_by text.now else None) }
{
    let (seed, rows) = text.split_once(':')?;
    let seed = number_in(seed, 20, 0, u64::MAX)?;
    let rows = small_number(rows, 0, MOST_GENERATED_ROWS)?;
    Some(Table::Generated { seed, rows })
}

/// What a BATCH names.
#[derive(Clone, Copy, PartialEq, Eq)]
pub enum Batch<'a> {
    /// The generated batch: `gen`.
    Generated,
    /// The file of this name.
    File(&'a str),
}

impl<'a> Batch<'a> {
    /// What the word names.
    pub fn named(word: &'a str) -> Batch<'a>
        ensures { batch_view result ≡ batch_of word.now }
    {
        if word == "gen" {
            return Batch::Generated;
        }
        Batch::File(word)
    }
}

/// The layout that an option names, or the default.
pub(crate) fn layout_or(text: Option<&str>) -> Option<Layout>
    ensures { result ≡ layout_or (option_map (λ s. s.now) text.entry) }
{
    match text {
        None => Some(Layout::Row),
        Some("row") => Some(Layout::Row),
        Some("column") => Some(Layout::Column),
        Some(_) => None,
    }
}

/// The policy that an option names, or the default.
pub(crate) fn policy_or(text: Option<&str>) -> Option<PolicyName>
    ensures { result ≡ policy_or (option_map (λ s. s.now) text.entry) }
{
    match text {
        None => Some(PolicyName::Relevance),
        Some("relevance") => Some(PolicyName::Relevance),
        Some("elevator") => Some(PolicyName::Elevator),
        Some("normal") => Some(PolicyName::Normal),
        Some("attach") => Some(PolicyName::Attach),
        Some(_) => None,
    }
}

/// The file that an option names, if it is there; an empty name is refused.
pub(crate) fn scratch_or<'a>(text: Option<&'a str>) -> Option<Option<&'a str>>
    ensures { option_map (λ o. option_map (λ s. s.now) o) result ≡ scratch_or (option_map (λ s. s.now) text.entry) }
{
    let Some(text) = text else {
        return Some(None);
    };
    if text.is_empty() {
        return None;
    }
    Some(Some(text))
}

// Why a text is no setting's, in words.
ghost use Rattle.std.specs.Prelude.{◌≡◌, IfOk};
ghost use Rattle.inspect_calls.specs.StoryVerdicts as spec;

use crate::lines::numbered;
use setting_text::{HeadRule, NeedRule, SettingFault};
use std::alloc::{AllocError, Global};

// What the first line of a setting breaks.
fn head_words(rule: HeadRule) -> &'static str
    ensures { result.now ≡ spec.head_words rule }
{
    match rule {
        HeadRule::Workers => "there have to be 1 to 32 workers",
        HeadRule::Chunks => "there may be at most 1024 chunks",
        HeadRule::Groups => "there have to be 1 to 16 groups",
        HeadRule::FewFrames => "frames have to be at least (3 * workers + 1) * groups",
        HeadRule::ManyFrames => "there may be at most 33554432 frames",
    }
}

// What the line of a query breaks.
fn need_words(rule: NeedRule) -> &'static str
    ensures { result.now ≡ spec.need_words rule }
{
    match rule {
        NeedRule::Number => "the number of a query has to be 1 to 256",
        NeedRule::Once => "the query has a line before",
        NeedRule::Worker => "there is no such worker",
        NeedRule::ChunksRise => "the chunks have to rise",
        NeedRule::Chunks => "the table has no such chunk",
        NeedRule::ColumnsRise => "the columns have to rise",
        NeedRule::Columns => {
            "the columns have to be below groups, and at least one; with one group below 16"
        }
    }
}

// The line of a first line that breaks a rule.
fn head_text(alloc: Global, rule: HeadRule) -> Result<Vec<u8>, AllocError>
    ensures { IfOk result (λ text. text.items ≡ spec.head_text rule) }
{
    let words = head_words(rule);
    match format!(in alloc; "stopped 3: line 1 of the setting: {words}\n") {
        Ok(text) => Ok(text.into_bytes()),
        Err(_) => Err(AllocError),
    }
}

// The line of a query's line that breaks a rule.
fn need_text(alloc: Global, line: u64, rule: NeedRule) -> Result<Vec<u8>, AllocError>
    ensures { IfOk result (λ text. text.items ≡ spec.need_text line rule) }
{
    let words = need_words(rule);
    match format!(in alloc; "stopped 3: line {line} of the setting: {words}\n") {
        Ok(text) => Ok(text.into_bytes()),
        Err(_) => Err(AllocError),
    }
}

/// The line of a text that is no setting's: which line of it stands in the way, and why.
pub(crate) fn setting_fault_text(alloc: Global, fault: SettingFault) -> Result<Vec<u8>, AllocError>
    ensures { IfOk result (λ text. text.items ≡ spec.setting_fault_text fault) }
{
    match fault {
        SettingFault::NoHead => Vec::from_slice(
            alloc,
            b"stopped 3: line 1 of the setting isn't workers W frames F chunks C groups G policy P\n",
        ),
        SettingFault::Head(rule) => head_text(alloc, rule),
        SettingFault::NoQuery { line } => numbered(
            alloc,
            b"stopped 3: line ",
            line,
            b" of the setting isn't query Q worker W chunks C,.. columns G,..\n",
        ),
        SettingFault::Query { line, rule } => need_text(alloc, line, rule),
        SettingFault::Memory => Ok(Vec::new(alloc)),
    }
}

// Settings read.
ghost use Rattle.std.specs.Prelude.{◌≡◌, ℕ, true, IfErr, IfOk, IfSome, IfNone, List, map};
ghost use Rattle.setting_text.specs.declared.plain.PlainSetting.{PlainSetting};
ghost use Rattle.setting_text.specs.Reading.{EndsSo, HasNoHead, IsBegun, IsFault, IsRefusal, LeavesLines, Spells};
ghost use Rattle.scan_story.specs.Setting.{HasRoom, IsSetting};
ghost use Rattle.setting_text.specs.Rules.{AreGood, IsGoodHead, setting_of};

use crate::fault::SettingFault;
use crate::head::Head;
use crate::lines::{head_in, need_in};
use crate::plain::PlainSetting;
use crate::rules::{first_broken, head_breaks};
use crate::words::parts_of;
use scan_story::Need;
use std::alloc::{AllocError, Global};

// The queries of the first lines, and whether nothing is left behind them.
fn needs_in(alloc: Global, lines: &[&[u8]]) -> Result<(Vec<Need>, bool), AllocError>
    ensures { IfOk result (λ r. (left : List (List ℕ)) × LeavesLines (map (λ l. l.now) lines.now) r.0.items left
        × EndsSo r.1 left) }
{
    let mut needs = Vec::new(alloc);
    let mut rest = lines;
    while let [line, after @ ..] = rest {
        if after.is_empty() {
            return Ok((needs, line.is_empty()));
        }
        let Some(need) = need_in(alloc, *line)? else {
            return Ok((needs, false));
        };
        needs.push(need)?;
        rest = after;
    }
    Ok((needs, false))
}

// What a text begins with: a first line and queries; and whether it ends behind them.
#[derive(Drop)]
struct Begun {
    head: Head,
    needs: Vec<Need>,
    is_whole: bool,
}

fn begun_of(alloc: Global, text: &[u8]) -> Result<Option<Begun>, AllocError>
    ensures some { IfOk result (λ o. IfSome o (λ b. (left : List (List ℕ)) × IsBegun text.now b.head b.needs.items left
        × EndsSo b.is_whole left)) }
    ensures none { IfOk result (λ o. IfNone o (HasNoHead text.now)) }
{
    let lines = parts_of(alloc, text, b'\n')?;
    let [first, rest @ ..] = lines.as_slice() else {
        return Ok(None);
    };
    if rest.is_empty() {
        return Ok(None);
    }
    let Some(head) = head_in(alloc, *first)? else {
        return Ok(None);
    };
    let (needs, is_whole) = needs_in(alloc, rest)?;
    Ok(Some(Begun {
        head,
        needs,
        is_whole,
    }))
}

// The first that stands in the way of what is begun.
fn fault_in(begun: &Begun) -> Option<SettingFault>
    ensures fault { IfSome result IsFault }
    ensures first { IfSome result (λ f. (text : List ℕ) (left : List (List ℕ))
        → IsBegun text begun.now.head begun.now.needs.items left → EndsSo begun.now.is_whole left → IsRefusal text f) }
    ensures whole { IfNone result (begun.now.is_whole ≡ true) }
    ensures head { IfNone result (IsGoodHead begun.now.head) }
    ensures good { IfNone result (AreGood begun.now.head begun.now.needs.items) }
{
    if let Some(rule) = head_breaks(begun.head) {
        return Some(SettingFault::Head(rule));
    }
    if let Some((place, rule)) = first_broken(begun.head, &begun.needs) {
        return Some(SettingFault::Query {
            line: place as u64 + 2,
            rule,
        });
    }
    if !begun.is_whole {
        return Some(SettingFault::NoQuery {
            line: begun.needs.len() as u64 + 2,
        });
    }
    None
}

/// The setting whose text this is, as `write_setting` writes it.
///
/// Else the first that stands in the way, with its line: a line that has another form than it must have, or a number
/// that contradicts the rules or a line before it. `Memory` is out of memory.
pub fn read_setting(alloc: Global, text: &[u8]) -> Result<PlainSetting, SettingFault>
    ensures spells { IfOk result (Spells text.now) }
    ensures setting { IfOk result (λ p. IsSetting (setting_of p.head p.needs.items)) }
    ensures room { IfOk result (λ p. HasRoom (setting_of p.head p.needs.items)) }
    ensures refused { IfErr result (IsRefusal text.now) }
    ensures exactly { (p : PlainSetting) → Spells text.now p → IfErr result (λ f. IsFault f → ⊥) }
{
    let begun = match begun_of(alloc, text) {
        Ok(Some(begun)) => begun,
        Ok(None) => return Err(SettingFault::NoHead),
        Err(_) => return Err(SettingFault::Memory),
    };
    if let Some(fault) = fault_in(&begun) {
        return Err(fault);
    }
    let Begun { head, needs, .. } = begun;
    Ok(PlainSetting { head, needs })
}

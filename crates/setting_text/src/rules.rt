// What a setting that contradicts itself breaks.
ghost use Rattle.std.specs.Prelude.{◌≡◌, ◌≢◌, ◌↔◌, ◌<◌, ℕ, IfNone, IfSome, IsTrue, length};
ghost use Rattle.std.specs.List.{AllByRecursion};
ghost use Rattle.scan_story.specs.declared.setting.Need.{Need};
ghost use Rattle.scan_story.specs.Setting.{IsRising};
ghost use Rattle.setting_text.specs.Rules as spec;

use crate::fault::{HeadRule, NeedRule};
use crate::head::Head;
use scan_story::Need;
use std::collections::LinkedList;

/// The rule that a first line breaks, if any.
pub(crate) fn head_breaks(h: Head) -> Option<HeadRule>
    ensures some { IfSome result (λ r. spec.KeepsHead h r → ⊥) }
    ensures none { IfNone result (spec.IsGoodHead h) }
{
    if h.workers < 1 || h.workers > 32 {
        return Some(HeadRule::Workers);
    }
    if h.chunks > 1024 {
        return Some(HeadRule::Chunks);
    }
    if h.groups < 1 || h.groups > 16 {
        return Some(HeadRule::Groups);
    }
    if (3 * h.workers + 1) * h.groups > h.frames {
        return Some(HeadRule::FewFrames);
    }
    if h.frames > 33554432 {
        return Some(HeadRule::ManyFrames);
    }
    None
}

fn are_below(numbers: &LinkedList<u32>, end: u32) -> bool
    ensures { IsTrue result ↔ AllByRecursion (λ (n : ℕ). n < end) numbers.now }
{
    numbers.iter().all(|n| *n < end)
}

fn are_rising(numbers: &LinkedList<u32>) -> bool
    ensures { IsTrue result ↔ IsRising numbers.now }
{
    let mut next = 0;
    for n in numbers.iter() {
        if (*n as u64) < next {
            return false;
        }
        next = *n as u64 + 1;
    }
    true
}

fn are_known(h: Head, n: &Need) -> bool
    ensures { IsTrue result ↔ spec.AreKnown h n.now }
{
    if h.groups == 1 {
        return are_below(&n.columns, 16);
    }
    n.columns.len() > 0 && are_below(&n.columns, h.groups) && are_below(&n.columns, 16)
}

fn is_new(before: &[Need], query: u32) -> bool
    ensures { IsTrue result ↔ AllByRecursion (λ (m : Need). m.query ≢ query) before.now }
{
    before.iter().all(|m| m.query != query)
}

// The rule that a query breaks behind these, if any.
fn need_breaks(h: Head, before: &[Need], n: &Need) -> Option<NeedRule>
    ensures some { IfSome result (λ r. spec.KeepsNeed h before.now n.now r → ⊥) }
    ensures good { IfNone result (spec.IsGoodNeed h n.now) }
    ensures once { IfNone result (AllByRecursion (λ (m : Need). m.query ≢ n.now.query) before.now) }
{
    if n.query < 1 || n.query > 256 {
        return Some(NeedRule::Number);
    }
    if !is_new(before, n.query) {
        return Some(NeedRule::Once);
    }
    if n.worker >= h.workers {
        return Some(NeedRule::Worker);
    }
    if !are_rising(&n.chunks) {
        return Some(NeedRule::ChunksRise);
    }
    if !are_below(&n.chunks, h.chunks) {
        return Some(NeedRule::Chunks);
    }
    if !are_rising(&n.columns) {
        return Some(NeedRule::ColumnsRise);
    }
    if !are_known(h, n) {
        return Some(NeedRule::Columns);
    }
    None
}

/// The place of the first query that breaks a rule, and the rule.
pub(crate) fn first_broken(h: Head, needs: &[Need]) -> Option<(usize, NeedRule)>
    ensures some { IfSome result (λ r. spec.IsFirstBroken h needs.now r.0 r.1) }
    ensures within { IfSome result (λ r. r.0 < length needs.now) }
    ensures none { IfNone result (spec.AreGood h needs.now) }
{
    for place in 0..needs.len() {
        if let Some(rule) = need_breaks(h, &needs[..place], &needs[place]) {
            return Some((place, rule));
        }
    }
    None
}

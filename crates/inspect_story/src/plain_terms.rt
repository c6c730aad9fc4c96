// The terms of a setting that a text tells.
ghost use Rattle.std.specs.Prelude.{◌≡◌, All, IfOk, map};
ghost use Rattle.chunk_interest.specs.Fresh.{as_need};
ghost use Rattle.scan_story.specs.Setting.{HasRoom, IsSetting};
ghost use Rattle.setting_text.specs.Rules.{AreGood, IsGoodHead};
ghost use Rattle.inspect_referee.specs.Terms.{setting_of};
ghost use Rattle.inspect_story.specs.Freedom.{needs_for, on_worker, setting_in};
ghost use Rattle.inspect_story.specs.Settings.{HasMembers};

use crate::dealing::worker_for;
use crate::freedom::{Freedom, policy_or};
use crate::sets::{chunks_of, columns_of};
use inspect_referee::Terms;
use scan_story::Entry;
use setting_text::PlainSetting;
use std::alloc::{AllocError, Global};

// A need as the manager has it, of a query on this worker.
fn need_on(worker: u32, need: &scan_story::Need) -> chunk_interest::Need
    requires { HasMembers need.now }
    ensures { as_need result ≡ on_worker worker need.now }
{
    chunk_interest::Need {
        query: need.query,
        worker,
        chunks: chunks_of(&need.chunks),
        columns: columns_of(&need.columns),
    }
}

// Needs as the manager has them, of queries on their workers among so many.
fn needs_on(
    alloc: Global,
    freedom: Freedom,
    workers: u32,
    entries: &[Entry],
    needs: &[scan_story::Need],
) -> Result<Vec<chunk_interest::Need>, AllocError>
    requires { All HasMembers needs.now }
    ensures { IfOk result (λ ns. map as_need ns.items ≡ needs_for freedom workers entries.now needs.now) }
{
    let mut dealt = Vec::new(alloc);
    for need in needs {
        let worker = worker_for(freedom, workers, entries, need);
        dealt.push(need_on(worker, need))?;
    }
    Ok(dealt)
}

/// The terms by which a story of these entries is judged in a setting of which so much is left to it. The error is out
/// of memory.
pub(crate) fn plain_terms(
    alloc: Global,
    freedom: Freedom,
    plain: &PlainSetting,
    entries: &[Entry],
) -> Result<Terms, AllocError>
    requires head { IsGoodHead plain.now.head }
    requires good { AreGood plain.now.head plain.now.needs.items }
    ensures setting { IfOk result (λ t. setting_of t
        ≡ setting_in freedom plain.now.head plain.now.needs.items entries.now) }
    ensures may { IfOk result (λ t. IsSetting (setting_of t)) }
    ensures room { IfOk result (λ t. HasRoom (setting_of t)) }
{
    let head = plain.head;
    let needs = needs_on(alloc, freedom, head.workers, entries, &plain.needs)?;
    Ok(Terms {
        needs,
        chunks: head.chunks,
        workers: head.workers,
        frames: head.frames,
        groups: head.groups,
        policy: policy_or(head.policy),
    })
}

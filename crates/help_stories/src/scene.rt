//! What the printed stories and the worked examples are of.
ghost use Rattle.std.specs.Prelude.{◌≤◌, ◌<◌, IfOk};
ghost use Rattle.help_views.specs.Small.{IsSmall};

use crate::settings::{need, setting};
use scan_story::{PolicyName, Setting};
use std::alloc::{AllocError, Global};

/// Queries over a table.
#[derive(Clone, Copy, Debug, PartialEq, Eq)]
pub enum Scene {
    /// One query over three chunks.
    OneCount,
    /// Two queries over three chunks, one after the other.
    TwoCounts,
    /// Two queries over six chunks, one after the other, with four frames.
    SixChunks,
    /// Query 1 needs three chunks, query 2 the last of them alone.
    Shorter,
    /// Query 1 reads the first of two columns, query 2 both.
    Columns,
    /// Two queries on two workers.
    TriggerStops,
    /// Nine chunks and seven frames.
    NineChunks,
}

// The worker of a query, its chunks and its columns.
type Asked<'a> = (u32, &'a [u32], &'a [u32]);

fn two_queries(
    alloc: Global,
    policy: PolicyName,
    numbers: [u32; 3],
    groups: u32,
    first: Asked<'_>,
    second: Asked<'_>,
) -> Result<Setting, AllocError>
    requires some { 0 < groups }
    requires few { groups ≤ 16 }
    ensures { IfOk result IsSmall }
{
    let first = need(alloc, 1, first.0, first.1, first.2)?;
    let second = need(alloc, 2, second.0, second.1, second.2)?;
    setting(alloc, policy, numbers, groups, first, Some(second))
}

impl Scene {
    /// Its setting under the policy.
    pub fn setting(self, alloc: Global, policy: PolicyName) -> Result<Setting, AllocError>
        ensures { IfOk result IsSmall }
    {
        const THREE: &[u32] = &[0, 1, 2];
        const SIX: &[u32] = &[0, 1, 2, 3, 4, 5];
        match self {
            Scene::OneCount => {
                let first = need(alloc, 1, 0, THREE, &[])?;
                return setting(alloc, policy, [3, 1, 4], 1, first, None);
            }
            Scene::TwoCounts => {
                return two_queries(
                    alloc,
                    policy,
                    [3, 1, 4],
                    1,
                    (0, THREE, &[]),
                    (0, THREE, &[]),
                );
            }
            Scene::SixChunks => {
                return two_queries(alloc, policy, [6, 1, 4], 1, (0, SIX, &[]), (0, SIX, &[]));
            }
            Scene::Shorter => {
                return two_queries(alloc, policy, [3, 2, 7], 1, (0, THREE, &[]), (1, &[2], &[]));
            }
            Scene::Columns => {
                let second: Asked<'_> = (1, &[1, 2], &[0, 1]);
                return two_queries(alloc, policy, [3, 2, 14], 2, (0, &[0, 1], &[0]), second);
            }
            Scene::TriggerStops => {
                return two_queries(
                    alloc,
                    policy,
                    [3, 2, 7],
                    1,
                    (0, &[0, 1], &[]),
                    (1, THREE, &[]),
                );
            }
            Scene::NineChunks => {
                let second: Asked<'_> = (1, &[2, 3, 4, 5, 6, 8], &[]);
                return two_queries(alloc, policy, [9, 2, 7], 1, (0, &[0, 1, 2, 7], &[]), second);
            }
        }
    }
}

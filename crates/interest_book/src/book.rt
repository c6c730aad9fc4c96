//! The book: what a list of entries says of some needs.
ghost use Rattle.std.specs.Prelude.{◌≡◌, ◌<◌, ◌≤◌, ◌^◌, ℕ, IfOk, None, length, slice_index_or};
ghost use Rattle.interest_book.specs.Sizes.{AreParts};

use crate::loading::Loading;
use chunk_interest::{Buffer, Clients, Need, QuerySet, sharers_each};
use scan_story::Hold;
use std::alloc::{AllocError, Global};
use table_sets::Memory;

/// Stands for needs and the entries that it has noted.
///
/// A call that takes a query asks no more than that its number is at most 256. It need not be one of the needs: of
/// other numbers a call answers what the definitions say of them.
#[derive(Drop)]
pub struct Book {
    pub(crate) needs: Vec<Need>,
    pub(crate) clients: Clients,
    pub(crate) buffer: Buffer,
    pub(crate) holds: Vec<Option<Hold>>,
    pub(crate) loading: Option<Loading>,
    pub(crate) sharers: Vec<QuerySet>,
    pub(crate) chunks: u32,
    pub(crate) workers: u32,
    pub(crate) noted: u64,
    ghost short: { noted < 2 ^ 63 },
    ghost sharing: { length sharers.items ≡ 257 },
    ghost parts: { AreParts needs.items clients holds.items chunks workers },
}

fn no_holds(alloc: Global, n: usize) -> Result<Vec<Option<Hold>>, AllocError>
    ensures length { IfOk result (λ v. length v.items ≡ n) }
    ensures none { IfOk result (λ v. (w : ℕ) → slice_index_or v.items w None ≡ None) }
{
    vec![in alloc; None; n]
}

impl Book {
    ghost use Rattle.std.specs.Prelude.{[]};
    ghost use Rattle.scan_story.specs.declared.setting.Setting.{Setting};
    ghost use Rattle.scan_story.specs.Setting.{IsSetting};
    ghost use Rattle.interest_book.specs.Made.{made_for, IsMadeFor};
    ghost use Rattle.interest_book.specs.Stands.{Stands};

    /// A book for these needs, before the first entry. It takes all memory that the book ever needs.
    ///
    /// The needs name distinct queries from 1 to 256, workers below `workers` and chunks below `chunks`. There are 1
    /// to 32 workers, at most 1024 chunks, at most 33554432 frames, and 1 to 16 groups. With more than one group each
    /// need names columns, all below `groups`.
    pub fn new(
        alloc: Global,
        needs: Vec<Need>,
        chunks: u32,
        workers: u32,
        frames: u32,
        groups: u32,
    ) -> Result<Book, Memory>
        requires { IsSetting (made_for needs.items chunks workers frames groups) }
        ensures { IfOk result (λ b. (s : Setting) → IsMadeFor s needs.items chunks workers frames groups
            → Stands b s []) }
    {
        let clients = Clients::new(alloc, &needs, groups)?;
        let buffer = Buffer::new(alloc, frames, groups)?;
        // Which queries read a group of which others depends on the needs alone, so it is found once.
        let sharers = sharers_each(alloc, &clients, groups)?;
        let holds = no_holds(alloc, 32)?;
        Ok(Book {
            needs,
            clients,
            buffer,
            holds,
            loading: None,
            sharers,
            chunks,
            workers,
            noted: 0,
        })
    }
}

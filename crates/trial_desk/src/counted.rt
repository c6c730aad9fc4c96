//! A policy of a caller's own.
use interest_book::Book;
use relevance::{Policy, Relevance};
use scan_story::PolicyName;

/// Relevance that counts the loads that it picked.
#[derive(Clone, Copy, Debug, PartialEq, Eq)]
pub struct Counted {
    /// How many loads were picked; it stands still at its last value.
    pub loads: u64,
}

impl Policy for Counted {
    ghost use Rattle.std.specs.Prelude.{[]};
    ghost use Rattle.scan_story.specs.declared.setting.PolicyName.TheVariants as names;

    ghost name = { λ _. names.Relevance };

    ghost cursor = { λ _. [] };

    fn named(&self) -> PolicyName {
        PolicyName::Relevance
    }

    fn pick_query(&mut self, book: &Book) -> Option<u32> {
        Relevance.pick_query(book)
    }

    fn pick_load(&mut self, book: &Book, q: u32) -> Option<u32> {
        self.loads = self.loads.saturating_add(1);
        Relevance.pick_load(book, q)
    }

    fn pick_delivery(&mut self, book: &Book, q: u32) -> Option<u32> {
        Relevance.pick_delivery(book, q)
    }

    fn pick_victim(&mut self, book: &Book) -> Option<u32> {
        Relevance.pick_victim(book)
    }
}

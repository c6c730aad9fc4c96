// A policy out of a list of boxes.

use interest_book::{Book, Policy};
use scan_story::PolicyName;

/// The policy that a run takes out of the list, or one of those that are compared. Its name, its cursor and its picks
/// are those of the policy in the box. `policy_box::Boxed` is a type of another crate, at which a call that takes any
/// policy isn't proved.
#[derive(Drop)]
pub struct TakenPolicy {
    pub policy: Box<dyn Policy + Send>,
}

impl Policy for TakenPolicy {
    ghost name = { λ t. (Policy-box t.policy).name t.policy.value };

    ghost cursor = { λ t. (Policy-box t.policy).cursor t.policy.value };

    fn named(&self) -> PolicyName {
        self.policy.named()
    }

    fn pick_query(&mut self, book: &Book) -> Option<u32> {
        self.policy.pick_query(book)
    }

    fn pick_load(&mut self, book: &Book, q: u32) -> Option<u32> {
        self.policy.pick_load(book, q)
    }

    fn pick_delivery(&mut self, book: &Book, q: u32) -> Option<u32> {
        self.policy.pick_delivery(book, q)
    }

    fn pick_victim(&mut self, book: &Book) -> Option<u32> {
        self.policy.pick_victim(book)
    }
}

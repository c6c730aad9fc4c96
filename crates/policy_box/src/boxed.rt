//! A policy in a box.
ghost use Rattle.std.specs.Prelude.{◌≡◌, ◌≢◌, ◌↔◌, IfNone, IfSome, IsTrue};
ghost use Rattle.std.specs.List.{AllByRecursion};
ghost use Rattle.policy_box.specs.First.{IsFirstOf};

use interest_book::Book;
use relevance::Policy;
use scan_story::PolicyName;

/// A policy that was handed in. Its name, its cursor and its picks are those of the policy in the box.
#[derive(Drop)]
pub struct Boxed {
    /// The policy that was handed in.
    pub policy: Box<dyn Policy + Send>,
}

impl Policy for Boxed {
    ghost name = { λ b. (Policy-box b.policy).name b.policy.value };

    ghost cursor = { λ b. (Policy-box b.policy).cursor b.policy.value };

    fn named(&self) -> PolicyName {
        self.policy.named()
    }

    fn pick_query(&mut self, book: &Book) -> Option<u32> {
        self.policy.pick_query(book)
    }

    fn pick_load(&mut self, book: &Book, q: u32) -> Option<u32> {
        self.policy.pick_load(book, q)
    }

    fn pick_delivery(&mut self, book: &Book, q: u32) -> Option<u32> {
        self.policy.pick_delivery(book, q)
    }

    fn pick_victim(&mut self, book: &Book) -> Option<u32> {
        self.policy.pick_victim(book)
    }
}

fn is_named(policy: &Box<dyn Policy + Send>, wanted: PolicyName) -> bool
    ensures { IsTrue result ↔ name policy.now ≡ wanted }
{
    policy.named() == wanted
}

/// The first policy of that name, where one has it: the list is some policies of other names, this one, and the rest.
/// The others are dropped.
pub fn choose(policies: Vec<Box<dyn Policy + Send>>, wanted: PolicyName) -> Option<Boxed>
    ensures first { IfSome result (λ b. IsFirstOf (λ p. name p ≡ wanted) policies.items b.policy) }
    ensures none { IfNone result (AllByRecursion (λ p. name p ≢ wanted) policies.items) }
{
    for policy in policies {
        if is_named(&policy, wanted) {
            return Some(Boxed { policy });
        }
    }
    None
}

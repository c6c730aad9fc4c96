// What the workers of one policy's run left.
ghost use Rattle.std.specs.Prelude.{◌≡◌, ◌≤◌, ◌<◌, [], All, None, is_some, length, true, vec_capacity, vec_len};
ghost use Rattle.run_ends.specs.Answering.{story_in, taken_in};
ghost use Rattle.run_ends.specs.Joined.{joined_story};
ghost use Rattle.run_ends.specs.Runs.{joined_taken};

use batch_ends::{Ran, Taken};
use interest_book::Policy;
use scan_story::{Entry, PolicyName};

/// What the workers of one policy's run left.
#[derive(Drop)]
pub struct PolicyRun {
    /// The name of the policy.
    pub name: PolicyName,
    /// What all turns of the workers recorded, the oldest entry first.
    pub story: Vec<Entry>,
    /// The chunks that each scan took: of each query, in their order, each part in part order.
    pub taken: Vec<Taken>,
}

/// The name of a policy in its box.
pub fn name_of(policy: &Box<dyn Policy + Send>) -> PolicyName
    ensures { result ≡ name policy.now }
{
    policy.named()
}

/// What the workers left, under the policy's name.
pub fn run_of(name: PolicyName, ran: Ran) -> PolicyRun
    ensures name { result.name ≡ name }
    ensures story { result.story.items ≡ ran.story.items }
    ensures taken { result.taken.items ≡ ran.taken.items }
{
    let Ran { story, taken } = ran;
    PolicyRun { name, story, taken }
}

/// The list with what the workers left, where they ran. It takes no memory.
pub fn kept(mut runs: Vec<PolicyRun>, name: PolicyName, ran: Option<Ran>) -> Vec<PolicyRun>
    requires empty { runs.items ≡ [] }
    requires room { vec_len runs < vec_capacity runs }
    ensures story { joined_story result.items ≡ story_in ran }
    ensures taken { joined_taken result.items ≡ taken_in ran }
    ensures few { length result.items ≤ 1 }
    ensures named { All (λ run. run.name ≡ name) result.items }
    ensures one { is_some ran ≡ true → length result.items ≡ 1 }
    ensures none { ran ≡ None → result.items ≡ [] }
{
    match ran {
        Some(Ran { story, taken }) => {
            runs.push_reserved(PolicyRun { name, story, taken });
            runs
        }
        None => runs,
    }
}

// What of a setting is left to the story.
ghost use Rattle.std.specs.Prelude.{◌≡◌};
ghost use Rattle.inspect_story.specs.Freedom.{choices_of};
ghost use Rattle.setting_text.specs.Rules.{policy_or};

use inspect_referee::Choices;
use scan_story::PolicyName;

/// What of a setting is left to the story that is judged in it.
#[derive(Clone, Copy, Debug, PartialEq, Eq)]
pub struct Freedom {
    /// Choices are free, also where the setting names a policy.
    pub choices: bool,
    /// A query is on the worker that registers it first, whichever the setting has for it.
    pub dealing: bool,
}

/// By which choices a story is judged, where the setting names this policy.
pub(crate) fn choices_of(freedom: Freedom, policy: Option<PolicyName>) -> Choices
    ensures { result ≡ choices_of freedom policy }
{
    if freedom.choices || policy.is_none() {
        return Choices::Free;
    }
    Choices::OfPolicy
}

/// The policy that a setting names; where choices are free any name does.
pub(crate) fn policy_or(policy: Option<PolicyName>) -> PolicyName
    ensures { result ≡ policy_or policy }
{
    policy.unwrap_or(PolicyName::Relevance)
}

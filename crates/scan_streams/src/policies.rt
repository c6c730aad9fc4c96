// The ways in which the queries are played.
ghost use Rattle.std.specs.Prelude.{◌≡◌};
ghost use Rattle.run_ends.specs.Lines.{name_text};

use scan_story::PolicyName;

/// A way to play the queries.
#[derive(Clone, Copy, Debug, PartialEq, Eq)]
pub(crate) enum Way {
    /// The engine under a policy.
    Under(PolicyName),
    /// A plain buffer manager with LRU, for comparison; not the engine. Each scan goes in table order, or attaches to
    /// another one and goes around.
    Plain { attaches: bool },
}

/// The four policies, and the two for comparison.
pub(crate) const WAYS: [Way; 6] = [
    Way::Under(PolicyName::Relevance),
    Way::Under(PolicyName::Elevator),
    Way::Under(PolicyName::Normal),
    Way::Under(PolicyName::Attach),
    Way::Plain { attaches: false },
    Way::Plain { attaches: true },
];

/// A policy's name in small letters.
pub(crate) fn name_text(name: PolicyName) -> &'static str
    ensures { result.now ≡ name_text name }
{
    match name {
        PolicyName::Relevance => "relevance",
        PolicyName::Elevator => "elevator",
        PolicyName::Normal => "normal",
        PolicyName::Attach => "attach",
    }
}

/// The name by which a way is asked for.
pub(crate) fn way_text(way: Way) -> &'static str {
    match way {
        Way::Under(name) => name_text(name),
        Way::Plain { attaches: false } => "in-order",
        Way::Plain { attaches: true } => "in-order-attached",
    }
}

/// Which choices the entries of a story may take.
#[derive(Clone, Copy, Debug, PartialEq, Eq)]
pub enum Choices {
    /// Those of the setting's policy: of what may be loaded, delivered or evicted, nothing is better.
    OfPolicy,
    /// Any, whatever the setting's policy is: the rules alone are judged.
    Free,
}

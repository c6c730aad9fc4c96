// The version that the program tells.

/// The day of the last change that docs tell of: the first heading of CHANGELOG.md, as scripts/check-rules sees to.
pub(crate) const VERSION: &str = "2026-12-02";

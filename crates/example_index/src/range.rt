//! Ranges of versions.
ghost use Rattle.std.specs.Prelude.{◌≡◌};
ghost use Rattle.example_index.specs.Index.{is_within};

use resolvo_pool::VersionSet;

/// The versions from `low` to below `high`, each by its number.
#[derive(Clone, Copy, Debug, PartialEq, Eq, Hash)]
pub struct VersionRange {
    pub low: u32,
    pub high: u32,
}

impl VersionRange {
    /// Whether the version is in the range.
    pub fn holds(&self, version: u32) -> bool
        ensures { result ≡ is_within self.now version }
    {
        self.low <= version && version < self.high
    }
}

/// A number stands for a version.
impl VersionSet for VersionRange {
    type V = u32;
}

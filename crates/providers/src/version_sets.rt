//! The version sets of a requirement, one after another.
ghost use Rattle.std.specs.Prelude.{◌≡◌};
ghost use Rattle.std.specs.Iterator.{YieldsFirstBy, item_count};

use std::iter::FusedIterator;
use std::marker::Model;
use typed_ids::VersionSetId;

/// The version sets of a requirement, in order: seen as the list of those that are left.
#[derive(Drop)]
pub struct VersionSets<'i> {
    left: &'i [VersionSetId],
}

impl<'i> Model for VersionSets<'i> {
    ghost use Rattle.std.specs.Prelude.{List};
    ghost use Rattle.typed_ids.specs.declared.version_set_id.VersionSetId.{VersionSetId};

    ghost Value = { List VersionSetId };

    ghost view = { λ sets. sets.left.now };
}

impl<'i> VersionSets<'i> {
    /// These version sets.
    pub(crate) fn new(sets: &'i [VersionSetId]) -> Self
        ensures { result ≡ sets.now }
    {
        VersionSets { left: sets }
    }

    /// Those that are left.
    pub fn as_slice(&self) -> &'i [VersionSetId]
        ensures { result.now ≡ self.now }
    {
        self.left
    }
}

impl<'i> Iterator for VersionSets<'i> {
    type Item = VersionSetId;

    ghost next_gives = { YieldsFirstBy (λ set. set) (λ left. left) };

    ghost remaining = { item_count (λ left. left) };

    fn next(&mut self) -> Option<VersionSetId> {
        let (set, others) = self.left.split_first()?;
        self.left = others;
        Some(*set)
    }
}

impl<'i> FusedIterator for VersionSets<'i> {}

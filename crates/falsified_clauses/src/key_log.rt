//! The keys of groups in the order of the groups' numbers, for proofs alone.
ghost use Rattle.std.specs.Prelude.{◌≡◌, [], ◌∷◌, ◌++◌, List};
ghost use Rattle.std.specs.Borrow.{ftrue};
ghost use Rattle.falsified_clauses.specs.declared.group_key.GroupKey.{GroupKey as AKey};

use crate::group_key::GroupKey;
use std::marker::Model;

/// What each group is of, by the group's number. Only proofs read it: it takes no bytes, and its calls do nothing when
/// a program runs. A program finds groups in [`GroupIndex`](crate::group_index::GroupIndex).
#[derive(Drop)]
pub(crate) struct KeyLog {
    pub ghost items: { List AKey },
}

impl Model for KeyLog {
    ghost also_owns = { λ _. ftrue };
}

impl KeyLog {
    /// No key yet.
    pub(crate) fn new() -> KeyLog
        ensures { result.items ≡ [] }
    {
        KeyLog {}
    }

    /// One key more.
    pub(crate) fn and(&self, key: &GroupKey) -> KeyLog
        ensures { result.items ≡ self.now.items ++ key.now ∷ [] }
    {
        KeyLog {}
    }
}

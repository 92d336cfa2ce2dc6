//! A log that only proofs read.
ghost use Rattle.std.specs.Prelude.{◌≡◌, [], ◌∷◌, ◌++◌, List};
ghost use Rattle.std.specs.Borrow.{ftrue};
ghost use Rattle.providers.specs.declared.requirement.Requirement.{Requirement as ARequirement};

use providers::Requirement;
use std::marker::Model;

/// The requirements whose rows were walked, oldest first. It takes no bytes, and its calls do nothing when a program
/// runs. Nothing keeps a caller from leaving a walk out but that the log's owner is the one way to the rows.
#[derive(Drop)]
pub(crate) struct WalkLog {
    pub ghost walked: { List ARequirement },
}

impl Model for WalkLog {
    ghost also_owns = { λ _. ftrue };
}

impl WalkLog {
    /// No walk yet.
    pub(crate) fn new() -> WalkLog
        ensures { result.walked ≡ [] }
    {
        WalkLog {}
    }

    /// One walk more.
    pub(crate) fn and(&self, requirement: &Requirement) -> WalkLog
        ensures { result.walked ≡ self.now.walked ++ requirement.now ∷ [] }
    {
        WalkLog {}
    }
}

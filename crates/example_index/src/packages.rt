//! A package of an index, and what a line says of one of its versions.
ghost use Rattle.std.specs.Prelude.{◌≡◌, [], ◌∷◌, ◌++◌, None, OnOk};
ghost use Rattle.example_index.specs.Mark.{marked, with_reason};

use resolvo_ids::{SolvableId, StoreError, StringId};
use resolvo_pool::Dependencies;
use std::alloc::Global;

/// What a line says of its version, by ids.
#[derive(Drop)]
pub(crate) struct Entries {
    /// What the version requires.
    pub(crate) needs: Dependencies,
    /// Whether it is tried first.
    pub(crate) favored: bool,
    /// Whether it alone of its package may be picked.
    pub(crate) locked: bool,
    /// Why it may not be picked.
    pub(crate) excluded: Option<StringId>,
}

/// The versions of a package.
#[derive(Drop)]
pub(crate) struct Package {
    /// In the order of their lines. A later one is the better.
    pub(crate) versions: Vec<SolvableId>,
    /// The one to try first.
    pub(crate) favored: Option<SolvableId>,
    /// The one that alone may be picked.
    pub(crate) locked: Option<SolvableId>,
    /// Those that may not be picked, each with the reason.
    pub(crate) excluded: Vec<(SolvableId, StringId)>,
}

impl Package {
    /// No versions. Takes no memory.
    pub(crate) fn new(alloc: Global) -> Self
        ensures versions { result.versions.items ≡ [] }
        ensures favored { result.favored ≡ None }
        ensures locked { result.locked ≡ None }
        ensures excluded { result.excluded.items ≡ [] }
    {
        Package {
            versions: Vec::new(alloc),
            favored: None,
            locked: None,
            excluded: Vec::new(alloc),
        }
    }

    /// Adds a version, of which its line says this. It takes the place of one that was favored or locked before.
    pub(crate) fn add(&mut self, version: SolvableId, said: &Entries) -> Result<(), StoreError>
        ensures versions { OnOk result (self.new.versions.items ≡ self.old.versions.items ++ version ∷ []) }
        ensures favored { OnOk result (self.new.favored ≡ marked said.now.favored version self.old.favored) }
        ensures locked { OnOk result (self.new.locked ≡ marked said.now.locked version self.old.locked) }
        ensures excluded { OnOk result
            (self.new.excluded.items ≡ with_reason self.old.excluded.items version said.now.excluded) }
    {
        self.versions.push(version)?;
        if said.favored {
            self.favored = Some(version);
        }
        if said.locked {
            self.locked = Some(version);
        }
        if let Some(reason) = said.excluded {
            self.excluded.push((version, reason))?;
        }
        Ok(())
    }
}

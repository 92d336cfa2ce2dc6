//! Sets of solvables and the root.
ghost use Rattle.std.specs.Prelude.{◌≡◌, true, false, not, IsTrue, OnOk, OnErr, IfOk, IfErr, IsOk};
ghost use Rattle.typed_ids.specs.declared.error.StoreError.TheVariants.{IdSpace};
ghost use Rattle.typed_ids.specs.declared.solvable_id_or_root.SolvableIdOrRoot.TheVariants.{Root};
ghost use Rattle.typed_ids.specs.Refusals.{IsGrowthRefusal};
ghost use Rattle.typed_ids.specs.TotalMaps.{IsUpdate, SameValues};
ghost use Rattle.typed_ids.specs.WithRoot.{has_key, root_or};

use crate::id_set::IdSet;
use crate::solver_id::SolverId;
use std::alloc::{Allocator, Global};
use std::marker::Model;
use typed_ids::{SolvableIdOrRoot, StoreError};

/// A set that may have the root beside solvables, which are in a set of their own. The root takes no memory.
#[derive(Drop)]
pub struct WithRootSet<S: SolverId<A>, A: Allocator + Copy = Global> {
    root: bool,
    solvables: S::Set,
}

impl<S: SolverId<A>, A: Allocator + Copy> Model for WithRootSet<S, A> {
    ghost use Rattle.std.specs.Prelude.{Bool};

    ghost Value = { Bool × S.Set };

    ghost view = { λ set. (set.root, set.solvables) };
}

impl<S: SolverId<A>, A: Allocator + Copy> IdSet<SolvableIdOrRoot<S>, A> for WithRootSet<S, A> {
    ghost has = { λ set key. has_key S.Set.has set key };

    ghost is_too_large = { λ key. root_or false S.Set.is_too_large key };

    fn new(alloc: A) -> Self {
        WithRootSet {
            root: false,
            solvables: S::Set::new(alloc),
        }
    }

    fn contains(&self, key: SolvableIdOrRoot<S>) -> bool {
        match key {
            SolvableIdOrRoot::Root => self.root,
            SolvableIdOrRoot::Solvable(solvable) => self.solvables.contains(solvable),
        }
    }

    fn insert(&mut self, key: SolvableIdOrRoot<S>) -> Result<bool, StoreError>
        ensures added { IfOk result (λ added. added ≡ not (has_key S.Set.has self.old key)) }
        ensures ok { OnOk result (IsUpdate (has_key S.Set.has self.old) key true (has_key S.Set.has self.new)) }
        ensures err { OnErr result (SameValues (has_key S.Set.has self.old) (has_key S.Set.has self.new)) }
        ensures known { IsTrue (has_key S.Set.has self.old key) → result ≡ Ok false }
        ensures root { key ≡ Root → IsOk result }
        ensures refused { IfErr result (IsGrowthRefusal (root_or false S.Set.is_too_large key)) }
        ensures too_large { IsTrue (root_or false S.Set.is_too_large key) → result ≡ Err IdSpace }
    {
        match key {
            SolvableIdOrRoot::Root => {
                let added = !self.root;
                self.root = true;
                Ok(added)
            }
            SolvableIdOrRoot::Solvable(solvable) => self.solvables.insert(solvable),
        }
    }
}

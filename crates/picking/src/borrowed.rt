//! A provider that is borrowed.
ghost use Rattle.std.specs.Prelude.{◌≡◌};

use resolvo_ids::{ConditionId, StoreError, StringId, VersionSetId, VersionSetUnionId};
use resolvo_pool::{Candidates, Condition, Dependencies, DependencyProvider, Interner};

/// A provider that someone else owns, as one that a store can own.
#[derive_where(Clone, Copy)]
pub(crate) struct Borrowed<'p, D> {
    provider: &'p D,
}

impl<'p, D> Borrowed<'p, D> {
    pub(crate) fn new(provider: &'p D) -> Self
        ensures { result.provider.now ≡ provider.now }
    {
        Borrowed { provider }
    }
}

impl<'p, D: DependencyProvider> Interner for Borrowed<'p, D> {
    type Alloc = D::Alloc;

    type NameId = D::NameId;

    type SolvableId = D::SolvableId;

    ghost universe = { λ borrowed. D.universe borrowed.provider.now };

    ghost texts = { λ borrowed. D.texts borrowed.provider.now };

    ghost own_solvable_name = { λ borrowed. D.own_solvable_name borrowed.provider.now };

    ghost own_merged = { λ borrowed. D.own_merged borrowed.provider.now };

    ghost solvable_names_known = { λ borrowed. D.solvable_names_known borrowed.provider.now };

    ghost set_names_known = { λ borrowed. D.set_names_known borrowed.provider.now };

    ghost union_sets_known = { λ borrowed. D.union_sets_known borrowed.provider.now };

    ghost operands_known = { λ borrowed. D.operands_known borrowed.provider.now };

    fn knows_string(&self, string: StringId) -> bool {
        self.provider.knows_string(string)
    }

    fn knows_name(&self, name: D::NameId) -> bool {
        self.provider.knows_name(name)
    }

    fn knows_solvable(&self, solvable: D::SolvableId) -> bool {
        self.provider.knows_solvable(solvable)
    }

    fn knows_version_set(&self, set: VersionSetId) -> bool {
        self.provider.knows_version_set(set)
    }

    fn knows_union(&self, union: VersionSetUnionId) -> bool {
        self.provider.knows_union(union)
    }

    fn knows_condition(&self, condition: ConditionId) -> bool {
        self.provider.knows_condition(condition)
    }

    fn version_set_name(&self, set: VersionSetId) -> D::NameId {
        self.provider.version_set_name(set)
    }

    fn solvable_name(&self, solvable: D::SolvableId) -> D::NameId {
        self.provider.solvable_name(solvable)
    }

    fn version_sets_in_union(&self, union: VersionSetUnionId) -> &[VersionSetId] {
        self.provider.version_sets_in_union(union)
    }

    fn resolve_condition(&self, condition: ConditionId) -> Condition {
        self.provider.resolve_condition(condition)
    }

    fn display_solvable(
        &self,
        solvable: D::SolvableId,
        out: &mut String<D::Alloc>,
    ) -> Result<(), StoreError> {
        self.provider.display_solvable(solvable, out)
    }

    fn display_name(&self, name: D::NameId, out: &mut String<D::Alloc>) -> Result<(), StoreError> {
        self.provider.display_name(name, out)
    }

    fn display_version_set(
        &self,
        set: VersionSetId,
        out: &mut String<D::Alloc>,
    ) -> Result<(), StoreError> {
        self.provider.display_version_set(set, out)
    }

    fn display_string(
        &self,
        string: StringId,
        out: &mut String<D::Alloc>,
    ) -> Result<(), StoreError> {
        self.provider.display_string(string, out)
    }

    fn display_solvable_name(
        &self,
        solvable: D::SolvableId,
        out: &mut String<D::Alloc>,
    ) -> Result<(), StoreError> {
        self.provider.display_solvable_name(solvable, out)
    }

    fn display_merged_solvables(
        &self,
        solvables: &[D::SolvableId],
        out: &mut String<D::Alloc>,
    ) -> Result<(), StoreError> {
        self.provider.display_merged_solvables(solvables, out)
    }
}

impl<'p, D: DependencyProvider> DependencyProvider for Borrowed<'p, D> {
    type Cancel = D::Cancel;

    ghost answers = { λ borrowed. D.answers borrowed.provider.now };

    ghost may_answer = { λ borrowed. D.may_answer borrowed.provider.now };

    ghost candidates_known = { λ borrowed. D.candidates_known borrowed.provider.now };

    ghost order_permutes = { λ borrowed. D.order_permutes borrowed.provider.now };

    fn filter_candidates(
        &self,
        alloc: D::Alloc,
        candidates: &[D::SolvableId],
        set: VersionSetId,
        inverse: bool,
    ) -> Result<Vec<D::SolvableId, D::Alloc>, StoreError> {
        self.provider
            .filter_candidates(alloc, candidates, set, inverse)
    }

    fn get_candidates(
        &self,
        alloc: D::Alloc,
        name: D::NameId,
    ) -> Result<Option<Candidates<D::SolvableId, D::Alloc>>, StoreError> {
        self.provider.get_candidates(alloc, name)
    }

    fn sort_candidates(
        &self,
        alloc: D::Alloc,
        solvables: &mut [D::SolvableId],
    ) -> Result<(), StoreError> {
        self.provider.sort_candidates(alloc, solvables)
    }

    fn get_dependencies(
        &self,
        alloc: D::Alloc,
        solvable: D::SolvableId,
    ) -> Result<Dependencies<D::Alloc>, StoreError> {
        self.provider.get_dependencies(alloc, solvable)
    }

    fn should_cancel_with_value(&self) -> Option<D::Cancel> {
        self.provider.should_cancel_with_value()
    }
}

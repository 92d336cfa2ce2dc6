//! A provider that is watched.
ghost use Rattle.std.specs.Prelude.{◌≡◌, IfErr};
ghost use Rattle.resolvo_ids.specs.Types.StoreError.TheVariants.{OutOfMemory};

use resolvo_ids::{ConditionId, StoreError, StringId, VersionSetId, VersionSetUnionId};
use resolvo_pool::{Candidates, Condition, Dependencies, DependencyProvider, Interner};
use std::alloc::Allocator;
use std::cell::{Cell, RefCell};

/// A provider that someone else owns. It notes what it is queried for, and may stop whoever asks.
#[derive(Drop)]
pub(crate) struct Watched<'p, D: DependencyProvider> {
    provider: &'p D,
    /// From the question of this number on, whether to stop, it says so.
    stop_at: u32,
    /// How many questions whether to stop there were.
    questions: Cell<u32>,
    /// How many of them came before dependencies were queried last.
    questions_before: Cell<u32>,
    /// The solvables whose dependencies were queried.
    queried: RefCell<Vec<D::SolvableId, D::Alloc>>,
    /// Those for which they were queried again, once or more often.
    again: RefCell<Vec<D::SolvableId, D::Alloc>>,
}

/// What was noted: solvables are in turn.
#[derive(Drop)]
pub(crate) struct Noted<S, A: Allocator> {
    pub(crate) questions: u32,
    pub(crate) questions_before: u32,
    pub(crate) queried: Vec<S, A>,
    pub(crate) again: Vec<S, A>,
}

impl<'p, D: DependencyProvider> Watched<'p, D> {
    /// The provider that was queried for nothing yet.
    pub(crate) fn new(alloc: D::Alloc, provider: &'p D, stop_at: u32) -> Self
        ensures { result.provider.now ≡ provider.now }
    {
        Watched {
            provider,
            stop_at,
            questions: Cell::new(0),
            questions_before: Cell::new(0),
            queried: RefCell::new(Vec::new(alloc)),
            again: RefCell::new(Vec::new(alloc)),
        }
    }

    /// What was noted.
    pub(crate) fn noted(self) -> Noted<D::SolvableId, D::Alloc> {
        Noted {
            questions: self.questions.get(),
            questions_before: self.questions_before.get(),
            queried: self.queried.into_inner(),
            again: self.again.into_inner(),
        }
    }

    /// Notes that a solvable's dependencies are queried.
    fn note(&self, solvable: D::SolvableId) -> Result<(), StoreError>
        ensures { IfErr result (λ e. e ≡ OutOfMemory) }
    {
        self.questions_before.set(self.questions.get());
        if !is_noted(&self.queried, solvable) {
            return add(&self.queried, solvable);
        }
        if !is_noted(&self.again, solvable) {
            return add(&self.again, solvable);
        }
        Ok(())
    }
}

/// Whether a solvable is in the list.
fn is_noted<S: Copy + PartialEq, A: Allocator>(list: &RefCell<Vec<S, A>>, solvable: S) -> bool {
    match list.try_borrow() {
        Ok(list) => list.contains(&solvable),
        Err(_) => false,
    }
}

/// Adds a solvable to the list.
fn add<S: Copy, A: Allocator>(list: &RefCell<Vec<S, A>>, solvable: S) -> Result<(), StoreError>
    ensures { IfErr result (λ e. e ≡ OutOfMemory) }
{
    if let Ok(mut list) = list.try_borrow_mut() {
        list.push(solvable)?;
    }
    Ok(())
}

impl<'p, D: DependencyProvider> Interner for Watched<'p, D> {
    type Alloc = D::Alloc;

    type NameId = D::NameId;

    type SolvableId = D::SolvableId;

    ghost universe = { λ watched. D.universe watched.provider.now };

    ghost texts = { λ watched. D.texts watched.provider.now };

    ghost own_solvable_name = { λ watched. D.own_solvable_name watched.provider.now };

    ghost own_merged = { λ watched. D.own_merged watched.provider.now };

    ghost solvable_names_known = { λ watched. D.solvable_names_known watched.provider.now };

    ghost set_names_known = { λ watched. D.set_names_known watched.provider.now };

    ghost union_sets_known = { λ watched. D.union_sets_known watched.provider.now };

    ghost operands_known = { λ watched. D.operands_known watched.provider.now };

    fn knows_string(&self, string: StringId) -> bool {
        self.provider.knows_string(string)
    }

    fn knows_name(&self, name: D::NameId) -> bool {
        self.provider.knows_name(name)
    }

    fn knows_solvable(&self, solvable: D::SolvableId) -> bool {
        self.provider.knows_solvable(solvable)
    }

    fn knows_version_set(&self, set: VersionSetId) -> bool {
        self.provider.knows_version_set(set)
    }

    fn knows_union(&self, union: VersionSetUnionId) -> bool {
        self.provider.knows_union(union)
    }

    fn knows_condition(&self, condition: ConditionId) -> bool {
        self.provider.knows_condition(condition)
    }

    fn version_set_name(&self, set: VersionSetId) -> D::NameId {
        self.provider.version_set_name(set)
    }

    fn solvable_name(&self, solvable: D::SolvableId) -> D::NameId {
        self.provider.solvable_name(solvable)
    }

    fn version_sets_in_union(&self, union: VersionSetUnionId) -> &[VersionSetId] {
        self.provider.version_sets_in_union(union)
    }

    fn resolve_condition(&self, condition: ConditionId) -> Condition {
        self.provider.resolve_condition(condition)
    }

    fn display_solvable(
        &self,
        solvable: D::SolvableId,
        out: &mut String<D::Alloc>,
    ) -> Result<(), StoreError> {
        self.provider.display_solvable(solvable, out)
    }

    fn display_name(&self, name: D::NameId, out: &mut String<D::Alloc>) -> Result<(), StoreError> {
        self.provider.display_name(name, out)
    }

    fn display_version_set(
        &self,
        set: VersionSetId,
        out: &mut String<D::Alloc>,
    ) -> Result<(), StoreError> {
        self.provider.display_version_set(set, out)
    }

    fn display_string(
        &self,
        string: StringId,
        out: &mut String<D::Alloc>,
    ) -> Result<(), StoreError> {
        self.provider.display_string(string, out)
    }

    fn display_solvable_name(
        &self,
        solvable: D::SolvableId,
        out: &mut String<D::Alloc>,
    ) -> Result<(), StoreError> {
        self.provider.display_solvable_name(solvable, out)
    }

    fn display_merged_solvables(
        &self,
        solvables: &[D::SolvableId],
        out: &mut String<D::Alloc>,
    ) -> Result<(), StoreError> {
        self.provider.display_merged_solvables(solvables, out)
    }
}

impl<'p, D: DependencyProvider> DependencyProvider for Watched<'p, D> {
    type Cancel = ();

    ghost answers = { λ watched. D.answers watched.provider.now };

    ghost may_answer = { λ watched. D.may_answer watched.provider.now };

    ghost candidates_known = { λ watched. D.candidates_known watched.provider.now };

    ghost order_permutes = { λ watched. D.order_permutes watched.provider.now };

    fn filter_candidates(
        &self,
        alloc: D::Alloc,
        candidates: &[D::SolvableId],
        set: VersionSetId,
        inverse: bool,
    ) -> Result<Vec<D::SolvableId, D::Alloc>, StoreError> {
        self.provider
            .filter_candidates(alloc, candidates, set, inverse)
    }

    fn get_candidates(
        &self,
        alloc: D::Alloc,
        name: D::NameId,
    ) -> Result<Option<Candidates<D::SolvableId, D::Alloc>>, StoreError> {
        self.provider.get_candidates(alloc, name)
    }

    fn sort_candidates(
        &self,
        alloc: D::Alloc,
        solvables: &mut [D::SolvableId],
    ) -> Result<(), StoreError> {
        self.provider.sort_candidates(alloc, solvables)
    }

    fn get_dependencies(
        &self,
        alloc: D::Alloc,
        solvable: D::SolvableId,
    ) -> Result<Dependencies<D::Alloc>, StoreError> {
        self.note(solvable)?;
        self.provider.get_dependencies(alloc, solvable)
    }

    /// Its own answer, whatever the other provider says.
    fn should_cancel_with_value(&self) -> Option<()> {
        let number = self.questions.get().saturating_add(1);
        self.questions.set(number);
        (number >= self.stop_at).then_some(())
    }
}

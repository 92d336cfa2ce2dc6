//! The archive as an interner and as a provider.
ghost use Rattle.std.specs.Prelude.{◌≡◌, [], ◌++◌, None, IfOk, IfErr, OnOk, OnErr};
ghost use Rattle.std.specs.Option.{option_copied};
ghost use Rattle.std.specs.Str.Lossy.{utf8_lossy};
ghost use Rattle.resolvo_ids.specs.Types.StoreError.TheVariants.{OutOfMemory};
ghost use Rattle.resolvo_pool.specs.Provider.{filtered};
ghost use Rattle.resolvo_pool.specs.Texts.{IsAppended, IsSameText};
ghost use Rattle.debian_provider.specs.Answers.{favored_at, matches_in, needs_at, package_in, set_has, texts_in};
ghost use Rattle.debian_provider.specs.Answers.{versions_at};

use crate::archive::Archive;
use crate::set::Set;
use crate::text::{package_text, set_text};
use resolvo_ids::{
    ConditionId, DenseIndex, NameId, SolvableId, StoreError, StringId, VersionSetId,
    VersionSetUnionId,
};
use resolvo_pool::{
    Candidates, Condition, Dependencies, DependencyProvider, Interner, KnownDependencies,
};
use std::alloc::Global;

/// The ids are those of the pool, and the laws of ids are the pool's laws.
impl Interner for Archive<'_, '_> {
    ghost use Rattle.resolvo_pool.specs.PoolIds.{universe_in};
    ghost use Rattle.resolvo_pool.specs.PoolLaws.{pool_solvable_names, pool_set_names, pool_union_sets, pool_operands};

    type Alloc = Global;

    type NameId = NameId;

    type SolvableId = SolvableId;

    ghost universe = { λ archive. universe_in archive.reached.pool };

    ghost texts = { λ archive. texts_in archive.reached.pool archive.rules.packages.now };

    ghost solvable_names_known = { λ archive. pool_solvable_names archive.reached.pool archive.reached.of_itself };

    ghost set_names_known = { λ archive. pool_set_names archive.reached.pool archive.reached.of_itself };

    ghost union_sets_known = { λ archive. pool_union_sets archive.reached.pool archive.reached.of_itself };

    ghost operands_known = { λ archive. pool_operands archive.reached.pool archive.reached.of_itself };

    fn knows_string(&self, string: StringId) -> bool {
        self.reached.pool.knows_string(string)
    }

    fn knows_name(&self, name: NameId) -> bool {
        self.reached.pool.knows_name(name)
    }

    fn knows_solvable(&self, solvable: SolvableId) -> bool {
        self.reached.pool.knows_solvable(solvable)
    }

    fn knows_version_set(&self, set: VersionSetId) -> bool {
        self.reached.pool.knows_version_set(set)
    }

    fn knows_union(&self, union: VersionSetUnionId) -> bool {
        self.reached.pool.knows_union(union)
    }

    fn knows_condition(&self, condition: ConditionId) -> bool {
        self.reached.pool.knows_condition(condition)
    }

    fn version_set_name(&self, set: VersionSetId) -> NameId {
        self.reached.pool.resolve_version_set_package_name(set)
    }

    fn solvable_name(&self, solvable: SolvableId) -> NameId {
        self.reached.pool.resolve_solvable(solvable).name
    }

    fn version_sets_in_union(&self, union: VersionSetUnionId) -> &[VersionSetId] {
        self.reached.pool.resolve_version_set_union(union)
    }

    fn resolve_condition(&self, condition: ConditionId) -> Condition {
        *self.reached.pool.resolve_condition(condition)
    }

    fn display_solvable(&self, solvable: SolvableId, out: &mut String) -> Result<(), StoreError> {
        match self.package(solvable) {
            Some(package) => append_bytes(out, &package_text(*out.allocator(), package)?),
            None => Ok(()),
        }
    }

    fn display_name(&self, name: NameId, out: &mut String) -> Result<(), StoreError> {
        append_bytes(out, self.reached.pool.resolve_package_name(name).name)
    }

    fn display_version_set(&self, set: VersionSetId, out: &mut String) -> Result<(), StoreError> {
        let pool = &self.reached.pool;
        let name = pool.resolve_package_name(pool.resolve_version_set_package_name(set));
        let text = set_text(*out.allocator(), name.name, pool.resolve_version_set(set))?;
        append_bytes(out, &text)
    }

    fn display_string(&self, string: StringId, out: &mut String) -> Result<(), StoreError> {
        append(out, self.reached.pool.resolve_string(string))
    }
}

/// Appends bytes as a text, in which U+FFFD stands for what isn't UTF-8.
fn append_bytes(out: &mut String, bytes: &[u8]) -> Result<(), StoreError>
    ensures ok { OnOk result (IsAppended out.old out.new (utf8_lossy bytes.now)) }
    ensures err { OnErr result (IsSameText out.old out.new) }
    ensures memory { IfErr result (λ e. e ≡ OutOfMemory) }
{
    let text = String::from_utf8_lossy(*out.allocator(), bytes)?;
    append(out, &text)
}

/// Appends a text.
fn append(out: &mut String, text: &str) -> Result<(), StoreError>
    ensures ok { OnOk result (IsAppended out.old out.new text.now) }
    ensures err { OnErr result (IsSameText out.old out.new) }
    ensures memory { IfErr result (λ e. e ≡ OutOfMemory) }
{
    Ok(out.push_str(text)?)
}

/// The candidates of a name are its versions that may be picked.
impl DependencyProvider for Archive<'_, '_> {
    ghost use Rattle.std.proofs.lemmas.List.Sorted.{IsPermutation-refl};

    type Cancel = ();

    ghost answers = { λ archive. record {
      candidates = λ name. versions_at archive.reached.versions.items name;
      matches = λ set s. matches_in archive.rules.request.now.architecture.now archive.reached.pool
          archive.rules.packages.now set s;
      favored = λ name. favored_at archive.favored.items name;
      locked = λ name. None;
      excluded = λ name. [];
      order = λ list. list;
      needs = λ s. needs_at archive.unreadable archive.needs.items s;
    } };

    ghost candidates_known = { λ archive name. archive.reached.known name };

    ghost order_permutes = { λ archive list. IsPermutation-refl list };

    fn filter_candidates(
        &self,
        alloc: Global,
        candidates: &[SolvableId],
        set: VersionSetId,
        inverse: bool,
    ) -> Result<Vec<SolvableId>, StoreError> {
        self.within(
            alloc,
            candidates,
            self.reached.pool.resolve_version_set(set),
            inverse,
        )
    }

    fn get_candidates(
        &self,
        alloc: Global,
        name: NameId,
    ) -> Result<Option<Candidates<SolvableId>>, StoreError> {
        let mut found = Candidates::new(alloc);
        found
            .candidates
            .extend_from_slice(self.reached.versions_of(name))?;
        found.favored = self.favored_of(name);
        Ok(Some(found))
    }

    fn sort_candidates(
        &self,
        _alloc: Global,
        _solvables: &mut [SolvableId],
    ) -> Result<(), StoreError> {
        Ok(())
    }

    fn get_dependencies(
        &self,
        alloc: Global,
        solvable: SolvableId,
    ) -> Result<Dependencies, StoreError> {
        match self.needs.get(solvable.to_index()) {
            Some(Dependencies::Unknown(reason)) => Ok(Dependencies::Unknown(*reason)),
            Some(Dependencies::Known(known)) => Ok(Dependencies::Known(copy(alloc, known)?)),
            None => Ok(Dependencies::Unknown(self.unreadable)),
        }
    }
}

impl Archive<'_, '_> {
    /// The version of a name to try first.
    fn favored_of(&self, name: NameId) -> Option<SolvableId>
        ensures { result ≡ favored_at self.now.favored.items name }
    {
        match self.favored.get(name.to_index()) {
            Some(favored) => *favored,
            None => None,
        }
    }

    /// Filters solvables: those whose packages the set has, or, if `inverse`, the others.
    fn within(
        &self,
        alloc: Global,
        solvables: &[SolvableId],
        set: &Set<'_>,
        inverse: bool,
    ) -> Result<Vec<SolvableId>, StoreError>
        ensures ok { IfOk result (λ found. found.items ≡
            filtered (λ s. set_has self.now.rules.request.now.architecture.now (Some set.now)
            (package_in self.now.reached.pool self.now.rules.packages.now s)) inverse solvables.now) }
        ensures err { IfErr result (λ e. e ≡ OutOfMemory) }
    {
        let mut found = Vec::new(alloc);
        for solvable in solvables {
            if self.is_within(*solvable, set) != inverse {
                found.push(*solvable)?;
            }
        }
        Ok(found)
    }

    /// Whether the set has a solvable's package.
    fn is_within(&self, solvable: SolvableId, set: &Set<'_>) -> bool
        ensures { result ≡ set_has self.now.rules.request.now.architecture.now (Some set.now)
            (package_in self.now.reached.pool self.now.rules.packages.now solvable) }
    {
        match self.package(solvable) {
            Some(package) => set.has(self.rules.request.architecture, package),
            None => false,
        }
    }
}

/// A copy of what a version needs and forbids.
fn copy(alloc: Global, known: &KnownDependencies) -> Result<KnownDependencies, StoreError>
    ensures requirements { IfOk result (λ copy. copy.requirements.items ≡ known.now.requirements.items) }
    ensures constrains { IfOk result (λ copy. copy.constrains.items ≡ known.now.constrains.items) }
    ensures err { IfErr result (λ e. e ≡ OutOfMemory) }
{
    let mut copy = KnownDependencies::new(alloc);
    copy.requirements.extend_from_slice(&known.requirements)?;
    copy.constrains.extend_from_slice(&known.constrains)?;
    Ok(copy)
}

//! The provider of a script's packages.
ghost use Rattle.std.specs.Prelude.{◌≡◌, ◌≤◌, ◌+◌, ◌-◌, [], IfSome, length, slice_get, take};
ghost use Rattle.std.specs.Prelude.{option_and_then, IfOk, OnOk, OnErr, IfErr};
ghost use Rattle.typed_ids.specs.declared.error.StoreError.TheVariants.{OutOfMemory};
ghost use Rattle.providers.specs.Provider.{candidates_of, excluded_of, favored_of, filtered, locked_of};
ghost use Rattle.providers.specs.declared.candidates.HintDependenciesAvailable.TheVariants as Hint;
ghost use Rattle.providers.specs.Texts.{IsAppended, IsSameText};
ghost use Rattle.script_packages.specs.Packages.{numbers, is_within};
ghost use Rattle.script_packages.specs.Order.{version_at};

use crate::order::{sort_best_first, version_at};
use crate::packages::{Packages, Span, VersionRange};
use package_pool::Pool;
use providers::{
    Candidates, Condition, Dependencies, DependencyProvider, Interner, KnownDependencies,
};
use std::alloc::Global;
use typed_ids::{
    ConditionId, DenseIndex, NameId, SolvableId, StoreError, StringId, VersionSetId,
    VersionSetUnionId,
};

/// Of up to this number of candidates, those in a range are put on the stack first, so that each is looked at once.
const SHORT: usize = 128;

impl Interner for Packages {
    ghost use Rattle.script_packages.specs.PackageAnswers.{universe_of, texts_of};
    ghost use Rattle.package_pool.specs.PoolLaws.{pool_solvable_names, pool_set_names, pool_union_sets, pool_operands};

    type Alloc = Global;

    type NameId = NameId;

    type SolvableId = SolvableId;

    ghost universe = { universe_of };

    ghost texts = { texts_of };

    ghost solvable_names_known = { λ p. pool_solvable_names p.pool p.of_itself };

    ghost set_names_known = { λ p. pool_set_names p.pool p.of_itself };

    ghost union_sets_known = { λ p. pool_union_sets p.pool p.of_itself };

    ghost operands_known = { λ p. pool_operands p.pool p.of_itself };

    fn knows_string(&self, string: StringId) -> bool {
        self.pool.knows_string(string)
    }

    fn knows_name(&self, name: NameId) -> bool {
        self.pool.knows_name(name)
    }

    fn knows_solvable(&self, solvable: SolvableId) -> bool {
        self.pool.knows_solvable(solvable)
    }

    fn knows_version_set(&self, set: VersionSetId) -> bool {
        self.pool.knows_version_set(set)
    }

    fn knows_union(&self, union: VersionSetUnionId) -> bool {
        self.pool.knows_union(union)
    }

    fn knows_condition(&self, condition: ConditionId) -> bool {
        self.pool.knows_condition(condition)
    }

    fn version_set_name(&self, set: VersionSetId) -> NameId {
        self.pool.resolve_version_set_package_name(set)
    }

    fn solvable_name(&self, solvable: SolvableId) -> NameId {
        self.pool.resolve_solvable(solvable).name
    }

    fn version_sets_in_union(&self, union: VersionSetUnionId) -> &[VersionSetId] {
        self.pool.resolve_version_set_union(union)
    }

    fn resolve_condition(&self, condition: ConditionId) -> Condition {
        *self.pool.resolve_condition(condition)
    }

    fn display_solvable(&self, solvable: SolvableId, out: &mut String) -> Result<(), StoreError> {
        let solvable = self.pool.resolve_solvable(solvable);
        let name = self.pool.resolve_package_name(solvable.name);
        let version = solvable.payload;
        let text = format!(in *out.allocator(); "{name} {version}")?;
        append(out, &text)
    }

    /// The name of its package.
    fn display_solvable_name(
        &self,
        solvable: SolvableId,
        out: &mut String,
    ) -> Result<(), StoreError> {
        let name = self.pool.resolve_solvable(solvable).name;
        append(out, self.pool.resolve_package_name(name))
    }

    fn display_name(&self, name: NameId, out: &mut String) -> Result<(), StoreError> {
        append(out, self.pool.resolve_package_name(name))
    }

    fn display_version_set(&self, set: VersionSetId, out: &mut String) -> Result<(), StoreError> {
        let range = self.pool.resolve_version_set(set);
        let (low, high) = (range.low, range.high);
        let text = format!(in *out.allocator(); ">={low}, <{high}")?;
        append(out, &text)
    }

    fn display_string(&self, string: StringId, out: &mut String) -> Result<(), StoreError> {
        append(out, self.pool.resolve_string(string))
    }
}

/// Appends a text.
fn append(out: &mut String, text: &str) -> Result<(), StoreError>
    ensures ok { OnOk result (IsAppended out.old out.new text.now) }
    ensures err { OnErr result (IsSameText out.old out.new) }
    ensures memory { IfErr result (λ e. e ≡ OutOfMemory) }
{
    Ok(out.push_str(text)?)
}

impl DependencyProvider for Packages {
    ghost use Rattle.script_packages.specs.PackageAnswers.{answers_of};
    ghost use Rattle.script_packages.specs.Packages.{listed_known};
    ghost use Rattle.script_packages.specs.OrderLaws.{best_first_permutes};

    type Cancel = ();

    ghost answers = { answers_of };

    ghost candidates_known = { λ p n. listed_known p.spans (length p.pool.solvables) n };

    ghost order_permutes = { λ p list. best_first_permutes p.pool.solvables list };

    fn filter_candidates(
        &self,
        alloc: Global,
        candidates: &[SolvableId],
        set: VersionSetId,
        inverse: bool,
    ) -> Result<Vec<SolvableId>, StoreError> {
        let range = *self.pool.resolve_version_set(set);
        within(alloc, &self.pool, candidates, range, inverse)
    }

    fn get_candidates(
        &self,
        alloc: Global,
        name: NameId,
    ) -> Result<Option<Candidates<SolvableId, Global>>, StoreError>
        ensures candidates { IfOk result (λ found. candidates_of found ≡ (answers_of self.now).candidates name) }
        ensures favored { IfOk result (λ found. favored_of found ≡ (answers_of self.now).favored name) }
        ensures locked { IfOk result (λ found. locked_of found ≡ None) }
        ensures excluded { IfOk result (λ found. excluded_of found ≡ []) }
        ensures hints_nothing { IfOk result (λ found. IfSome found (λ c. c.hint_dependencies_available ≡ Hint.None)) }
        ensures err { IfErr result (λ e. e ≡ OutOfMemory) }
    {
        let Some(span) = self.span(name) else {
            return Ok(None);
        };
        let place = span.favored;
        let candidates = numbers(alloc, span)?;
        let favored = solvable_at(&candidates, place);
        let mut found = Candidates::new(alloc);
        found.candidates = candidates;
        found.favored = favored;
        Ok(Some(found))
    }

    fn get_dependencies(
        &self,
        alloc: Global,
        _solvable: SolvableId,
    ) -> Result<Dependencies<Global>, StoreError> {
        Ok(Dependencies::Known(KnownDependencies::new(alloc)))
    }

    fn sort_candidates(
        &self,
        alloc: Global,
        solvables: &mut [SolvableId],
    ) -> Result<(), StoreError> {
        sort_best_first(alloc, &self.pool, solvables);
        Ok(())
    }

    /// It never asks to stop.
    fn should_cancel_with_value(&self) -> Option<()>
        ensures { result ≡ None }
    {
        None
    }
}

/// The solvables of a span.
fn numbers(alloc: Global, span: Span) -> Result<Vec<SolvableId>, StoreError>
    ensures ok { IfOk result (λ found. found.items ≡ numbers span.first (span.last + 1 - span.first)) }
    ensures err { IfErr result (λ e. e ≡ OutOfMemory) }
{
    let first = span.first.to_index();
    let end = span.last.to_index() + 1;
    let mut found = Vec::with_capacity(alloc, end.saturating_sub(first))?;
    for i in first..end {
        found.push_reserved(SolvableId::from_index(i));
    }
    Ok(found)
}

/// The solvable at a place, if there is one.
fn solvable_at(solvables: &[SolvableId], place: Option<usize>) -> Option<SolvableId>
    ensures { result ≡ option_and_then (slice_get solvables.now) place }
{
    solvables.get(place?).copied()
}

/// The solvables whose versions are in the range, or, if `inverse`, the others. They get the room that they need.
fn within(
    alloc: Global,
    pool: &Pool<VersionRange>,
    candidates: &[SolvableId],
    range: VersionRange,
    inverse: bool,
) -> Result<Vec<SolvableId>, StoreError>
    ensures ok { IfOk result (λ found. found.items ≡
        filtered (λ s. is_within range (version_at pool.now.solvables s)) inverse candidates.now) }
    ensures err { IfErr result (λ e. e ≡ OutOfMemory) }
{
    if candidates.len() <= SHORT {
        short_within(alloc, pool, candidates, range, inverse)
    } else {
        long_within(alloc, pool, candidates, range, inverse)
    }
}

/// The same of a short list, whose members are looked at once.
fn short_within(
    alloc: Global,
    pool: &Pool<VersionRange>,
    candidates: &[SolvableId],
    range: VersionRange,
    inverse: bool,
) -> Result<Vec<SolvableId>, StoreError>
    requires { length candidates.now ≤ 128 }
    ensures ok { IfOk result (λ found. found.items ≡
        filtered (λ s. is_within range (version_at pool.now.solvables s)) inverse candidates.now) }
    ensures err { IfErr result (λ e. e ≡ OutOfMemory) }
{
    let mut places = [SolvableId::from_index(0); SHORT];
    let count = put_within(pool, candidates, range, inverse, &mut places);
    Ok(Vec::from_slice(alloc, &places[..count])?)
}

/// Puts those that are within in the first places, and answers how many they are.
fn put_within(
    pool: &Pool<VersionRange>,
    candidates: &[SolvableId],
    range: VersionRange,
    inverse: bool,
    places: &mut [SolvableId],
) -> usize
    requires { length candidates.now ≤ length places.old }
    ensures count { result ≤ length candidates.now }
    ensures within { take result places.new ≡
        filtered (λ s. is_within range (version_at pool.now.solvables s)) inverse candidates.now }
{
    let mut count = 0;
    for solvable in candidates {
        if holds(pool, range, *solvable) != inverse {
            places[count] = *solvable;
            count += 1;
        }
    }
    count
}

/// The same of a long list, whose members are looked at twice: first they are counted.
#[inline(never)]
fn long_within(
    alloc: Global,
    pool: &Pool<VersionRange>,
    candidates: &[SolvableId],
    range: VersionRange,
    inverse: bool,
) -> Result<Vec<SolvableId>, StoreError>
    ensures ok { IfOk result (λ found. found.items ≡
        filtered (λ s. is_within range (version_at pool.now.solvables s)) inverse candidates.now) }
    ensures err { IfErr result (λ e. e ≡ OutOfMemory) }
{
    let count = candidates
        .iter()
        .filter(|solvable| holds(pool, range, **solvable) != inverse)
        .count();
    let mut found = Vec::with_capacity(alloc, count)?;
    for solvable in candidates {
        if holds(pool, range, *solvable) != inverse {
            found.push(*solvable)?;
        }
    }
    Ok(found)
}

/// Whether a solvable's version is in the range.
fn holds(pool: &Pool<VersionRange>, range: VersionRange, solvable: SolvableId) -> bool
    ensures { result ≡ is_within range (version_at pool.now.solvables solvable) }
{
    let version = version_at(pool, solvable);
    range.low <= version && version < range.high
}

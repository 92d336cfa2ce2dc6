//! The provider: what an index answers as an interner, in its first half, and as a provider, in its second.
ghost use Rattle.std.specs.Prelude.{◌≡◌, ◌<◌, true, [], All, length, reverse, slice_get};
ghost use Rattle.std.specs.Prelude.{string_bytes, IfOk, IfErr, OnOk, OnErr};
ghost use Rattle.resolvo_ids.specs.Types.StoreError.TheVariants.{OutOfMemory};
ghost use Rattle.resolvo_pool.specs.Pool.{IsOfItself, nothing};
ghost use Rattle.resolvo_pool.specs.PoolProps.{pool_props};
ghost use Rattle.resolvo_pool.specs.Provider.{filtered};
ghost use Rattle.resolvo_pool.specs.Texts.{IsAppended, IsSameText};
ghost use Rattle.example_index.specs.Index.{here, of_name, is_within, range_in, range_text, version_in};
ghost use Rattle.index_text.specs.PlainFormats.{plain_format};

use crate::packages::Package;
use crate::range::VersionRange;
use index_text::VersionFormat;
use resolvo_ids::{
    ConditionId, DenseIndex, NameId, SolvableId, StoreError, StringId, VersionSetId,
    VersionSetUnionId,
};
use resolvo_pool::{
    Candidates, Condition, ConditionalRequirement, Dependencies, DependencyProvider, Interner,
    KnownDependencies, Pool,
};
use std::alloc::{AllocError, Global};

/// The versions of packages, and what each needs.
#[derive(Drop)]
pub struct SmallIndex {
    /// What the text's words are copied with.
    pub(crate) alloc: Global,
    /// How versions are written. The pool has a number for each.
    pub(crate) format: VersionFormat,
    /// Names, versions, ranges, conditions and the reasons of exclusions, each by its id.
    pub(crate) pool: Pool<VersionRange>,
    /// Each package, at its name's place.
    pub(crate) packages: Vec<Package>,
    /// What each solvable needs, at its place.
    pub(crate) needs: Vec<Dependencies>,
    /// What is requested.
    pub(crate) request: Vec<ConditionalRequirement>,
    ghost of_itself: { IsOfItself pool } by { Prim.hlevel pool_props },
}

impl SmallIndex {
    /// Nothing. Takes no memory.
    pub(crate) fn new(alloc: Global) -> Self
        ensures pool { result.pool ≡ nothing }
        ensures packages { result.packages.items ≡ [] }
        ensures needs { result.needs.items ≡ [] }
        ensures request { result.request.items ≡ [] }
    {
        SmallIndex {
            alloc,
            format: VersionFormat::Numbers,
            pool: Pool::new(alloc),
            packages: Vec::new(alloc),
            needs: Vec::new(alloc),
            request: Vec::new(alloc),
        }
    }

    /// What is requested.
    pub fn request(&self) -> &[ConditionalRequirement]
        ensures { result.now ≡ self.now.request.items }
    {
        &self.request
    }

    /// The text of a version set's range.
    pub(crate) fn range_text(&self, alloc: Global, set: VersionSetId) -> Result<String, AllocError>
        requires { set.0 < length self.now.pool.version_sets }
        ensures { IfOk result (λ text. string_bytes text ≡
            range_text (plain_format self.now.format) (range_in self.now.pool set)) }
    {
        let range = *self.pool.resolve_version_set(set);
        let mut text = String::new(alloc);
        self.format.write(range.low, &mut text)?;
        text.push_str("..")?;
        self.format.write(range.high, &mut text)?;
        Ok(text)
    }
}

/// The ids are the pool's, and so are the laws of them.
impl Interner for SmallIndex {
    ghost use Rattle.resolvo_pool.specs.PoolIds.{universe_in, texts_in};
    ghost use Rattle.resolvo_pool.specs.PoolLaws.{pool_solvable_names, pool_set_names, pool_union_sets, pool_operands};
    ghost use Rattle.index_text.specs.Formats.{version_text};

    type Alloc = Global;

    type NameId = NameId;

    type SolvableId = SolvableId;

    ghost universe = { λ index. universe_in index.pool };

    ghost texts = { λ index. texts_in index.pool string_bytes
        (range_text (plain_format index.format)) (version_text (plain_format index.format)) };

    ghost solvable_names_known = { λ index. pool_solvable_names index.pool index.of_itself };

    ghost set_names_known = { λ index. pool_set_names index.pool index.of_itself };

    ghost union_sets_known = { λ index. pool_union_sets index.pool index.of_itself };

    ghost operands_known = { λ index. pool_operands index.pool index.of_itself };

    fn knows_string(&self, string: StringId) -> bool {
        self.pool.knows_string(string)
    }

    fn knows_name(&self, name: NameId) -> bool {
        self.pool.knows_name(name)
    }

    fn knows_solvable(&self, solvable: SolvableId) -> bool {
        self.pool.knows_solvable(solvable)
    }

    fn knows_version_set(&self, set: VersionSetId) -> bool {
        self.pool.knows_version_set(set)
    }

    fn knows_union(&self, union: VersionSetUnionId) -> bool {
        self.pool.knows_union(union)
    }

    fn knows_condition(&self, condition: ConditionId) -> bool {
        self.pool.knows_condition(condition)
    }

    fn version_set_name(&self, set: VersionSetId) -> NameId {
        self.pool.resolve_version_set_package_name(set)
    }

    fn solvable_name(&self, solvable: SolvableId) -> NameId {
        self.pool.resolve_solvable(solvable).name
    }

    fn version_sets_in_union(&self, union: VersionSetUnionId) -> &[VersionSetId] {
        self.pool.resolve_version_set_union(union)
    }

    fn resolve_condition(&self, condition: ConditionId) -> Condition {
        *self.pool.resolve_condition(condition)
    }

    fn display_solvable(&self, solvable: SolvableId, out: &mut String) -> Result<(), StoreError> {
        let solvable = self.pool.resolve_solvable(solvable);
        let mut text = String::new(*out.allocator());
        text.push_str(self.pool.resolve_package_name(solvable.name))?;
        text.push(' ')?;
        self.format.write(solvable.payload, &mut text)?;
        append(out, &text)
    }

    fn display_name(&self, name: NameId, out: &mut String) -> Result<(), StoreError> {
        append(out, self.pool.resolve_package_name(name))
    }

    fn display_version_set(&self, set: VersionSetId, out: &mut String) -> Result<(), StoreError> {
        append(out, &self.range_text(*out.allocator(), set)?)
    }

    fn display_string(&self, string: StringId, out: &mut String) -> Result<(), StoreError> {
        append(out, self.pool.resolve_string(string))
    }
}

/// Appends a text.
fn append(out: &mut String, text: &str) -> Result<(), StoreError>
    ensures ok { OnOk result (IsAppended out.old out.new text.now) }
    ensures err { OnErr result (IsSameText out.old out.new) }
    ensures memory { IfErr result (λ e. e ≡ OutOfMemory) }
{
    Ok(out.push_str(text)?)
}

impl DependencyProvider for SmallIndex {
    ghost use Rattle.std.proofs.lemmas.List.Sorted.{IsPermutation-reverse};
    ghost use Rattle.example_index.specs.Index.{versions_of, favored_of, locked_of, excluded_of, needs_at};
    ghost use Rattle.example_index.specs.Index.{named_known};

    type Cancel = ();

    ghost answers = { λ index. record {
      candidates = λ name. of_name index.pool name
          (here index.pool (versions_of (slice_get index.packages.items name)));
      matches = λ set s. is_within (range_in index.pool set) (version_in index.pool s);
      favored = λ name. favored_of (slice_get index.packages.items name);
      locked = λ name. locked_of (slice_get index.packages.items name);
      excluded = λ name. excluded_of (slice_get index.packages.items name);
      order = λ list. reverse list;
      needs = λ s. needs_at index.needs.items s;
    } };

    ghost candidates_known = { λ index name.
        named_known index.pool name (versions_of (slice_get index.packages.items name)) };

    ghost order_permutes = { λ index list. IsPermutation-reverse list };

    fn filter_candidates(
        &self,
        alloc: Global,
        candidates: &[SolvableId],
        set: VersionSetId,
        inverse: bool,
    ) -> Result<Vec<SolvableId>, StoreError> {
        let range = *self.pool.resolve_version_set(set);
        within(alloc, &self.pool, candidates, range, inverse)
    }

    fn get_candidates(
        &self,
        alloc: Global,
        name: NameId,
    ) -> Result<Option<Candidates<SolvableId>>, StoreError> {
        let mut found = Candidates::new(alloc);
        if let Some(package) = self.packages.get(name.to_index()) {
            found.candidates = named(alloc, &self.pool, &package.versions, name)?;
            found.favored = package.favored;
            found.locked = package.locked;
            found.excluded.extend_from_slice(&package.excluded)?;
        }
        Ok(Some(found))
    }

    fn sort_candidates(
        &self,
        _alloc: Global,
        solvables: &mut [SolvableId],
    ) -> Result<(), StoreError> {
        solvables.reverse();
        Ok(())
    }

    fn get_dependencies(
        &self,
        alloc: Global,
        solvable: SolvableId,
    ) -> Result<Dependencies, StoreError> {
        match self.needs.get(solvable.to_index()) {
            Some(Dependencies::Unknown(reason)) => Ok(Dependencies::Unknown(*reason)),
            Some(Dependencies::Known(known)) => Ok(Dependencies::Known(copy(alloc, known)?)),
            None => Ok(Dependencies::Known(KnownDependencies::new(alloc))),
        }
    }
}

/// A copy.
fn copy(alloc: Global, known: &KnownDependencies) -> Result<KnownDependencies, StoreError>
    ensures requirements { IfOk result (λ copy. copy.requirements.items ≡ known.now.requirements.items) }
    ensures constrains { IfOk result (λ copy. copy.constrains.items ≡ known.now.constrains.items) }
    ensures err { IfErr result (λ e. e ≡ OutOfMemory) }
{
    let mut copy = KnownDependencies::new(alloc);
    copy.requirements.extend_from_slice(&known.requirements)?;
    copy.constrains.extend_from_slice(&known.constrains)?;
    Ok(copy)
}

/// Those of the solvables that the pool has under this name.
fn named(
    alloc: Global,
    pool: &Pool<VersionRange>,
    solvables: &[SolvableId],
    name: NameId,
) -> Result<Vec<SolvableId>, StoreError>
    ensures ok { IfOk result (λ found. found.items ≡ of_name pool.now name (here pool.now solvables.now)) }
    ensures err { IfErr result (λ e. e ≡ OutOfMemory) }
{
    let mut found = Vec::new(alloc);
    for solvable in solvables {
        if pool.knows_solvable(*solvable) && pool.resolve_solvable(*solvable).name == name {
            found.push(*solvable)?;
        }
    }
    Ok(found)
}

/// The solvables whose versions are in the range, or, if `inverse`, the others.
fn within(
    alloc: Global,
    pool: &Pool<VersionRange>,
    solvables: &[SolvableId],
    range: VersionRange,
    inverse: bool,
) -> Result<Vec<SolvableId>, StoreError>
    requires { All (λ s. s < length pool.now.solvables) solvables.now }
    ensures ok { IfOk result (λ found. found.items ≡
        filtered (λ s. is_within range (version_in pool.now s)) inverse solvables.now) }
    ensures err { IfErr result (λ e. e ≡ OutOfMemory) }
{
    let mut found = Vec::new(alloc);
    for solvable in solvables {
        if range.holds(pool.resolve_solvable(*solvable).payload) != inverse {
            found.push(*solvable)?;
        }
    }
    Ok(found)
}

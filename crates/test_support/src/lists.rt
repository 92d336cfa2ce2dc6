//! A provider of plain lists.
ghost use Rattle.std.specs.Prelude.{◌≡◌, map, length, refl, Some, OnOk, OnErr, IfErr};
ghost use Rattle.typed_ids.specs.declared.error.StoreError.TheVariants.{OutOfMemory};
ghost use Rattle.providers.specs.Texts.{IsAppended, IsSameText};
ghost use Rattle.test_support.specs.Listed.{letter, several};

use crate::listed::{Listed, all_below, named, sets_at, within};
use crate::manner::{Counting, Counts, Manner, counted, told};
use crate::numbered::{Distinct, Numbered};
use id_maps::SolverId;
use providers::{
    Candidates, Condition, Dependencies, DependencyProvider, Interner, KnownDependencies,
};
use std::alloc::Allocator;
use std::cell::Cell;
use std::marker::PhantomData;
use typed_ids::{ConditionId, StoreError, StringId, VersionSetId, VersionSetUnionId};

/// Packages, version sets and unions in lists, with names `N` and solvables `S`. The later a package comes, the better.
/// There is one string, `old`, and a condition for each version set, that it is met. The name of a package is written
/// as a letter, `a` that of number 0; a version set whose versions have no end has no text.
#[derive(Drop)]
pub struct Lists<N, S, A: Allocator> {
    /// What is listed.
    pub listed: Listed<A>,
    /// How it is told.
    pub manner: Manner<A>,
    candidates: Cell<u32>,
    dependencies: Cell<u32>,
    cancels: Cell<u32>,
    ids: PhantomData<(N, S)>,
}

impl<N, S, A: Allocator> Lists<N, S, A> {
    /// The provider that was asked nothing yet.
    pub fn new(listed: Listed<A>, manner: Manner<A>) -> Self
        ensures listed { result.listed ≡ listed }
        ensures manner { result.manner ≡ manner }
    {
        Lists {
            listed,
            manner,
            candidates: Cell::new(0),
            dependencies: Cell::new(0),
            cancels: Cell::new(0),
            ids: PhantomData,
        }
    }
}

impl<N, S, A: Allocator> Counting for Lists<N, S, A> {
    fn counts(&self) -> Counts {
        Counts {
            candidates: self.candidates.get(),
            dependencies: self.dependencies.get(),
            cancels: self.cancels.get(),
        }
    }
}

impl<N: SolverId<A> + Numbered, S: SolverId<A> + Distinct, A: Allocator + Copy> Interner
    for Lists<N, S, A> {
    type Alloc = A;

    type NameId = N;

    type SolvableId = S;

    ghost use Rattle.test_support.specs.Listed.{universe_of, texts_of, union_at, unions_known};

    ghost universe = { λ p. universe_of N.id_of S.number_of p.listed.packages.items p.listed.ranges.items
        (map (λ l. l.items) p.listed.unions.items) };

    ghost own_merged = { λ p list. Some several };

    ghost texts = { λ p. texts_of N.number_of S.number_of p.listed.packages.items p.listed.ranges.items };

    ghost solvable_names_known = { λ p s h. refl };

    ghost set_names_known = { λ p v h. refl };

    ghost union_sets_known = { λ p u h. unions_known (length p.listed.ranges.items)
        (union_at (map (λ l. l.items) p.listed.unions.items) u) _ h };

    ghost operands_known = { λ p c h. h };

    fn knows_string(&self, string: StringId) -> bool {
        string.0 == 0
    }

    fn knows_name(&self, _name: N) -> bool {
        true
    }

    fn knows_solvable(&self, solvable: S) -> bool {
        (solvable.number() as usize) < self.listed.packages.len()
    }

    fn knows_version_set(&self, set: VersionSetId) -> bool {
        (set.0 as usize) < self.listed.ranges.len()
    }

    fn knows_union(&self, union: VersionSetUnionId) -> bool {
        (union.0 as usize) < self.listed.unions.len()
            && all_below(
                sets_at(&self.listed.unions, union),
                self.listed.ranges.len(),
            )
    }

    fn knows_condition(&self, condition: ConditionId) -> bool {
        (condition.as_u32() as usize) < self.listed.ranges.len()
    }

    fn version_set_name(&self, set: VersionSetId) -> N {
        N::numbered(self.listed.ranges[set.0 as usize].name)
    }

    fn solvable_name(&self, solvable: S) -> N {
        N::numbered(self.listed.packages[solvable.number() as usize].name)
    }

    fn version_sets_in_union(&self, union: VersionSetUnionId) -> &[VersionSetId] {
        sets_at(&self.listed.unions, union)
    }

    fn resolve_condition(&self, condition: ConditionId) -> Condition {
        Condition::Requirement(VersionSetId(condition.as_u32()))
    }

    fn display_solvable(&self, solvable: S, out: &mut String<A>) -> Result<(), StoreError> {
        let package = self.listed.packages[solvable.number() as usize];
        let (name, version) = (letter(package.name), package.version);
        append(out, &format!(in *out.allocator(); "{name} {version}")?)
    }

    fn display_name(&self, name: N, out: &mut String<A>) -> Result<(), StoreError> {
        append(
            out,
            &format!(in *out.allocator(); "{}", letter(name.number()))?,
        )
    }

    fn display_version_set(
        &self,
        set: VersionSetId,
        out: &mut String<A>,
    ) -> Result<(), StoreError> {
        let range = self.listed.ranges[set.0 as usize];
        let (low, high) = (range.low, range.high);
        if high == u32::MAX {
            return Ok(());
        }
        append(out, &format!(in *out.allocator(); ">={low}, <{high}")?)
    }

    fn display_string(&self, _string: StringId, out: &mut String<A>) -> Result<(), StoreError> {
        append(out, "old")
    }

    fn display_solvable_name(&self, solvable: S, out: &mut String<A>) -> Result<(), StoreError> {
        self.display_name(self.solvable_name(solvable), out)
    }

    fn display_merged_solvables(
        &self,
        _solvables: &[S],
        out: &mut String<A>,
    ) -> Result<(), StoreError> {
        append(out, "several")
    }
}

impl<N: SolverId<A> + Numbered, S: SolverId<A> + Distinct, A: Allocator + Copy> DependencyProvider
    for Lists<N, S, A> {
    ghost use Rattle.std.proofs.lemmas.List.Sorted.{IsPermutation-reverse};
    ghost use Rattle.test_support.specs.Listed.{answers_of, candidates_known};

    type Cancel = u32;

    ghost answers = { λ p. answers_of N.number_of S.number_of S.id_of p.listed.packages.items p.listed.ranges.items
        p.listed.favored p.manner.locked p.manner.listing };

    ghost candidates_known = { λ p n. candidates_known S.number_of S.id_of S.number_of_id
        (N.number_of n) p.listed.packages.items p.manner.listing };

    ghost order_permutes = { λ p list. IsPermutation-reverse list };

    fn filter_candidates(
        &self,
        alloc: A,
        candidates: &[S],
        set: VersionSetId,
        inverse: bool,
    ) -> Result<Vec<S, A>, StoreError> {
        let range = self.listed.ranges[set.0 as usize];
        within(alloc, &self.listed.packages, candidates, range, inverse)
    }

    fn get_candidates(&self, alloc: A, name: N) -> Result<Option<Candidates<S, A>>, StoreError> {
        let _number = counted(&self.candidates);
        let list: Vec<S, A> = named(alloc, &self.listed.packages, name.number())?;
        told(alloc, &list, self.listed.favored, &self.manner)
    }

    fn get_dependencies(&self, alloc: A, _solvable: S) -> Result<Dependencies<A>, StoreError> {
        let _number = counted(&self.dependencies);
        Ok(Dependencies::Known(KnownDependencies::new(alloc)))
    }

    fn sort_candidates(&self, _alloc: A, solvables: &mut [S]) -> Result<(), StoreError> {
        solvables.reverse();
        Ok(())
    }

    fn should_cancel_with_value(&self) -> Option<u32> {
        self.manner.stops.at(counted(&self.cancels))
    }
}

/// The letter that a package's name is written as.
fn letter(name: u32) -> char
    ensures { result ≡ letter name }
{
    char::from(b'a' + (name % 26) as u8)
}

/// Appends a text.
fn append<A: Allocator>(out: &mut String<A>, text: &str) -> Result<(), StoreError>
    ensures ok { OnOk result (IsAppended out.old out.new text.now) }
    ensures err { OnErr result (IsSameText out.old out.new) }
    ensures memory { IfErr result (λ e. e ≡ OutOfMemory) }
{
    Ok(out.push_str(text)?)
}

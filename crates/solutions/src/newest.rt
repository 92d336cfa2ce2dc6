//! The wishes for the newest versions.
ghost use Rattle.std.specs.Prelude.{◌≡◌, ◌<◌, ◌++◌, ◌∷◌, [], true, false, All, length, map, flat_map};
ghost use Rattle.std.specs.Prelude.{IfOk, IfSome, OnOk};
ghost use Rattle.std.specs.List.{position_from};
ghost use Rattle.resolvo_pool.specs.Provider.{favored_first, filtered, sorted};
ghost use Rattle.solutions.specs.Newest.{alternatives_for, is_of_one, newest, offers};
ghost use Rattle.solutions.specs.Newest.{package_of, packages_of, unconditional, wish_for};
ghost use Rattle.solutions.specs.Wishes.{alternatives_of};

use crate::queries::knows;
use crate::wish::{Alternative, Wish};
use resolvo_ids::{SameId, StoreError, VersionSetId};
use resolvo_pool::{
    Candidates, ConditionalRequirement, DependencyProvider, Interner, ProviderFunctions,
    Requirement,
};
use std::alloc::{AllocError, Allocator};

/// The wishes for the newest versions of what is requested, in the order of the request: of each requirement without a
/// condition its candidates, the best first. Candidates of packages that the request needs anyway, by a requirement of
/// one version set, come before the others. Refused `UnknownId` if the provider doesn't know such a requirement.
///
/// Looks for each candidate's package among those that the request needs anyway.
pub fn newest_wishes<D: DependencyProvider>(
    alloc: D::Alloc,
    provider: &D,
    requested: &[ConditionalRequirement],
) -> Result<Vec<Wish<D::SolvableId, D::Alloc>, D::Alloc>, StoreError>
    ensures { IfOk result (λ wishes. alternatives_of wishes.items ≡
        newest (⟦<D as ProviderFunctions>⟧.functions provider.now) requested.now) }
{
    let requirements = unconditional(alloc, requested)?;
    let needed = packages_of(alloc, provider, &requirements)?;
    let wisher = Wisher {
        alloc,
        provider,
        needed,
    };
    wisher.wishes(&requirements)
}

/// What is requested without a condition.
fn unconditional<A: Allocator>(
    alloc: A,
    requested: &[ConditionalRequirement],
) -> Result<Vec<Requirement, A>, AllocError>
    ensures { IfOk result (λ requirements. requirements.items ≡ unconditional requested.now) }
{
    requested
        .iter()
        .filter(|conditional| conditional.condition.is_none())
        .map(|conditional| conditional.requirement)
        .collect(alloc)
}

/// The packages of the requirements that are one version set.
fn packages_of<D: DependencyProvider>(
    alloc: D::Alloc,
    provider: &D,
    requirements: &[Requirement],
) -> Result<Vec<D::NameId, D::Alloc>, StoreError>
    ensures { IfOk result (λ packages. packages.items ≡
        packages_of (⟦<D as ProviderFunctions>⟧.functions provider.now) requirements.now) }
{
    let mut packages = Vec::new(alloc);
    for requirement in requirements {
        push_package(provider, &mut packages, *requirement)?;
    }
    Ok(packages)
}

/// Adds the package of a requirement that is one version set.
fn push_package<D: DependencyProvider>(
    provider: &D,
    packages: &mut Vec<D::NameId, D::Alloc>,
    requirement: Requirement,
) -> Result<(), StoreError>
    ensures { OnOk result (packages.new.items ≡ packages.old.items
        ++ package_of (⟦<D as ProviderFunctions>⟧.functions provider.now) requirement) }
{
    let Requirement::Single(set) = requirement else {
        return Ok(());
    };
    if !provider.knows_version_set(set) {
        return Err(StoreError::UnknownId);
    }
    packages.push(provider.version_set_name(set))?;
    Ok(())
}

/// Writes wishes.
#[derive(Drop)]
struct Wisher<'p, D: DependencyProvider> {
    alloc: D::Alloc,
    provider: &'p D,
    /// The packages that are needed anyway.
    needed: Vec<D::NameId, D::Alloc>,
}

impl<'p, D: DependencyProvider> Wisher<'p, D> {
    /// The wishes for the best candidates of the requirements.
    fn wishes(
        &self,
        requirements: &[Requirement],
    ) -> Result<Vec<Wish<D::SolvableId, D::Alloc>, D::Alloc>, StoreError>
        ensures { IfOk result (λ wishes. alternatives_of wishes.items ≡
            map (wish_for (⟦<D as ProviderFunctions>⟧.functions self.now.provider.now) self.now.needed.items)
            requirements.now) }
    {
        let mut wishes = Vec::new(self.alloc);
        for requirement in requirements {
            let wish = self.wish(*requirement)?;
            wishes.push(wish)?;
        }
        Ok(wishes)
    }

    /// The wish for a requirement's best candidate.
    fn wish(&self, requirement: Requirement) -> Result<Wish<D::SolvableId, D::Alloc>, StoreError>
        ensures { IfOk result (λ wish. wish.alternatives.items ≡
            wish_for (⟦<D as ProviderFunctions>⟧.functions self.now.provider.now) self.now.needed.items requirement) }
    {
        let offers = self.offers(requirement)?;
        let mut alternatives = Vec::new(self.alloc);
        self.push_all(&mut alternatives, &offers, false)?;
        self.push_all(&mut alternatives, &offers, true)?;
        Ok(Wish { alternatives })
    }

    /// Adds that each of the solvables is picked whose package is needed anyway, or, if `inverse`, each of the others.
    fn push_all(
        &self,
        alternatives: &mut Vec<Alternative<D::SolvableId>, D::Alloc>,
        solvables: &[D::SolvableId],
        inverse: bool,
    ) -> Result<(), StoreError>
        ensures { OnOk result (alternatives.new.items ≡ alternatives.old.items ++ alternatives_for
            (filtered (is_of_one (⟦<D as ProviderFunctions>⟧.functions self.now.provider.now) self.now.needed.items)
            inverse solvables.now)) }
    {
        for solvable in solvables {
            self.push(alternatives, *solvable, inverse)?;
        }
        Ok(())
    }

    /// Adds that a solvable is picked, if its package is needed anyway, or, if `inverse`, if it isn't.
    fn push(
        &self,
        alternatives: &mut Vec<Alternative<D::SolvableId>, D::Alloc>,
        solvable: D::SolvableId,
        inverse: bool,
    ) -> Result<(), StoreError>
        ensures { OnOk result (alternatives.new.items ≡ alternatives.old.items ++ alternatives_for
            (filtered (is_of_one (⟦<D as ProviderFunctions>⟧.functions self.now.provider.now) self.now.needed.items)
            inverse (solvable ∷ []))) }
    {
        if self.is_needed(solvable)? == inverse {
            return Ok(());
        }
        alternatives.push(Alternative {
            solvable,
            is_picked: true,
        })?;
        Ok(())
    }

    /// Whether a solvable's package is needed anyway.
    fn is_needed(&self, solvable: D::SolvableId) -> Result<bool, StoreError>
        ensures { IfOk result (λ yes. yes ≡ is_of_one (⟦<D as ProviderFunctions>⟧.functions self.now.provider.now)
            self.now.needed.items solvable) }
    {
        if !self.provider.knows_solvable(solvable) {
            return Err(StoreError::UnknownId);
        }
        let package = self.provider.solvable_name(solvable);
        Ok(self.needed.contains(&package))
    }

    /// The candidates of a requirement's version sets, in turn, each list in the order of preference.
    fn offers(&self, requirement: Requirement) -> Result<Vec<D::SolvableId, D::Alloc>, StoreError>
        ensures { IfOk result (λ found. found.items ≡
            offers (⟦<D as ProviderFunctions>⟧.functions self.now.provider.now) requirement) }
    {
        if !knows(self.provider, requirement) {
            return Err(StoreError::UnknownId);
        }
        let sets = requirement.version_sets(self.provider);
        self.all_sorted(sets.as_slice())
    }

    /// The candidates of the version sets, in turn, each list in the order of preference.
    fn all_sorted(&self, sets: &[VersionSetId]) -> Result<Vec<D::SolvableId, D::Alloc>, StoreError>
        ensures { IfOk result (λ found. found.items ≡ flat_map (sorted (D.universe self.now.provider.now)
            (D.answers self.now.provider.now) D.SolvableId.eq) sets.now) }
    {
        let mut all = Vec::new(self.alloc);
        for set in sets {
            let found = sorted(self.alloc, self.provider, *set)?;
            all.extend_from_slice(&found)?;
        }
        Ok(all)
    }
}

/// The candidates of a version set, in the order of preference, but the favored one first.
fn sorted<D: DependencyProvider>(
    alloc: D::Alloc,
    provider: &D,
    set: VersionSetId,
) -> Result<Vec<D::SolvableId, D::Alloc>, StoreError>
    ensures { IfOk result (λ found. found.items ≡
        sorted (D.universe provider.now) (D.answers provider.now) D.SolvableId.eq set) }
{
    if !provider.knows_version_set(set) {
        return Err(StoreError::UnknownId);
    }
    match provider.get_candidates(alloc, provider.version_set_name(set))? {
        Some(all) => sorted_among(alloc, provider, set, &all),
        None => Ok(Vec::new(alloc)),
    }
}

/// What a version set holds of its package's candidates, in the order of preference, but the favored one first.
fn sorted_among<D: DependencyProvider>(
    alloc: D::Alloc,
    provider: &D,
    set: VersionSetId,
    all: &Candidates<D::SolvableId, D::Alloc>,
) -> Result<Vec<D::SolvableId, D::Alloc>, StoreError>
    requires set { (D.universe provider.now).knows_set set ≡ true }
    requires candidates { All (λ s. (D.universe provider.now).knows_solvable s ≡ true) all.now.candidates.items }
    ensures { IfOk result (λ found. found.items ≡ favored_first D.SolvableId.eq all.now.favored
        ((D.answers provider.now).order (filtered ((D.answers provider.now).matches set) false
        all.now.candidates.items))) }
{
    let mut held = held_by(alloc, provider, set, &all.candidates)?;
    put_in_order(alloc, provider, &mut held, all.favored)?;
    Ok(held)
}

/// The solvables that a version set holds.
fn held_by<D: DependencyProvider>(
    alloc: D::Alloc,
    provider: &D,
    set: VersionSetId,
    solvables: &[D::SolvableId],
) -> Result<Vec<D::SolvableId, D::Alloc>, StoreError>
    requires set { (D.universe provider.now).knows_set set ≡ true }
    requires known { All (λ s. (D.universe provider.now).knows_solvable s ≡ true) solvables.now }
    ensures found { IfOk result (λ found. found.items ≡
        filtered ((D.answers provider.now).matches set) false solvables.now) }
    ensures known { IfOk result (λ found. All (λ s. (D.universe provider.now).knows_solvable s ≡ true) found.items) }
{
    provider.filter_candidates(alloc, solvables, set, false)
}

/// Puts solvables in the order of preference, but the favored one, where it is among them, first.
fn put_in_order<D: DependencyProvider>(
    alloc: D::Alloc,
    provider: &D,
    solvables: &mut Vec<D::SolvableId, D::Alloc>,
    favored: Option<D::SolvableId>,
) -> Result<(), StoreError>
    requires { All (λ s. (D.universe provider.now).knows_solvable s ≡ true) solvables.old.items }
    ensures { OnOk result (solvables.new.items ≡
        favored_first D.SolvableId.eq favored ((D.answers provider.now).order solvables.old.items)) }
{
    provider.sort_candidates(alloc, solvables)?;
    put_favored_first(solvables, favored)
}

/// Moves the favored one, where it is among the solvables, from its first place to the front.
fn put_favored_first<S: SameId, A: Allocator>(
    solvables: &mut Vec<S, A>,
    favored: Option<S>,
) -> Result<(), StoreError>
    ensures { OnOk result (solvables.new.items ≡ favored_first S.eq favored solvables.old.items) }
{
    let Some(favored) = favored else {
        return Ok(());
    };
    if let Some(place) = place_of(solvables, favored) {
        solvables.remove(place);
        solvables.insert(0, favored)?;
    }
    Ok(())
}

/// The first place of a solvable.
fn place_of<S: SameId>(solvables: &[S], wanted: S) -> Option<usize>
    ensures place { result ≡ position_from (λ s. S.eq s wanted) 0 solvables.now }
    ensures within { IfSome result (λ place. place < length solvables.now) }
{
    solvables.iter().position(|solvable| *solvable == wanted)
}

//! The lists that a load brings: a requirement's candidates, through the cache, with a variable for each.
ghost use Rattle.std.specs.Prelude.{◌≡◌, ◌<◌, ◌≤◌, ◌+◌, ◌^◌, [], ◌∷◌, true, flat_map, length, take, All};
ghost use Rattle.std.specs.Prelude.{IfOk, OnOk, IfErr};
ghost use Rattle.typed_ids.specs.declared.error.StoreError.TheVariants.{IdSpace};
ghost use Rattle.providers.specs.Provider.{knows_requirement, sets_of};
ghost use Rattle.providers.specs.declared.requirement.Requirement.TheVariants.{Single, Union};
ghost use Rattle.solver_cache.specs.Cache.{sorted_of_set};
ghost use Rattle.resolvo_store.specs.Lists.{items_of, lists_of_loaded, CameThrough};
ghost use Rattle.resolvo_store.specs.LoadedLists.{IsSmall, VariablesFit, AreSetsLoaded, AreSetsRefused};

use id_maps::{IdMap, IdSet, SolverId};
use providers::{DependencyProvider, Interner, Requirement, RequirementMap};
use solver_cache::{ProviderFunctions, SolverCache};
use typed_ids::{DENSE_LIMIT, StoreError, VariableId, VersionSetId, VersionSetUnionId};
use variables::{VariableLists, VariableMap, intern_list};

/// The variables of a requirement's candidates, best first, one list a version set; each candidate gets one if it has
/// none. `loaded` has the lists that are there already. What the provider hands over when it asks to stop is dropped.
/// After a refusal some of the candidates have variables, the first ones. Those that were there stay in front.
pub(crate) fn load_lists<D: DependencyProvider + Drop>(
    cache: &mut SolverCache<D>,
    variables: &mut VariableMap<D::NameId, D::SolvableId, D::Alloc>,
    loaded: &RequirementMap<VariableLists<D::Alloc>, D::Alloc>,
    alloc: D::Alloc,
    requirement: Requirement,
) -> Result<VariableLists<D::Alloc>, StoreError>
    requires known { knows_requirement (D.universe cache.old.provider) requirement ≡ true }
    requires through { CameThrough (⟦<D as ProviderFunctions>⟧.functions cache.old.provider) cache.old variables.old
        (lists_of_loaded loaded.now) }
    ensures loaded { IfOk result (λ lists. AreSetsLoaded (⟦<D as ProviderFunctions>⟧.functions cache.old.provider)
        D.SolvableId.Set.has cache.old cache.new variables.old variables.new
        (sets_of (D.universe cache.old.provider) requirement) (items_of lists)) }
    ensures small { OnOk result (IsSmall (⟦<D as ProviderFunctions>⟧.functions cache.old.provider) requirement) }
    ensures fit { OnOk result
        (VariablesFit (⟦<D as ProviderFunctions>⟧.functions cache.old.provider) requirement variables.old) }
    ensures refused { IfErr result (AreSetsRefused (⟦<D as ProviderFunctions>⟧.functions cache.old.provider)
        D.SolvableId.Set.has cache.old cache.new variables.old variables.new
        (sets_of (D.universe cache.old.provider) requirement)) }
    ensures front { take (length variables.old) variables.new ≡ variables.old }
{
    let lists = match requirement {
        Requirement::Single(set) => load_set(cache, variables, alloc, set),
        Requirement::Union(union) => load_union(cache, variables, loaded, alloc, union),
    };
    prove!(variables.count() < 1 << 31);
    lists
}

/// The same of a version set that isn't loaded. The cache keeps no list of it: the store has the variables.
fn load_set<D: DependencyProvider + Drop>(
    cache: &mut SolverCache<D>,
    variables: &mut VariableMap<D::NameId, D::SolvableId, D::Alloc>,
    alloc: D::Alloc,
    set: VersionSetId,
) -> Result<VariableLists<D::Alloc>, StoreError>
    requires { (D.universe cache.old.provider).knows_set set ≡ true }
    ensures loaded { IfOk result (λ lists. AreSetsLoaded (⟦<D as ProviderFunctions>⟧.functions cache.old.provider)
        D.SolvableId.Set.has cache.old cache.new variables.old variables.new (set ∷ []) (items_of lists)) }
    ensures small { OnOk result
        (IsSmall (⟦<D as ProviderFunctions>⟧.functions cache.old.provider) (Single set)) }
    ensures refused { IfErr result (AreSetsRefused (⟦<D as ProviderFunctions>⟧.functions cache.old.provider)
        D.SolvableId.Set.has cache.old cache.new variables.old variables.new (set ∷ [])) }
{
    let candidates = cache.sorted_candidates_for_version_set(set)?;
    more_rows(0, candidates.len())?;
    let mut lists = Vec::with_capacity(alloc, 1)?;
    let list = intern_list(variables, alloc, &candidates)?;
    lists.push_reserved(list);
    Ok(lists)
}

/// The same of a union.
fn load_union<D: DependencyProvider + Drop>(
    cache: &mut SolverCache<D>,
    variables: &mut VariableMap<D::NameId, D::SolvableId, D::Alloc>,
    loaded: &RequirementMap<VariableLists<D::Alloc>, D::Alloc>,
    alloc: D::Alloc,
    union: VersionSetUnionId,
) -> Result<VariableLists<D::Alloc>, StoreError>
    requires known { (D.universe cache.old.provider).knows_union union ≡ true }
    requires through { CameThrough (⟦<D as ProviderFunctions>⟧.functions cache.old.provider) cache.old variables.old
        (lists_of_loaded loaded.now) }
    ensures loaded { IfOk result (λ lists. AreSetsLoaded (⟦<D as ProviderFunctions>⟧.functions cache.old.provider)
        D.SolvableId.Set.has cache.old cache.new variables.old variables.new
        ((D.universe cache.old.provider).union_sets union) (items_of lists)) }
    ensures small { OnOk result
        (IsSmall (⟦<D as ProviderFunctions>⟧.functions cache.old.provider) (Union union)) }
    ensures refused { IfErr result (AreSetsRefused (⟦<D as ProviderFunctions>⟧.functions cache.old.provider)
        D.SolvableId.Set.has cache.old cache.new variables.old variables.new
        ((D.universe cache.old.provider).union_sets union)) }
{
    let sets = Vec::from_slice(alloc, cache.provider().version_sets_in_union(union))?;
    load_sets(cache, variables, loaded, alloc, &sets)
}

/// The same of version sets.
fn load_sets<D: DependencyProvider + Drop>(
    cache: &mut SolverCache<D>,
    variables: &mut VariableMap<D::NameId, D::SolvableId, D::Alloc>,
    loaded: &RequirementMap<VariableLists<D::Alloc>, D::Alloc>,
    alloc: D::Alloc,
    sets: &[VersionSetId],
) -> Result<VariableLists<D::Alloc>, StoreError>
    requires known { All (λ v. (D.universe cache.old.provider).knows_set v ≡ true) sets.now }
    requires through { CameThrough (⟦<D as ProviderFunctions>⟧.functions cache.old.provider) cache.old variables.old
        (lists_of_loaded loaded.now) }
    ensures loaded { IfOk result (λ lists. AreSetsLoaded (⟦<D as ProviderFunctions>⟧.functions cache.old.provider)
        D.SolvableId.Set.has cache.old cache.new variables.old variables.new sets.now (items_of lists)) }
    ensures small { OnOk result (length (flat_map
        (sorted_of_set (⟦<D as ProviderFunctions>⟧.functions cache.old.provider)) sets.now) < 2 ^ 40) }
    ensures refused { IfErr result (AreSetsRefused (⟦<D as ProviderFunctions>⟧.functions cache.old.provider)
        D.SolvableId.Set.has cache.old cache.new variables.old variables.new sets.now) }
{
    let mut lists = Vec::with_capacity(alloc, sets.len())?;
    let mut rows = 0;
    for set in sets {
        let list = list_in_union(cache, variables, loaded, alloc, *set)?;
        rows = more_rows(rows, list.len())?;
        lists.push_reserved(list);
    }
    Ok(lists)
}

/// The list of a union's version set: a copy, if the set is loaded by itself. If it isn't, the cache keeps its
/// candidates, for the next union that names it.
fn list_in_union<D: DependencyProvider + Drop>(
    cache: &mut SolverCache<D>,
    variables: &mut VariableMap<D::NameId, D::SolvableId, D::Alloc>,
    loaded: &RequirementMap<VariableLists<D::Alloc>, D::Alloc>,
    alloc: D::Alloc,
    set: VersionSetId,
) -> Result<Vec<VariableId, D::Alloc>, StoreError>
    requires known { (D.universe cache.old.provider).knows_set set ≡ true }
    requires through { CameThrough (⟦<D as ProviderFunctions>⟧.functions cache.old.provider) cache.old variables.old
        (lists_of_loaded loaded.now) }
    ensures loaded { IfOk result (λ list. AreSetsLoaded (⟦<D as ProviderFunctions>⟧.functions cache.old.provider)
        D.SolvableId.Set.has cache.old cache.new variables.old variables.new (set ∷ []) (list.items ∷ [])) }
    ensures refused { IfErr result (AreSetsRefused (⟦<D as ProviderFunctions>⟧.functions cache.old.provider)
        D.SolvableId.Set.has cache.old cache.new variables.old variables.new (set ∷ [])) }
{
    match loaded.get(Requirement::Single(set)) {
        Some(lists) => Ok(Vec::from_slice(alloc, &lists[0])?),
        None => {
            let id = cache.best_list(set)?;
            intern_list(variables, alloc, cache.list(id))
        }
    }
}

/// How many rows there are with those of one list more. A requirement has fewer than [`DENSE_LIMIT`].
fn more_rows(rows: usize, list: usize) -> Result<usize, StoreError>
    requires { rows < 2 ^ 40 }
    ensures ok { IfOk result (λ more. (more ≡ rows + list) × (more < 2 ^ 40)) }
    ensures err { IfErr result (λ e. (e ≡ IdSpace) × (2 ^ 40 ≤ rows + list)) }
{
    if list >= DENSE_LIMIT - rows {
        return Err(StoreError::IdSpace);
    }
    Ok(rows + list)
}

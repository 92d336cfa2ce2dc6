//! Queries to a provider about version sets and requirements.
ghost use Rattle.std.specs.Prelude.{◌≡◌, true, IfOk, IfErr};
ghost use Rattle.resolvo_ids.specs.Types.StoreError.TheVariants.{OutOfMemory};
ghost use Rattle.resolvo_pool.specs.Provider.{filtered, knows_requirement};

use resolvo_ids::{StoreError, VersionSetId};
use resolvo_pool::{DependencyProvider, Interner, Requirement};

/// The candidates of its package that a version set holds, or, if `inverse`, those that it doesn't.
pub(crate) fn candidates<D: DependencyProvider>(
    alloc: D::Alloc,
    provider: &D,
    set: VersionSetId,
    inverse: bool,
) -> Result<Vec<D::SolvableId, D::Alloc>, StoreError>
    requires { (D.universe provider.now).knows_set set ≡ true }
    ensures ok { IfOk result (λ found. found.items ≡ filtered ((D.answers provider.now).matches set) inverse
        ((D.answers provider.now).candidates ((D.universe provider.now).set_name set))) }
    ensures memory { IfErr result (λ e. e ≡ OutOfMemory) }
{
    match provider.get_candidates(alloc, provider.version_set_name(set))? {
        Some(all) => provider.filter_candidates(alloc, &all.candidates, set, inverse),
        None => Ok(Vec::new(alloc)),
    }
}

/// Whether the provider knows the requirement's version set, or its union.
pub(crate) fn knows<D: DependencyProvider>(provider: &D, requirement: Requirement) -> bool
    ensures { result ≡ knows_requirement (D.universe provider.now) requirement }
{
    match requirement {
        Requirement::Single(set) => provider.knows_version_set(set),
        Requirement::Union(union) => provider.knows_union(union),
    }
}

//! Packages, as a resolver asks for them: the facade of three crates.
//!
//! | crate | what it has |
//! |---|---|
//! | `providers` | requirements and conditions, with their normal form; interner and provider as traits; texts of ids |
//! | `package_pool` | the pool, where an ecosystem keeps what its ids stand for |
//! | `solver_cache` | the cache, by which a resolver asks each question once |
//!
//! A contract names a definition of theirs as `Rattle.resolvo_pool.specs.TOPIC`, and a type with its variants, or a
//! trait with its ghost members, as `Rattle.resolvo_pool.specs.Types.NAME`.
#![tactic(auto)]

pub use package_pool::{NameText, Pool, Solvable, VersionSet};
pub use providers::{
    Candidates, Condition, ConditionalRequirement, DeferredConjunct, DeferredRequirement,
    Dependencies, DependencyProvider, HintDependenciesAvailable, Interner, KnownDependencies,
    LogicalOperator, Requirement, RequirementMap, RootText, VersionSets, condition_disjunct_holds,
    convert_conditions_to_dnf,
};
pub use solver_cache::{CacheError, ListId, ProviderFunctions, SolverCache};

//! The candidates of a package, as a provider answers them.
ghost use Rattle.std.specs.Prelude.{◌≡◌, [], None};
ghost use Rattle.providers.specs.declared.candidates.HintDependenciesAvailable.TheVariants as Hint;

use std::alloc::{Allocator, Global};
use typed_ids::{SolvableId, StringId};

/// For which solvables a provider can tell the dependencies at little cost.
#[derive(Debug, Drop)]
pub enum HintDependenciesAvailable<S = SolvableId, A: Allocator = Global> {
    /// For none.
    None,
    /// For all candidates of the package.
    All,
    /// For these solvables.
    Some(Vec<S, A>),
}

impl<S, A: Allocator> HintDependenciesAvailable<S, A> {
    /// For none. Takes no memory.
    pub fn new() -> Self
        ensures { result ≡ Hint.None }
    {
        HintDependenciesAvailable::None
    }
}

/// The candidates of a package, and what else a provider knows of them.
#[derive(Debug, Drop)]
pub struct Candidates<S = SolvableId, A: Allocator = Global> {
    /// The solvables that may be picked, in the provider's order of listing. One that is listed twice counts twice.
    pub candidates: Vec<S, A>,
    /// The one to try first, of each version set that holds it. One that isn't a candidate changes nothing.
    pub favored: Option<S>,
    /// The one candidate that alone may be picked. The store doesn't read it: a search does.
    pub locked: Option<S>,
    /// For which solvables dependencies are told at little cost.
    pub hint_dependencies_available: HintDependenciesAvailable<S, A>,
    /// Candidates that may not be picked, each with the reason. The store doesn't read them: a search does.
    pub excluded: Vec<(S, StringId), A>,
}

impl<S, A: Allocator + Copy> Candidates<S, A> {
    /// No candidates. Takes no memory.
    pub fn new(alloc: A) -> Self
        ensures candidates { result.candidates.items ≡ [] }
        ensures favored { result.favored ≡ None }
        ensures locked { result.locked ≡ None }
        ensures hint { result.hint_dependencies_available ≡ Hint.None }
        ensures excluded { result.excluded.items ≡ [] }
    {
        Candidates {
            candidates: Vec::new(alloc),
            favored: None,
            locked: None,
            hint_dependencies_available: HintDependenciesAvailable::new(),
            excluded: Vec::new(alloc),
        }
    }
}

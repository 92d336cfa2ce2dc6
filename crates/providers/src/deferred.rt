//! Requirements that are put off until their condition holds.
ghost use Rattle.std.specs.Prelude.{◌≡◌, Bool};
ghost use Rattle.providers.specs.Deferred.{version_set_of, candidates_of, HasAnswer, disjunct_holds, HoldsBy};

use crate::conditional_requirement::ConditionalRequirement;
use std::alloc::{Allocator, Global};
use typed_ids::{ConditionId, SolvableId, SolvableIdOrRoot, VersionSetId};

/// A version set of a condition, and the candidates of which one has to be picked for it to hold.
#[derive(Debug, Drop)]
pub enum DeferredConjunct<S = SolvableId, A: Allocator = Global> {
    /// The set leaves out some candidates of its package.
    Solvables {
        /// The version set of the condition.
        version_set: VersionSetId,
        /// The candidates that the set holds.
        matching: Vec<S, A>,
    },
    /// The set leaves out no candidate of its package.
    Empty {
        /// The version set of the condition.
        version_set: VersionSetId,
        /// All candidates of the package.
        all_candidates: Vec<S, A>,
    },
}

impl<S, A: Allocator> DeferredConjunct<S, A> {
    /// The version set of the condition.
    pub fn version_set(&self) -> VersionSetId
        ensures { result ≡ version_set_of self.now }
    {
        match self {
            DeferredConjunct::Solvables { version_set, .. }
            | DeferredConjunct::Empty { version_set, .. } => *version_set,
        }
    }

    /// The candidates of which one has to be picked.
    pub fn candidates(&self) -> &[S]
        ensures { result.now ≡ candidates_of self.now }
    {
        match self {
            DeferredConjunct::Solvables { matching, .. } => matching,
            DeferredConjunct::Empty { all_candidates, .. } => all_candidates,
        }
    }
}

/// A requirement whose condition doesn't hold yet, with one list of the condition's normal form: once that holds, the
/// requirement's clause is due.
#[derive(Debug, Drop)]
pub struct DeferredRequirement<S = SolvableId, A: Allocator = Global> {
    /// Who requires it.
    pub solvable_id: SolvableIdOrRoot<S>,
    /// What is required, under its condition.
    pub requirement: ConditionalRequirement,
    /// The condition.
    pub condition: ConditionId,
    /// The list, with candidates for each of its version sets.
    pub disjunct: Vec<DeferredConjunct<S, A>, A>,
}

/// Whether each conjunct has a candidate with `true`. Asks of each up to its first one with `true`, and ends at the
/// first conjunct that has none.
pub fn condition_disjunct_holds<S: Copy, A: Allocator, F: Fn(S) -> bool>(
    disjunct: &[DeferredConjunct<S, A>],
    is_positively_decided: F,
) -> bool
    requires { F.IsAlwaysCallable is_positively_decided }
    ensures answered { HoldsBy (λ s b. F.post is_positively_decided s b) disjunct.now result }
    ensures tested { (is_true : S → Bool) → ((s : S) (b : Bool) → F.post is_positively_decided s b → b ≡ is_true s) →
        result ≡ disjunct_holds is_true disjunct.now }
{
    each_has_true(disjunct, &is_positively_decided)
}

/// Whether each conjunct has a candidate with `true`.
fn each_has_true<S: Copy, A: Allocator, F: Fn(S) -> bool>(
    disjunct: &[DeferredConjunct<S, A>],
    test: &F,
) -> bool
    requires { F.IsAlwaysCallable test.now }
    ensures { HoldsBy (λ s b. F.post test.now s b) disjunct.now result }
{
    disjunct.iter().all(
        |conjunct|
            requires { F.IsAlwaysCallable test.now }
            ensures { HasAnswer (λ s b. F.post test.entry.now s b) (candidates_of conjunct.now) result }
        { has_true(conjunct.candidates(), test) },
    )
}

/// Whether a candidate has `true`.
fn has_true<S: Copy, F: Fn(S) -> bool>(candidates: &[S], test: &F) -> bool
    requires { F.IsAlwaysCallable test.now }
    ensures { HasAnswer (λ s b. F.post test.now s b) candidates.now result }
{
    candidates.iter().any(|candidate| test(*candidate))
}

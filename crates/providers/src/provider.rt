//! The packages of an ecosystem, as a resolver asks for them.
ghost use Rattle.std.specs.Prelude.{◌≡◌, true, List, Option, All, ⊤, IfOk, IfErr, OnOk, OnErr};
ghost use Rattle.std.specs.List.Sorted.{IsPermutation};
ghost use Rattle.typed_ids.specs.declared.error.StoreError.TheVariants.{OutOfMemory};
ghost use Rattle.providers.specs.Dependencies.{needs_of};
ghost use Rattle.providers.specs.Provider.{Answers, candidates_of, excluded_of, favored_of, filtered, locked_of};
ghost use Rattle.providers.specs.declared.candidates.Candidates.{Candidates};

use crate::candidates::Candidates;
use crate::dependencies::Dependencies;
use crate::interner::Interner;
use typed_ids::{StoreError, VersionSetId};

/// Answers what a resolver asks of packages. The candidates of a package, the favored, locked and excluded ones, which
/// of them a version set holds, the order of preference and what a solvable needs are fixed functions of the provider's
/// value. What else is answered with candidates may differ from one question to the next; a provider says what it may
/// be, where it can. A refusal is want of memory.
pub trait DependencyProvider: Interner {
    /// What a provider that asks to stop hands to whoever it stops.
    type Cancel: Drop;

    /// The fixed functions.
    ghost answers: { Self → Answers Self.NameId Self.SolvableId };

    /// Whether this may be what is found of a package, all of it. By default anything may.
    ghost may_answer: { Self → Self.NameId → Option (Candidates Self.SolvableId Self.Alloc) → Type 0 } = { λ _ _ _. ⊤ };

    /// The candidates that the version set holds, or, if `inverse`, those that it doesn't, in order.
    fn filter_candidates(
        &self,
        alloc: Self::Alloc,
        candidates: &[Self::SolvableId],
        set: VersionSetId,
        inverse: bool,
    ) -> Result<Vec<Self::SolvableId, Self::Alloc>, StoreError>
        requires set { (Self.universe self.now).knows_set set ≡ true }
        requires known { All (λ s. (Self.universe self.now).knows_solvable s ≡ true) candidates.now }
        ensures ok { IfOk result (λ found. found.items ≡
            filtered ((answers self.now).matches set) inverse candidates.now) }
        ensures err { IfErr result (λ e. e ≡ OutOfMemory) };

    /// The candidates of a package; none for a package that there isn't.
    fn get_candidates(
        &self,
        alloc: Self::Alloc,
        name: Self::NameId,
    ) -> Result<Option<Candidates<Self::SolvableId, Self::Alloc>>, StoreError>
        ensures candidates { IfOk result (λ found. candidates_of found ≡ (answers self.now).candidates name) }
        ensures favored { IfOk result (λ found. favored_of found ≡ (answers self.now).favored name) }
        ensures locked { IfOk result (λ found. locked_of found ≡ (answers self.now).locked name) }
        ensures excluded { IfOk result (λ found. excluded_of found ≡ (answers self.now).excluded name) }
        ensures allowed { IfOk result (λ found. may_answer self.now name found) }
        ensures err { IfErr result (λ e. e ≡ OutOfMemory) };

    /// Puts solvables in the order of preference, the best first. A refusal may leave them in any order.
    fn sort_candidates(
        &self,
        alloc: Self::Alloc,
        solvables: &mut [Self::SolvableId],
    ) -> Result<(), StoreError>
        requires { All (λ s. (Self.universe self.now).knows_solvable s ≡ true) solvables.old }
        ensures ok { OnOk result (solvables.new ≡ (answers self.now).order solvables.old) }
        ensures err { OnErr result (IsPermutation solvables.old solvables.new) }
        ensures memory { IfErr result (λ e. e ≡ OutOfMemory) };

    /// What a solvable needs.
    fn get_dependencies(
        &self,
        alloc: Self::Alloc,
        solvable: Self::SolvableId,
    ) -> Result<Dependencies<Self::Alloc>, StoreError>
        requires { (Self.universe self.now).knows_solvable solvable ≡ true }
        ensures ok { IfOk result (λ found. needs_of found ≡ (answers self.now).needs solvable) }
        ensures err { IfErr result (λ e. e ≡ OutOfMemory) };

    /// Whether to stop: a value is handed to whoever asked, and nothing more is asked of the provider. It is asked for
    /// before anything costly is, and may be any at any time, so nothing is promised of it. By default there is none.
    fn should_cancel_with_value(&self) -> Option<Self::Cancel> {
        None
    }

    /// Candidates are known solvables.
    ghost candidates_known: { (p : Self) (n : Self.NameId) →
        All (λ s. (Self.universe p).knows_solvable s ≡ true) ((answers p).candidates n) };

    /// The order of a list is a permutation of it.
    ghost order_permutes: { (p : Self) (list : List Self.SolvableId) → IsPermutation list ((answers p).order list) };
}

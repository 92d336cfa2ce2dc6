//! The kinds of clauses.
ghost use Rattle.std.specs.Prelude.{◌≡◌, ◌++◌, Bool, map, find, option_to_list, IfOk, IfErr};
ghost use Rattle.std.specs.Map.{lookup};
ghost use Rattle.providers.specs.Requirement.{same_requirement};
ghost use Rattle.providers.specs.declared.requirement.Requirement.{Requirement};
ghost use Rattle.typed_ids.specs.declared.error.StoreError.TheVariants.{OutOfMemory};
ghost use Rattle.decisions.specs.Literals.{Lit};
ghost use Rattle.clauses.specs.Clauses.{StoredLiterals, is_binary, literals_of};
ghost use Rattle.clauses.specs.Clauses.{required_literals, stored_literals, stored_lists};
ghost use Rattle.clauses.specs.Stored.{stored_in, lists_found};
ghost use Rattle.clauses.specs.Walks.{IsFirstTrue, literals_in};

use crate::disjunction::Disjunction;
use crate::literal_walk::{LiteralWalk, find_among, negative, positive};
use decisions::Literal;
use id_storage::Arena;
use providers::{Requirement, RequirementMap};
use std::alloc::Allocator;
use typed_ids::{
    DenseIndex, DisjunctionId, LearntClauseId, SameClone, StoreError, StringId, VariableId,
    VersionSetId,
};

/// A clause: one of its literals has to be true. `N` are the names of packages.
#[derive(Clone, Copy, Debug)]
pub enum Clause<N> {
    /// The root is part of the solution.
    InstallRoot,
    /// The parent requires one of the requirement's candidates, where no literal of the disjunction is true: the
    /// disjunction negates a condition.
    Requires(VariableId, Option<DisjunctionId>, Requirement),
    /// The solvable isn't part of the solution, unless the literal is true: one of those clauses that say, by helper
    /// variables, that of a package at most one solvable is.
    ForbidMultipleInstances(VariableId, Literal, N),
    /// The first solvable forbids the second one, which the version set doesn't hold.
    Constrains(VariableId, VariableId, VersionSetId),
    /// A candidate outside the version set makes the variable true that stands for all of them.
    ConstrainsExcluded(VariableId, VariableId, VersionSetId),
    /// The parent forbids the variable that stands for all candidates outside the version set.
    ConstrainsParent(VariableId, VariableId, VersionSetId),
    /// The first solvable is locked, so that the second one, of the same package, isn't part of the solution.
    Lock(VariableId, VariableId),
    /// What a search has learnt from a conflict.
    Learnt(LearntClauseId),
    /// The solvable isn't part of the solution, for the reason that the string says.
    Excluded(VariableId, StringId),
    /// Where the second one, a solvable, is part of the solution, the first one is true: it stands for all solvables of
    /// the package.
    AnyOf(VariableId, VariableId),
}

impl<N> Clause<N> {
    /// Whether the clause is of a kind that has two literals.
    pub fn is_binary(&self) -> bool
        ensures { result ≡ is_binary self.now }
    {
        match self {
            Clause::ForbidMultipleInstances(_, _, _)
            | Clause::Constrains(_, _, _)
            | Clause::ConstrainsExcluded(_, _, _)
            | Clause::ConstrainsParent(_, _, _)
            | Clause::Lock(_, _)
            | Clause::AnyOf(_, _) => true,
            Clause::InstallRoot
            | Clause::Requires(_, _, _)
            | Clause::Learnt(_)
            | Clause::Excluded(_, _) => false,
        }
    }

    /// The clause's literals, in order, by the learnt clauses, the lists of candidates by requirements and the
    /// disjunctions that clauses refer to. What isn't kept there has no literals.
    pub fn literals<A: Allocator + Copy>(
        &self,
        alloc: A,
        learnt: &Arena<LearntClauseId, Vec<Literal, A>, A>,
        lists: &RequirementMap<Vec<Vec<VariableId, A>, A>, A>,
        disjunctions: &Arena<DisjunctionId, Disjunction<A>, A>,
    ) -> Result<Vec<Literal, A>, StoreError>
        ensures ok { IfOk result (λ literals. literals.items ≡
            literals_of (stored_in learnt.now lists.now disjunctions.now) self.now) }
        ensures memory { IfErr result (λ e. e ≡ OutOfMemory) }
    {
        self.walk(learnt, lists, disjunctions).collect(alloc)
    }

    /// The first of the clause's literals that passes the test. Asks the test up to there, and takes no memory. The
    /// stores are those of [`Clause::literals`].
    pub fn find_literal<A: Allocator + Copy, F: Fn(Literal) -> bool>(
        &self,
        learnt: &Arena<LearntClauseId, Vec<Literal, A>, A>,
        lists: &RequirementMap<Vec<Vec<VariableId, A>, A>, A>,
        disjunctions: &Arena<DisjunctionId, Disjunction<A>, A>,
        test: F,
    ) -> Option<Literal>
        requires { F.IsAlwaysCallable test }
        ensures first { IsFirstTrue (λ l b. F.post test l b)
            (literals_of (stored_in learnt.now lists.now disjunctions.now) self.now) result }
        ensures tested { (passes : Lit → Bool) → ((l : Lit) (b : Bool) → F.post test l b → b ≡ passes l) →
            result ≡ find passes (literals_of (stored_in learnt.now lists.now disjunctions.now) self.now) }
    {
        match self {
            // Each of its literals is kept: it is no use to look at the other places.
            Clause::Learnt(_) => find_among(self.stored_literals(learnt, disjunctions), test),
            _ => self.walk(learnt, lists, disjunctions).find(test),
        }
    }

    /// Where the clause's literals are.
    fn walk<'a, A: Allocator + Copy>(
        &self,
        learnt: &'a Arena<LearntClauseId, Vec<Literal, A>, A>,
        lists: &'a RequirementMap<Vec<Vec<VariableId, A>, A>, A>,
        disjunctions: &'a Arena<DisjunctionId, Disjunction<A>, A>,
    ) -> LiteralWalk<'a, A>
        ensures { literals_in result ≡ literals_of (stored_in learnt.now lists.now disjunctions.now) self.now }
    {
        let (first, second) = self.own_literals();
        LiteralWalk {
            first,
            second,
            stored: self.stored_literals(learnt, disjunctions),
            candidates: &[],
            lists: self.stored_lists(lists),
        }
    }

    /// The literals that the clause has itself.
    fn own_literals(&self) -> (Option<Literal>, Option<Literal>)
        ensures { (k : StoredLiterals) → literals_of k self.now ≡ option_to_list result.0 ++
            (option_to_list result.1 ++ required_literals (stored_literals k self.now) (stored_lists k self.now)) }
    {
        match self {
            Clause::InstallRoot => (Some(positive(VariableId::root())), None),
            Clause::Requires(parent, _, _) => (Some(negative(*parent)), None),
            Clause::ForbidMultipleInstances(candidate, literal, _) => {
                (Some(negative(*candidate)), Some(*literal))
            }
            Clause::Constrains(parent, forbidden, _) => {
                (Some(negative(*parent)), Some(negative(*forbidden)))
            }
            Clause::ConstrainsExcluded(candidate, aux, _) => {
                (Some(negative(*candidate)), Some(positive(*aux)))
            }
            Clause::ConstrainsParent(parent, aux, _) => {
                (Some(negative(*parent)), Some(negative(*aux)))
            }
            Clause::Lock(_, other) => (Some(negative(*other)), Some(negative(VariableId::root()))),
            Clause::Learnt(_) => (None, None),
            Clause::Excluded(candidate, _) => (Some(negative(*candidate)), None),
            Clause::AnyOf(selected, other) => {
                (Some(positive(*selected)), Some(negative(*other)))
            }
        }
    }

    /// The literals that are kept for the clause.
    fn stored_literals<'a, A: Allocator>(
        &self,
        learnt: &'a Arena<LearntClauseId, Vec<Literal, A>, A>,
        disjunctions: &'a Arena<DisjunctionId, Disjunction<A>, A>,
    ) -> &'a [Literal]
        ensures { (k : StoredLiterals) → k.learnt ≡ map (λ c. c.items) learnt.now →
            k.disjunctions ≡ map (λ d. d.literals.items) disjunctions.now →
            result.now ≡ stored_literals k self.now }
    {
        match self {
            Clause::Requires(_, Some(id), _) if id.to_index() < disjunctions.len() => {
                return &disjunctions[*id].literals;
            }
            Clause::Learnt(id) if id.to_index() < learnt.len() => return &learnt[*id],
            _ => {}
        }
        &[]
    }

    /// The lists of candidates that are kept for the clause.
    fn stored_lists<'a, A: Allocator + Copy>(
        &self,
        lists: &'a RequirementMap<Vec<Vec<VariableId, A>, A>, A>,
    ) -> &'a [Vec<VariableId, A>]
        ensures { (k : StoredLiterals) →
            ((r : Requirement) → k.lists r ≡ lists_found (lookup (same_requirement r) lists.now)) →
            map (λ list. list.items) result.now ≡ stored_lists k self.now }
    {
        if let Clause::Requires(_, _, requirement) = self {
            if let Some(lists) = lists.get(*requirement) {
                return lists.as_slice();
            }
        }
        &[]
    }
}

impl<N: SameClone> SameClone for Clause<N> {
    ghost use Rattle.std.proofs.Common.{rules};

    ghost clone_is_same = { λ a b h. Prim.search rules };
}

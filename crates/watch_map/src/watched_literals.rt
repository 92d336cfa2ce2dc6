//! The two literals that a clause watches.
ghost use Rattle.std.specs.Prelude.{◌≡◌, ◌<◌, ◌&&◌, not, [], ◌∷◌, map, length, None, IfSome, option_map};
ghost use Rattle.decisions.specs.Decisions.{values_in};
ghost use Rattle.decisions.specs.Literals.{Pos, Neg, Values, known_true, known_false, is_false_literal};
ghost use Rattle.decisions.specs.Trail.{val};
ghost use Rattle.clauses.specs.Clauses.{StoredLiterals};
ghost use Rattle.clauses.specs.Clauses.{same_literal, watch_pair, watch_beside, watch_ends};
ghost use Rattle.clauses.specs.Clauses.{first_not_false, first_watches};
ghost use Rattle.clauses.specs.Clauses.{conflicts_with_parent, is_conflict, next_unwatched};
ghost use Rattle.clauses.specs.Stored.{stored_in};
ghost use Rattle.clauses.specs.Walks.{literals_in};
ghost use Rattle.watch_map.specs.Conditions.{disjunction_id, disjunction_literals, literals_but_parent, MatchStored};
ghost use Rattle.watch_map.specs.WatchLists.{IsUnlinked};
ghost use Rattle.clauses.specs.declared.clause.Clause.TheVariants.{InstallRoot, Requires, ForbidMultipleInstances};
ghost use Rattle.clauses.specs.declared.clause.Clause.TheVariants.{Constrains, ConstrainsExcluded};
ghost use Rattle.clauses.specs.declared.clause.Clause.TheVariants.{ConstrainsParent, Lock, Learnt, Excluded, AnyOf};

use crate::next_clause::NextClause;
use clauses::{Clause, Disjunction, LiteralWalk, negative, positive};
use decisions::{DecisionMap, DecisionTracker, Literal};
use id_storage::Arena;
use providers::{Requirement, RequirementMap};
use std::alloc::Allocator;
use typed_ids::{DisjunctionId, LearntClauseId, SameClone, StringId, VariableId, VersionSetId};

/// The two literals that a clause watches: while neither is false, nothing follows from the clause.
///
/// The constructors make a clause of each kind, and tell what it watches at first; some tell whether it is a conflict.
/// They take no memory.
#[derive(Clone, Debug, Drop)]
pub struct WatchedLiterals {
    /// Two different literals of the clause.
    pub watched_literals: [Literal; 2],
    /// The next clause in the list of each of them.
    pub(crate) next_watches: [NextClause; 2],
}

impl WatchedLiterals {
    /// What a clause watches that watches these two, and stands in no list yet.
    pub fn new(first: Literal, second: Literal) -> Self
        ensures literals { result.watched_literals ≡ first ∷ second ∷ [] }
        ensures unlinked { IsUnlinked result }
    {
        WatchedLiterals {
            watched_literals: [first, second],
            next_watches: [NextClause::new(None), NextClause::new(None)],
        }
    }

    /// The clause that the root is part of the solution. It watches nothing.
    pub fn root<N>() -> (Option<Self>, Clause<N>)
        ensures clause { result.1 ≡ InstallRoot }
        ensures watches { result.0 ≡ None }
    {
        (None, Clause::InstallRoot)
    }

    /// The clause that the parent requires one of the candidates, unless one of the condition's literals is true, and
    /// whether it is a conflict. A condition is the id of a disjunction and its literals.
    pub fn requires_clause<N, A: Allocator + Copy>(
        parent: VariableId,
        requirement: Requirement,
        candidates: &[VariableId],
        condition: &Option<(DisjunctionId, &[Literal])>,
        tracker: &DecisionTracker<A>,
    ) -> (Option<Self>, bool, Clause<N>)
        ensures clause { result.2 ≡ Requires parent (disjunction_id condition.now) requirement }
        ensures watches { option_map (λ w. w.watched_literals) result.0 ≡ watch_beside (Neg parent)
            (first_not_false (val tracker.now.entries) (literals_but_parent condition.now (candidates.now ∷ []))) }
        ensures conflict { result.1 ≡ conflicts_with_parent (val tracker.now.entries) parent
            (literals_but_parent condition.now (candidates.now ∷ [])) }
        ensures unlinked { IfSome result.0 IsUnlinked }
    {
        let others = LiteralWalk {
            first: None,
            second: None,
            stored: literals_of(condition),
            candidates,
            lists: &[],
        };
        Self::requires_others(
            parent,
            requirement,
            disjunction_of(condition),
            &others,
            tracker,
        )
    }

    /// The same clause, of candidates that are kept in lists.
    pub fn requires_of_lists<N, A: Allocator + Copy>(
        parent: VariableId,
        requirement: Requirement,
        lists: &[Vec<VariableId, A>],
        condition: &Option<(DisjunctionId, &[Literal])>,
        tracker: &DecisionTracker<A>,
    ) -> (Option<Self>, bool, Clause<N>)
        ensures clause { result.2 ≡ Requires parent (disjunction_id condition.now) requirement }
        ensures watches { option_map (λ w. w.watched_literals) result.0 ≡ watch_beside (Neg parent)
            (first_not_false (val tracker.now.entries)
            (literals_but_parent condition.now (map (λ l. l.items) lists.now))) }
        ensures conflict { result.1 ≡ conflicts_with_parent (val tracker.now.entries) parent
            (literals_but_parent condition.now (map (λ l. l.items) lists.now)) }
        ensures stored { (k : StoredLiterals) →
            MatchStored k condition.now requirement (map (λ l. l.items) lists.now) →
            option_map (λ w. w.watched_literals) result.0 ≡ first_watches k (val tracker.now.entries) result.2 }
        ensures stored_conflict { (k : StoredLiterals) →
            MatchStored k condition.now requirement (map (λ l. l.items) lists.now) →
            result.1 ≡ is_conflict k (val tracker.now.entries) result.2 }
        ensures unlinked { IfSome result.0 IsUnlinked }
    {
        let others = LiteralWalk {
            first: None,
            second: None,
            stored: literals_of(condition),
            candidates: &[],
            lists,
        };
        Self::requires_others(
            parent,
            requirement,
            disjunction_of(condition),
            &others,
            tracker,
        )
    }

    /// The clause that the parent forbids the other solvable, and whether it is a conflict.
    pub fn constrains<N, A: Allocator + Copy>(
        parent: VariableId,
        forbidden: VariableId,
        set: VersionSetId,
        tracker: &DecisionTracker<A>,
    ) -> (Option<Self>, bool, Clause<N>)
        ensures clause { result.2 ≡ Constrains parent forbidden set }
        ensures pair { option_map (λ w. w.watched_literals) result.0 ≡ watch_pair (Neg parent) (Neg forbidden) }
        ensures watches { (k : StoredLiterals) → option_map (λ w. w.watched_literals) result.0 ≡
            first_watches k (val tracker.now.entries) result.2 }
        ensures conflict { (k : StoredLiterals) → result.1 ≡ is_conflict k (val tracker.now.entries) result.2 }
        ensures unlinked { IfSome result.0 IsUnlinked }
    {
        let conflict = is_conflict(tracker, parent, forbidden);
        let watches = Self::pair(negative(parent), negative(forbidden));
        (
            watches,
            conflict,
            Clause::Constrains(parent, forbidden, set),
        )
    }

    /// The clause that the parent forbids what stands for all candidates outside the set, and whether it is a conflict.
    pub fn constrains_parent<N, A: Allocator + Copy>(
        parent: VariableId,
        aux: VariableId,
        set: VersionSetId,
        tracker: &DecisionTracker<A>,
    ) -> (Option<Self>, bool, Clause<N>)
        ensures clause { result.2 ≡ ConstrainsParent parent aux set }
        ensures pair { option_map (λ w. w.watched_literals) result.0 ≡ watch_pair (Neg parent) (Neg aux) }
        ensures watches { (k : StoredLiterals) → option_map (λ w. w.watched_literals) result.0 ≡
            first_watches k (val tracker.now.entries) result.2 }
        ensures conflict { (k : StoredLiterals) → result.1 ≡ is_conflict k (val tracker.now.entries) result.2 }
        ensures unlinked { IfSome result.0 IsUnlinked }
    {
        let conflict = is_conflict(tracker, parent, aux);
        let watches = Self::pair(negative(parent), negative(aux));
        (
            watches,
            conflict,
            Clause::ConstrainsParent(parent, aux, set),
        )
    }

    /// The clause that a candidate outside the set makes true what stands for all of them.
    pub fn constrains_excluded<N>(
        candidate: VariableId,
        aux: VariableId,
        set: VersionSetId,
    ) -> (Option<Self>, Clause<N>)
        ensures clause { result.1 ≡ ConstrainsExcluded candidate aux set }
        ensures pair { option_map (λ w. w.watched_literals) result.0 ≡ watch_pair (Neg candidate) (Pos aux) }
        ensures watches { (k : StoredLiterals) (now : Values) →
            option_map (λ w. w.watched_literals) result.0 ≡ first_watches k now result.1 }
        ensures unlinked { IfSome result.0 IsUnlinked }
    {
        let watches = Self::pair(negative(candidate), positive(aux));
        (watches, Clause::ConstrainsExcluded(candidate, aux, set))
    }

    /// The clause that the other solvable isn't part of the solution, since one of its package is locked.
    pub fn lock<N>(locked: VariableId, other: VariableId) -> (Option<Self>, Clause<N>)
        ensures clause { result.1 ≡ Lock locked other }
        ensures pair { option_map (λ w. w.watched_literals) result.0 ≡ watch_pair (Neg 0) (Neg other) }
        ensures watches { (k : StoredLiterals) (now : Values) →
            option_map (λ w. w.watched_literals) result.0 ≡ first_watches k now result.1 }
        ensures unlinked { IfSome result.0 IsUnlinked }
    {
        let watches = Self::pair(negative(VariableId::root()), negative(other));
        (watches, Clause::Lock(locked, other))
    }

    /// The clause that the candidate isn't part of the solution, unless the literal is true.
    pub fn forbid_multiple<N>(
        candidate: VariableId,
        other: Literal,
        name: N,
    ) -> (Option<Self>, Clause<N>)
        ensures clause { result.1 ≡ ForbidMultipleInstances candidate other name }
        ensures pair { option_map (λ w. w.watched_literals) result.0 ≡ watch_pair (Neg candidate) other }
        ensures watches { (k : StoredLiterals) (now : Values) →
            option_map (λ w. w.watched_literals) result.0 ≡ first_watches k now result.1 }
        ensures unlinked { IfSome result.0 IsUnlinked }
    {
        let watches = Self::pair(negative(candidate), other);
        (
            watches,
            Clause::ForbidMultipleInstances(candidate, other, name),
        )
    }

    /// The learnt clause with these literals, of which there is one at least. It watches the first and the last.
    pub fn learnt<N>(id: LearntClauseId, literals: &[Literal]) -> (Option<Self>, Clause<N>)
        requires { 0 < length literals.now }
        ensures clause { result.1 ≡ Learnt id }
        ensures watches { option_map (λ w. w.watched_literals) result.0 ≡ watch_ends literals.now }
        ensures unlinked { IfSome result.0 IsUnlinked }
    {
        let watches = match literals {
            [first, .., last] => Self::pair(*first, *last),
            _ => None,
        };
        (watches, Clause::Learnt(id))
    }

    /// The clause that the solvable isn't part of the solution, for this reason. It watches nothing.
    pub fn exclude<N>(candidate: VariableId, reason: StringId) -> (Option<Self>, Clause<N>)
        ensures clause { result.1 ≡ Excluded candidate reason }
        ensures watches { result.0 ≡ None }
    {
        (None, Clause::Excluded(candidate, reason))
    }

    /// The clause that what stands for all solvables of a package is true where one of them is part of the solution.
    pub fn any_of<N>(selected: VariableId, other: VariableId) -> (Option<Self>, Clause<N>)
        ensures clause { result.1 ≡ AnyOf selected other }
        ensures pair { option_map (λ w. w.watched_literals) result.0 ≡ watch_pair (Pos selected) (Neg other) }
        ensures watches { (k : StoredLiterals) (now : Values) →
            option_map (λ w. w.watched_literals) result.0 ≡ first_watches k now result.1 }
        ensures unlinked { IfSome result.0 IsUnlinked }
    {
        let watches = Self::pair(positive(selected), negative(other));
        (watches, Clause::AnyOf(selected, other))
    }

    /// The clause that the parent requires one of the other literals.
    fn requires_others<N, A: Allocator + Copy>(
        parent: VariableId,
        requirement: Requirement,
        disjunction: Option<DisjunctionId>,
        others: &LiteralWalk<A>,
        tracker: &DecisionTracker<A>,
    ) -> (Option<Self>, bool, Clause<N>)
        ensures clause { result.2 ≡ Requires parent disjunction requirement }
        ensures watches { option_map (λ w. w.watched_literals) result.0
            ≡ watch_beside (Neg parent) (first_not_false (val tracker.now.entries) (literals_in others.now)) }
        ensures conflict { result.1 ≡ conflicts_with_parent (val tracker.now.entries) parent (literals_in others.now) }
        ensures unlinked { IfSome result.0 IsUnlinked }
    {
        let map = tracker.map();
        let first = others.find(|_| true);
        let other = others.find(|literal| !is_false(map, literal));
        let value = tracker.assigned_value(parent);
        let conflict = conflicts_with_parent(other.is_some(), first.is_some(), value);
        let watches = Self::beside(negative(parent), other.or(first));
        (
            watches,
            conflict,
            Clause::Requires(parent, disjunction, requirement),
        )
    }

    /// What the clause may watch in place of the watch at this index, 0 or 1: its first literal that isn't the other
    /// watch and isn't false. A binary clause has none. Takes no memory. The stores are those of [`Clause::literals`].
    pub fn next_unwatched_literal<N, A: Allocator + Copy>(
        &self,
        clause: &Clause<N>,
        learnt: &Arena<LearntClauseId, Vec<Literal, A>, A>,
        lists: &RequirementMap<Vec<Vec<VariableId, A>, A>, A>,
        disjunctions: &Arena<DisjunctionId, Disjunction<A>, A>,
        map: &DecisionMap<A>,
        index: usize,
    ) -> Option<Literal>
        requires { index < 2 }
        ensures { result ≡ next_unwatched (stored_in learnt.now lists.now disjunctions.now)
            (values_in map.now) clause.now self.now.watched_literals index }
    {
        if clause.is_binary() {
            return None;
        }
        let other = self.watched_literals[1 - index];
        clause.find_literal(learnt, lists, disjunctions, |literal| {
            may_replace(map, other, literal)
        })
    }

    /// A literal beside another, if there is one.
    fn beside(literal: Literal, other: Option<Literal>) -> Option<Self>
        ensures literals { option_map (λ w. w.watched_literals) result ≡ watch_beside literal other }
        ensures unlinked { IfSome result IsUnlinked }
    {
        match other {
            Some(other) => Self::pair(literal, other),
            None => None,
        }
    }

    /// Two literals as watches, if they are different ones.
    fn pair(first: Literal, second: Literal) -> Option<Self>
        ensures literals { option_map (λ w. w.watched_literals) result ≡ watch_pair first second }
        ensures unlinked { IfSome result IsUnlinked }
    {
        if first == second {
            return None;
        }
        Some(WatchedLiterals::new(first, second))
    }
}

impl SameClone for WatchedLiterals {
    ghost use Rattle.std.proofs.Common.{rules};

    ghost clone_is_same = { λ a b h. Prim.search rules };
}

fn is_false<A: Allocator + Copy>(map: &DecisionMap<A>, literal: Literal) -> bool
    ensures { result ≡ is_false_literal (values_in map.now) literal }
{
    literal.eval(map) == Some(false)
}

/// The id of a condition's disjunction.
fn disjunction_of(condition: &Option<(DisjunctionId, &[Literal])>) -> Option<DisjunctionId>
    ensures { result ≡ disjunction_id condition.now }
{
    match condition {
        Some((id, _)) => Some(*id),
        None => None,
    }
}

/// The literals of a condition's disjunction.
fn literals_of<'c>(condition: &Option<(DisjunctionId, &'c [Literal])>) -> &'c [Literal]
    ensures { result.now ≡ disjunction_literals condition.now }
{
    match condition {
        Some((_, literals)) => *literals,
        None => &[],
    }
}

/// Whether it is another literal than the other watch, and isn't false.
fn may_replace<A: Allocator + Copy>(map: &DecisionMap<A>, other: Literal, literal: Literal) -> bool
    ensures { result ≡ (not (same_literal literal other) && not (is_false_literal (values_in map.now) literal)) }
{
    literal != other && !is_false(map, literal)
}

/// Whether a clause is a conflict but for its parent, by whether some other literal isn't false, whether there is any,
/// and the parent's value.
fn conflicts_with_parent(has_other: bool, has_first: bool, parent: Option<bool>) -> bool
    ensures { result ≡ (not has_other && (has_first && not (known_false parent))) }
{
    !has_other && has_first && parent != Some(false)
}

/// Whether the second one is true, and the first one, which isn't false, forbids that.
fn is_conflict<A: Allocator + Copy>(
    tracker: &DecisionTracker<A>,
    parent: VariableId,
    forbidden: VariableId,
) -> bool
    ensures { result ≡ (known_true (val tracker.now.entries forbidden) &&
        not (known_false (val tracker.now.entries parent))) }
{
    tracker.assigned_value(forbidden) == Some(true) && tracker.assigned_value(parent) != Some(false)
}

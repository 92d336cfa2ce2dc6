//! What the two questions of the queue read.
ghost use Rattle.std.specs.Prelude.{◌≡◌, ◌<◌, length, IfSome};
ghost use Rattle.decisions.specs.Decisions.{values_in};
ghost use Rattle.resolvo_queue.specs.Falsified.{is_falsified_in, refs_of};
ghost use Rattle.resolvo_queue.specs.References.{IsWalkable};

use crate::condition::condition_holds;
use crate::row_state::are_all_false;
use crate::tracked_clause::TrackedClause;
use clauses::Disjunction;
use decisions::DecisionMap;
use id_maps::SolverId;
use id_storage::Arena;
use providers::{Interner, RequirementMap};
use std::alloc::Allocator;
use typed_ids::{DisjunctionId, VariableId};

/// The values of variables, the literals of conditions, the scores of packages, and who knows what belongs together.
#[derive(Drop)]
pub(crate) struct Question<'q, I: Interner> {
    pub(crate) map: &'q DecisionMap<I::Alloc>,
    pub(crate) disjunctions: &'q Arena<DisjunctionId, Disjunction<I::Alloc>, I::Alloc>,
    pub(crate) scores: &'q <I::NameId as SolverId<I::Alloc>>::Scores,
    /// The largest of the scores.
    pub(crate) largest: u64,
    pub(crate) interner: &'q I,
}

/// The values of variables, the lists of candidates, the literals of conditions, and who knows what belongs together.
#[derive(Drop)]
pub(crate) struct FalsifiedQuestion<'a, I, A: Allocator + Copy> {
    pub(crate) map: &'a DecisionMap<A>,
    pub(crate) lists: &'a RequirementMap<Vec<Vec<VariableId, A>, A>, A>,
    pub(crate) disjunctions: &'a Arena<DisjunctionId, Disjunction<A>, A>,
    pub(crate) interner: &'a I,
}

impl<'a, I: Interner, A: Allocator + Copy> FalsifiedQuestion<'a, I, A> {
    /// Whether a clause is falsified.
    pub(crate) fn is_falsified(&self, clause: &TrackedClause) -> bool
        requires condition { IfSome clause.now.condition (λ d. d < length self.now.disjunctions.now) }
        requires walkable { IsWalkable (I.universe self.now.interner.now) self.now.lists.now clause.now.requirement }
        ensures { result ≡ is_falsified_in (refs_of I.universe self.now) (values_in self.now.map.now) clause.now }
    {
        match self.map.value(clause.parent) {
            Some(true) => {
                condition_holds(clause.condition, self.disjunctions, self.map)
                    && are_all_false(self.map, self.lists, clause.requirement, self.interner)
            }
            _ => false,
        }
    }
}

//! Reading the registered clauses: the first falsified one, each by its number, and the first one of a parent.
ghost use Rattle.std.specs.Prelude.{◌≡◌, All, option_map, slice_get};
ghost use Rattle.decisions.specs.Decisions.{values_in};
ghost use Rattle.resolvo_queue.specs.Queue.{StandsOn, falsified_in};
ghost use Rattle.resolvo_queue.specs.References.{CanWalk, references};
ghost use Rattle.resolvo_queue.specs.Scan.First.{first_of};

use crate::decide_queue::DecideQueue;
use crate::falsification::{falsified_clause, id_of};
use crate::questions::FalsifiedQuestion;
use crate::requires_clause::RequiresClause;
use clauses::Disjunction;
use decisions::DecisionMap;
use id_storage::Arena;
use providers::{DependencyProvider, RequirementMap};
use typed_ids::{ClauseId, DisjunctionId, VariableId};

impl<D: DependencyProvider> DecideQueue<D> {
    /// The first falsified clause of the scan, if there is one. Takes no memory; linear in all clauses, and in the rows
    /// of those whose parents are true, of each up to the first row that isn't false.
    pub fn falsified<'q>(
        &self,
        map: &'q DecisionMap<D::Alloc>,
        lists: &'q RequirementMap<Vec<Vec<VariableId, D::Alloc>, D::Alloc>, D::Alloc>,
        disjunctions: &'q Arena<DisjunctionId, Disjunction<D::Alloc>, D::Alloc>,
        provider: &'q D,
    ) -> Option<ClauseId>
        requires stands { StandsOn (references (D.universe provider.now) lists.now disjunctions.now) self.now }
        requires walkable { All (CanWalk (references (D.universe provider.now) lists.now disjunctions.now))
            self.now.clauses }
        ensures { let refs = references (D.universe provider.now) lists.now disjunctions.now in
            result ≡ option_map (λ c. c.clause_id) (falsified_in refs (values_in map.now) self.now) }
    {
        let question = FalsifiedQuestion {
            map,
            lists,
            disjunctions,
            interner: provider,
        };
        id_of(falsified_clause(self.tracked.index.clauses.as_slice(), &question))
    }

    /// The clause with a number: numbers are those of registration. None past the end. Constant time.
    pub fn clause(&self, number: usize) -> Option<RequiresClause>
        ensures { result ≡ slice_get self.now.clauses number }
    {
        match self.tracked.index.clauses.as_slice().get(number) {
            Some(clause) => Some(clause.clause()),
            None => None,
        }
    }

    /// The number of a parent's first clause; that of the next clause if it has none. Constant time.
    pub fn first_of(&self, parent: VariableId) -> u32
        ensures { result ≡ first_of self.now.clauses parent }
    {
        self.tracked.index.next_position(parent).first_of_parent
    }
}

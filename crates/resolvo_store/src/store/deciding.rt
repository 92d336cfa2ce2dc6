//! The decision: the command `Decide`, and its two halves as calls of their own.
ghost use Rattle.std.specs.Prelude.{◌≡◌, ◌↔◌, None, Ok, option_map, IfOk, IfErr, OnOk};
ghost use Rattle.typed_ids.specs.declared.error.StoreError.TheVariants.{OutOfMemory};
ghost use Rattle.resolvo_queue.specs.Pick.{decided, DecidesUnbeaten};
ghost use Rattle.resolvo_store.specs.Counted.{clause_at};
ghost use Rattle.resolvo_store.specs.declared.answers.Next.TheVariants.{Done};

use crate::abstract_store::Abstract;
use crate::answers::Next;
use crate::store::ClauseStore;
use crate::store::counting::first_falsified;
use providers::DependencyProvider;
use resolvo_queue::{DecideQueue, QueueDecision, RowReader};
use typed_ids::{ClauseId, StoreError};

impl<D: DependencyProvider + Drop> ClauseStore<D> {
    ghost use Rattle.resolvo_store.specs.Command.{Decide};
    ghost use Rattle.resolvo_store.specs.Answers.{next, replied};
    ghost use Rattle.resolvo_store.specs.Outcome.{falsified_clause, offers, picked};
    ghost use Rattle.resolvo_store.specs.Walks.{WalksEachOnce, HasSynced};
    ghost use Rattle.resolvo_store.specs.Deciding.{falsified_id, NoneEligible};
    ghost use Rattle.resolvo_store.specs.Walks.{DecideStep};

    /// What a search does next: the first falsified clause, else the decision that the scan picks, else it is done.
    pub fn decide(&mut self) -> Result<Next, StoreError>
        ensures step { ⟦<D as Abstract>⟧.step self.old Decide (replied next result) self.new }
        ensures done { result ≡ Ok Done → NoneEligible (⟦<D as Abstract>⟧.store self.old) }
        ensures provider { self.new.provider ≡ self.old.provider }
        ensures queue_state { DecideStep (⟦<D as Abstract>⟧.store self.old) (replied next result)
            self.old.queue_state self.new.queue_state }
    {
        if let Some(clause) = self.first_falsified()? {
            return Ok(Next::Falsified(clause));
        }
        match self.next_decision() {
            Ok(Some(decision)) => Ok(Next::Decided(decision)),
            Ok(None) => Ok(Next::Done),
            Err(e) => Err(e),
        }
    }

    /// The first falsified clause of the scan, if there is one: its parent is true, its condition is met, and all its
    /// candidates are false. Takes no memory. It goes over all clauses that decide; a `Decide` asks counters instead.
    pub fn falsified(&self) -> Option<ClauseId>
        ensures { result ≡ falsified_id (⟦<D as Abstract>⟧.store self.now) }
    {
        self.queue.falsified(
            self.trail.map(),
            &self.loaded,
            &self.disjunctions,
            self.cache.provider(),
        )
    }

    /// What [`ClauseStore::falsified`] answers, by the counters, which catch up with the clauses and the trail. Where
    /// memory for that is refused, the plain scan tells; and where that finds none, this is refused.
    fn first_falsified(&mut self) -> Result<Option<ClauseId>, StoreError>
        ensures found { IfOk result (λ clause. clause ≡ falsified_id (⟦<D as Abstract>⟧.store self.old)) }
        ensures err { IfErr result (λ e. (e ≡ OutOfMemory)
            × (falsified_clause (⟦<D as Abstract>⟧.store self.old) ≡ None)) }
        ensures same { ⟦<D as Abstract>⟧.store self.new ≡ ⟦<D as Abstract>⟧.store self.old }
        ensures provider { self.new.provider ≡ self.old.provider }
        ensures queue_state { self.new.queue_state ≡ self.old.queue_state }
    {
        let (lists, disjunctions) = (&self.loaded, &self.disjunctions);
        match first_falsified(
            &mut self.falsified,
            &self.queue,
            lists,
            disjunctions,
            &self.trail,
        ) {
            Ok(number) => Ok(id_at(&self.queue, number)),
            Err(e) => match self.falsified() {
                Some(clause) => Ok(Some(clause)),
                None => Err(e),
            },
        }
    }

    /// The decision that the scan picks, where nothing is falsified: [`ClauseStore::falsified`] is the test. It brings
    /// the queue up to date with the trail, for which it takes memory; nothing changes that a contract can see, also
    /// where it is refused. Linear in what the trail changed by since the last decision and the clauses that this
    /// wakes, in those of them that aren't eligible, and in the rows of which nothing is known since.
    pub fn next_decision(&mut self) -> Result<Option<QueueDecision>, StoreError>
        requires { falsified_clause (⟦<D as Abstract>⟧.store self.old) ≡ None }
        ensures picked { IfOk result (λ decision.
            decision ≡ option_map decided (picked (⟦<D as Abstract>⟧.store self.old))) }

        // There is none exactly when no clause of the scan is eligible, and no eligible clause beats it.
        ensures none { IfOk result (λ decision. (decision ≡ None) ↔ NoneEligible (⟦<D as Abstract>⟧.store self.old)) }
        ensures unbeaten { IfOk result (DecidesUnbeaten (offers (⟦<D as Abstract>⟧.store self.old))) }
        ensures same { ⟦<D as Abstract>⟧.store self.new ≡ ⟦<D as Abstract>⟧.store self.old }
        ensures provider { self.new.provider ≡ self.old.provider }
        ensures memory { IfErr result (λ e. e ≡ OutOfMemory) }

        // No requirement is walked twice, whatever the result; and the queue has this trail, unless it was refused.
        ensures queue_state { WalksEachOnce (⟦<D as Abstract>⟧.store self.old) self.old.queue_state
            self.new.queue_state }
        ensures in_sync { OnOk result (HasSynced (⟦<D as Abstract>⟧.store self.old).trail self.new.queue_state) }
    {
        let floor = self.trail.take_sync_floor();
        self.queue
            .sync(floor, self.trail.assignments(), self.trail.map())?;
        let mut reader = RowReader::new(&self.loaded);
        self.queue.next_decision(
            self.trail.map(),
            &mut reader,
            &self.disjunctions,
            self.scores.map(),
            self.scores.largest(),
            self.cache.provider(),
        )
    }
}

/// The id of the registered clause with this number, if there is one.
fn id_at<D: DependencyProvider>(queue: &DecideQueue<D>, number: Option<u32>) -> Option<ClauseId>
    ensures { result ≡ option_map (λ c. c.clause_id) (clause_at queue.now.clauses number) }
{
    match number {
        Some(number) => match queue.clause(number as usize) {
            Some(clause) => Some(clause.clause_id),
            None => None,
        },
        None => None,
    }
}

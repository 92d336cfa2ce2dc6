//! The commands on scores: how active packages were in a search.
ghost use Rattle.std.specs.Prelude.{◌≡◌, true, Err, IsTrue, IfOk, OnOk, OnErr, IfErr};
ghost use Rattle.typed_ids.specs.Refusals.{IsGrowthRefusal};
ghost use Rattle.typed_ids.specs.TotalMaps.{IsUpdate, SameValues};
ghost use Rattle.typed_ids.specs.declared.error.StoreError.TheVariants.{IdSpace};
ghost use Rattle.resolvo_queue.specs.Queue.{SameClauses, SameSync};
ghost use Rattle.resolvo_queue.specs.WalkCounts.{owed, walks};
ghost use Rattle.resolvo_store.specs.Scoring.{IsRaised, StandsAsBefore};

use crate::abstract_store::Abstract;
use crate::store::ClauseStore;
use id_maps::{IdMap, IdSet, Scores, SolverId};
use providers::{DependencyProvider, Interner};
use resolvo_queue::DecideQueue;
use typed_ids::StoreError;

impl<D: DependencyProvider + Drop> ClauseStore<D> {
    ghost use Rattle.resolvo_store.specs.Command.{Bump, Decay, Done, Standard};
    ghost use Rattle.resolvo_store.specs.Answers.{done, replied};
    ghost use Rattle.resolvo_store.specs.Refusals.{is_bad_fraction};
    ghost use Rattle.resolvo_store.specs.Walks.{WalksNothing};

    /// Adds to a package's score, which stays at 2^64 - 1 at most.
    pub fn bump(&mut self, name: D::NameId, amount: u64) -> Result<(), StoreError>
        ensures step { ⟦<D as Abstract>⟧.step self.old (Bump name amount) (replied done result) self.new }
        ensures provider { self.new.provider ≡ self.old.provider }
        ensures queue_state { WalksNothing self.old.queue_state self.new.queue_state }
    {
        if !self.cache.provider().knows_name(name) {
            return Err(StoreError::UnknownId);
        }
        raise(&mut self.scores, &mut self.queue, name, amount)
    }

    /// Multiplies each score by the first number, divides it by the second one, and rounds down.
    pub fn decay(&mut self, numerator: u64, denominator: u64) -> Result<(), StoreError>
        ensures step { ⟦<D as Abstract>⟧.step self.old (Decay numerator denominator) (replied done result) self.new }
        ensures provider { self.new.provider ≡ self.old.provider }
        ensures queue_state { self.new.queue_state ≡ self.old.queue_state }
    {
        if denominator == 0 || denominator < numerator {
            return Err(StoreError::BadFraction);
        }
        self.scores.decay(numerator, denominator);
        Ok(())
    }

    /// Tells whether a decision may count on it that scores never fall below 0. Both settings answer alike; the first,
    /// `true`, is the faster one.
    pub fn set_standard(&mut self, standard: bool)
        ensures step { ⟦<D as Abstract>⟧.step self.old (Standard standard) Done self.new }
        ensures provider { self.new.provider ≡ self.old.provider }
        ensures queue_state { WalksNothing self.old.queue_state self.new.queue_state }
    {
        self.queue.set_standard_activity_params(standard);
    }
}

/// Raises the score of a name, which the queue knows as hot from then on. All memory is taken before the score is
/// written.
fn raise<D: DependencyProvider>(
    scores: &mut Scores<D::NameId, D::Alloc>,
    queue: &mut DecideQueue<D>,
    name: D::NameId,
    amount: u64,
) -> Result<(), StoreError>
    ensures bumped { OnOk result (IsRaised D.NameId.eq D.NameId.Scores.value_at name amount scores.old scores.new) }
    ensures hot { OnOk result (IsUpdate (D.NameId.Set.has queue.old.hot) name true (D.NameId.Set.has queue.new.hot)) }
    ensures same_scores { OnErr result (D.NameId.Scores.value_at scores.new.map ≡
        D.NameId.Scores.value_at scores.old.map) }
    ensures same_hot { OnErr result (SameValues (D.NameId.Set.has queue.old.hot) (D.NameId.Set.has queue.new.hot)) }
    ensures clauses { SameClauses queue.old queue.new }
    ensures synced { SameSync queue.old queue.new }
    ensures walks { SameValues (walks queue.old) (walks queue.new) }
    ensures owed { SameValues (owed queue.old) (owed queue.new) }
    ensures stands { StandsAsBefore D.SolvableId D.Alloc queue.old queue.new }
    ensures refused { IfErr result (IsGrowthRefusal (D.NameId.Slots.is_too_large name)) }
    ensures too_large { IsTrue (D.NameId.Slots.is_too_large name) → result ≡ Err IdSpace }
{
    scores.make_room(name)?;
    queue.mark_name_hot(name)?;
    scores.bump(name, amount);
    Ok(())
}

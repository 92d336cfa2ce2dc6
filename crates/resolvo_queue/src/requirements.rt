//! What a queue knows of each requirement of its clauses.
ghost use Rattle.std.specs.Prelude.{◌≡◌, ◌<◌, ◌≤◌, ◌+◌, [], ◌∷◌, ◌++◌, map, Some, None, length, IfSome, MatchOption};
ghost use Rattle.std.specs.Prelude.{IfOk, OnOk, OnErr, IfErr};
ghost use Rattle.typed_ids.specs.declared.error.StoreError.TheVariants.{OutOfMemory};
ghost use Rattle.providers.specs.declared.requirement.Requirement.{Requirement as ARequirement};
ghost use Rattle.resolvo_queue.specs.Parts.{record_seen};
ghost use Rattle.resolvo_queue.specs.Parts.{forgotten, fresh};

use crate::offer::Frontier;
use crate::walk_log::WalkLog;
use providers::{Requirement, RequirementMap};
use std::alloc::Allocator;
use std::marker::Model;
use typed_ids::StoreError;

/// What is known of a requirement's rows under the values of the last sync.
#[derive(Clone, Copy, Debug, PartialEq, Eq)]
pub(crate) enum Walk {
    /// The rows were not walked, or a variable of theirs may have changed since.
    Unknown,
    /// A walk of the rows answers this.
    Known(Option<Frontier>),
}

/// What is kept for a requirement: who has it, what is known of its rows, and how often they were walked.
#[derive(Drop)]
struct RequirementRecord<A: Allocator + Copy> {
    requirement: Requirement,
    clauses: Vec<u32, A>,
    walk: Walk,
    /// One entry a walk of the rows.
    log: WalkLog,
}

/// A record for each requirement.
#[derive(Drop)]
pub(crate) struct Requirements<A: Allocator + Copy> {
    places: RequirementMap<usize, A>,
    records: Vec<RequirementRecord<A>, A>,
}

impl<A: Allocator + Copy> Model for Requirements<A> {
    ghost use Rattle.std.specs.Prelude.{List, map};
    ghost use Rattle.resolvo_queue.specs.Parts.{Record};

    ghost Value = { List Record };

    ghost use Rattle.resolvo_queue.specs.Parts.{record_seen, ArePlaced};

    ghost view = { λ r. map record_seen r.records.items };

    ghost invariant = { λ r. ArePlaced (map record_seen r.records.items) r.places };
}

impl<A: Allocator + Copy> Requirements<A> {
    ghost use Rattle.std.specs.Prelude.{ℕ};
    ghost use Rattle.resolvo_queue.specs.Parts.{known_at, updated_at, forgotten, fresh, walked, with_clause};
    ghost use Rattle.resolvo_queue.specs.Parts.{clauses_at, IsPlaceOf, HasNoPlace, GainsRecord};
    ghost use Rattle.resolvo_queue.specs.Parts.{known_of};
    ghost use Rattle.resolvo_queue.specs.Members.{Stands};
    ghost use Rattle.resolvo_queue.specs.Parts.Tracking.{GainsClauses};
    ghost use Rattle.resolvo_queue.specs.WalkCounts.{OwesFirst, owed_in};

    /// No requirement has a record. Takes no memory.
    pub(crate) fn new(alloc: A) -> Self
        ensures { result ≡ [] }
    {
        Requirements {
            places: RequirementMap::new(alloc),
            records: Vec::new(alloc),
        }
    }

    /// The place of the requirement's record.
    pub(crate) fn place(&self, requirement: Requirement) -> Option<usize>
        ensures place { MatchOption result (HasNoPlace self.now requirement) (IsPlaceOf self.now requirement) }
        ensures only { IfSome result (λ place. (k : ℕ) → IsPlaceOf self.now requirement k → k ≡ place) }
    {
        match self.places.get(requirement) {
            Some(place) => Some(*place),
            None => None,
        }
    }

    /// The place of the requirement's record, which comes if there was none. Refused, nothing changes.
    fn enter(&mut self, requirement: Requirement) -> Result<usize, StoreError>
        ensures place { IfOk result (IsPlaceOf self.new requirement) }
        ensures more { OnOk result (GainsRecord requirement self.old self.new) }
        ensures err { OnErr result (self.new ≡ self.old) }
        ensures memory { IfErr result (λ e. e ≡ OutOfMemory) }
    {
        match self.places.get(requirement) {
            Some(place) => Ok(*place),
            None => self.add(requirement),
        }
    }

    /// Gives a requirement a record that has none. Refused, nothing changes.
    fn add(&mut self, requirement: Requirement) -> Result<usize, StoreError>
        requires { HasNoPlace self.old requirement }
        ensures ok { OnOk result (self.new ≡ self.old ++ fresh requirement ∷ []) }
        ensures place { IfOk result (λ place. place ≡ length self.old) }
        ensures err { OnErr result (self.new ≡ self.old) }
        ensures memory { IfErr result (λ e. e ≡ OutOfMemory) }
    {
        let place = self.records.len();
        let alloc = *self.records.allocator();
        self.records.reserve(1)?;
        match self.places.insert(requirement, place) {
            Ok(_) => {}
            Err(refused) => return Err(refused.error),
        }
        let record = new_record(alloc, requirement);
        self.records.push_reserved(record);
        Ok(place)
    }

    /// Puts a clause to those with a requirement, whose record comes if there was none. Refused, the record may be
    /// there.
    pub(crate) fn enter_clause(
        &mut self,
        requirement: Requirement,
        number: u32,
    ) -> Result<usize, StoreError>
        ensures gains { GainsClauses self.old self.new }
        ensures owes { OwesFirst requirement self.old self.new }
        ensures owes_one { OnOk result (1 ≤ owed_in self.new requirement) }
        ensures placed { IfOk result (IsPlaceOf self.new requirement) }
        ensures found { IfOk result (λ place. Stands number (clauses_at self.new place)) }
        ensures memory { IfErr result (λ e. e ≡ OutOfMemory) }
    {
        let place = self.enter(requirement)?;
        self.add_clause(place, number)?;
        Ok(place)
    }

    /// Puts a clause to those with the requirement. Refused, nothing changes.
    fn add_clause(&mut self, place: usize, number: u32) -> Result<(), StoreError>
        requires { place < length self.old }
        ensures ok { OnOk result (self.new ≡ updated_at (with_clause number) self.old place) }
        ensures owes { OnOk result ((r : ARequirement) → IsPlaceOf self.new r place → 1 ≤ owed_in self.new r) }
        ensures err { OnErr result (self.new ≡ self.old) }
        ensures memory { IfErr result (λ e. e ≡ OutOfMemory) }
    {
        let record = &mut self.records[place];
        record.clauses.push(number)?;
        Ok(())
    }

    /// The numbers of the clauses with this requirement.
    pub(crate) fn clauses(&self, place: usize) -> &[u32]
        requires { place < length self.now }
        ensures { result.now ≡ clauses_at self.now place }
    {
        self.records[place].clauses.as_slice()
    }

    /// What is known of the rows.
    pub(crate) fn known(&self, place: usize) -> Walk
        requires { place < length self.now }
        ensures { known_of result ≡ known_at self.now place }
    {
        self.records[place].walk
    }

    /// Nothing is known of the rows any more.
    pub(crate) fn forget(&mut self, place: usize)
        requires { place < length self.old }
        ensures { self.new ≡ updated_at forgotten self.old place }
    {
        let record = &mut self.records[place];
        record.walk = Walk::Unknown;
    }

    /// Keeps what a walk of the rows answered, and counts the walk.
    pub(crate) fn store_walk(&mut self, place: usize, frontier: &Option<Frontier>)
        requires { place < length self.old }
        ensures walked { self.new ≡ updated_at (walked frontier.now) self.old place }
        ensures only { (requirement : ARequirement) (k : ℕ) → IsPlaceOf self.old requirement place →
            IsPlaceOf self.old requirement k → k ≡ place }
    {
        let record = &mut self.records[place];
        record.walk = Walk::Known(*frontier);
        record.log = record.log.and(&record.requirement);
    }

    /// Nothing is known of any rows any more.
    pub(crate) fn forget_everything(&mut self)
        ensures { self.new ≡ map forgotten self.old }
    {
        forget_records(&mut self.records);
    }
}

/// The record of a requirement that no clause has yet.
fn new_record<A: Allocator + Copy>(alloc: A, requirement: Requirement) -> RequirementRecord<A>
    ensures { record_seen result ≡ fresh requirement }
{
    RequirementRecord {
        requirement,
        clauses: Vec::new(alloc),
        walk: Walk::Unknown,
        log: WalkLog::new(),
    }
}

/// Nothing is known of the rows of these records.
fn forget_records<A: Allocator + Copy>(records: &mut [RequirementRecord<A>])
    ensures { map record_seen records.new ≡ map forgotten (map record_seen records.old) }
{
    for record in records.iter_mut() {
        record.walk = Walk::Unknown;
    }
}

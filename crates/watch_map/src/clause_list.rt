//! The clauses of a store.
//!
//! A store keeps each clause as a record of its kind, beside the two literals that it watches. Two lists of one length
//! hold them, so that a walk over watches doesn't read the clauses. The literals of learnt clauses are in an arena,
//! since their number isn't fixed; those of the other kinds follow from the record.
//!
//! Clauses are added at the end, where each gets the next id, and watches its literals from then on. For a caller that
//! adds a clause in more than one place, the room for it can be made before: then adding it isn't refused.
ghost use Rattle.std.specs.Prelude.{◌≡◌, ℕ, ◌+◌, ◌<◌, ◌↔◌, Bool, List, [], length, map, slice_get, slice_index_or};
ghost use Rattle.std.specs.Prelude.{false, if◌then◌else◌, option_map};
ghost use Rattle.std.specs.Prelude.{◌≤◌, ◌^◌, drop, MatchOption, IsTrue, IfOk, OnOk, OnErr, IfErr, Err};
ghost use Rattle.typed_ids.specs.declared.error.StoreError.TheVariants.{IdSpace, OutOfMemory, BadWatch};
ghost use Rattle.typed_ids.specs.Refusals.{IsGrowthRefusal};
ghost use Rattle.watch_map.specs.Watching.{AreTwoOrNone};
ghost use Rattle.watch_map.specs.ClauseList.{literals_watched, two_or_none, no_clauses};
ghost use Rattle.watch_map.specs.ClauseList.{IsClauseList, is_full, is_learnt_full};
ghost use Rattle.watch_map.specs.ClauseList.{contents, with_clause, with_learnt};
ghost use Rattle.watch_map.specs.ClauseList.{with_rewatched, can_rewatch, HasRoom, KeepsRoom};
ghost use Rattle.watch_map.specs.ClauseList.{are_ids_out_for, with_forbidden, HasRoomFor, watched_by};
ghost use Rattle.decisions.specs.Trail.{val};
ghost use Rattle.clauses.specs.Stored.{stored_in};
ghost use Rattle.watch_map.specs.Implication.{AreSettled, IsConflict};
ghost use Rattle.watch_map.specs.Saturation.{literals_in_list, WatchOwn, HasImplied, IsRearranged};
ghost use Rattle.watch_map.specs.Marks.{AreMarks, none_false_at, none_watched_false};

use crate::lists::WatchMap;
use crate::marks::Marks;
use crate::saturation::{self, SaturationInput};
use crate::stored_clause::StoredClause;
use crate::unwatched::UnwatchedClauses;
use crate::walks;
use crate::watched_literals::WatchedLiterals;
use clauses::{Clause, Disjunction};
use decisions::{DecisionTracker, Literal};
use id_storage::Arena;
use providers::RequirementMap;
use std::alloc::Allocator;
use std::marker::Model;
use typed_ids::{ClauseId, DenseIndex, DisjunctionId, LearntClauseId, StoreError, VariableId};

/// How many clauses there may be.
const LIMIT: usize = u32::MAX as usize;

/// All clauses of a store, with what each of them watches, the clauses that watch each literal, and the literals of the
/// learnt ones. `N` are the names of packages.
///
/// Where names are ids of 32 bits, a clause's record has 16 bytes, beside 20 for what it watches.
#[derive(Drop)]
pub struct ClauseList<N: Copy, A: Allocator + Copy> {
    clauses: Vec<StoredClause<N>, A>,
    /// What each clause watches.
    watches: Vec<Option<WatchedLiterals>, A>,
    /// The clauses that watch each literal.
    map: WatchMap<A>,
    learnt: Arena<LearntClauseId, Vec<Literal, A>, A>,
    /// The clauses that watch nothing, of those that were there at the last saturation.
    unwatched: UnwatchedClauses<A>,
}

/// The clauses, what each of them watches, the clauses that watch each literal, and the literals of the learnt ones;
/// and the room for more.
impl<N: Copy, A: Allocator + Copy> Model for ClauseList<N, A> {
    ghost use Rattle.watch_map.specs.ClauseList.{ClauseListState, contents, IsClauseList};
    ghost use Rattle.watch_map.specs.ClauseListView.{clause_list_in};
    ghost use Rattle.watch_map.specs.WatchLists.{AreWatched, AreUnwatchedBelow};

    ghost Value = { ClauseListState N };

    ghost view = { clause_list_in };

    ghost invariant = { λ a. IsClauseList (contents (clause_list_in a)) × AreWatched a.map a.watches.items
        × AreUnwatchedBelow a.watches.items a.unwatched.bound a.unwatched.ids.items };
}

impl<N: Copy, A: Allocator + Copy> ClauseList<N, A> {
    /// The list without clauses. Takes memory for the slots of the first literals.
    pub fn new(alloc: A) -> Result<Self, StoreError>
        ensures ok { IfOk result (λ list. contents list ≡ no_clauses) }
        ensures err { IfErr result (λ e. e ≡ OutOfMemory) }
    {
        Ok(ClauseList {
            clauses: Vec::new(alloc),
            watches: Vec::new(alloc),
            map: WatchMap::new(alloc)?,
            learnt: Arena::new(alloc),
            unwatched: UnwatchedClauses::new(alloc),
        })
    }

    /// How many clauses there are.
    pub fn len(&self) -> usize
        ensures value { result ≡ length (contents self.now).clauses }
        ensures list { IsClauseList (contents self.now) }
    {
        self.clauses.len()
    }

    /// Whether there are no clauses.
    pub fn is_empty(&self) -> bool
        ensures { IsTrue result ↔ ((contents self.now).clauses ≡ []) }
    {
        self.clauses.is_empty()
    }

    /// Whether there are as many clauses as there may be.
    pub fn is_full(&self) -> bool
        ensures { result ≡ is_full (contents self.now) }
    {
        !ClauseId::in_range(self.clauses.len())
    }

    /// The clause of this id, if there is one.
    pub fn get(&self, id: ClauseId) -> Option<Clause<N>>
        ensures { result ≡ slice_get (contents self.now).clauses id }
    {
        let stored = self.clauses.get(id.to_index())?;
        Some(stored.clause())
    }

    /// What the clause watches, if there is one of this id and it watches something.
    pub fn watches(&self, id: ClauseId) -> Option<&WatchedLiterals>
        ensures { two_or_none (option_map (λ w. w.now.watched_literals) result) ≡
            slice_index_or (contents self.now).watches id [] }
    {
        self.watches.get(id.to_index())?.as_ref()
    }

    /// The clauses that watch the literal, front first. Takes memory for them.
    pub fn watchers(&self, literal: Literal) -> Result<Vec<ClauseId, A>, StoreError>
        ensures ok { IfOk result (λ found. found.items ≡ (contents self.now).watchers literal) }
        ensures memory { IfErr result (λ e. e ≡ OutOfMemory) }
    {
        let alloc = *self.clauses.allocator();
        walks::watchers(alloc, &self.map, self.watches.as_slice(), literal)
    }

    /// The literals of the learnt clauses, by the ids that these have.
    pub fn learnt(&self) -> &Arena<LearntClauseId, Vec<Literal, A>, A>
        ensures { map (λ literals. literals.items) result.now ≡ (contents self.now).learnt }
    {
        &self.learnt
    }

    /// Makes room for one more clause that watches this: then [`ClauseList::push_reserved`] may add it. Room that is
    /// there is kept.
    pub fn make_room(&mut self, watches: &Option<WatchedLiterals>) -> Result<(), StoreError>
        ensures same { contents self.new ≡ contents self.old }
        ensures room { OnOk result (HasRoom self.new (two_or_none (literals_watched watches.now))) }
        ensures keeps { KeepsRoom self.old self.new }
        ensures refused { IfErr result (IsGrowthRefusal (is_full (contents self.old))) }
        ensures ids_out { IsTrue (is_full (contents self.old)) → result ≡ Err IdSpace }
    {
        if self.is_full() {
            return Err(StoreError::IdSpace);
        }
        self.clauses.reserve(1)?;
        self.watches.reserve(1)?;
        walks::make_room(&mut self.map, watches)
    }

    /// Adds a clause for which there is room, with what it watches, and answers its id. Takes no memory.
    pub fn push_reserved(&mut self, clause: Clause<N>, watches: Option<WatchedLiterals>) -> ClauseId
        requires room { HasRoom self.old (two_or_none (literals_watched watches)) }
        requires two { AreTwoOrNone (two_or_none (literals_watched watches)) }
        ensures id { result ≡ length (contents self.old).clauses }
        ensures added { contents self.new ≡ with_clause (contents self.old) clause (literals_watched watches) }
        ensures rooms { (count : ℕ) (bits : List (ℕ × ℕ × Bool)) → HasRoomFor (count + 1) bits self.old →
            HasRoomFor count bits self.new }
    {
        self.push_stored(StoredClause::new(clause), watches)
    }

    /// The same of a clause as it is kept.
    fn push_stored(&mut self, clause: StoredClause<N>, watches: Option<WatchedLiterals>) -> ClauseId
        requires room { HasRoom self.old (two_or_none (literals_watched watches)) }
        requires two { AreTwoOrNone (two_or_none (literals_watched watches)) }
        ensures id { result ≡ length (contents self.old).clauses }
        ensures added { contents self.new ≡ with_clause (contents self.old) clause (literals_watched watches) }
        ensures rooms { (count : ℕ) (bits : List (ℕ × ℕ × Bool)) → HasRoomFor (count + 1) bits self.old →
            HasRoomFor count bits self.new }
    {
        let id = ClauseId::from_index(self.clauses.len());
        let watches = walks::started(&mut self.map, watches, id);
        self.clauses.push_reserved(clause);
        self.watches.push_reserved(watches);
        id
    }

    /// Makes room for clauses of the kind that forbids multiple instances, each of a variable, a helper, and whether
    /// the helper is positive: then [`ClauseList::push_forbidden_reserved`] may add them. There is none where they were
    /// more clauses than there may be. Room that is there is kept.
    pub fn make_room_forbidden(
        &mut self,
        clauses: &[(VariableId, VariableId, bool)],
    ) -> Result<(), StoreError>
        ensures same { contents self.new ≡ contents self.old }
        ensures room { OnOk result (HasRoomFor (length clauses.now) clauses.now self.new) }
        ensures keeps { KeepsRoom self.old self.new }
        ensures refused { IfErr result (IsGrowthRefusal (are_ids_out_for (length clauses.now) (contents self.old))) }
        ensures ids_out { IsTrue (are_ids_out_for (length clauses.now) (contents self.old)) → result ≡ Err IdSpace }
    {
        if clauses.len() > LIMIT - self.clauses.len() {
            return Err(StoreError::IdSpace);
        }
        self.clauses.reserve(clauses.len())?;
        self.watches.reserve(clauses.len())?;
        walks::make_rooms(&mut self.map, clauses)
    }

    /// Adds clauses for which there is room, in order: "not x or h" of a variable x, a helper h and `true`, "not x or
    /// not h" of these and `false`. Takes no memory.
    pub fn push_forbidden_reserved(&mut self, name: N, clauses: &[(VariableId, VariableId, bool)])
        requires { HasRoomFor (length clauses.now) clauses.now self.old }
        ensures { contents self.new ≡ with_forbidden name (contents self.old) clauses.now }
    {
        for clause in clauses {
            let (watches, clause) = walks::forbidden(name, *clause);
            self.push_stored(StoredClause::new(clause), watches);
        }
    }

    /// Adds a clause with what it watches, and answers its id. Takes memory where there is no room left.
    pub fn add(
        &mut self,
        clause: Clause<N>,
        watches: Option<WatchedLiterals>,
    ) -> Result<ClauseId, StoreError>
        requires { AreTwoOrNone (two_or_none (literals_watched watches)) }
        ensures id { IfOk result (λ id. id ≡ length (contents self.old).clauses) }
        ensures ok { OnOk result (contents self.new ≡
            with_clause (contents self.old) clause (literals_watched watches)) }
        ensures err { OnErr result (contents self.new ≡ contents self.old) }
        ensures refused { IfErr result (IsGrowthRefusal (is_full (contents self.old))) }
        ensures ids_out { IsTrue (is_full (contents self.old)) → result ≡ Err IdSpace }
    {
        self.make_room(&watches)?;
        Ok(self.push_reserved(clause, watches))
    }

    /// Adds a learnt clause with these literals, of which there is one at least, and answers its id. Takes memory for a
    /// copy of the literals, and where there is no room left; all of it before anything changes.
    pub fn learn(&mut self, literals: &[Literal]) -> Result<ClauseId, StoreError>
        requires { 0 < length literals.now }
        ensures id { IfOk result (λ id. id ≡ length (contents self.old).clauses) }
        ensures ok { OnOk result (contents self.new ≡ with_learnt (contents self.old) literals.now) }
        ensures err { OnErr result (contents self.new ≡ contents self.old) }
        ensures refused { IfErr result (IsGrowthRefusal (is_learnt_full (contents self.old))) }
        ensures ids_out { IsTrue (is_learnt_full (contents self.old)) → result ≡ Err IdSpace }
    {
        if self.is_full() || !LearntClauseId::in_range(self.learnt.len()) {
            return Err(StoreError::IdSpace);
        }
        let kept = Vec::from_slice(*self.clauses.allocator(), literals)?;
        let learnt_id = LearntClauseId::from_index(self.learnt.len());
        let (watches, clause) = WatchedLiterals::learnt(learnt_id, literals);
        self.make_room(&watches)?;
        self.learnt.alloc(kept)?;
        Ok(self.push_reserved(clause, watches))
    }

    /// Lets a clause watch another literal in the place of one that it watches: it leaves the list of the one, whose
    /// others keep their order, and goes to the front of the other's. Refused `BadWatch` where the clause doesn't watch
    /// the one, or watches the other. Goes through the list of the one up to the clause; takes memory where there is no
    /// room in that of the other.
    pub fn rewatch(&mut self, id: ClauseId, from: Literal, to: Literal) -> Result<(), StoreError>
        ensures ok { OnOk result (contents self.new ≡ with_rewatched (contents self.old) id from to) }
        ensures err { OnErr result (contents self.new ≡ contents self.old) }
        ensures refused { IfErr result (λ e. e ≡
            (if can_rewatch (contents self.old) id from to then OutOfMemory else BadWatch)) }
        ensures can { OnOk result (IsTrue (can_rewatch (contents self.old) id from to)) }
    {
        walks::rewatch(&mut self.map, self.watches.as_mut_slice(), id, from, to)
    }

    /// Forgets the marks under whose entries a watch of the clause may be false: those that are left are marks still
    /// once the clause is let watch another literal. Takes no memory.
    pub fn forget_false(&self, id: ClauseId, marks: &mut Marks<A>, trail: &DecisionTracker<A>)
        ensures { marks.new ≡ none_false_at trail.now.entries marks.old (watched_by (contents self.now) id) }
    {
        if let Some(watched) = self.watches(id) {
            marks.forget_false(watched.watched_literals.as_slice(), trail);
        }
    }

    /// The same of each clause from this id on: those that are left are marks still where these clauses are new. Takes
    /// no memory.
    pub fn forget_false_from(&self, first: usize, marks: &mut Marks<A>, trail: &DecisionTracker<A>)
        ensures { marks.new ≡ none_watched_false trail.now.entries marks.old (drop first (contents self.now).watches) }
    {
        if marks.is_empty() {
            return;
        }
        for index in first..self.clauses.len() {
            self.forget_false(ClauseId::from_index(index), marks, trail);
        }
    }

    /// Adds to the trail, at this level, what clauses force, until none forces anything or one is false, which it
    /// answers. The candidates of requirements and the disjunctions to which clauses refer are kept by the caller, as
    /// are the marks of the trail: those that changed trail or clauses forgot what isn't one any more. Watches move to
    /// literals that aren't false.
    ///
    /// Reads the trail from the newest mark on, and goes once through the list of each literal that the entries there
    /// make false; then reads the clauses that watch nothing, from the mark's bound on. Looks once at the record of
    /// each clause that is new. Remembers a mark of the end where all clauses are settled. Takes memory for each entry,
    /// for new clauses that watch nothing, for the mark, which is left out where that is refused, and where a watch
    /// moves to a literal that nothing ever watched; refused, what was forced so far stays.
    pub fn saturate(
        &mut self,
        lists: &RequirementMap<Vec<Vec<VariableId, A>, A>, A>,
        disjunctions: &Arena<DisjunctionId, Disjunction<A>, A>,
        trail: &mut DecisionTracker<A>,
        marks: &mut Marks<A>,
        level: u32,
    ) -> Result<Option<ClauseId>, StoreError>
        requires own { WatchOwn (literals_in_list (stored_in [] lists.now disjunctions.now) (contents self.old))
            (watched_by (contents self.old)) }
        requires level { (1 ≤ level) × (level < 2 ^ 31) }
        requires marks { AreMarks (literals_in_list (stored_in [] lists.now disjunctions.now) (contents self.old))
            (watched_by (contents self.old)) trail.old.entries marks.old }
        ensures clauses { (contents self.new).clauses ≡ (contents self.old).clauses }
        ensures learnt { (contents self.new).learnt ≡ (contents self.old).learnt }
        ensures rearranged { IsRearranged
            (literals_in_list (stored_in [] lists.now disjunctions.now) (contents self.old))
            (watched_by (contents self.old)) (watched_by (contents self.new)) }
        ensures list { IsClauseList (contents self.new) }
        ensures implied { HasImplied
            (literals_in_list (stored_in [] lists.now disjunctions.now) (contents self.old)) level trail.old trail.new }
        ensures ok { IfOk result (λ conflict. MatchOption conflict
            (AreSettled (literals_in_list (stored_in [] lists.now disjunctions.now) (contents self.old))
            (length (contents self.old).clauses) (val trail.new.entries))
            (IsConflict (literals_in_list (stored_in [] lists.now disjunctions.now) (contents self.old))
            (length (contents self.old).clauses) (val trail.new.entries))) }
        ensures memory { IfErr result (λ e. e ≡ OutOfMemory) }
        ensures marks { AreMarks (literals_in_list (stored_in [] lists.now disjunctions.now) (contents self.old))
            (watched_by (contents self.new)) trail.new.entries marks.new }
    {
        self.unwatched.catch_up(self.watches.as_slice())?;
        let input = SaturationInput {
            clauses: self.clauses.as_slice(),
            unwatched: self.unwatched.ids.as_slice(),
            learnt: &self.learnt,
            lists,
            disjunctions,
            level,
        };
        saturation::saturate(
            &input,
            &mut self.map,
            self.watches.as_mut_slice(),
            trail,
            marks,
        )
    }
}

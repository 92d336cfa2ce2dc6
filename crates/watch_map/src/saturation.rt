//! Unit propagation to the fixpoint: adds to the trail what clauses force, until none forces anything or one is false.
//!
//! A clause forces a literal that is undecided where each other literal of the clause is false. A clause that watches
//! two literals neither forces one nor is false while this holds: each of the two that is false stands beside one that
//! is true. Such a false watch is *met*. So it is enough to look at the clauses that watch what the trail makes false.
//!
//! # Rounds
//!
//! ```text
//! saturate    rounds of both, from the newest mark on, until a round's second half adds no entry; a mark of the end
//! │
//! ├── propagate    each entry from a place on, those that it adds among them:
//! │   └── walk         each clause that watches the literal which the entry makes false:
//! │       └── visit        the other watch is true:             met; the walk goes on behind it
//! │                        another literal isn't false:         the clause watches that one; the walk goes on
//! │                        the other watch is undecided:        forced: an entry more, and then met
//! │                        the other watch is false as well:    a conflict
//! │
//! └── visit_all_unwatched    each clause that watches nothing, from a place in their list on: its literals are read
//! ```
//!
//! A place divides the trail: what the entries before it make false is met. Here `a` was assigned, and both clauses
//! watch `not a`; the newer one is visited first.
//!
//! ```text
//! clause 1: not a or b               watches not a, b
//! clause 2: not a or not b or c      watches not a, not b
//!
//! a          walk of not a    clause 2: c isn't false, so it watches c in the place of not a
//! ^place                      clause 1: not a is false and b undecided, so b is forced
//!
//! a  b       walk of not b    clause 2: not a and not b are false and c undecided, so c is forced
//!    ^place
//!
//! a  b  c    walk of not c    nobody watches it
//!       ^place
//! ```
//!
//! An entry that is added makes true a clause that wasn't, and true clauses stay true. So there are no more entries
//! than clauses, and it ends.
//!
//! # From where
//!
//! A clause that is added, a watch that is moved from outside and an undo may each leave a false watch beside one that
//! isn't true. From the beginning nothing is supposed of the watches but that they are two different ones of the
//! clause's own literals. At a mark, which `marks` tells of, it is known that the entries before meet all that they
//! make false, and of which clauses without watches they make each true. A walk doesn't take that away: a watch moves
//! from a literal that is false now, and so true under no mark, to one that isn't false, and so false under none.
//!
//! # Time and memory
//!
//! The list of each entry behind the mark is walked once. A visit is constant time where the other watch is true, and
//! of a binary or learnt clause of two literals; else it reads the clause's literals up to one that may be watched. A
//! round passes once over the clauses behind the mark's bound that watch nothing, which are given as a list. Memory is
//! taken for an entry, for the list of a literal that nothing ever watched, and for a mark. The mark is left out where
//! that is refused. Where one of the others is, what was forced so far stays, and the lists are exact: asked again it
//! goes on from the same mark.
ghost use Rattle.std.specs.Prelude.{◌≡◌, length, MatchOption, IfOk, IfErr};
ghost use Rattle.typed_ids.specs.declared.error.StoreError.TheVariants.{OutOfMemory};
ghost use Rattle.decisions.specs.Trail.{val};
ghost use Rattle.watch_map.specs.WatchLists.{watched_by, AreWatched};
ghost use Rattle.watch_map.specs.Implication.{AreSettled, IsConflict};
ghost use Rattle.watch_map.specs.Saturation.{WatchOwn, HasImplied, IsRearranged};
ghost use Rattle.watch_map.specs.WatchInvariant.{AreWatchesSatisfied, KeepWatchesSatisfied};
ghost use Rattle.watch_map.specs.Visits.{literals_at};
ghost use Rattle.watch_map.specs.Watching.{AreUnwatched};
ghost use Rattle.watch_map.specs.Marks.{IsMark, AreMarks};

mod input;
mod marking;
mod propagate;
mod unwatched;
mod visit;
mod walk;

use crate::lists::WatchMap;
use crate::marks::{Mark, Marks};
use crate::saturation::marking::mark_at_end;
use crate::saturation::propagate::propagate;
use crate::saturation::unwatched::{count_before, visit_all_unwatched};
use crate::watched_literals::WatchedLiterals;
use decisions::DecisionTracker;
pub(crate) use input::SaturationInput;
use std::alloc::Allocator;
use typed_ids::{ClauseId, StoreError};
pub(crate) use visit::is_false;

/// Adds to the trail what unit clauses imply, until none is unit or one is false, which it answers. Goes on from the
/// newest mark, and remembers the end where all clauses are settled.
pub(crate) fn saturate<N: Copy, A: Allocator + Copy>(
    input: &SaturationInput<N, A>,
    map: &mut WatchMap<A>,
    watches: &mut [Option<WatchedLiterals>],
    trail: &mut DecisionTracker<A>,
    marks: &mut Marks<A>,
) -> Result<Option<ClauseId>, StoreError>
    requires watched { AreWatched map.old watches.old }
    requires own { WatchOwn (literals_at input.now) (watched_by watches.old) }
    requires unwatched { AreUnwatched (watched_by watches.old) (length input.now.clauses.now) input.now.unwatched.now }
    requires marks { AreMarks (literals_at input.now) (watched_by watches.old) trail.old.entries marks.old }
    ensures watched { AreWatched map.new watches.new }
    ensures rearranged { IsRearranged (literals_at input.now) (watched_by watches.old) (watched_by watches.new) }
    ensures implied { HasImplied (literals_at input.now) input.now.level trail.old trail.new }
    ensures ok { IfOk result (λ conflict. MatchOption conflict
        (AreSettled (literals_at input.now) (length input.now.clauses.now) (val trail.new.entries))
        (IsConflict (literals_at input.now) (length input.now.clauses.now) (val trail.new.entries))) }
    ensures memory { IfErr result (λ e. e ≡ OutOfMemory) }
    ensures marks { AreMarks (literals_at input.now) (watched_by watches.new) trail.new.entries marks.new }
{
    let from = marks.newest();
    let before = trail.assignments().len();
    let conflict = saturate_from(input, map, watches, trail, &from)?;
    if conflict.is_some() {
        return Ok(conflict);
    }
    marks.push(mark_at_end(input, watches, trail, &from, before));
    Ok(None)
}

/// Adds to the trail what unit clauses imply, until none is unit or one is false, which it answers. Reads the trail
/// from the mark on.
fn saturate_from<N: Copy, A: Allocator + Copy>(
    input: &SaturationInput<N, A>,
    map: &mut WatchMap<A>,
    watches: &mut [Option<WatchedLiterals>],
    trail: &mut DecisionTracker<A>,
    from: &Mark,
) -> Result<Option<ClauseId>, StoreError>
    requires watched { AreWatched map.old watches.old }
    requires own { WatchOwn (literals_at input.now) (watched_by watches.old) }
    requires unwatched { AreUnwatched (watched_by watches.old) (length input.now.clauses.now) input.now.unwatched.now }
    requires from { IsMark (literals_at input.now) (watched_by watches.old) trail.old.entries from.now }
    ensures watched { AreWatched map.new watches.new }
    ensures rearranged { IsRearranged (literals_at input.now) (watched_by watches.old) (watched_by watches.new) }
    ensures implied { HasImplied (literals_at input.now) input.now.level trail.old trail.new }
    ensures kept { KeepWatchesSatisfied (val trail.old.entries) (watched_by watches.old) (watched_by watches.new) }
    ensures ok { IfOk result (λ conflict. MatchOption conflict
        (AreSettled (literals_at input.now) (length input.now.clauses.now) (val trail.new.entries)
        × AreWatchesSatisfied (val trail.new.entries) (val trail.new.entries) (watched_by watches.new))
        (IsConflict (literals_at input.now) (length input.now.clauses.now) (val trail.new.entries))) }
    ensures memory { IfErr result (λ e. e ≡ OutOfMemory) }
{
    let first = count_before(input, from.clauses);
    let mut place = from.place;
    'rounds: loop {
        let conflict = propagate(input, map, watches, trail, place)?;
        if conflict.is_some() {
            return Ok(conflict);
        }
        place = trail.assignments().len();
        let conflict = visit_all_unwatched(input, trail, first)?;
        if conflict.is_some() {
            return Ok(conflict);
        }
        if trail.assignments().len() == place {
            return Ok(None);
        }
    }
}

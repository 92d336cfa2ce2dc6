//! The entries of the trail, from a place on.
ghost use Rattle.std.specs.Prelude.{◌≡◌, ◌<◌, ◌≤◌, true, Some, length, slice_get, MatchOption, IfOk, IfErr};
ghost use Rattle.typed_ids.specs.declared.error.StoreError.TheVariants.{OutOfMemory};
ghost use Rattle.decisions.specs.Literals.{is_false_literal};
ghost use Rattle.decisions.specs.Trail.{Entry, val};
ghost use Rattle.watch_map.specs.WatchLists.{watched_by, AreWatched};
ghost use Rattle.watch_map.specs.Implication.{IsConflict};
ghost use Rattle.watch_map.specs.Saturation.{WatchOwn, HasImplied, IsRearranged};
ghost use Rattle.watch_map.specs.WatchInvariant.{AreWatchesSatisfied, KeepWatchesSatisfied};
ghost use Rattle.watch_map.specs.WatchInvariant.{refuted_literal, val_before};
ghost use Rattle.watch_map.specs.Visits.{literals_at};

use crate::lists::WatchMap;
use crate::saturation::input::SaturationInput;
use crate::saturation::walk::walk;
use crate::watched_literals::WatchedLiterals;
use decisions::{DecisionTracker, Literal};
use std::alloc::Allocator;
use typed_ids::{ClauseId, StoreError};

/// Walks the lists of the literals that the entries from this place on make false, those that it adds among them.
/// Answers a clause that is false, if it meets one; else all that is false is met. What earlier entries met they meet
/// still.
pub(crate) fn propagate<N: Copy, A: Allocator + Copy>(
    input: &SaturationInput<N, A>,
    map: &mut WatchMap<A>,
    watches: &mut [Option<WatchedLiterals>],
    trail: &mut DecisionTracker<A>,
    from: usize,
) -> Result<Option<ClauseId>, StoreError>
    requires watched { AreWatched map.old watches.old }
    requires own { WatchOwn (literals_at input.now) (watched_by watches.old) }
    requires from { from ≤ length trail.old.entries }
    requires satisfied { AreWatchesSatisfied (val_before from trail.old.entries) (val trail.old.entries)
        (watched_by watches.old) }
    ensures watched { AreWatched map.new watches.new }
    ensures rearranged { IsRearranged (literals_at input.now) (watched_by watches.old) (watched_by watches.new) }
    ensures implied { HasImplied (literals_at input.now) input.now.level trail.old trail.new }
    ensures kept { KeepWatchesSatisfied (val trail.old.entries) (watched_by watches.old) (watched_by watches.new) }
    ensures ok { IfOk result (λ conflict. MatchOption conflict
        (AreWatchesSatisfied (val trail.new.entries) (val trail.new.entries) (watched_by watches.new))
        (IsConflict (literals_at input.now) (length input.now.clauses.now) (val trail.new.entries))) }
    ensures memory { IfErr result (λ e. e ≡ OutOfMemory) }
{
    let mut place = from;
    while place < trail.assignments().len() {
        let literal = refuted_at(trail, place);
        let conflict = walk(input, map, watches, literal, trail)?;
        if conflict.is_some() {
            return Ok(conflict);
        }
        place += 1;
    }
    Ok(None)
}

/// The literal that the entry at the place makes false.
fn refuted_at<A: Allocator + Copy>(trail: &DecisionTracker<A>, place: usize) -> Literal
    requires { place < length trail.now.entries }
    ensures entry { (e : Entry) → slice_get trail.now.entries place ≡ Some e → result ≡ refuted_literal e.decision }
    ensures is_false { is_false_literal (val trail.now.entries) result ≡ true }
{
    let decision = trail.assignments()[place];
    Literal::new(decision.variable, decision.value)
}

//! The clauses that watch one literal.
ghost use Rattle.std.specs.Prelude.{◌≡◌, true, [], length, MatchOption, IfOk, IfErr};
ghost use Rattle.typed_ids.specs.declared.error.StoreError.TheVariants.{OutOfMemory};
ghost use Rattle.decisions.specs.Literals.{is_false_literal};
ghost use Rattle.decisions.specs.Trail.{val};
ghost use Rattle.watch_map.specs.WatchLists.{watched_by, AreWatched};
ghost use Rattle.watch_map.specs.Implication.{IsConflict};
ghost use Rattle.watch_map.specs.Saturation.{WatchOwn, HasImplied, IsRearranged};
ghost use Rattle.watch_map.specs.WatchInvariant.{KeepWatchesSatisfied, AreWatchesSatisfiedBut};
ghost use Rattle.watch_map.specs.Visits.{literals_at};

use crate::cursor::move_watch;
use crate::lists::WatchMap;
use crate::nodes::{Place, next_of, node_at, node_of};
use crate::saturation::input::SaturationInput;
use crate::saturation::visit::{VisitOutcome, visit};
use crate::watched_literals::WatchedLiterals;
use decisions::{DecisionTracker, Literal};
use std::alloc::Allocator;
use typed_ids::{ClauseId, StoreError};

/// Visits each clause that watches the literal, which is false, and lets those that find another literal watch that
/// one. Answers a clause that is false, if it meets one. What earlier entries met, whichever these are, they meet
/// still.
pub(crate) fn walk<N: Copy, A: Allocator + Copy>(
    input: &SaturationInput<N, A>,
    map: &mut WatchMap<A>,
    watches: &mut [Option<WatchedLiterals>],
    literal: Literal,
    trail: &mut DecisionTracker<A>,
) -> Result<Option<ClauseId>, StoreError>
    requires watched { AreWatched map.old watches.old }
    requires own { WatchOwn (literals_at input.now) (watched_by watches.old) }
    requires is_false { is_false_literal (val trail.old.entries) literal ≡ true }
    ensures watched { AreWatched map.new watches.new }
    ensures rearranged { IsRearranged (literals_at input.now) (watched_by watches.old) (watched_by watches.new) }
    ensures implied { HasImplied (literals_at input.now) input.now.level trail.old trail.new }
    ensures kept { KeepWatchesSatisfied (val trail.old.entries) (watched_by watches.old) (watched_by watches.new) }
    ensures ok { IfOk result (λ conflict. MatchOption conflict
        (AreWatchesSatisfiedBut [] literal (val trail.new.entries) (watched_by watches.new))
        (IsConflict (literals_at input.now) (length input.now.clauses.now) (val trail.new.entries))) }
    ensures memory { IfErr result (λ e. e ≡ OutOfMemory) }
{
    let mut previous = None;
    let mut next = map.first(literal);
    while let Some(clause_id) = next {
        let current = node_at(watches, literal, clause_id);
        next = next_of(watches, &current);
        match visit(input, watches, literal, &current, trail)? {
            VisitOutcome::Satisfied => {
                previous = Some(current.clause_id);
            }
            VisitOutcome::Moves(other) => {
                let place = Place {
                    literal,
                    previous: node_of(watches, literal, &previous),
                    current,
                };
                move_watch(map, watches, &place, other)?;
            }
            VisitOutcome::Conflict => return Ok(Some(clause_id)),
        }
    }
    Ok(None)
}

//! The mark at a saturation's end.
ghost use Rattle.std.specs.Prelude.{ℕ, ◌≤◌, length, take, drop};
ghost use Rattle.decisions.specs.Trail.{val, level_of};
ghost use Rattle.watch_map.specs.WatchLists.{watched_by};
ghost use Rattle.watch_map.specs.WatchInvariant.{AreWatchesSatisfied};
ghost use Rattle.watch_map.specs.Visits.{literals_at};
ghost use Rattle.watch_map.specs.Watching.{AreUnwatched};
ghost use Rattle.watch_map.specs.Marks.{IsMark, IsBehind};

use crate::marks::Mark;
use crate::saturation::input::SaturationInput;
use crate::saturation::unwatched::{bound_of_true, count_before};
use crate::watched_literals::WatchedLiterals;
use decisions::DecisionTracker;
use std::alloc::Allocator;

/// The mark of the trail's end, where all that is false is met. The mark from which the saturation went on tells the
/// beginning: it reads what came behind alone. The entries from the place `before` on are what the saturation added.
pub(crate) fn mark_at_end<N: Copy, A: Allocator + Copy>(
    input: &SaturationInput<N, A>,
    watches: &[Option<WatchedLiterals>],
    trail: &DecisionTracker<A>,
    from: &Mark,
    before: usize,
) -> Mark
    requires unwatched { AreUnwatched (watched_by watches.now) (length input.now.clauses.now) input.now.unwatched.now }
    requires from { IsMark (literals_at input.now) (watched_by watches.now) trail.now.entries from.now }
    requires satisfied { AreWatchesSatisfied (val trail.now.entries) (val trail.now.entries) (watched_by watches.now) }
    requires before { (from.now.place ≤ before) × (before ≤ length trail.now.entries) }
    requires added { (x : ℕ) → level_of (drop before trail.now.entries) x ≤ input.now.level }
    ensures mark { IsMark (literals_at input.now) (watched_by watches.now) trail.now.entries result }
    ensures behind { IsBehind from.now result }
{
    let first = count_before(input, from.clauses);
    Mark {
        place: trail.assignments().len(),
        clauses: bound_of_true(input, trail.map(), first),
        level: highest_level(trail, from, before, input.level),
    }
}

/// The highest level of an entry, that of the mark if no later one is higher. The entries from the place `before` on
/// are of the level `added`, if there are any, so it reads only those between the mark and that place.
fn highest_level<A: Allocator + Copy>(
    trail: &DecisionTracker<A>,
    from: &Mark,
    before: usize,
    added: u32,
) -> u32
    requires levels { (x : ℕ) → level_of (take from.now.place trail.now.entries) x ≤ from.now.level }
    requires before { (from.now.place ≤ before) × (before ≤ length trail.now.entries) }
    requires added { (x : ℕ) → level_of (drop before trail.now.entries) x ≤ added }
    ensures highest { (x : ℕ) → level_of trail.now.entries x ≤ result }
    ensures behind { from.now.level ≤ result }
{
    let decisions = trail.assignments();
    let mut level = from.level;
    for index in from.place..before {
        let own = trail.level(decisions[index].variable);
        level = level.max(own);
    }
    if before < decisions.len() {
        level = level.max(added);
    }
    level
}

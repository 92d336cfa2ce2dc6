//! A law of the trail, whatever it holds.
ghost use Rattle.decisions.specs.Floor.{FloorIsLeast};

/// The floor that `DecisionTracker::take_sync_floor` answers is the least number of decisions that there were since it
/// was last taken, whatever calls came between.
pub fn floor_is_least()
    ensures { FloorIsLeast }
{}

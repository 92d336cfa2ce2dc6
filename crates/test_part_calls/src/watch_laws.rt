//! The laws for callers of watch lists.
ghost use Rattle.watch_map.specs.Laws.{SameRecordsBelong, RecordsGrow, NewClausesJoin, RecordsSkip};
ghost use Rattle.watch_map.specs.Laws.{RoomIsForFewer, CursorsDivide, ClausesAreVisitedOnce, CursorsOutliveRoom};

/// Records of the same clauses show the same lists; the record of a new clause comes behind the others, whose lists it
/// joins, and a clause without watches changes none.
pub fn records_may_grow()
    ensures same { SameRecordsBelong }
    ensures watched { RecordsGrow }
    ensures joins { NewClausesJoin }
    ensures unwatched { RecordsSkip }
{}

/// Room for several clauses is room for fewer, and a cursor outlives what only makes room.
pub fn room_may_be_left()
    ensures fewer { RoomIsForFewer }
    ensures cursors { CursorsOutliveRoom }
{}

/// A cursor divides its list into what it has passed, the clause at which it stands, and others that come behind it.
pub fn cursors_are_walks()
    ensures divide { CursorsDivide }
    ensures once { ClausesAreVisitedOnce }
{}

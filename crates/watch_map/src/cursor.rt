//! Positions in the lists of the clauses that watch a literal.
ghost use Rattle.std.specs.Prelude.{◌≡◌, ◌<◌, ◌++◌, [], ◌∷◌, true, false, length};
ghost use Rattle.std.specs.Prelude.{Some, OnOk, OnErr, IfOk, IfErr, IsOk, IfSome};
ghost use Rattle.std.specs.Option.{ForSome};
ghost use Rattle.typed_ids.specs.declared.error.StoreError.TheVariants.{OutOfMemory};
ghost use Rattle.watch_map.specs.Watching.{AreTwoOrNone, is_literal_in};
ghost use Rattle.watch_map.specs.WatchLists.{watched_by, record_of, next_at, HasRoom, IsCursorAt};
ghost use Rattle.watch_map.specs.WatchLists.{clause_of, index_of, literal_of};
ghost use Rattle.watch_map.specs.WatchCalls.{SameLists, KeepsRoom, UsesRoom, StandsIn};
ghost use Rattle.watch_map.specs.WatchCalls.{StandsBehind, IsReached, Moves, passed, rest, remaining};

use crate::lists::WatchMap;
use crate::nodes::{Place, WatchNode, next_of, node_at, record_at, set_watch};
use crate::watched_literals::WatchedLiterals;
use decisions::Literal;
use std::alloc::Allocator;
use std::marker::Model;
use typed_ids::{ClauseId, InsertError, StoreError};

/// A position in a literal's list, at one of its clauses.
///
/// It borrows neither the map nor the records: whoever walks hands them to each call, and may read and write them
/// between two calls. A call that moves the position asks that it still stands in the lists that it is given, as it
/// does after whatever changed none of the clauses up to its own.
///
/// ```text
/// let mut cursor = map.cursor(watches, literal);
/// while let Some(at) = cursor {
///     cursor = match replacement(at.clause_id()) {
///         Some(other) => at.update(map, watches, other)?,
///         None => at.next(map, watches),
///     };
/// }
/// ```
#[derive(Drop)]
pub struct WatchMapCursor {
    place: Place,
}

/// The literal whose list it walks, the node in front, and that at which it stands.
impl Model for WatchMapCursor {
    ghost use Rattle.watch_map.specs.WatchLists.{Position};

    ghost Value = { Position };

    ghost view = { λ c. c.place };
}

impl WatchMapCursor {
    /// The position at this clause of a literal's list, behind the node `previous`, if there is a clause.
    #[inline(always)]
    pub(crate) fn at_clause(
        watches: &[Option<WatchedLiterals>],
        literal: Literal,
        previous: Option<WatchNode>,
        clause_id: Option<ClauseId>,
    ) -> Option<WatchMapCursor>
        requires two { ForSome clause_id (λ clause. AreTwoOrNone (watched_by watches.now clause)) }
        requires watched { ForSome clause_id (λ clause. is_literal_in literal (watched_by watches.now clause) ≡ true) }
        ensures { IsCursorAt watches.now literal previous clause_id result }
    {
        match clause_id {
            Some(clause_id) => Some(WatchMapCursor {
                place: Place {
                    literal,
                    previous,
                    current: node_at(watches, literal, clause_id),
                },
            }),
            None => None,
        }
    }

    /// The clause at which it stands.
    pub fn clause_id(&self) -> ClauseId
        ensures { result ≡ clause_of self.now }
    {
        self.place.current.clause_id
    }

    /// Which of the clause's two watches is the literal whose list it walks, 0 or 1.
    pub fn watch_index(&self) -> usize
        ensures { result ≡ index_of self.now }
    {
        self.place.current.watch_index as usize
    }

    /// The record of the clause at which it stands. Takes no memory.
    pub fn watched_literals<'w>(
        &self,
        watches: &'w [Option<WatchedLiterals>],
    ) -> &'w WatchedLiterals
        requires { 0 < length (watched_by watches.now (clause_of self.now)) }
        ensures { record_of watches.now (clause_of self.now) ≡ Some result.now }
    {
        record_at(watches, self.place.current.clause_id)
    }

    /// The position behind it, `None` at the end of the list. Constant time; takes no memory.
    #[inline(always)]
    pub fn next<A: Allocator + Copy>(
        self,
        map: &WatchMap<A>,
        watches: &[Option<WatchedLiterals>],
    ) -> Option<WatchMapCursor>
        requires { StandsIn self map.now watches.now }
        ensures list { remaining result map.now watches.now ≡ rest self map.now watches.now }
        ensures stands { IfSome result (StandsBehind (passed self map.now watches.now ++ clause_of self ∷ [])
            (literal_of self) map.now watches.now) }
    {
        next_place(map, watches, &self.place)
    }

    /// Lets the clause watch another literal in the place of the one whose list is walked: the clause leaves this list,
    /// whose others keep their order, and goes to the front of the other. Answers the position at the clause behind it,
    /// `None` at the end of the list. A refusal gives the position back.
    ///
    /// Constant time, at any place of the list. Takes memory where the other literal's list has no room.
    pub fn update<A: Allocator + Copy>(
        self,
        map: &mut WatchMap<A>,
        watches: &mut [Option<WatchedLiterals>],
        new_watch: Literal,
    ) -> Result<Option<WatchMapCursor>, InsertError<WatchMapCursor>>
        requires stands { StandsIn self map.old watches.old }
        requires other { is_literal_in new_watch (watched_by watches.old (clause_of self)) ≡ false }
        ensures lists { OnOk result (Moves self new_watch map.old watches.old map.new watches.new) }
        ensures list { IfOk result (λ next. remaining next map.new watches.new ≡ rest self map.old watches.old) }
        ensures stands { IfOk result (λ next. IfSome next
            (StandsBehind (passed self map.old watches.old) (literal_of self) map.new watches.new)) }
        ensures err { IfErr result (λ refused. (refused.value ≡ self) ×
            StandsBehind (passed self map.old watches.old) (literal_of self) map.new watches.new refused.value) }
        ensures err_lists { OnErr result (SameLists map.old map.new × (watches.new ≡ watches.old)) }
        ensures ok_rooms { OnOk result (UsesRoom (new_watch ∷ []) map.old map.new) }
        ensures err_rooms { OnErr result (KeepsRoom map.old map.new) }
        ensures succeeds { HasRoom map.old new_watch 1 → IsOk result }
        ensures memory { IfErr result (λ refused. refused.error ≡ OutOfMemory) }
    {
        if let Err(error) = map.make_room(new_watch) {
            return Err(InsertError { error, value: self });
        }
        Ok(move_clause(map, watches, &self.place, new_watch))
    }
}

/// The position behind this place.
#[inline(always)]
fn next_place<A: Allocator + Copy>(
    map: &WatchMap<A>,
    watches: &[Option<WatchedLiterals>],
    place: &Place,
) -> Option<WatchMapCursor>
    requires { StandsIn place.now map.now watches.now }
    ensures list { remaining result map.now watches.now ≡ rest place.now map.now watches.now }
    ensures stands { IfSome result (StandsBehind (passed place.now map.now watches.now ++ clause_of place.now ∷ [])
        (literal_of place.now) map.now watches.now) }
{
    let next = next_of(watches, &place.current);
    WatchMapCursor::at_clause(watches, place.literal, Some(place.current), next)
}

/// Moves the clause at this place to the front of another literal's list, where there is room: what
/// [`WatchMapCursor::update`] does.
fn move_clause<A: Allocator + Copy>(
    map: &mut WatchMap<A>,
    watches: &mut [Option<WatchedLiterals>],
    place: &Place,
    new_watch: Literal,
) -> Option<WatchMapCursor>
    requires stands { StandsIn place.now map.old watches.old }
    requires other { is_literal_in new_watch (watched_by watches.old (clause_of place.now)) ≡ false }
    requires room { HasRoom map.old new_watch 1 }
    ensures lists { Moves place.now new_watch map.old watches.old map.new watches.new }
    ensures list { remaining result map.new watches.new ≡ rest place.now map.old watches.old }
    ensures stands { IfSome result
        (StandsBehind (passed place.now map.old watches.old) (literal_of place.now) map.new watches.new) }
    ensures rooms { KeepsRoom map.old map.new }
{
    let next = next_of(watches, &place.current);
    relink(map, watches, place, new_watch);
    WatchMapCursor::at_clause(watches, place.literal, place.previous, next)
}

/// The same for a walk that is at this place, and goes on by itself. Takes memory where the other literal's list has no
/// room.
// The copy is made here: as a variable of the walk it would be cleared for each literal that is walked.
pub(crate) fn move_watch<A: Allocator + Copy>(
    map: &mut WatchMap<A>,
    watches: &mut [Option<WatchedLiterals>],
    place: &Place,
    new_watch: Literal,
) -> Result<(), StoreError>
    requires stands { StandsIn place.now map.old watches.old }
    requires other { is_literal_in new_watch (watched_by watches.old (clause_of place.now)) ≡ false }
    ensures lists { OnOk result (Moves place.now new_watch map.old watches.old map.new watches.new) }
    ensures reached { OnOk result (IsReached (literal_of place.now) place.now.previous
        (next_at (record_of watches.old (clause_of place.now)) (index_of place.now)) map.new watches.new
        (passed place.now map.old watches.old) (rest place.now map.old watches.old)) }
    ensures err_lists { OnErr result (SameLists map.old map.new × (watches.new ≡ watches.old)) }
    ensures memory { IfErr result (λ e. e ≡ OutOfMemory) }
{
    move_from(map, watches, *place, new_watch)
}

/// What [`move_watch`] does.
// Most clauses that a walk visits stay. Out of line, a move takes no registers from what is done with those.
#[inline(never)]
fn move_from<A: Allocator + Copy>(
    map: &mut WatchMap<A>,
    watches: &mut [Option<WatchedLiterals>],
    place: Place,
    new_watch: Literal,
) -> Result<(), StoreError>
    requires stands { StandsIn place map.old watches.old }
    requires other { is_literal_in new_watch (watched_by watches.old (clause_of place)) ≡ false }
    ensures lists { OnOk result (Moves place new_watch map.old watches.old map.new watches.new) }
    ensures reached { OnOk result (IsReached (literal_of place) place.previous
        (next_at (record_of watches.old (clause_of place)) (index_of place)) map.new watches.new
        (passed place map.old watches.old) (rest place map.old watches.old)) }
    ensures err_lists { OnErr result (SameLists map.old map.new × (watches.new ≡ watches.old)) }
    ensures memory { IfErr result (λ e. e ≡ OutOfMemory) }
{
    map.make_room(new_watch)?;
    relink(map, watches, &place, new_watch);
    Ok(())
}

/// Takes the clause at this place out of the list, and puts it to the front of another literal's, where there is room.
fn relink<A: Allocator + Copy>(
    map: &mut WatchMap<A>,
    watches: &mut [Option<WatchedLiterals>],
    place: &Place,
    new_watch: Literal,
)
    requires stands { StandsIn place.now map.old watches.old }
    requires other { is_literal_in new_watch (watched_by watches.old (clause_of place.now)) ≡ false }
    requires room { HasRoom map.old new_watch 1 }
    ensures lists { Moves place.now new_watch map.old watches.old map.new watches.new }
    ensures reached { IsReached (literal_of place.now) place.now.previous
        (next_at (record_of watches.old (clause_of place.now)) (index_of place.now)) map.new watches.new
        (passed place.now map.old watches.old) (rest place.now map.old watches.old) }
    ensures rooms { KeepsRoom map.old map.new }
{
    map.unlink(watches, place);
    let next_of_new = map.put_first(new_watch, place.current.clause_id);
    set_watch(watches, &place.current, new_watch, next_of_new);
}

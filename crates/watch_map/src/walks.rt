//! What is done with the lists of the clauses that watch a literal.
ghost use Rattle.std.specs.Prelude.{◌≡◌, true, if◌then◌else◌, IsTrue, IfOk, OnOk, OnErr, IfErr, length};
ghost use Rattle.std.specs.List.{All};
ghost use Rattle.typed_ids.specs.declared.error.StoreError.TheVariants.{OutOfMemory, BadWatch};
ghost use Rattle.watch_map.specs.Watching.{AreTwoOrNone, is_clause_in};
ghost use Rattle.watch_map.specs.WatchLists.{literals_in, watchers, AreWatched, clause_of, literal_of};
ghost use Rattle.watch_map.specs.WatchCalls.{SameLists, KeepsRoom, UsesRoom, HaveRoom, HaveRooms, StandsIn};
ghost use Rattle.watch_map.specs.ClauseList.{helper_literal, bit_watches, literals_watched, two_or_none};
ghost use Rattle.clauses.specs.declared.clause.Clause.TheVariants.{ForbidMultipleInstances};
ghost use Rattle.watch_map.specs.Walks.{StartsAtEnd, IsRewatched, may_rewatch, largest_variable};

use crate::cursor::WatchMapCursor;
use crate::lists::WatchMap;
use crate::watched_literals::WatchedLiterals;
use clauses::Clause;
use decisions::Literal;
use std::alloc::Allocator;
use typed_ids::{ClauseId, DenseIndex, StoreError, VariableId};

/// The clauses that watch the literal, front first.
pub(crate) fn watchers<A: Allocator + Copy>(
    alloc: A,
    map: &WatchMap<A>,
    watches: &[Option<WatchedLiterals>],
    literal: Literal,
) -> Result<Vec<ClauseId, A>, StoreError>
    requires { AreWatched map.now watches.now }
    ensures ok { IfOk result (λ found. found.items ≡ watchers map.now watches.now literal) }
    ensures memory { IfErr result (λ e. e ≡ OutOfMemory) }
{
    let mut found = Vec::new(alloc);
    let mut cursor = map.cursor(watches, literal);
    while let Some(at) = cursor {
        found.push(at.clause_id())?;
        cursor = at.next(map, watches);
    }
    Ok(found)
}

/// Lets a new clause start watching, which comes behind all others. There is room in its lists.
pub(crate) fn started<A: Allocator + Copy>(
    map: &mut WatchMap<A>,
    watches: Option<WatchedLiterals>,
    id: ClauseId,
) -> Option<WatchedLiterals>
    requires room { HaveRoom map.old (literals_in watches) }
    requires two { AreTwoOrNone (literals_in watches) }
    ensures same { literals_in result ≡ literals_in watches }
    ensures starts { StartsAtEnd map.old result id map.new }
    ensures rooms { UsesRoom (literals_in watches) map.old map.new }
{
    let [first, second] = watches?.watched_literals;
    Some(map.started(first, second, id))
}

/// The clause "not x or h" of a variable x, a helper h and `true`, or "not x or not h" of these and `false`, with what
/// it watches.
pub(crate) fn forbidden<N>(
    name: N,
    bit: (VariableId, VariableId, bool),
) -> (Option<WatchedLiterals>, Clause<N>)
    ensures clause { result.1 ≡ ForbidMultipleInstances bit.0 (helper_literal bit) name }
    ensures watches { literals_watched result.0 ≡ bit_watches bit }
{
    let (variable, helper, is_positive) = bit;
    WatchedLiterals::forbid_multiple(variable, Literal::new(helper, !is_positive), name)
}

/// Makes room in the lists of what a clause watches, for one addition.
pub(crate) fn make_room<A: Allocator + Copy>(
    map: &mut WatchMap<A>,
    watches: &Option<WatchedLiterals>,
) -> Result<(), StoreError>
    ensures lists { SameLists map.old map.new }
    ensures rooms { KeepsRoom map.old map.new }
    ensures room { OnOk result (HaveRoom map.new (two_or_none (literals_watched watches.now))) }
    ensures memory { IfErr result (λ e. e ≡ OutOfMemory) }
{
    if let Some(watched) = watches {
        let [first, second] = watched.watched_literals;
        map.make_room(first)?;
        map.make_room(second)?;
    }
    Ok(())
}

/// Makes room in the lists of what each of these clauses watches, for as many additions as there are clauses: the slots
/// up to the last of the literals of their largest variable serve all.
pub(crate) fn make_rooms<A: Allocator + Copy>(
    map: &mut WatchMap<A>,
    clauses: &[(VariableId, VariableId, bool)],
) -> Result<(), StoreError>
    ensures lists { SameLists map.old map.new }
    ensures rooms { KeepsRoom map.old map.new }
    ensures room { OnOk result
        (All (λ bit. HaveRooms map.new (length clauses.now) (two_or_none (bit_watches bit))) clauses.now) }
    ensures memory { IfErr result (λ e. e ≡ OutOfMemory) }
{
    let largest = largest_variable(clauses);
    map.make_room_many(Literal::new(largest, true), clauses.len())
}

/// The largest of the variables and helpers of these clauses; the root's where there is no clause.
fn largest_variable(clauses: &[(VariableId, VariableId, bool)]) -> VariableId
    ensures { result ≡ largest_variable clauses.now }
{
    let mut largest = 0;
    for clause in clauses {
        let (variable, helper, _) = *clause;
        largest = largest.max(variable.to_index().max(helper.to_index()));
    }
    VariableId::from_index(largest)
}

/// Lets a clause watch another literal in the place of one, if it watches the one and not the other.
pub(crate) fn rewatch<A: Allocator + Copy>(
    map: &mut WatchMap<A>,
    watches: &mut [Option<WatchedLiterals>],
    id: ClauseId,
    from: Literal,
    to: Literal,
) -> Result<(), StoreError>
    requires { AreWatched map.old watches.old }
    ensures ok { OnOk result (IsRewatched map.old watches.old id from to map.new watches.new) }
    ensures can { OnOk result (IsTrue (may_rewatch watches.old id from to)) }
    ensures err { OnErr result (SameLists map.old map.new × (watches.new ≡ watches.old)) }
    ensures refused { IfErr result (λ e. e ≡ (if may_rewatch watches.old id from to then OutOfMemory else BadWatch)) }
{
    if !may_rewatch(watches, id, from, to) {
        return Err(StoreError::BadWatch);
    }
    let at = position(map, watches, from, id);
    match at.update(map, watches, to) {
        Ok(_) => Ok(()),
        Err(refused) => Err(refused.error),
    }
}

/// Whether the clause watches the one literal, and not the other.
fn may_rewatch(
    watches: &[Option<WatchedLiterals>],
    id: ClauseId,
    from: Literal,
    to: Literal,
) -> bool
    ensures { result ≡ may_rewatch watches.now id from to }
{
    match watches.get(id.to_index()) {
        Some(Some(watched)) => {
            let [first, second] = watched.watched_literals;
            (first == from || second == from) && !(first == to || second == to)
        }
        _ => false,
    }
}

/// The position of a clause in the list of a literal that it watches.
fn position<A: Allocator + Copy>(
    map: &WatchMap<A>,
    watches: &[Option<WatchedLiterals>],
    literal: Literal,
    id: ClauseId,
) -> WatchMapCursor
    requires watched { AreWatched map.now watches.now }
    requires there { is_clause_in id (watchers map.now watches.now literal) ≡ true }
    ensures stands { StandsIn result map.now watches.now }
    ensures clause { clause_of result ≡ id }
    ensures literal { literal_of result ≡ literal }
{
    let mut cursor = map.cursor(watches, literal);
    while let Some(at) = cursor {
        if at.clause_id() == id {
            return at;
        }
        cursor = at.next(map, watches);
    }
    unreachable!()
}

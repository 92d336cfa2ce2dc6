//! The nodes of which the lists are made: a clause's record has one in each of its two lists.
ghost use Rattle.std.specs.Prelude.{◌≡◌, ◌<◌, true, length, option_map, slice_index_or};
ghost use Rattle.std.specs.Option.{ForSome};
ghost use Rattle.typed_ids.specs.TotalMaps.{IsUpdate};
ghost use Rattle.watch_map.specs.Watching.{AreTwoOrNone, is_literal_in};
ghost use Rattle.watch_map.specs.WatchLists.{watched_by, record_of, next_at, with_next, with_watch};
ghost use Rattle.watch_map.specs.WatchLists.{IsNode, CanBeLinked};

use crate::next_clause::NextClause;
use crate::watched_literals::WatchedLiterals;
use decisions::Literal;
use typed_ids::{ClauseId, DenseIndex};

/// One of the two lists in which a clause stands.
#[derive(Clone, Copy)]
pub(crate) struct WatchNode {
    pub(crate) clause_id: ClauseId,
    /// Which of the clause's watches has the list.
    pub(crate) watch_index: u32,
}

/// A place in the list of a literal.
#[derive(Clone, Copy)]
pub(crate) struct Place {
    pub(crate) literal: Literal,
    /// The node in front, `None` at the front of the list.
    pub(crate) previous: Option<WatchNode>,
    pub(crate) current: WatchNode,
}

/// The node of a clause in the list of a literal that it watches.
pub(crate) fn node_at(
    watches: &[Option<WatchedLiterals>],
    literal: Literal,
    clause_id: ClauseId,
) -> WatchNode
    requires two { AreTwoOrNone (watched_by watches.now clause_id) }
    requires watched { is_literal_in literal (watched_by watches.now clause_id) ≡ true }
    ensures clause { result.clause_id ≡ clause_id }
    ensures within { result.watch_index < length (watched_by watches.now clause_id) }
    ensures watch { slice_index_or (watched_by watches.now clause_id) result.watch_index literal ≡ literal }
{
    let watch_index = match &watches[clause_id.to_index()] {
        Some(watched) if watched.watched_literals[0] == literal => 0,
        _ => 1,
    };
    WatchNode {
        clause_id,
        watch_index,
    }
}

/// The node of a clause, if there is one, in the list of a literal that it watches.
pub(crate) fn node_of(
    watches: &[Option<WatchedLiterals>],
    literal: Literal,
    clause_id: &Option<ClauseId>,
) -> Option<WatchNode>
    requires two { ForSome clause_id.now (λ clause. AreTwoOrNone (watched_by watches.now clause)) }
    requires watched { ForSome clause_id.now (λ clause. is_literal_in literal (watched_by watches.now clause) ≡ true) }
    ensures clause { option_map (λ node. node.clause_id) result ≡ clause_id.now }
    ensures node { ForSome result (IsNode watches.now literal) }
{
    match clause_id {
        Some(clause_id) => Some(node_at(watches, literal, *clause_id)),
        None => None,
    }
}

/// The record of a clause that watches something.
pub(crate) fn record_at(
    watches: &[Option<WatchedLiterals>],
    clause_id: ClauseId,
) -> &WatchedLiterals
    requires { 0 < length (watched_by watches.now clause_id) }
    ensures { record_of watches.now clause_id ≡ Some result.now }
{
    match &watches[clause_id.to_index()] {
        Some(watched) => watched,
        None => unreachable!(),
    }
}

/// The clause behind a node.
pub(crate) fn next_of(watches: &[Option<WatchedLiterals>], node: &WatchNode) -> Option<ClauseId>
    requires { CanBeLinked node.now (record_of watches.now node.now.clause_id) }
    ensures { result ≡ next_at (record_of watches.now node.now.clause_id) node.now.watch_index }
{
    match &watches[node.clause_id.to_index()] {
        Some(watched) => watched.next_watches[node.watch_index as usize].clause_id(),
        None => unreachable!(),
    }
}

/// Makes `next` the clause behind a node.
pub(crate) fn set_next(
    watches: &mut [Option<WatchedLiterals>],
    node: &WatchNode,
    next: Option<ClauseId>,
)
    requires { CanBeLinked node.now (record_of watches.old node.now.clause_id) }
    ensures { IsUpdate (record_of watches.old) node.now.clause_id
        (with_next node.now.watch_index next (record_of watches.old node.now.clause_id)) (record_of watches.new) }
{
    if let Some(watched) = &mut watches[node.clause_id.to_index()] {
        watched.next_watches[node.watch_index as usize] = NextClause::new(next);
    }
}

/// Gives a clause another literal to watch, in whose list `next` is behind it.
pub(crate) fn set_watch(
    watches: &mut [Option<WatchedLiterals>],
    node: &WatchNode,
    literal: Literal,
    next: Option<ClauseId>,
)
    requires { CanBeLinked node.now (record_of watches.old node.now.clause_id) }
    ensures { IsUpdate (record_of watches.old) node.now.clause_id
        (with_watch node.now.watch_index literal next (record_of watches.old node.now.clause_id))
        (record_of watches.new) }
{
    if let Some(watched) = &mut watches[node.clause_id.to_index()] {
        let index = node.watch_index as usize;
        watched.watched_literals[index] = literal;
        watched.next_watches[index] = NextClause::new(next);
    }
}

//! A walk that keeps or moves the watch of each clause that it meets.
ghost use Rattle.std.specs.Prelude.{◌≡◌, ℕ, false, ◌++◌, Option, OnOk, OnErr, IfErr};
ghost use Rattle.std.specs.Option.{ForSome};
ghost use Rattle.typed_ids.specs.declared.error.StoreError.TheVariants.{OutOfMemory};
ghost use Rattle.decisions.specs.Literals.{Lit};
ghost use Rattle.watch_map.specs.Watching.{is_literal_in};
ghost use Rattle.watch_map.specs.WatchLists.{watched_by, watchers, AreWatched};
ghost use Rattle.test_part_calls.specs.Walks.{staying, IsBeginning};

use decisions::Literal;
use std::alloc::Allocator;
use typed_ids::{ClauseId, StoreError};
use watch_map::{WatchMap, WatchedLiterals};

/// What a clause is to watch in the place of a literal that it watches.
pub trait Rewatch {
    /// The other literal, if the clause is to watch one.
    ghost choice: { Self → ℕ → Option Lit };

    /// The other literal, if the clause is to watch one.
    fn new_watch(&self, clause_id: ClauseId) -> Option<Literal>
        ensures { result ≡ choice self.now clause_id };
}

/// Goes through the clauses that watch the literal, and lets each keep the watch or move it. Writes down the clauses
/// that it meets: each that watched the literal at the start, once and in order. Refused for memory it stops where it
/// is, and the lists are exact all the same.
pub fn walk<A: Allocator + Copy, R: Rewatch>(
    map: &mut WatchMap<A>,
    watches: &mut [Option<WatchedLiterals>],
    literal: Literal,
    rewatch: &R,
    met: &mut Vec<ClauseId, A>,
) -> Result<(), StoreError>
    requires watched { AreWatched map.old watches.old }
    requires others { (clause : ℕ) →
        ForSome (R.choice rewatch.now clause) (λ to. is_literal_in to (watched_by watches.old clause) ≡ false) }
    ensures watched { AreWatched map.new watches.new }
    ensures met { OnOk result (met.new.items ≡ met.old.items ++ watchers map.old watches.old literal) }
    ensures staying { OnOk result (watchers map.new watches.new literal ≡
        staying (R.choice rewatch.now) (watchers map.old watches.old literal)) }
    ensures err { OnErr result (IsBeginning met.new.items (met.old.items ++ watchers map.old watches.old literal)) }
    ensures memory { IfErr result (λ e. e ≡ OutOfMemory) }
{
    let mut cursor = map.cursor(watches, literal);
    while let Some(at) = cursor {
        let clause_id = at.clause_id();
        match met.push(clause_id) {
            Ok(()) => {}
            Err(_) => return Err(StoreError::OutOfMemory),
        }
        cursor = match rewatch.new_watch(clause_id) {
            None => at.next(map, watches),
            Some(new_watch) => match at.update(map, watches, new_watch) {
                Ok(next) => next,
                Err(refused) => return Err(refused.error),
            },
        };
    }
    Ok(())
}

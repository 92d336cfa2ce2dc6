//! Watch lists: for each literal the clauses that watch it; and the list of all clauses of a store, which keeps them.
//!
//! While neither of its two watches is false, nothing follows from a clause. So when a literal becomes false, a search
//! visits the clauses that watch it, and no others: it walks the literal's watch list, and lets each clause that finds
//! another literal watch that one. A clause that a list lost would never be visited again, and a wrong answer would
//! come much later; so the contracts say of each list exactly what it holds.
//!
//! # How the lists are kept
//!
//! No list has memory of its own. The record of a clause, [`WatchedLiterals`], has the two literals that it watches,
//! and for each of them the clause that comes next in that literal's list; the map, [`WatchMap`], has the first clause
//! of each list. The records stand in a slice, by clause id, which its owner hands to each call.
//!
//! Here three clauses watch `a`, two of them `b`, and one a literal whose list isn't drawn; `-` is no next clause. The
//! newest clause is the first.
//!
//! ```text
//! first      record 0         record 1         record 2
//!
//! a: 2       a, next -        a, next 0        a, next 1        a:  2 --> 1 --> 0
//! b: 2       b, next -        c, next -        b, next 0        b:  2 --> 0
//! ```
//!
//! A [`WatchMapCursor`] at clause 1 of the list of `a` knows the node in front of it, that of clause 2. It lets clause
//! 1 watch `b` in the place of `a`: what came next of clause 1 now comes next of clause 2, and clause 1 is the first of
//! `b`, before what was the first.
//!
//! ```text
//! a: 2       a, next -        b, next 2        a, next 0        a:  2 --> 0
//! b: 1       b, next -        c, next -        b, next 0        b:  1 --> 2 --> 0
//! ```
//!
//! Two records and one first clause were written, whatever the length of the lists. Where no node is in front, the next
//! clause becomes the first, and a list that ends there has none.
//!
//! # Where it is said
//!
//! `watched_literals` has the records, with a constructor for each kind of clause; `nodes` reads and writes one of a
//! record's two links; `lists` has the map, and `cursor` the positions in its lists.
//!
//! What clauses watch, and what a new or a moved watch makes of the lists, is said by functions in `specs/Watching`;
//! what map, records and cursor show in `specs/WatchLists`; and what the calls promise in `specs/WatchCalls`. A caller
//! looks at no more of `watchers`, `HasRoom` and `AreWatched` than their field `exact` and the laws in `specs/Laws`:
//! then it doesn't depend on how the lists are kept.
//!
//! [`ClauseList`], in `clause_list`, is such a caller, with its walks in `walks`: the list of all clauses of a store,
//! each with what it watches, the clauses that watch each literal, and the literals of the learnt ones. A clause's id
//! is its place in the list. What the calls make of the list is said in `specs/ClauseList`.
//!
//! [`ClauseList::saturate`] adds to the trail what clauses force, until none forces anything: `saturation` tells how.
//! What clauses force is said in `specs/Implication`, what a saturation changes in `specs/Saturation`, and what is true
//! while it goes on in `specs/WatchInvariant` and `specs/Visits`. [`Marks`] are places of the trail from which a later
//! saturation goes on; what they say is in `specs/Marks`.
#![tactic(auto)]

mod clause_list;
mod cursor;
mod lists;
mod marks;
mod next_clause;
mod nodes;
mod saturation;
mod stored_clause;
mod unwatched;
mod walks;
mod watched_literals;

pub use clause_list::ClauseList;
pub use cursor::WatchMapCursor;
pub use lists::WatchMap;
pub use marks::Marks;
pub use watched_literals::WatchedLiterals;

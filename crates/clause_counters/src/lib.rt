//! Finds the first falsified clause. A clause is a list of groups of literals, and says that not all its groups are
//! false.
//!
//! A group is false if each of its literals is. So "if p, and the condition holds, one of the rows" is a clause of
//! three groups: not p; the literals of the condition's disjunction; the rows. Clauses of one parent share its group,
//! and clauses of one requirement share the group of its rows.
//!
//! No query scans clauses or literals. A literal has one place in each of its groups, even if the group's list has it
//! twice. Each group counts its places whose literals aren't false, and each clause its groups that aren't false. A
//! literal that becomes false or undecided changes these counters, and a clause whose counter becomes 0 enters a heap.
//! The first falsified clause is on top: clauses of one parent follow one another, and parents come in the order of
//! their first clauses. The entry of a clause that isn't falsified any more is stale: a query removes it when it is on
//! top.
//!
//! Two clauses, "if p, one of a, b" and "if p, and not c, one of d, d, b", where p is true and b false:
//!
//! ```text
//!  literal    places           group            left   members         clause         left
//!
//!  not p  --> [0]              0: not p           0 --> [0, 1]         0: 0, 1          1
//!  a      --> [1]              1: a, b            1 --> [0]            1: 0, 2, 3       2
//!  b      --> [1, 3]           2: c               1 --> [1]
//!  c      --> [2]              3: d, d, b         1 --> [1]            heap: empty
//!  d      --> [3]
//! ```
//!
//! Now a becomes false. The counter of group 1 becomes 0, so that of clause 0 does too, and clause 0 enters the heap.
//! When a is undecided again, both counters rise again, and the entry in the heap is stale.
//!
//! A literal's places and a group's members are lists in two pools (`links`). `falsified_heap` has the clauses with
//! their counters and the heap, and knows no literal or group. `groups` changes the counter of a group, `walks` those
//! of all groups of a literal. `adding` gives literals places of a group, and makes a clause a member of its groups;
//! `rows` makes literals of rows. `counters` has the calls for all of it.
//!
//! Only adding takes memory: the heap has room for each clause from when it is added. A group costs 8 bytes and 8 for
//! each place; a clause costs 16 bytes and 8 for each of its groups. The literals are a table by their indexes, 8 bytes
//! each, up to the last one that stands in a group.
//!
//! A contract speaks of what the counters represent (`specs/GroupedClauses`): the literals of each group, the groups
//! of each clause and the first clause of its parent, and which literals are false, as a function. One state
//! `Represents` several such values. They differ only in orders, in repeated literals, and in which literals outside
//! all groups are false. So the callers' function can be that of a trail. What "first" means is in `specs/First`. What
//! the counters count is the invariant (`specs/Counted`, `specs/FalsifiedHeap`).
#![tactic(auto)]

mod adding;
mod counters;
mod falsified_heap;
mod groups;
mod links;
mod position;
mod rows;
mod walks;

pub use counters::ClauseCounters;

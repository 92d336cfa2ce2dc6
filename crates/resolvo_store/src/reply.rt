//! What a store answers.
ghost use Rattle.std.specs.Prelude.{◌≡◌, true};

use decisions::Decision;
use resolvo_queue::QueueDecision;
use std::alloc::Allocator;
use typed_ids::{ClauseId, DisjunctionId, StoreError, VariableId};

/// The reply to a command. Its lists are allocated by the store's allocator.
#[derive(Drop)]
#[derive_where(Debug, PartialEq, Eq)]
pub enum Reply<A: Allocator> {
    /// The solvable's variable (`Command::Variable`), or the new helper (`Command::Helper`).
    Variable(VariableId),
    /// The variables of the requirement's candidates, best first, one list a version set.
    Loaded(Vec<Vec<VariableId, A>, A>),
    /// The disjunction is stored under this id.
    Disjunction(DisjunctionId),
    /// The clause was added under this id. Whether it is a conflict: it has literals beside its parent's, all of these
    /// are false, and the parent isn't. A clause of a kind without a parent is none.
    Clause(ClauseId, bool),
    /// Whether the variable is new under the name, and how many clauses were added for it.
    Tracked(bool, usize),
    /// The variable had no value, and has the given one now.
    Assigned,
    /// The variable had the given value already.
    Already,
    /// The variable has the other value.
    Clash,
    /// Assignments were undone. After `UndoLast`, if there was one: what it was, and the level of the one before it (0
    /// if there is none). After `UndoUntil` none.
    Undone(Option<(Decision, u32)>),
    /// The next assignment to propagate, if there is one.
    Next(Option<Decision>),
    /// The command was obeyed, and has no other answer.
    Done,
    /// The clauses that watch the literal, front first.
    Watchers(Vec<ClauseId, A>),
    /// This candidate is the next decision.
    Decided(QueueDecision),
    /// No clause is eligible for a decision.
    NoDecision,
    /// After `Decide`: all literals of this requires clause are false, and it is the first such one of the scan.
    Falsified(ClauseId),
    /// After `Saturate`: all literals of this clause, of whichever kind, are false.
    Conflict(ClauseId),
    /// The command was refused, and changed nothing; or memory was refused to a `Saturate`, and what it forced before
    /// stays.
    Refused(StoreError),
}

/// What a reply means to the abstract store. `==` compares just that: the capacity of the lists makes no difference.
pub trait AbstractReply: Eq {
    ghost use Rattle.resolvo_store.specs.Command.{Reply};

    /// What the reply says.
    ghost reply: { Self → Reply };

    /// Replies that compare equal say the same. (That a reply equals itself is a law of `Eq`.)
    ghost same_reply: { (a b : Self) → Self.eq a b ≡ true → reply a ≡ reply b };
}

impl<A: Allocator> AbstractReply for Reply<A> {
    ghost use Rattle.resolvo_store.specs.Command.{reply_of};
    ghost use Rattle.resolvo_store.specs.ReplyLaws.{same_lists, same_clauses};
    ghost use Rattle.std.proofs.Common.{rules};

    ghost reply = { reply_of };

    ghost same_reply = { λ a b h. Prim.search (rules, same_lists, same_clauses) };
}

//! What the typed calls answer.
use resolvo_queue::QueueDecision;
use typed_ids::ClauseId;

/// A clause that was added.
#[derive(Clone, Copy, Debug, PartialEq, Eq)]
pub struct Added {
    /// Its id.
    pub clause: ClauseId,
    /// Whether what its parent asks for is false already, and the parent isn't. Kinds without a parent are no conflict.
    pub is_conflict: bool,
}

/// A variable that a name tracks.
#[derive(Clone, Copy, Debug, PartialEq, Eq)]
pub struct Tracked {
    /// Whether the name didn't track it before.
    pub is_new: bool,
    /// How many clauses were added for it.
    pub clauses: usize,
}

/// What became of an assignment.
#[derive(Clone, Copy, Debug, PartialEq, Eq)]
pub enum Assignment {
    /// The variable had no value, and has this one now.
    New,
    /// The variable has this value already.
    Already,
    /// The variable has the other value, and keeps it.
    Clash,
}

/// What a search does next.
#[derive(Clone, Copy, Debug, PartialEq, Eq)]
pub enum Next {
    /// It decides this candidate.
    Decided(QueueDecision),
    /// It is done: no clause wants a decision.
    Done,
    /// It can't go on: this clause, the first such one, can't be satisfied any more.
    Falsified(ClauseId),
}

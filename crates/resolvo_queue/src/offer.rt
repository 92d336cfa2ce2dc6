//! What eligible clauses offer.
ghost use Rattle.std.specs.Prelude.{◌≡◌, option_map, MatchResult};
ghost use Rattle.resolvo_queue.specs.Pick.{beats, decided, is_of_root};

use crate::queue_decision::QueueDecision;
use crate::requires_clause::RequiresClause;
use crate::tracked_clause::Position;
use typed_ids::{DenseIndex, SameClone, SameValue, StoreError, VariableId, VersionSetId};

/// The first undecided candidate of a requirement, its version set, and how many candidates of that version set are
/// undecided.
#[derive(Clone, Copy, Debug, PartialEq, Eq)]
pub struct Frontier {
    pub variable: VariableId,
    pub set: VersionSetId,
    pub count: usize,
}

impl SameValue for Frontier {
    ghost use Rattle.std.proofs.Common.{rules};

    ghost same = { λ a b h. Prim.search rules };
}

impl SameClone for Frontier {
    ghost use Rattle.std.proofs.Common.{rules};

    ghost clone_is_same = { λ a b h. Prim.search rules };
}

/// What an eligible clause offers, and where the clause stands in the scan.
#[derive(Clone, Copy)]
pub(crate) struct Candidate {
    pub(crate) position: Position,
    pub(crate) offer: Offer,
}

/// An eligible clause, with its frontier and the score of the frontier's package.
#[derive(Clone, Copy)]
pub struct Offer {
    pub clause: RequiresClause,
    pub frontier: Frontier,
    pub score: u64,
}

impl Offer {
    /// Whether the clause's parent is the root.
    pub(crate) fn is_of_root(&self) -> bool
        ensures { result ≡ is_of_root self.now }
    {
        self.clause.parent.is_root()
    }

    /// Whether it replaces the best so far: it has a higher score and fewer candidates. No clause of another parent
    /// replaces one of the root.
    pub(crate) fn beats(&self, best: &Offer) -> bool
        ensures { result ≡ beats self.now best.now }
    {
        best.score < self.score
            && (self.frontier.count < best.frontier.count
                && (!best.is_of_root() || self.is_of_root()))
    }

    /// The decision to take here.
    pub(crate) fn decision(&self) -> QueueDecision
        ensures { result ≡ decided self.now }
    {
        QueueDecision {
            candidate: self.frontier.variable,
            required_by: self.clause.parent,
            clause_id: self.clause.clause_id,
            package_activity: self.score,
            candidate_count: self.frontier.count,
        }
    }
}

/// The decision that an offer stands for, unless it was refused.
pub(crate) fn decision_of(
    offer: Result<Option<Offer>, StoreError>,
) -> Result<Option<QueueDecision>, StoreError>
    ensures { MatchResult offer (λ o. result ≡ Ok (option_map decided o)) (λ e. result ≡ Err e) }
{
    match offer {
        Ok(offer) => Ok(decision_at(&offer)),
        Err(error) => Err(error),
    }
}

/// The decision that an offer stands for.
fn decision_at(offer: &Option<Offer>) -> Option<QueueDecision>
    ensures { result ≡ option_map decided offer.now }
{
    match offer {
        Some(offer) => Some(offer.decision()),
        None => None,
    }
}

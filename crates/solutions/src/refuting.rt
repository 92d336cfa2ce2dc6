//! Whether reasons are enough.
ghost use Rattle.std.specs.Prelude.{◌≡◌, Bool, true, false, not, [], IfOk, OnOk, map};
ghost use Rattle.solutions.specs.Clauses.{AreSatisfied, AreTrue, Replayed};
ghost use Rattle.solutions.specs.Reasons.{AreEnough};
ghost use Rattle.solutions.specs.declared.literal.Fact.{Fact};

use crate::clauses::Theory;
use crate::encoded::encoded;
use crate::encoding::Encoder;
use crate::literal::Literal;
use crate::package_literal::PackageLiteral;
use crate::reason::Reason;
use crate::trail::Trail;
use resolvo_ids::{SolverId, StoreError};
use resolvo_pool::{DependencyProvider, Interner, ProviderFunctions};
use std::alloc::Allocator;

/// Whether the learnt clauses certify that no choice of solvables meets all of the reasons. A learnt clause counts if
/// it follows by unit propagation from the reasons and from the clauses before it. One that doesn't is passed over. The
/// provider is queried after each whether to stop. If the answer is no, there may be such a choice or none.
///
/// Refused `UnknownId` if a reason names what the provider doesn't know.
///
/// Costs time and memory in the reasons with their candidates, the lists of conditions and the pairs that constraints
/// forbid; and for each learnt clause in what its propagation visits: a clause is visited when one of two of its
/// literals becomes false.
pub fn are_enough<D: DependencyProvider>(
    alloc: D::Alloc,
    provider: &D,
    reasons: &[Reason<D::NameId, D::SolvableId>],
    learnt: &[Vec<PackageLiteral<D::SolvableId>, D::Alloc>],
) -> Result<bool, StoreError>
    ensures { IfOk result (λ yes. yes ≡ true →
        AreEnough (⟦<D as ProviderFunctions>⟧.functions provider.now) reasons.now) }
{
    let encoder = Encoder { alloc, provider };
    let theory = encoded(&encoder, reasons)?;
    let mut replay = Replay::new(alloc, theory)?;
    replay.all(provider, learnt)
}

/// What was certified so far.
#[derive(Drop)]
pub(crate) struct Replay<N: SolverId<A>, S: SolverId<A>, A: Allocator + Copy> {
    pub(crate) alloc: A,
    pub(crate) theory: Theory<N, S, A>,
    pub(crate) trail: Trail<N, S, A>,
}

impl<N: SolverId<A>, S: SolverId<A>, A: Allocator + Copy> Replay<N, S, A> {
    /// Nothing was certified so far.
    pub(crate) fn new(alloc: A, theory: Theory<N, S, A>) -> Result<Self, StoreError>
        ensures theory { IfOk result (λ replay. replay.theory ≡ theory) }
        ensures trail { IfOk result (λ replay. replay.trail.literals.items ≡ []) }
    {
        let trail = Trail::new(alloc, theory.atoms.len())?;
        Ok(Replay {
            alloc,
            theory,
            trail,
        })
    }

    /// Replays learnt clauses. Answers whether they contradict what is known.
    pub(crate) fn all<D: DependencyProvider>(
        &mut self,
        provider: &D,
        learnt: &[Vec<PackageLiteral<S>, A>],
    ) -> Result<bool, StoreError>
        ensures { IfOk result (Replayed self.old.theory.clauses.items self.old.trail.literals.items
            self.new.theory.clauses.items self.new.trail.literals.items) }
    {
        if self.theory.rules().propagate_all(&mut self.trail)? {
            return Ok(true);
        }
        for package_literals in learnt {
            if self.one(package_literals)? {
                return Ok(true);
            }
            check_cancelled(provider)?;
        }
        Ok(false)
    }

    /// Replays a learnt clause.
    fn one(&mut self, package_literals: &[PackageLiteral<S>]) -> Result<bool, StoreError>
        ensures { IfOk result (Replayed self.old.theory.clauses.items self.old.trail.literals.items
            self.new.theory.clauses.items self.new.trail.literals.items) }
    {
        let against = self.against(package_literals)?;
        self.learn_if_refuted(&against)
    }

    /// If it follows that not all of the literals are true, adds that clause, and propagates. Answers whether it
    /// contradicts what is known.
    fn learn_if_refuted(&mut self, literals: &[Literal<N, S>]) -> Result<bool, StoreError>
        ensures { IfOk result (Replayed self.old.theory.clauses.items self.old.trail.literals.items
            self.new.theory.clauses.items self.new.trail.literals.items) }
    {
        if !self.are_refuted(literals)? {
            return Ok(false);
        }
        self.learn(literals)
    }

    /// Whether it follows that not all of the literals are true.
    pub(crate) fn are_refuted(&mut self, literals: &[Literal<N, S>]) -> Result<bool, StoreError>
        ensures refuted { IfOk result (λ yes. yes ≡ true → (holds : Fact N S → Bool) →
            AreSatisfied holds self.new.theory.clauses.items → AreTrue holds self.new.trail.literals.items →
            AreTrue holds literals.now → ⊥) }
        ensures replayed { OnOk result (Replayed self.old.theory.clauses.items self.old.trail.literals.items
            self.new.theory.clauses.items self.new.trail.literals.items false) }
    {
        self.theory.rules().refute(&mut self.trail, literals)
    }

    /// The opposites of these literals; of those about facts that were seen.
    fn against(
        &self,
        package_literals: &[PackageLiteral<S>],
    ) -> Result<Vec<Literal<N, S>, A>, StoreError> {
        let mut against = Vec::new(self.alloc);
        for package_literal in package_literals {
            let (atom, value) = match package_literal {
                PackageLiteral::Picked(solvable, value) => {
                    (self.theory.atoms.find(*solvable), *value)
                }
                PackageLiteral::Held(set, value) => (self.theory.atoms.find_held(*set), *value),
            };
            if let Some(atom) = atom {
                against.push(Literal::new(atom, !value))?;
            }
        }
        Ok(against)
    }

    /// Adds that not all of the literals are true, and propagates. Answers whether it contradicts what is known.
    fn learn(&mut self, literals: &[Literal<N, S>]) -> Result<bool, StoreError>
        requires { (holds : Fact N S → Bool) → AreSatisfied holds self.old.theory.clauses.items →
            AreTrue holds self.old.trail.literals.items → AreTrue holds literals.now → ⊥ }
        ensures { IfOk result (Replayed self.old.theory.clauses.items self.old.trail.literals.items
            self.new.theory.clauses.items self.new.trail.literals.items) }
    {
        let place = self.theory.clauses.len();
        self.add_opposites(literals)?;
        self.theory.rules().propagate_clause(&mut self.trail, place)
    }

    /// Adds that not all of the literals are true, which is so.
    fn add_opposites(&mut self, literals: &[Literal<N, S>]) -> Result<(), StoreError>
        requires { (holds : Fact N S → Bool) → AreSatisfied holds self.old.theory.clauses.items →
            AreTrue holds self.old.trail.literals.items → AreTrue holds literals.now → ⊥ }
        ensures { OnOk result (Replayed self.old.theory.clauses.items self.old.trail.literals.items
            self.new.theory.clauses.items self.new.trail.literals.items false) }
    {
        let clause = negated(self.alloc, literals)?;
        self.theory.add(clause)
    }
}

/// The opposites of literals.
fn negated<N: SolverId<A>, S: SolverId<A>, A: Allocator + Copy>(
    alloc: A,
    literals: &[Literal<N, S>],
) -> Result<Vec<Literal<N, S>, A>, StoreError>
    ensures { IfOk result (λ negated. negated.items ≡
        map (λ l. record { fact = l.fact; number = l.number; value = not l.value }) literals.now) }
{
    let mut negated = Vec::new(alloc);
    for literal in literals {
        negated.push(literal.negated())?;
    }
    Ok(negated)
}

/// Refuses to go on if the provider says so.
fn check_cancelled<D: DependencyProvider>(provider: &D) -> Result<(), StoreError> {
    match provider.should_cancel_with_value() {
        Some(_) => Err(StoreError::Cancelled),
        None => Ok(()),
    }
}

//! Why there is no solution, or none that is better by a wish: the encoded clauses from which that follows.
use crate::adding::Encoded;
use crate::notes::{Antecedent, Notes};
use crate::progress::Progress;
use crate::search::Result;
use crate::search_store::SearchStore;
use crate::wishing::{VariableValue, Wishes};
use resolvo_clauses::{Literal, VariableOrigin};
use resolvo_ids::{ClauseId, IndexedSet, VariableId};
use solutions::{Evidence, PackageLiteral, Reason};
use std::alloc::Allocator;

/// What a search shows, to be replayed.
#[derive(Drop)]
pub(crate) struct Shown<N, S, A: Allocator> {
    /// What it follows from in the end.
    pub(crate) reasons: Vec<Reason<N, S>, A>,
    /// Solvables that wishes name, and that their packages don't have.
    unlisted: Vec<S, A>,
    /// Learnt clauses: each follows by unit propagation from the reasons and from those before it.
    pub(crate) learnt: Vec<Vec<PackageLiteral<S>, A>, A>,
}

impl<N, S, A: Allocator + Copy> Shown<N, S, A> {
    /// Nothing.
    pub(crate) fn new(alloc: A) -> Self {
        Shown {
            reasons: Vec::new(alloc),
            unlisted: Vec::new(alloc),
            learnt: Vec::new(alloc),
        }
    }

    /// As it is checked that no solution is better.
    pub(crate) fn evidence(&self) -> Evidence<'_, N, S, A> {
        Evidence {
            reasons: &self.reasons,
            unlisted: &self.unlisted,
            learnt: &self.learnt,
        }
    }
}

/// That there is no solution.
#[derive(Drop)]
pub(crate) struct NoneShown<N, S, A: Allocator> {
    pub(crate) shown: Shown<N, S, A>,
    /// How many steps are left.
    pub(crate) steps: u64,
}

/// A trace from the last conflict, or from values, back to encoded clauses.
#[derive(Drop)]
struct Trace<A: Allocator> {
    /// What is still to be followed.
    pending: Vec<Antecedent, A>,
    /// The clauses that were seen, and in which order.
    clauses: IndexedSet<ClauseId, A>,
    seen: Vec<ClauseId, A>,
    /// The variables that were seen because of their values.
    variables: IndexedSet<VariableId, A>,
}

impl<A: Allocator + Copy> Trace<A> {
    /// Nothing was seen.
    fn new(alloc: A) -> Self {
        Trace {
            pending: Vec::new(alloc),
            clauses: IndexedSet::new(alloc),
            seen: Vec::new(alloc),
            variables: IndexedSet::new(alloc),
        }
    }

    /// Notes an antecedent, and answers whether it is new.
    fn is_new(&mut self, antecedent: &Antecedent) -> Result<bool> {
        match antecedent {
            Antecedent::Clause(clause) => {
                if !self.clauses.insert(*clause)? {
                    return Ok(false);
                }
                self.seen.push(*clause)?;
                Ok(true)
            }
            Antecedent::Fact(variable) => self.variables.insert(*variable),
        }
    }

    /// Adds values of variables.
    fn add_values(&mut self, values: &[VariableValue]) -> Result<()> {
        for one in values {
            self.pending.push(Antecedent::Fact(one.variable))?;
        }
        Ok(())
    }

    /// Adds a clause that gave a value, and the variables in it.
    fn add_facts(&mut self, clause: ClauseId, literals: &[Literal]) -> Result<()> {
        self.pending.push(Antecedent::Clause(clause))?;
        for literal in literals {
            self.pending.push(Antecedent::Fact(literal.variable()))?;
        }
        Ok(())
    }
}

/// That there is no solution, and why.
pub(crate) fn why_none<T: SearchStore>(
    progress: &Progress<T>,
    encoded: &Encoded<T>,
    notes: &Notes<T::SolvableId, T::Alloc>,
    steps: u64,
) -> Result<NoneShown<T::NameId, T::SolvableId, T::Alloc>> {
    let mut trace = Trace::new(progress.alloc);
    trace.pending.extend_from_slice(&notes.root_cause)?;
    follow_all(progress, notes, &mut trace)?;
    let shown = what_is_shown(progress, encoded, notes, &trace)?;
    Ok(NoneShown { shown, steps })
}

/// That no alternative of a wish that is false can be so, beside what is so of the wishes before.
pub(crate) fn why_none_better<T: SearchStore>(
    progress: &Progress<T>,
    encoded: &Encoded<T>,
    notes: &Notes<T::SolvableId, T::Alloc>,
    wishes: &Wishes<T::Alloc>,
) -> Result<Shown<T::NameId, T::SolvableId, T::Alloc>> {
    let mut trace = Trace::new(progress.alloc);
    for place in 0..wishes.len() {
        trace.add_values(wishes.false_ones(&progress.store, place))?;
    }
    follow_all(progress, notes, &mut trace)?;
    what_is_shown(progress, encoded, notes, &trace)
}

/// Why the alternatives of one wish that are false can't be so.
pub(crate) fn why_not_better<T: SearchStore>(
    progress: &Progress<T>,
    encoded: &Encoded<T>,
    notes: &Notes<T::SolvableId, T::Alloc>,
    values: &[VariableValue],
) -> Result<Vec<Reason<T::NameId, T::SolvableId>, T::Alloc>> {
    let mut trace = Trace::new(progress.alloc);
    trace.add_values(values)?;
    follow_all(progress, notes, &mut trace)?;
    told(progress, encoded, &trace)
}

/// What a trace shows.
fn what_is_shown<T: SearchStore>(
    progress: &Progress<T>,
    encoded: &Encoded<T>,
    notes: &Notes<T::SolvableId, T::Alloc>,
    trace: &Trace<T::Alloc>,
) -> Result<Shown<T::NameId, T::SolvableId, T::Alloc>> {
    let reasons = told(progress, encoded, trace)?;
    let mut unlisted = Vec::new(progress.alloc);
    for clause in &trace.seen {
        if let Some(solvable) = encoded.unlisted.get(*clause) {
            unlisted.push(*solvable)?;
        }
    }
    let learnt = notes.package_literals(&trace.clauses)?;
    Ok(Shown {
        reasons,
        unlisted,
        learnt,
    })
}

/// Follows what is pending until nothing is.
fn follow_all<T: SearchStore>(
    progress: &Progress<T>,
    notes: &Notes<T::SolvableId, T::Alloc>,
    trace: &mut Trace<T::Alloc>,
) -> Result<()> {
    for _ in 0..u64::MAX {
        let Some(antecedent) = trace.pending.pop() else {
            break;
        };
        if trace.is_new(&antecedent)? {
            add_antecedents(progress, notes, &antecedent, trace)?;
        }
    }
    Ok(())
}

/// Adds what an antecedent follows from: a learnt clause from its own antecedents, and a value from its clause and the
/// other values in it, unless it was decided.
fn add_antecedents<T: SearchStore>(
    progress: &Progress<T>,
    notes: &Notes<T::SolvableId, T::Alloc>,
    antecedent: &Antecedent,
    trace: &mut Trace<T::Alloc>,
) -> Result<()> {
    match antecedent {
        Antecedent::Clause(clause) => {
            trace.pending.extend_from_slice(notes.antecedents(*clause))?;
            Ok(())
        }
        Antecedent::Fact(variable) => match progress.trail.assigned(*variable) {
            Some(assigned) if !assigned.is_decision => {
                let clause = assigned.decision.derived_from;
                let literals = progress.literals(clause)?;
                trace.add_facts(clause, &literals)
            }
            _ => Ok(()),
        },
    }
}

/// Adds, for each package of which a clause says that at most one version is picked, that it does.
fn add_packages<T: SearchStore>(
    progress: &Progress<T>,
    clauses: &[ClauseId],
    reasons: &mut Vec<Reason<T::NameId, T::SolvableId>, T::Alloc>,
) -> Result<()> {
    let mut names = Vec::new(progress.alloc);
    for clause in clauses {
        if let Some(name) = package_of(progress, *clause)? {
            if !names.contains(&name) {
                names.push(name)?;
                reasons.push(Reason::OneVersion(name))?;
            }
        }
    }
    Ok(())
}

/// The package of which a clause says that at most one version is picked. Such clauses alone have helpers for it.
fn package_of<T: SearchStore>(
    progress: &Progress<T>,
    clause: ClauseId,
) -> Result<Option<T::NameId>> {
    let literals = progress.literals(clause)?;
    Ok(package_in(&progress.store, &literals))
}

/// The package of the first helper among these literals.
fn package_in<T: SearchStore>(store: &T, literals: &[Literal]) -> Option<T::NameId> {
    for literal in literals {
        if let Some(VariableOrigin::ForbidMultiple(name)) = store.origin(literal.variable()) {
            return Some(name);
        }
    }
    None
}

/// The reasons of the clauses that a trace saw, each once: of those that were encoded, in this order; then the packages
/// of which at most one version may be picked.
fn told<T: SearchStore>(
    progress: &Progress<T>,
    encoded: &Encoded<T>,
    trace: &Trace<T::Alloc>,
) -> Result<Vec<Reason<T::NameId, T::SolvableId>, T::Alloc>> {
    let mut clauses = Vec::from_slice(progress.alloc, &trace.seen)?;
    clauses.sort_unstable();
    let mut reasons = Vec::new(progress.alloc);
    for clause in &clauses {
        if let Some(reason) = encoded.reasons.get(*clause) {
            if !is_told(&reasons, reason) {
                reasons.push(*reason)?;
            }
        }
    }
    add_packages(progress, &trace.seen, &mut reasons)?;
    Ok(reasons)
}

/// Whether a reason is among these. Those of one solvable's dependencies come in turn.
fn is_told<N: Copy + PartialEq, S: Copy + PartialEq>(
    reasons: &[Reason<N, S>],
    reason: &Reason<N, S>,
) -> bool {
    let solvable = dependent(reason);
    for told in reasons.iter().rev() {
        if *told == *reason {
            return true;
        }
        if solvable.is_some() && dependent(told) != solvable {
            return false;
        }
    }
    false
}

/// The solvable whose dependencies a reason is about.
pub(crate) fn dependent<N: Copy, S: Copy>(reason: &Reason<N, S>) -> Option<S> {
    match reason {
        Reason::Needs(solvable, _) | Reason::Lacks(solvable, _) => *solvable,
        Reason::Limits(solvable, _) | Reason::Unknown(solvable, _) => Some(*solvable),
        Reason::Excluded(_, _) | Reason::Locked(_) | Reason::OneVersion(_) => None,
    }
}

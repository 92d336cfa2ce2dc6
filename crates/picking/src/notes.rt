//! What a search notes of learnt clauses: their literals, and what they follow from.
use crate::search::Result;
use resolvo_ids::{ClauseId, IndexedSet, Mapping, VariableId};
use solutions::PackageLiteral;
use std::alloc::Allocator;

/// What a learnt clause, or a value at level 1, follows from.
#[derive(Clone, Copy)]
pub(crate) enum Antecedent {
    /// A clause.
    Clause(ClauseId),
    /// The value of a variable: for a learnt clause that at level 1.
    Fact(VariableId),
}

/// A clause that was learnt, in the provider's ids.
#[derive(Drop)]
struct LearntClause<S, A: Allocator> {
    clause: ClauseId,
    /// One of these is true.
    package_literals: Vec<PackageLiteral<S>, A>,
}

/// What is noted of learnt clauses.
#[derive(Drop)]
pub(crate) struct Notes<S, A: Allocator> {
    /// The learnt clauses, in order.
    learnt: Vec<LearntClause<S, A>, A>,
    /// The antecedents of each learnt clause.
    learnt_antecedents: Mapping<ClauseId, Vec<Antecedent, A>, A>,
    /// The antecedents of the last conflict, which follows from the root alone.
    pub(crate) root_cause: Vec<Antecedent, A>,
    pub(crate) alloc: A,
}

impl<S: Copy, A: Allocator + Copy> Notes<S, A> {
    /// Nothing is noted.
    pub(crate) fn new(alloc: A) -> Result<Self> {
        Ok(Notes {
            learnt: Vec::new(alloc),
            learnt_antecedents: Mapping::new(alloc)?,
            root_cause: Vec::new(alloc),
            alloc,
        })
    }

    /// Notes the literals of a learnt clause, and what it follows from.
    pub(crate) fn add_learnt(
        &mut self,
        clause: ClauseId,
        package_literals: Vec<PackageLiteral<S>, A>,
        antecedents: Vec<Antecedent, A>,
    ) -> Result<()> {
        self.learnt_antecedents.insert(clause, antecedents)?;
        self.learnt.push(LearntClause {
            clause,
            package_literals,
        })?;
        Ok(())
    }

    /// What a clause follows from; nothing unless it was learnt.
    pub(crate) fn antecedents(&self, clause: ClauseId) -> &[Antecedent] {
        match self.learnt_antecedents.get(clause) {
            Some(antecedents) => antecedents.as_slice(),
            None => &[],
        }
    }

    /// The literals of the learnt ones of these clauses, in order.
    pub(crate) fn package_literals(
        &self,
        clauses: &IndexedSet<ClauseId, A>,
    ) -> Result<Vec<Vec<PackageLiteral<S>, A>, A>> {
        let mut package_literals = Vec::new(self.alloc);
        for learnt in &self.learnt {
            if clauses.contains(learnt.clause) {
                package_literals.push(Vec::from_slice(self.alloc, &learnt.package_literals)?)?;
            }
        }
        Ok(package_literals)
    }
}

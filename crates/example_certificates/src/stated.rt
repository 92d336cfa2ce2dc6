//! What a certificate states: the clauses that the index says, and the variables of these and of the learnt ones.

use crate::clausifier::Clausifier;
use crate::numbering::Variables;
use crate::part::Part;
use picking::{PackageLiteral, Reason, Refutation};
use resolvo_ids::{SolverId, StoreError, VersionSetId};
use resolvo_pool::{DependencyProvider, Interner};
use std::alloc::Allocator;

type Done = Result<(), StoreError>;

/// Clauses, and their variables.
#[derive(Drop)]
pub(crate) struct Stated<N, S: SolverId<A>, A: Allocator + Copy> {
    pub(crate) variables: Variables<S, A>,
    pub(crate) parts: Vec<Part<N, S, A>, A>,
}

/// The clauses of a refutation's reasons, and the variables of these and of what it learnt. "One version of a package"
/// comes last, since it speaks only of versions that have a variable.
pub(crate) fn stated_of<D: DependencyProvider>(
    clausifier: &Clausifier<'_, D>,
    refutation: &Refutation<D::NameId, D::SolvableId, D::Alloc>,
) -> Result<Stated<D::NameId, D::SolvableId, D::Alloc>, StoreError> {
    let mut stated = Stated {
        variables: Variables::new(clausifier.alloc)?,
        parts: Vec::new(clausifier.alloc),
    };
    add_reasons(clausifier, &refutation.reasons, false, &mut stated)?;
    stated.variables.add_clauses(&refutation.learnt)?;
    add_definitions(clausifier, &mut stated)?;
    add_reasons(clausifier, &refutation.reasons, true, &mut stated)?;
    Ok(stated)
}

/// Adds the reasons that say "one version of a package", or the others.
fn add_reasons<D: DependencyProvider>(
    clausifier: &Clausifier<'_, D>,
    reasons: &[Reason<D::NameId, D::SolvableId>],
    of_one_version: bool,
    stated: &mut Stated<D::NameId, D::SolvableId, D::Alloc>,
) -> Done {
    for reason in reasons {
        if is_of_one_version(reason) == of_one_version {
            add_reason(clausifier, *reason, stated)?;
        }
    }
    Ok(())
}

/// Adds a reason with its clauses, if there are some.
fn add_reason<D: DependencyProvider>(
    clausifier: &Clausifier<'_, D>,
    reason: Reason<D::NameId, D::SolvableId>,
    stated: &mut Stated<D::NameId, D::SolvableId, D::Alloc>,
) -> Done {
    let mut clauses = Vec::new(clausifier.alloc);
    clausifier.push_reason(&stated.variables, &mut clauses, reason)?;
    stated.add(Part {
        because: Some(reason),
        clauses,
    })
}

/// Adds the clauses that define variables of version sets.
fn add_definitions<D: DependencyProvider>(
    clausifier: &Clausifier<'_, D>,
    stated: &mut Stated<D::NameId, D::SolvableId, D::Alloc>,
) -> Done {
    for place in 0..stated.variables.literals().len() {
        if let Some(PackageLiteral::Held(set, _)) = stated
            .variables
            .literals()
            .get(place)
            .copied()
        {
            add_definition(clausifier, set, stated)?;
        }
    }
    Ok(())
}

/// Adds the clauses that define the variable of a version set, if there are some.
fn add_definition<D: DependencyProvider>(
    clausifier: &Clausifier<'_, D>,
    set: VersionSetId,
    stated: &mut Stated<D::NameId, D::SolvableId, D::Alloc>,
) -> Done {
    let mut clauses = Vec::new(clausifier.alloc);
    clausifier.push_definition(&mut clauses, set)?;
    stated.add(Part {
        because: None,
        clauses,
    })
}

impl<N: Copy, S: SolverId<A>, A: Allocator + Copy> Stated<N, S, A> {
    /// Adds a part, if it has clauses, and their variables.
    fn add(&mut self, part: Part<N, S, A>) -> Done {
        if part.clauses.is_empty() {
            return Ok(());
        }
        self.variables.add_clauses(&part.clauses)?;
        self.parts.push(part)?;
        Ok(())
    }
}

/// Whether a reason says that a package has one version at most.
fn is_of_one_version<N: Copy, S: Copy>(reason: &Reason<N, S>) -> bool {
    matches!(reason, Reason::OneVersion(_))
}

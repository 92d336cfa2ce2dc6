//! Variables, and their numbers.
ghost use Rattle.std.specs.Prelude.{◌≡◌, Some, IfOk};
ghost use Rattle.resolvo_ids.specs.Mapping.{value_at};
ghost use Rattle.example_certificates.specs.Numbers.{number_of};

use picking::PackageLiteral;
use resolvo_ids::{IdMap, Mapping, Slot, SolverId, StoreError, VersionSetId};
use std::alloc::Allocator;

/// The variables of a certificate: that solvables are picked, and that version sets hold something that is picked. They
/// are numbered from 1, in the order in which they are first seen.
#[derive(Drop)]
pub(crate) struct Variables<S: SolverId<A>, A: Allocator + Copy> {
    /// For each variable, the literal that it is true.
    literals: Vec<PackageLiteral<S>, A>,
    solvables: S::Slots,
    sets: Mapping<VersionSetId, u32, A>,
}

impl<S: SolverId<A>, A: Allocator + Copy> Variables<S, A> {
    /// None.
    pub(crate) fn new(alloc: A) -> Result<Self, StoreError> {
        Ok(Variables {
            literals: Vec::new(alloc),
            solvables: <S::Slots as IdMap<S, Slot, A>>::new(alloc),
            sets: Mapping::new(alloc)?,
        })
    }

    /// For each variable, the literal that it is true.
    pub(crate) fn literals(&self) -> &[PackageLiteral<S>]
        ensures { result.now ≡ self.now.literals.items }
    {
        &self.literals
    }

    /// The number of a literal's variable, if it has one.
    fn find(&self, literal: PackageLiteral<S>) -> Option<u32>
        ensures { result ≡ number_of (S.Slots.value_at self.now.solvables) (value_at self.now.sets) literal }
    {
        match literal {
            PackageLiteral::Picked(solvable, _) => self.solvables.get(solvable).number(),
            PackageLiteral::Held(set, _) => self.sets.get(set).copied(),
        }
    }

    /// Whether a literal has a variable.
    pub(crate) fn has(&self, literal: PackageLiteral<S>) -> bool {
        self.find(literal).is_some()
    }

    /// The number of a literal's variable.
    pub(crate) fn number(&self, literal: PackageLiteral<S>) -> Result<u32, StoreError>
        ensures { IfOk result (λ number.
            number_of (S.Slots.value_at self.now.solvables) (value_at self.now.sets) literal ≡ Some number) }
    {
        match self.find(literal) {
            Some(number) => Ok(number),
            None => Err(StoreError::UnknownId),
        }
    }

    /// Adds the variables of clauses.
    pub(crate) fn add_clauses(
        &mut self,
        clauses: &[Vec<PackageLiteral<S>, A>],
    ) -> Result<(), StoreError> {
        for clause in clauses {
            self.add_all(clause)?;
        }
        Ok(())
    }

    /// Adds the variables of a clause.
    fn add_all(&mut self, clause: &[PackageLiteral<S>]) -> Result<(), StoreError> {
        for literal in clause {
            self.add(*literal)?;
        }
        Ok(())
    }

    /// Adds the variable of a literal, unless there is one.
    fn add(&mut self, literal: PackageLiteral<S>) -> Result<(), StoreError> {
        if self.has(literal) {
            return Ok(());
        }
        let Ok(before) = u32::try_from(self.literals.len()) else {
            return Err(StoreError::IdSpace);
        };
        let number = match before.checked_add(1) {
            Some(number) => number,
            None => return Err(StoreError::IdSpace),
        };
        match literal {
            PackageLiteral::Picked(solvable, _) => {
                self.literals.push(PackageLiteral::Picked(solvable, true))?;
                self.solvables.set(solvable, Slot::new(Some(number)))
            }
            PackageLiteral::Held(set, _) => {
                self.literals.push(PackageLiteral::Held(set, true))?;
                self.sets.insert(set, number)?;
                Ok(())
            }
        }
    }
}

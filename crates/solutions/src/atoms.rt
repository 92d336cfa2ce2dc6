//! Numbers for facts, in the order in which they are first seen. No contract speaks of them: they are indexes.
use crate::literal::{Atom, Fact};
use resolvo_ids::{IdMap, Mapping, Slot, SolverId, StoreError, VersionSetId};
use std::alloc::Allocator;

/// The facts that were seen, and their numbers.
#[derive(Drop)]
pub(crate) struct Atoms<N: SolverId<A>, S: SolverId<A>, A: Allocator + Copy> {
    atoms: Vec<Atom<N, S>, A>,
    solvables: S::Slots,
    sets: Mapping<VersionSetId, u32, A>,
}

impl<N: SolverId<A>, S: SolverId<A>, A: Allocator + Copy> Atoms<N, S, A> {
    ghost use Rattle.std.specs.Prelude.{◌≡◌, IfOk, IfSome};
    ghost use Rattle.solutions.specs.declared.literal.Fact.TheVariants.{Held, Picked};

    pub(crate) fn new(alloc: A) -> Result<Self, StoreError> {
        Ok(Atoms {
            atoms: Vec::new(alloc),
            solvables: <S::Slots as IdMap<S, Slot, A>>::new(alloc),
            sets: Mapping::new(alloc)?,
        })
    }

    /// How many there are.
    pub(crate) fn len(&self) -> usize {
        self.atoms.len()
    }

    /// The one with this number.
    pub(crate) fn get(&self, number: u32) -> Option<Atom<N, S>> {
        self.atoms.get(number as usize).copied()
    }

    /// That a solvable is picked, if that was seen.
    pub(crate) fn find(&self, solvable: S) -> Option<Atom<N, S>> {
        self.get(self.solvables.get(solvable).number()?)
    }

    /// That a solvable is picked.
    pub(crate) fn picked(&mut self, solvable: S) -> Result<Atom<N, S>, StoreError>
        ensures { IfOk result (λ atom. atom.fact ≡ Picked solvable) }
    {
        let fact = Fact::Picked(solvable);
        if let Some(number) = self.solvables.get(solvable).number() {
            return Ok(Atom { fact, number });
        }
        let atom = self.add(fact)?;
        self.solvables.set(solvable, Slot::new(Some(atom.number)))?;
        Ok(atom)
    }

    /// That a version set holds something that is picked, if that was seen.
    pub(crate) fn find_held(&self, set: VersionSetId) -> Option<Atom<N, S>>
        ensures { IfSome result (λ atom. atom.fact ≡ Held set) }
    {
        match self.sets.get(set) {
            Some(number) => Some(Atom {
                fact: Fact::Held(set),
                number: *number,
            }),
            None => None,
        }
    }

    /// That a version set holds something that is picked, with a new number.
    pub(crate) fn held(&mut self, set: VersionSetId) -> Result<Atom<N, S>, StoreError>
        ensures { IfOk result (λ atom. atom.fact ≡ Held set) }
    {
        let atom = self.add(Fact::Held(set))?;
        self.sets.insert(set, atom.number)?;
        Ok(atom)
    }

    /// Gives a fact the next number.
    pub(crate) fn add(&mut self, fact: Fact<N, S>) -> Result<Atom<N, S>, StoreError>
        ensures { IfOk result (λ atom. atom.fact ≡ fact) }
    {
        let Ok(number) = u32::try_from(self.atoms.len()) else {
            return Err(StoreError::IdSpace);
        };
        let atom = Atom { fact, number };
        self.atoms.push(atom)?;
        Ok(atom)
    }
}

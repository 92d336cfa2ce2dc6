//! Facts of a selection, and whether they are so.
ghost use Rattle.std.specs.Prelude.{◌≡◌, not, IsTrue};

use crate::watches::Sign;
use resolvo_ids::{SameId, VersionSetId};

/// What may be so of a selection.
#[derive(Clone, Copy)]
pub(crate) enum Fact<N, S> {
    /// The solvable is picked.
    Picked(S),
    /// A candidate that the version set holds is picked.
    Held(VersionSetId),
    /// One of the package's first candidates is picked: of this many.
    First(N, usize),
}

impl<N: SameId, S: SameId> Fact<N, S> {
    /// Whether both are the same.
    pub(crate) fn is(&self, other: &Self) -> bool
        ensures { IsTrue result → self.now ≡ other.now }
    {
        match self {
            Fact::Picked(solvable) => match other {
                Fact::Picked(another) => *solvable == *another,
                _ => false,
            },
            Fact::Held(set) => match other {
                Fact::Held(another) => *set == *another,
                _ => false,
            },
            Fact::First(name, count) => match other {
                Fact::First(another, its) => *name == *another && *count == *its,
                _ => false,
            },
        }
    }
}

/// A fact, with its number: its index.
#[derive(Clone, Copy)]
pub(crate) struct Atom<N, S> {
    pub(crate) fact: Fact<N, S>,
    pub(crate) number: u32,
}

/// That a fact is so, or isn't, with the fact's number.
#[derive(Clone, Copy)]
pub(crate) struct Literal<N, S> {
    pub(crate) fact: Fact<N, S>,
    pub(crate) number: u32,
    pub(crate) value: bool,
}

impl<N: SameId, S: SameId> Literal<N, S> {
    pub(crate) fn new(atom: Atom<N, S>, value: bool) -> Self
        ensures { result ≡ record { fact = atom.fact; number = atom.number; value = value } }
    {
        let Atom { fact, number } = atom;
        Literal {
            fact,
            number,
            value,
        }
    }

    /// The opposite.
    pub(crate) fn negated(self) -> Self
        ensures { result ≡ record { fact = self.fact; number = self.number; value = not self.value } }
    {
        let Literal {
            fact,
            number,
            value,
        } = self;
        Literal {
            fact,
            number,
            value: !value,
        }
    }

    /// Without its fact.
    pub(crate) fn sign(&self) -> Sign {
        Sign {
            number: self.number,
            value: self.value,
        }
    }

    /// Whether both say the same.
    pub(crate) fn is(&self, other: &Self) -> bool
        ensures { IsTrue result → (self.now.fact ≡ other.now.fact) × (self.now.value ≡ other.now.value) }
    {
        self.value == other.value && self.fact.is(&other.fact)
    }
}

//! What a provider tells beside its candidates, when it stops, and how often it was asked.
ghost use Rattle.std.specs.Prelude.{◌≡◌, None, option_map, IfOk, IfErr};
ghost use Rattle.typed_ids.specs.declared.error.StoreError.TheVariants.{OutOfMemory};
ghost use Rattle.providers.specs.Provider.{candidates_of, excluded_of, favored_of, locked_of};
ghost use Rattle.test_support.specs.Listed.{excluded_with, listed};
ghost use Rattle.test_support.specs.declared.manner.Hint.TheVariants as Hint;
ghost use Rattle.test_support.specs.declared.manner.Listing.TheVariants.{Once};
ghost use Rattle.test_support.specs.declared.manner.Stops.TheVariants.{Never};

use crate::numbered::Numbered;
use providers::{Candidates, HintDependenciesAvailable};
use std::alloc::Allocator;
use std::cell::Cell;
use typed_ids::{StoreError, StringId};

/// How often a provider lists the candidates of a package.
#[derive(Clone, Copy)]
pub enum Listing {
    /// Once.
    Once,
    /// All of them, and then all of them again.
    Twice,
}

/// For which solvables a provider says that their dependencies are at hand.
#[derive(Drop)]
pub enum Hint<A: Allocator> {
    /// For none.
    None,
    /// For all candidates of the package.
    All,
    /// For the solvables of these numbers.
    Some(Vec<u32, A>),
}

/// When a provider stops whoever asks, and with which value. Its questions whether to stop are counted from 0.
#[derive(Clone, Copy)]
pub enum Stops {
    /// At no question.
    Never,
    /// At the first question alone, with 7.
    AtFirst,
    /// At the second question alone, with 7.
    AtSecond,
    /// At each question but the first, with 7.
    AfterFirst,
    /// At the first question, and from there on at every other one, with its number.
    EveryOther,
    /// At each question, with its number.
    Always,
}

impl Stops {
    /// What the question of this number is answered.
    pub(crate) fn at(self, number: u32) -> Option<u32> {
        match self {
            Stops::Never => None,
            Stops::AtFirst => (number == 0).then_some(7),
            Stops::AtSecond => (number == 1).then_some(7),
            Stops::AfterFirst => (number > 0).then_some(7),
            Stops::EveryOther => (number % 2 == 0).then_some(number),
            Stops::Always => Some(number),
        }
    }
}

/// How a provider answers.
#[derive(Drop)]
pub struct Manner<A: Allocator> {
    /// How often it lists candidates.
    pub listing: Listing,
    /// What it hints of each package.
    pub hint: Hint<A>,
    /// The number of the solvable that it tells as locked, and excluded too, of each package.
    pub locked: Option<u32>,
    /// When it stops.
    pub stops: Stops,
}

impl<A: Allocator> Manner<A> {
    /// Candidates are listed once, nothing is told beside them, and nobody is stopped.
    pub fn plain() -> Self
        ensures listing { result.listing ≡ Once }
        ensures hint { result.hint ≡ Hint.None }
        ensures locked { result.locked ≡ None }
        ensures stops { result.stops ≡ Never }
    {
        Manner {
            listing: Listing::Once,
            hint: Hint::None,
            locked: None,
            stops: Stops::Never,
        }
    }
}

/// How often a provider was asked.
#[derive(Clone, Copy, Debug, PartialEq, Eq)]
pub struct Counts {
    /// For the candidates of a package.
    pub candidates: u32,
    /// For what a solvable needs.
    pub dependencies: u32,
    /// Whether to stop.
    pub cancels: u32,
}

/// A provider that counts what it is asked.
pub trait Counting {
    /// How often it was asked.
    fn counts(&self) -> Counts;
}

/// Counts a question, and answers how many came before it.
pub(crate) fn counted(questions: &Cell<u32>) -> u32 {
    let number = questions.get();
    questions.set(number.saturating_add(1));
    number
}

/// These candidates, told in this manner; none, if there are none and none is favored or locked.
pub(crate) fn told<S: Numbered, A: Allocator + Copy>(
    alloc: A,
    candidates: &[S],
    favored: Option<u32>,
    manner: &Manner<A>,
) -> Result<Option<Candidates<S, A>>, StoreError>
    ensures candidates { IfOk result (λ found. candidates_of found ≡ listed manner.now.listing candidates.now) }
    ensures favored { IfOk result (λ found. favored_of found ≡ option_map S.id_of favored) }
    ensures locked { IfOk result (λ found. locked_of found ≡ option_map S.id_of manner.now.locked) }
    ensures excluded { IfOk result (λ found. excluded_of found ≡ excluded_with (option_map S.id_of manner.now.locked)) }
    ensures err { IfErr result (λ e. e ≡ OutOfMemory) }
{
    if candidates.is_empty() && favored.is_none() && manner.locked.is_none() {
        return Ok(None);
    }
    let mut found = Candidates::new(alloc);
    found.candidates.extend_from_slice(candidates)?;
    if let Listing::Twice = manner.listing {
        found.candidates.extend_from_slice(candidates)?;
    }
    found.favored = match favored {
        Some(favored) => Some(S::numbered(favored)),
        None => None,
    };
    if let Some(locked) = manner.locked {
        found.locked = Some(S::numbered(locked));
        found.excluded.push((S::numbered(locked), StringId(0)))?;
    }
    found.hint_dependencies_available = hinted(alloc, &manner.hint)?;
    Ok(Some(found))
}

/// The hint by ids.
fn hinted<S: Numbered, A: Allocator + Copy>(
    alloc: A,
    hint: &Hint<A>,
) -> Result<HintDependenciesAvailable<S, A>, StoreError>
    ensures { IfErr result (λ e. e ≡ OutOfMemory) }
{
    match hint {
        Hint::None => Ok(HintDependenciesAvailable::None),
        Hint::All => Ok(HintDependenciesAvailable::All),
        Hint::Some(numbers) => {
            let mut solvables = Vec::new(alloc);
            for number in numbers {
                solvables.push(S::numbered(*number))?;
            }
            Ok(HintDependenciesAvailable::Some(solvables))
        }
    }
}

//! For how many wishes no solution is better.
ghost use Rattle.std.specs.Prelude.{◌≡◌, ℕ, ◌+◌, ◌<◌, ◌≤◌, List, [], length, map, take, slice_index, IfOk};
ghost use Rattle.solutions.specs.Settled.{AreSameUpTo, IsUnbeaten, first_trues};
ghost use Rattle.solutions.specs.Clauses.{is_true};
ghost use Rattle.solutions.specs.Reasons.{AreSo};
ghost use Rattle.solutions.specs.Solutions.{IsSolution};
ghost use Rattle.solutions.specs.Truth.{AreStillSatisfied, truth};
ghost use Rattle.solutions.specs.Wishes.{AreGranted, IsBest, alternatives_of, is_so, rank};

use crate::atoms::Atoms;
use crate::clauses::Theory;
use crate::encoded::encoded;
use crate::encoding::Encoder;
use crate::evidence::Evidence;
use crate::literal::Literal;
use crate::ranking::ranks;
use crate::reasons::are_so;
use crate::refuting::Replay;
use crate::wish::{Alternative, Request, Wish};
use resolvo_ids::StoreError;
use resolvo_pool::{ConditionalRequirement, DependencyProvider, ProviderFunctions};

/// For how many of the wishes, from the first on, what is picked is the best solution, if it is one: as far as the
/// evidence shows. These are at least the wishes before the first whose first alternative isn't so.
///
/// Refused `UnknownId` if a wish has a solvable that the provider doesn't know. The provider is queried after each
/// learnt clause whether to stop.
///
/// Costs what `are_so` and `are_enough` do, and for each alternative that would be better what its propagation visits.
/// Nothing is replayed if the first alternative of each wish is so.
pub fn best_up_to<D: DependencyProvider>(
    alloc: D::Alloc,
    provider: &D,
    request: &Request<D::SolvableId, D::Alloc>,
    picked: &[D::SolvableId],
    evidence: &Evidence<D::NameId, D::SolvableId, D::Alloc>,
) -> Result<usize, StoreError>
    ensures best { IfOk result (λ count. IsSolution (⟦<D as ProviderFunctions>⟧.functions provider.now)
        request.now.requirements.now picked.now → IsBest (⟦<D as ProviderFunctions>⟧.functions provider.now)
        request.now.requirements.now (take count (alternatives_of request.now.wishes.now)) picked.now) }
    ensures within { IfOk result (λ count. count ≤ length (alternatives_of request.now.wishes.now)) }
    ensures granted { IfOk result (λ count. (first : ℕ) → first ≤ length (alternatives_of request.now.wishes.now) →
        AreGranted (⟦<D as ProviderFunctions>⟧.functions provider.now) picked.now
        (take first (alternatives_of request.now.wishes.now)) → first ≤ count) }
{
    let ranks = ranks(alloc, provider, request.wishes, picked)?;
    let beatable = beatable(&ranks);
    if beatable.is_empty() {
        return Ok(request.wishes.len());
    }
    let shown = unbeaten(alloc, provider, request, beatable, evidence)?;
    if shown >= beatable.len() {
        return Ok(request.wishes.len());
    }
    let granted = granted(&ranks);
    if shown < granted {
        return Ok(granted);
    }
    Ok(shown)
}

/// How many ranks are 0, from the first on.
fn granted(ranks: &[usize]) -> usize
    ensures within { result ≤ length ranks.now }
    ensures zeros { (place : ℕ) → place < result → slice_index ranks.now place ≡ 0 }
    ensures ends { result < length ranks.now → slice_index ranks.now result ≡ 0 → ⊥ }
{
    for (place, rank) in ranks.iter().enumerate() {
        if *rank != 0 {
            return place;
        }
    }
    ranks.len()
}

/// The ranks up to the last that isn't 0: a rank 0 can't be beaten.
fn beatable(ranks: &[usize]) -> &[usize]
    ensures first { result.now ≡ take (length result.now) ranks.now }
    ensures rest { (place : ℕ) → length result.now ≤ place → slice_index ranks.now place ≡ 0 }
{
    let mut count = ranks.len();
    while count > 0 && ranks[count - 1] == 0 {
        count -= 1;
    }
    &ranks[..count]
}

/// For how many wishes of these ranks, from the first on, the evidence shows that no solution is better.
fn unbeaten<D: DependencyProvider>(
    alloc: D::Alloc,
    provider: &D,
    request: &Request<D::SolvableId, D::Alloc>,
    ranks: &[usize],
    evidence: &Evidence<D::NameId, D::SolvableId, D::Alloc>,
) -> Result<usize, StoreError>
    ensures { IfOk result (λ count. (other : List D.SolvableId) →
        IsSolution (⟦<D as ProviderFunctions>⟧.functions provider.now) request.now.requirements.now other →
        IsUnbeaten count ranks.now (map (rank (⟦<D as ProviderFunctions>⟧.functions provider.now) other)
        (alternatives_of request.now.wishes.now))) }
{
    if !are_so(alloc, provider, request.requirements, evidence.reasons)? {
        return Ok(0);
    }
    let encoder = Encoder { alloc, provider };
    let mut theory = theory_of(&encoder, request.requirements, evidence)?;
    let lists = wish_literals(&encoder, &mut theory.atoms, request.wishes, ranks)?;
    let mut replay = Replay::new(alloc, theory)?;
    replay.all(provider, evidence.learnt)?;
    replay.settle_all(&lists, ranks)
}

/// Clauses that each solution satisfies: of reasons that are so, and of solvables that aren't allowed.
fn theory_of<D: DependencyProvider>(
    encoder: &Encoder<D>,
    requested: &[ConditionalRequirement],
    evidence: &Evidence<D::NameId, D::SolvableId, D::Alloc>,
) -> Result<Theory<D::NameId, D::SolvableId, D::Alloc>, StoreError>
    requires { AreSo (⟦<D as ProviderFunctions>⟧.functions encoder.now.provider.now) requested.now
        evidence.now.reasons.now }
    ensures { IfOk result (λ theory. AreStillSatisfied (⟦<D as ProviderFunctions>⟧.functions encoder.now.provider.now)
        (IsSolution (⟦<D as ProviderFunctions>⟧.functions encoder.now.provider.now) requested.now)
        [] theory.clauses.items) }
{
    let mut theory = encoded(encoder, evidence.reasons)?;
    encoder.forbid_all_unlisted(&mut theory, evidence.unlisted)?;
    Ok(theory)
}

/// That the alternatives of wishes are so, up to the one at each wish's rank.
fn wish_literals<D: DependencyProvider>(
    encoder: &Encoder<D>,
    atoms: &mut Atoms<D::NameId, D::SolvableId, D::Alloc>,
    wishes: &[Wish<D::SolvableId, D::Alloc>],
    ranks: &[usize],
) -> Result<Vec<Vec<Literal<D::NameId, D::SolvableId>, D::Alloc>, D::Alloc>, StoreError>
    ensures { IfOk result (λ lists. (other : List D.SolvableId) → AreSameUpTo (length ranks.now) ranks.now
        (first_trues (truth (⟦<D as ProviderFunctions>⟧.functions encoder.now.provider.now) other) lists.items)
        (map (rank (⟦<D as ProviderFunctions>⟧.functions encoder.now.provider.now) other)
        (alternatives_of wishes.now))) }
{
    let mut lists = Vec::new(encoder.alloc);
    for (place, rank) in ranks.iter().enumerate() {
        let Some(wish) = wishes.get(place) else {
            return Ok(lists);
        };
        let list = literals(encoder, atoms, up_to(&wish.alternatives, *rank))?;
        lists.push(list)?;
    }
    Ok(lists)
}

/// The items up to a place.
fn up_to<T>(items: &[T], place: usize) -> &[T]
    ensures { result.now ≡ take (place + 1) items.now }
{
    match items.get(..=place) {
        Some(first) => first,
        None => items,
    }
}

/// That alternatives are so.
fn literals<D: DependencyProvider>(
    encoder: &Encoder<D>,
    atoms: &mut Atoms<D::NameId, D::SolvableId, D::Alloc>,
    alternatives: &[Alternative<D::SolvableId>],
) -> Result<Vec<Literal<D::NameId, D::SolvableId>, D::Alloc>, StoreError>
    ensures { IfOk result (λ literals. (other : List D.SolvableId) →
        map (is_true (truth (⟦<D as ProviderFunctions>⟧.functions encoder.now.provider.now) other)) literals.items ≡
        map (is_so (⟦<D as ProviderFunctions>⟧.functions encoder.now.provider.now) other) alternatives.now) }
{
    let mut literals = Vec::new(encoder.alloc);
    for alternative in alternatives {
        let atom = encoder.picked(atoms, alternative.solvable)?;
        literals.push(Literal::new(atom, alternative.is_picked))?;
    }
    Ok(literals)
}

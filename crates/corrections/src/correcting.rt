//! The search for the smallest correction.
ghost use Rattle.std.specs.Prelude.{◌≡◌, ◌≤◌, All, IfOk, IfSome, OnOk, length};
ghost use Rattle.corrections.specs.Corrections.{AreConflicts, Corrects, IsConflict, IsCover, IsSmallest};
ghost use Rattle.corrections.specs.Outcomes.{IfConflict, IfFound, IfNext, IfSolved};
ghost use Rattle.corrections.specs.Marks.{kept, size};
ghost use Rattle.solutions.specs.Solutions.{IsSolution};

use crate::marks::{add_extensions, are_as_large, find_apart, size};
use crate::without::{kept, named};
use picking::{Answer, pick};
use resolvo_ids::StoreError;
use resolvo_pool::{ConditionalRequirement, DependencyProvider, ProviderFunctions};
use std::alloc::Allocator;

/// Requirements to leave out, and a solution of the others.
#[derive(Debug, Drop)]
pub struct Correction<S, A: Allocator> {
    /// For each requirement of the request, in order, whether it is left out.
    pub left_out: Vec<bool, A>,
    /// What is picked without them.
    pub solvables: Vec<S, A>,
}

/// What to search for, and how long.
#[derive(Clone, Copy)]
struct Task<'r> {
    requested: &'r [ConditionalRequirement],
    /// How many sets of requirements may be tried.
    tries: usize,
    /// How many steps each search may take.
    steps: u64,
}

/// What trying a set shows.
#[derive(Drop)]
enum Tried<S, A: Allocator> {
    /// A solution of the other requirements.
    Solved(Vec<S, A>),
    /// Some of the others that can't all stay.
    Conflict(Vec<bool, A>),
    /// Neither.
    Unknown,
}

/// What trying the sets of one size shows.
#[derive(Drop)]
enum Level<S, A: Allocator> {
    /// The smallest correction.
    Found(Correction<S, A>),
    /// None of the sets helps: those to try next.
    Next(Vec<Vec<bool, A>, A>),
    /// Neither.
    Unknown,
}

/// The smallest set of requirements without which the request has a solution; the empty set if it has one as it is.
/// Nothing if there are more than `tries` sets to try, up to those of the size that helps; or if a search takes more
/// than `steps` steps, or isn't certified.
pub fn smallest_correction<D: DependencyProvider>(
    alloc: D::Alloc,
    provider: &D,
    requested: &[ConditionalRequirement],
    tries: usize,
    steps: u64,
) -> Result<Option<Correction<D::SolvableId, D::Alloc>>, StoreError>
    ensures solution { IfOk result (λ found. IfSome found (Corrects
        (⟦<D as ProviderFunctions>⟧.functions provider.now) requested.now)) }
    ensures smallest { IfOk result (λ found. IfSome found (λ correction. IsSmallest
        (⟦<D as ProviderFunctions>⟧.functions provider.now) requested.now correction.left_out.items)) }
{
    let mut task = Task {
        requested,
        tries,
        steps,
    };
    let mut conflicts = Vec::new(alloc);
    let mut level = Vec::new(alloc);
    level.push(vec![in alloc; false; requested.len()]?)?;
    'sizes: for _ in 0..=requested.len() {
        match try_level(alloc, provider, &task, &level, &mut conflicts)? {
            Level::Found(correction) => return Ok(Some(correction)),
            Level::Next(next) => {
                task.tries = task.tries.saturating_sub(level.len());
                level = next;
            }
            Level::Unknown => return Ok(None),
        }
    }
    Ok(None)
}

/// Tries the sets of one size. What it finds is the smallest, as no solution leaves out less than one of these sets.
fn try_level<D: DependencyProvider>(
    alloc: D::Alloc,
    provider: &D,
    task: &Task<'_>,
    level: &[Vec<bool, D::Alloc>],
    conflicts: &mut Vec<Vec<bool, D::Alloc>, D::Alloc>,
) -> Result<Level<D::SolvableId, D::Alloc>, StoreError>
    requires cover { IsCover (⟦<D as ProviderFunctions>⟧.functions provider.now) task.now.requested.now level.now }
    requires conflicts { AreConflicts (⟦<D as ProviderFunctions>⟧.functions provider.now) task.now.requested.now
        conflicts.old.items }
    ensures found { IfOk result (IfFound (Corrects (⟦<D as ProviderFunctions>⟧.functions provider.now)
        task.now.requested.now)) }
    ensures smallest { IfOk result (IfFound (λ correction. IsSmallest
        (⟦<D as ProviderFunctions>⟧.functions provider.now) task.now.requested.now correction.left_out.items)) }
    ensures next { IfOk result (IfNext (IsCover (⟦<D as ProviderFunctions>⟧.functions provider.now)
        task.now.requested.now)) }
    ensures conflicts { OnOk result (AreConflicts (⟦<D as ProviderFunctions>⟧.functions provider.now)
        task.now.requested.now conflicts.new.items) }
{
    if level.len() > task.tries {
        return Ok(Level::Unknown);
    }
    let mut next = Vec::new(alloc);
    for set in level {
        match try_without(alloc, provider, task, set, conflicts)? {
            Tried::Solved(solvables) => return found(alloc, task, level, set, solvables),
            Tried::Conflict(conflict) => add_extensions(&mut next, set, &conflict)?,
            Tried::Unknown => return Ok(Level::Unknown),
        }
    }
    Ok(Level::Next(next))
}

/// Tries to leave out a set: by a conflict that is known already, or by a search.
fn try_without<D: DependencyProvider>(
    alloc: D::Alloc,
    provider: &D,
    task: &Task<'_>,
    left_out: &[bool],
    conflicts: &mut Vec<Vec<bool, D::Alloc>, D::Alloc>,
) -> Result<Tried<D::SolvableId, D::Alloc>, StoreError>
    requires { AreConflicts (⟦<D as ProviderFunctions>⟧.functions provider.now) task.now.requested.now
        conflicts.old.items }
    ensures solved { IfOk result (IfSolved (λ solvables. IsSolution (⟦<D as ProviderFunctions>⟧.functions provider.now)
        (kept left_out.now task.now.requested.now) solvables.items)) }
    ensures conflict { IfOk result (IfConflict (IsConflict (⟦<D as ProviderFunctions>⟧.functions provider.now)
        task.now.requested.now)) }
    ensures conflicts { OnOk result (AreConflicts (⟦<D as ProviderFunctions>⟧.functions provider.now)
        task.now.requested.now conflicts.new.items) }
{
    if let Some(conflict) = find_apart(conflicts, left_out) {
        return Ok(Tried::Conflict(conflict.to_vec(alloc)?));
    }
    let tried = search_without(alloc, provider, task, left_out)?;
    if let Tried::Conflict(conflict) = &tried {
        conflicts.push(conflict.to_vec(alloc)?)?;
    }
    Ok(tried)
}

/// Searches for a solution of the requirements that aren't left out.
fn search_without<D: DependencyProvider>(
    alloc: D::Alloc,
    provider: &D,
    task: &Task<'_>,
    left_out: &[bool],
) -> Result<Tried<D::SolvableId, D::Alloc>, StoreError>
    ensures solved { IfOk result (IfSolved (λ solvables. IsSolution (⟦<D as ProviderFunctions>⟧.functions provider.now)
        (kept left_out.now task.now.requested.now) solvables.items)) }
    ensures conflict { IfOk result (IfConflict (IsConflict (⟦<D as ProviderFunctions>⟧.functions provider.now)
        task.now.requested.now)) }
{
    let rest = kept(alloc, task.requested, left_out)?;
    match pick(alloc, provider, &rest, task.steps)? {
        Answer::Picked(choice) => Ok(Tried::Solved(choice.solvables)),
        Answer::Unsolvable(refutation) => {
            let conflict = named(alloc, task.requested, left_out, &refutation.reasons)?;
            Ok(Tried::Conflict(conflict))
        }
        _ => Ok(Tried::Unknown),
    }
}

/// A set that helps, once it is compared with the others of the level: none of them is smaller.
fn found<S: Drop, A: Allocator>(
    alloc: A,
    task: &Task<'_>,
    level: &[Vec<bool, A>],
    set: &[bool],
    solvables: Vec<S, A>,
) -> Result<Level<S, A>, StoreError>
    ensures found { IfOk result (IfFound (λ correction. (correction.solvables ≡ solvables)
        × (correction.left_out.items ≡ set.now) × (length set.now ≡ length task.now.requested.now))) }
    ensures smallest { IfOk result (IfFound (λ correction. All (λ other. size set.now ≤ size other.items) level.now)) }
    ensures next { IfOk result (IfNext (λ next. ⊥)) }
{
    if set.len() != task.requested.len() || !are_as_large(level, size(set)) {
        return Ok(Level::Unknown);
    }
    Ok(Level::Found(Correction {
        left_out: set.to_vec(alloc)?,
        solvables,
    }))
}

//! Reasons that say the same of several versions of a package become one line.
ghost use Rattle.std.specs.Prelude.{◌≡◌, ◌<◌, true, length, IfOk, OnOk};
ghost use Rattle.reports.specs.Lines.{AreTold, Joins, JoinsOne, TellMore};

use crate::line::{Line, said_of, solvable_of};
use resolvo_ids::{SameValue, StoreError};
use resolvo_pool::Interner;
use solutions::Reason;
use std::alloc::Allocator;

type Done = Result<(), StoreError>;

/// The lines that tell the reasons, in the order of their first reasons. A line's versions are in the reasons' order.
#[tactic(auto, using(crate::proofs::LineLemmas::all_told))]
pub fn merged<I: Interner>(
    alloc: I::Alloc,
    interner: &I,
    reasons: &[Reason<I::NameId, I::SolvableId>],
) -> Result<Vec<Line<I::NameId, I::SolvableId, I::Alloc>, I::Alloc>, StoreError>
    ensures { IfOk result (λ lines. AreTold (I.universe interner.now).solvable_name reasons.now lines.items) }
{
    let mut lines = Vec::new(alloc);
    for reason in reasons {
        add(interner, &mut lines, *reason)?;
    }
    Ok(lines)
}

/// Tells a further reason: by the first line that says the same, or else by a new one.
fn add<I: Interner>(
    interner: &I,
    lines: &mut Vec<Line<I::NameId, I::SolvableId, I::Alloc>, I::Alloc>,
    reason: Reason<I::NameId, I::SolvableId>,
) -> Done
    ensures { OnOk result (TellMore (I.universe interner.now).solvable_name lines.old.items lines.new.items reason) }
{
    let joins = join_first(interner, lines, reason)?;
    if joins {
        return Ok(());
    }
    begin(lines, reason)
}

/// Adds a line that tells this reason.
#[tactic(auto, using(crate::proofs::LineLemmas::begun))]
fn begin<N: Copy, S: Copy, A: Allocator + Copy>(
    lines: &mut Vec<Line<N, S, A>, A>,
    reason: Reason<N, S>,
) -> Done
    ensures { OnOk result ((name : S → N) → TellMore name lines.old.items lines.new.items reason) }
{
    let mut versions = Vec::new(*lines.allocator());
    if let Some(solvable) = solvable_of(reason) {
        versions.push(solvable)?;
    }
    Ok(lines.push(Line { reason, versions })?)
}

/// Adds the reason to the first line that says the same; whether there is one.
fn join_first<I: Interner>(
    interner: &I,
    lines: &mut [Line<I::NameId, I::SolvableId, I::Alloc>],
    reason: Reason<I::NameId, I::SolvableId>,
) -> Result<bool, StoreError>
    ensures { IfOk result (λ joins. JoinsOne (I.universe interner.now).solvable_name lines.old lines.new reason joins) }
{
    for place in 0..lines.len() {
        if join_at(interner, lines, place, reason)? {
            return Ok(true);
        }
    }
    Ok(false)
}

/// Adds the reason to the line at this place, if it says the same; whether it does.
fn join_at<I: Interner>(
    interner: &I,
    lines: &mut [Line<I::NameId, I::SolvableId, I::Alloc>],
    place: usize,
    reason: Reason<I::NameId, I::SolvableId>,
) -> Result<bool, StoreError>
    requires { place < length lines.old }
    ensures { IfOk result (λ joins. JoinsOne (I.universe interner.now).solvable_name lines.old lines.new reason joins) }
{
    let line = &mut lines[place];
    let joins = join(interner, line, reason)?;
    Ok(joins)
}

/// Adds the reason to the line, if the line says the same of its package; whether it does.
#[tactic(auto, using(crate::proofs::LineLemmas::joined))]
fn join<I: Interner>(
    interner: &I,
    line: &mut Line<I::NameId, I::SolvableId, I::Alloc>,
    reason: Reason<I::NameId, I::SolvableId>,
) -> Result<bool, StoreError>
    ensures { IfOk result (λ joins. Joins (I.universe interner.now).solvable_name line.old line.new reason joins) }
{
    let Some(solvable) = solvable_of(reason) else {
        return Ok(false);
    };
    let Some(first) = line.versions.first() else {
        return Ok(false);
    };
    if !are_of_one_package(interner, solvable, *first) {
        return Ok(false);
    }
    if !are_same(said_of(line.reason, solvable), reason) {
        return Ok(false);
    }
    line.versions.push(solvable)?;
    Ok(true)
}

/// Whether two values are the same.
fn are_same<T: SameValue + Copy>(first: T, second: T) -> bool
    ensures { result ≡ true → first ≡ second }
{
    first == second
}

/// Whether two solvables are known versions of one package.
fn are_of_one_package<I: Interner>(
    interner: &I,
    first: I::SolvableId,
    second: I::SolvableId,
) -> bool
    ensures { let universe = I.universe interner.now in
        result ≡ true → universe.solvable_name first ≡ universe.solvable_name second }
{
    interner.knows_solvable(first)
        && interner.knows_solvable(second)
        && interner.solvable_name(first) == interner.solvable_name(second)
}

//! The text that answers what is requested, for any provider.
ghost use Rattle.std.specs.Prelude.{◌≡◌, [], true, All, IfOk, OnOk, string_bytes};
ghost use Rattle.resolvo_pool.specs.Texts.{IsAppended};
ghost use Rattle.example_answers.specs.Answers.{IsAnswer, best_line, lines_of};

use crate::outcome::Outcome;
use crate::reasons::write_reasons;
use picking::{Answer, pick};
use resolvo_ids::StoreError;
use resolvo_pool::{ConditionalRequirement, DependencyProvider, Interner, ProviderFunctions};
use std::alloc::Allocator;

/// Searches for what is requested, and writes the answer to a text that is empty so far.
pub(crate) fn write_answer<D: DependencyProvider>(
    alloc: D::Alloc,
    provider: &D,
    requested: &[ConditionalRequirement],
    steps: u64,
    text: &mut String<D::Alloc>,
) -> Result<Outcome, StoreError>
    requires { string_bytes text.old ≡ [] }
    ensures { IfOk result (λ outcome. IsAnswer
        (⟦<D as ProviderFunctions>⟧.functions provider.now) (D.texts provider.now) requested.now
        outcome (string_bytes text.new)) }
{
    text.push_str("request:\n")?;
    match pick(alloc, provider, requested, steps)? {
        Answer::Picked(choice) => {
            write_picked(provider, &choice.solvables, text)?;
            write_best(alloc, choice.best_up_to, choice.ranks.len(), text)?;
            Ok(Outcome::Picked)
        }
        Answer::Unsolvable(refutation) => {
            text.push_str("none\n")?;
            write_reasons(provider, &refutation.reasons, text)?;
            Ok(Outcome::NoSolution)
        }
        Answer::Uncertified(refutation) => {
            text.push_str("gave up: that there is no solution isn't shown\n")?;
            write_reasons(provider, &refutation.reasons, text)?;
            Ok(Outcome::GaveUp)
        }
        Answer::StepsUsed => {
            text.push_str("gave up: too many steps\n")?;
            Ok(Outcome::GaveUp)
        }
        Answer::NotASolution => {
            text.push_str("gave up: what was found is no solution\n")?;
            Ok(Outcome::GaveUp)
        }
    }
}

/// Appends a line for each solvable.
fn write_picked<I: Interner>(
    interner: &I,
    solvables: &[I::SolvableId],
    text: &mut String<I::Alloc>,
) -> Result<(), StoreError>
    requires { All (λ s. (I.universe interner.now).knows_solvable s ≡ true) solvables.now }
    ensures { OnOk result (IsAppended text.old text.new (lines_of (I.texts interner.now).solvable solvables.now)) }
{
    for solvable in solvables {
        interner.display_solvable(*solvable, text)?;
        text.push_str("\n")?;
    }
    Ok(())
}

/// Appends by how many of the wishes what is picked is the best, unless it is by all.
pub(crate) fn write_best<A: Allocator + Copy>(
    alloc: A,
    best_up_to: usize,
    wishes: usize,
    text: &mut String<A>,
) -> Result<(), StoreError>
    ensures { OnOk result (IsAppended text.old text.new (best_line best_up_to wishes)) }
{
    if best_up_to < wishes {
        let line = format!(in alloc; "the best by the first {best_up_to} of {wishes} wishes\n")?;
        text.push_str(&line)?;
    }
    Ok(())
}

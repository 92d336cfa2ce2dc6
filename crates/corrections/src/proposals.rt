//! Which requirements to leave out of a request, by the reasons why it has no solution.
ghost use Rattle.std.specs.Prelude.{◌≡◌, IfOk, List, OnOk};
ghost use Rattle.corrections.specs.Proposals.{IsForbidden, named_in, requirement_in, text_of_all, text_of_each};
ghost use Rattle.corrections.specs.Proposals.{text_of_named, text_of_proposals, text_of_requirement};
ghost use Rattle.resolvo_pool.specs.Texts.{IsAppended};
ghost use Rattle.resolvo_pool.specs.Types.ConditionalRequirement.{ConditionalRequirement};
ghost use Rattle.solutions.specs.Reasons.{AreEnough, AreSo};

use resolvo_ids::StoreError;
use resolvo_pool::{
    ConditionalRequirement, DependencyProvider, Interner, ProviderFunctions, Requirement,
};
use solutions::Reason;
use std::alloc::Allocator;

type Done = Result<(), StoreError>;

/// Appends the line `at least one has to go: app 1..20, lib 2..3`: requirements of the request that the reasons name.
/// If the reasons are true and enough, a request that has all of these has no solution, whatever else it has.
pub fn write_proposals<D: DependencyProvider>(
    provider: &D,
    reasons: &[Reason<D::NameId, D::SolvableId>],
    text: &mut String<D::Alloc>,
) -> Result<(), StoreError>
    ensures text { OnOk result (IsAppended text.old text.new
        (text_of_proposals (D.universe provider.now) (D.texts provider.now) (named_in reasons.now))) }
    ensures forbidden { let p = ⟦<D as ProviderFunctions>⟧.functions provider.now in
        OnOk result (AreEnough p reasons.now → (requested : List ConditionalRequirement) →
        AreSo p requested reasons.now → IsForbidden p (named_in reasons.now)) }
{
    let named = named_in(*text.allocator(), reasons)?;
    text.push_str("at least one has to go: ")?;
    write_all(provider, &named, text)?;
    Ok(text.push_str("\n")?)
}

/// The requirements of the request that the reasons name, in the reasons' order.
pub fn named_in<N, S, A: Allocator>(
    alloc: A,
    reasons: &[Reason<N, S>],
) -> Result<Vec<ConditionalRequirement, A>, StoreError>
    ensures { IfOk result (λ named. named.items ≡ named_in reasons.now) }
{
    Ok(
        reasons
            .iter()
            .filter_map(|reason| requirement_in(reason))
            .collect(alloc)?,
    )
}

/// The requirement of the request that a reason names.
fn requirement_in<N, S>(reason: &Reason<N, S>) -> Option<ConditionalRequirement>
    ensures { result ≡ requirement_in reason.now }
{
    match reason {
        Reason::Needs(None, requirement) => Some(*requirement),
        Reason::Lacks(None, requirement) => Some(*requirement),
        _ => None,
    }
}

/// Appends requirements, with commas between them.
fn write_all<I: Interner>(
    interner: &I,
    requirements: &[ConditionalRequirement],
    text: &mut String<I::Alloc>,
) -> Done
    ensures { OnOk result (IsAppended text.old text.new
        (text_of_all (I.universe interner.now) (I.texts interner.now) requirements.now)) }
{
    match requirements {
        [] => Ok(()),
        [first, others @ ..] => {
            write_named(interner, *first, text)?;
            write_each(interner, others, text)
        }
    }
}

/// Appends each requirement, with a comma before it.
fn write_each<I: Interner>(
    interner: &I,
    requirements: &[ConditionalRequirement],
    text: &mut String<I::Alloc>,
) -> Done
    ensures { OnOk result (IsAppended text.old text.new
        (text_of_each (I.universe interner.now) (I.texts interner.now) requirements.now)) }
{
    for requirement in requirements {
        text.push_str(", ")?;
        write_named(interner, *requirement, text)?;
    }
    Ok(())
}

/// Appends a requirement, and ` if ..` if it has a condition.
fn write_named<I: Interner>(
    interner: &I,
    named: ConditionalRequirement,
    text: &mut String<I::Alloc>,
) -> Done
    ensures { OnOk result (IsAppended text.old text.new
        (text_of_named (I.universe interner.now) (I.texts interner.now) named)) }
{
    write_requirement(interner, named.requirement, text)?;
    match named.condition {
        Some(_) => Ok(text.push_str(" if ..")?),
        None => Ok(()),
    }
}

/// Appends a requirement; nothing if the interner doesn't know it.
fn write_requirement<I: Interner>(
    interner: &I,
    requirement: Requirement,
    text: &mut String<I::Alloc>,
) -> Done
    ensures { OnOk result (IsAppended text.old text.new
        (text_of_requirement (I.universe interner.now) (I.texts interner.now) requirement)) }
{
    match requirement {
        Requirement::Single(set) if interner.knows_version_set(set) => {
            requirement.display(interner, text)
        }
        Requirement::Union(union) if interner.knows_union(union) => {
            requirement.display(interner, text)
        }
        _ => Ok(()),
    }
}

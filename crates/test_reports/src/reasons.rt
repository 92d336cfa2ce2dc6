//! Why there is no solution, and how much of a request to keep.
use crate::saying::STEPS;
use corrections::smallest_correction;
use picking::{Answer, pick};
use reports::write_report_with_names;
use resolvo_ids::StoreError;
use resolvo_pool::{ConditionalRequirement, DependencyProvider};
use std::alloc::Allocator;

/// More sets than any correction here tries, and fewer than some try.
const TRIES: [usize; 2] = [100, 3];

/// Writes the report if there is no solution, in which one of these names may be meant; and the smallest correction, by
/// many tries and by few.
pub(crate) fn write_reasons<D: DependencyProvider>(
    alloc: D::Alloc,
    provider: &D,
    names: &[D::NameId],
    requested: &[ConditionalRequirement],
    text: &mut String<D::Alloc>,
) -> Result<(), StoreError> {
    if let Answer::Unsolvable(found) = pick(alloc, provider, requested, STEPS)? {
        write_report_with_names(provider, names, &found.reasons, text)?;
    }
    for tries in TRIES {
        text.push_str("keep: ")?;
        match smallest_correction(alloc, provider, requested, tries, STEPS)? {
            Some(correction) => write_marks(&correction.left_out, text)?,
            None => text.push_str("unknown\n")?,
        }
    }
    Ok(())
}

/// Writes a sign for each requirement, and a line feed: a minus if it is left out.
fn write_marks<A: Allocator>(left_out: &[bool], text: &mut String<A>) -> Result<(), StoreError> {
    for mark in left_out {
        text.push_str(if *mark { "-" } else { "+" })?;
    }
    Ok(text.push_str("\n")?)
}

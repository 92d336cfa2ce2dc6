//! The objects that answers are.
ghost use Rattle.std.specs.Prelude.{◌≡◌, IfOk};
ghost use Rattle.serde_json.specs.View.{members_view, view};
ghost use Rattle.example_json.specs.Objects.{answer_data, ended_data, gave_up, headed, none_data};
ghost use Rattle.example_json.specs.Objects.{picked_data, refused_data, uncertified_data, unreadable_data};

use crate::values::{Made, Members, Values};
use example_answers::words_of;
use picking::{Answer, Choice, Reason};
use resolvo_ids::StoreError;
use resolvo_pool::Interner;
use serde_json::{Map, Value, json, put};
use std::alloc::{AllocError, Global};

/// Where an index is: what its input is called, and in which line of that it begins.
#[derive(Clone, Copy)]
pub(crate) struct Heading<'n> {
    pub(crate) input: &'n str,
    pub(crate) line: u64,
}

impl<I: Interner> Values<'_, I> {
    /// The object of what a search answers to an index with these notes.
    pub(crate) fn answer(
        &self,
        heading: Heading<'_>,
        notes: Value,
        answer: &Answer<I::NameId, I::SolvableId, I::Alloc>,
    ) -> Made
        ensures { IfOk result (λ value. view value ≡
            answer_data heading.entry.input.now heading.entry.line (view notes)
            (I.universe self.now.interner.now) (I.texts self.now.interner.now) answer.now) }
    {
        match answer {
            Answer::Picked(choice) => self.picked(heading, notes, choice),
            Answer::Unsolvable(refutation) => self.none(heading, notes, &refutation.reasons),
            Answer::Uncertified(refutation) => {
                self.uncertified(heading, notes, &refutation.reasons)
            }
            Answer::StepsUsed => Ok(ended(self.alloc, heading, notes, "too many steps")?),
            Answer::NotASolution => Ok(ended(
                self.alloc,
                heading,
                notes,
                "what was found is no solution",
            )?),
        }
    }

    /// That versions are picked: which ones, and by how many wishes they are the best.
    fn picked(
        &self,
        heading: Heading<'_>,
        notes: Value,
        choice: &Choice<I::SolvableId, I::Alloc>,
    ) -> Made
        ensures { IfOk result (λ value. view value ≡
            picked_data heading.entry.input.now heading.entry.line (view notes)
            (I.universe self.now.interner.now) (I.texts self.now.interner.now) choice.now) }
    {
        let mut members = headed(self.alloc, heading, notes, "picked")?;
        put(
            &mut members,
            self.alloc,
            "picked",
            self.versions(&choice.solvables)?,
        )?;
        put(
            &mut members,
            self.alloc,
            "best_up_to",
            Value::from(choice.best_up_to),
        )?;
        put(
            &mut members,
            self.alloc,
            "wishes",
            Value::from(choice.ranks.len()),
        )?;
        Ok(Value::Object(members))
    }

    /// That there is no solution, and why.
    fn none(
        &self,
        heading: Heading<'_>,
        notes: Value,
        reasons: &[Reason<I::NameId, I::SolvableId>],
    ) -> Made
        ensures { IfOk result (λ value. view value ≡
            none_data heading.entry.input.now heading.entry.line (view notes)
            (I.universe self.now.interner.now) (I.texts self.now.interner.now) reasons.now) }
    {
        let mut members = headed(self.alloc, heading, notes, "none")?;
        put(&mut members, self.alloc, "reasons", self.reasons(reasons)?)?;
        Ok(Value::Object(members))
    }

    /// That a check didn't confirm these reasons.
    fn uncertified(
        &self,
        heading: Heading<'_>,
        notes: Value,
        reasons: &[Reason<I::NameId, I::SolvableId>],
    ) -> Made
        ensures { IfOk result (λ value. view value ≡
            uncertified_data heading.entry.input.now heading.entry.line (view notes)
            (I.universe self.now.interner.now) (I.texts self.now.interner.now) reasons.now) }
    {
        let mut members = gave_up(
            self.alloc,
            heading,
            notes,
            "that there is no solution isn't shown",
        )?;
        put(&mut members, self.alloc, "reasons", self.reasons(reasons)?)?;
        Ok(Value::Object(members))
    }
}

/// That a search gave up, and why.
fn ended(alloc: Global, heading: Heading<'_>, notes: Value, why: &str) -> Result<Value, AllocError>
    ensures { IfOk result (λ value. view value ≡
        ended_data heading.entry.input.now heading.entry.line (view notes) why.now) }
{
    Ok(Value::Object(gave_up(alloc, heading, notes, why)?))
}

/// The members that say that a search gave up, and why.
fn gave_up(
    alloc: Global,
    heading: Heading<'_>,
    notes: Value,
    why: &str,
) -> Result<Members, AllocError>
    ensures { IfOk result (λ members. members_view members.entries ≡
        gave_up heading.entry.input.now heading.entry.line (view notes) why.now) }
{
    let mut members = headed(alloc, heading, notes, "gave up")?;
    put(&mut members, alloc, "why", Value::try_from_str(alloc, why)?)?;
    Ok(members)
}

/// The members that each answer to an index has that was read: where it is, its notes, and what becomes of it.
fn headed(
    alloc: Global,
    heading: Heading<'_>,
    notes: Value,
    status: &str,
) -> Result<Members, AllocError>
    ensures { IfOk result (λ members. members_view members.entries ≡
        headed heading.entry.input.now heading.entry.line (view notes) status.now) }
{
    let mut members = Map::new(alloc);
    put(&mut members, alloc, "notes", notes)?;
    put(
        &mut members,
        alloc,
        "input",
        Value::try_from_str(alloc, heading.input)?,
    )?;
    put(&mut members, alloc, "line", Value::from(heading.line))?;
    put(
        &mut members,
        alloc,
        "status",
        Value::try_from_str(alloc, status)?,
    )?;
    Ok(members)
}

/// That memory or an id was refused.
pub(crate) fn refused_value(
    alloc: Global,
    heading: Heading<'_>,
    refused: StoreError,
) -> Result<Value, AllocError>
    ensures { IfOk result (λ value. view value ≡
        refused_data heading.entry.input.now heading.entry.line refused) }
{
    json!(in alloc; {
        "input": heading.input,
        "line": heading.line,
        "status": "gave up",
        "why": words_of(refused)
    })
}

/// That a line is unreadable, and what is said of that line.
pub(crate) fn unreadable_value(
    alloc: Global,
    heading: Heading<'_>,
    place: Value,
) -> Result<Value, AllocError>
    ensures { IfOk result (λ value. view value ≡
        unreadable_data heading.entry.input.now heading.entry.line (view place)) }
{
    json!(in alloc; {
        "input": heading.input,
        "line": heading.line,
        "status": "unreadable",
        "unreadable": place
    })
}

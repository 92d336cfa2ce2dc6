//! The answers of indexes as texts of objects.
ghost use Rattle.std.specs.Prelude.{◌≡◌, ℕ, false, None, Some, List, IfOk, map, string_bytes};
ghost use Rattle.index_text.specs.Index.{index_of};
ghost use Rattle.index_text.specs.PlainLines.{plain_line};
ghost use Rattle.std.specs.Str.Lines.{lines};
ghost use Rattle.serde_json.specs.Data.{string};
ghost use Rattle.serde_json.specs.View.{view};
ghost use Rattle.serde_json.specs.Written.{compact_text, has_float};
ghost use Rattle.example_answers.specs.Faults.{unreadable_in};
ghost use Rattle.example_json.specs.Answers.{IndexIsShown, ShowsAnswer, ShowsIndex, ShowsLines, ShowsRefusal};
ghost use Rattle.example_json.specs.Answers.{ShowsUnreadable, ShowsWords, notes_data, outcome_of, place_data};
ghost use Rattle.example_json.specs.Values.{array_of};

use crate::objects::{Heading, refused_value, unreadable_value};
use crate::values::{Made, Values};
use example_answers::{AnswerText, Answering, Outcome, first_number};
use example_index::{IndexFault, SmallIndex};
use index_text::{Diagnosis, Line, diagnose};
use picking::{Answer, pick};
use resolvo_ids::StoreError;
use resolvo_pool::{ConditionalRequirement, DependencyProvider, Interner, ProviderFunctions};
use serde_json::{Value, json, push};
use std::alloc::{AllocError, Allocator, Global};

/// The search for the best solution, whose answers are JSON objects. Each text is one line without its line feed.
#[derive(Drop)]
pub struct JsonAnswers<'n> {
    /// What the input is called.
    input: &'n str,
    /// How many steps a search makes at most.
    steps: u64,
}

impl<'n> JsonAnswers<'n> {
    /// The search in the indexes of an input of this name, in no more steps than these.
    pub fn new(input: &'n str, steps: u64) -> Self {
        JsonAnswers { input, steps }
    }
}

impl Answering for JsonAnswers<'_> {
    ghost answers = { ShowsWords ⟦<SmallIndex as ProviderFunctions>⟧.functions ⟦<SmallIndex as Interner>⟧.texts };

    fn answer(&mut self, alloc: Global, lines: &[Line<'_>]) -> Result<AnswerText, AllocError> {
        answer_as_json(alloc, lines, self.input, self.steps)
    }
}

/// Answers the index of these lines of the input of this name, in at most `steps` steps: a JSON object on one line,
/// without its line feed.
pub fn answer_as_json(
    alloc: Global,
    lines: &[Line<'_>],
    input: &str,
    steps: u64,
) -> Result<AnswerText, AllocError>
    ensures answers { IfOk result (λ answered. ShowsLines
        ⟦<SmallIndex as ProviderFunctions>⟧.functions ⟦<SmallIndex as Interner>⟧.texts input.now lines.now
        answered.outcome (string_bytes answered.text)) }
    ensures unreadable { IfOk result (λ answered. answered.unreadable ≡
        unreadable_in (index_of (map plain_line lines.now)) answered.outcome) }
{
    let heading = Heading {
        input,
        line: first_number(lines),
    };
    match example_index::read(alloc, lines) {
        Ok(index) => answer_index(alloc, &index, heading, steps),
        Err(IndexFault::Unreadable(number)) => answer_unreadable(alloc, lines, heading, number),
        Err(IndexFault::Refused(refused)) => answer_refusal(alloc, heading, refused),
    }
}

/// Answers the request of an index.
fn answer_index(
    alloc: Global,
    index: &SmallIndex,
    heading: Heading<'_>,
    steps: u64,
) -> Result<AnswerText, AllocError>
    ensures answers { IfOk result (λ answered. IndexIsShown heading.entry.input.now heading.entry.line
        ⟦<SmallIndex as ProviderFunctions>⟧.functions ⟦<SmallIndex as Interner>⟧.texts index.now
        answered.outcome (string_bytes answered.text)) }
    ensures unreadable { IfOk result (λ answered. answered.unreadable ≡ None) }
{
    match search_index(alloc, index, heading, steps) {
        Ok(answered) => Ok(answered),
        Err(refused) => answer_refusal(alloc, heading, refused),
    }
}

/// Searches for what an index requests.
fn search_index(
    alloc: Global,
    index: &SmallIndex,
    heading: Heading<'_>,
    steps: u64,
) -> Result<AnswerText, StoreError>
    ensures answers { IfOk result (λ answered. ShowsIndex heading.entry.input.now heading.entry.line
        ⟦<SmallIndex as ProviderFunctions>⟧.functions ⟦<SmallIndex as Interner>⟧.texts
        answered.outcome (string_bytes answered.text) index.now) }
    ensures unreadable { IfOk result (λ answered. answered.unreadable ≡ None) }
{
    let values = Values {
        interner: index,
        alloc,
        texts: alloc,
    };
    let notes = notes_value(alloc, index)?;
    answer_search(&values, heading, notes, index.request(), steps)
}

/// Searches for what is requested.
fn answer_search<D: DependencyProvider>(
    values: &Values<'_, D>,
    heading: Heading<'_>,
    notes: Value,
    requested: &[ConditionalRequirement],
    steps: u64,
) -> Result<AnswerText, StoreError>
    requires { has_float (view notes) ≡ false }
    ensures answers { IfOk result (λ answered. ShowsAnswer heading.entry.input.now heading.entry.line D.Alloc
        (⟦<D as ProviderFunctions>⟧.functions values.now.interner.now) (D.texts values.now.interner.now) requested.now
        (view notes) answered.outcome (string_bytes answered.text)) }
    ensures unreadable { IfOk result (λ answered. answered.unreadable ≡ None) }
{
    let answer = pick(values.texts, values.interner, requested, steps)?;
    let object = values.answer(heading, notes, &answer)?;
    Ok(text_of(values.alloc, outcome_of(&answer), object)?)
}

/// What becomes of an index with this answer.
fn outcome_of<N, S, A: Allocator>(answer: &Answer<N, S, A>) -> Outcome
    ensures { result ≡ outcome_of answer.now }
{
    match answer {
        Answer::Picked(_) => Outcome::Picked,
        Answer::Unsolvable(_) => Outcome::NoSolution,
        Answer::Uncertified(_) | Answer::StepsUsed | Answer::NotASolution => Outcome::GaveUp,
    }
}

/// The notes on an index.
fn notes_value(alloc: Global, index: &SmallIndex) -> Made
    ensures { IfOk result (λ value. view value ≡ notes_data index.now) }
{
    let sets = index.empty_sets(alloc)?;
    let mut notes = String::new(alloc);
    index.write_notes(alloc, &sets, &mut notes)?;
    Ok(lines_value(alloc, notes.as_str())?)
}

/// The lines of a text.
fn lines_value(alloc: Global, text: &str) -> Result<Value, AllocError>
    ensures { IfOk result (λ value. view value ≡ array_of string (lines text.now)) }
{
    let mut values = Vec::new(alloc);
    for line in text.lines() {
        push(&mut values, Value::try_from_str(alloc, line)?)?;
    }
    Ok(Value::Array(values))
}

/// Says which line is unreadable, and what was expected where.
fn answer_unreadable(
    alloc: Global,
    lines: &[Line<'_>],
    heading: Heading<'_>,
    number: u64,
) -> Result<AnswerText, AllocError>
    ensures answers { IfOk result (λ answered. ShowsUnreadable heading.entry.input.now heading.entry.line
        lines.now number answered.outcome (string_bytes answered.text)) }
    ensures unreadable { IfOk result (λ answered. answered.unreadable ≡ Some number) }
{
    let diagnosis = diagnose(alloc, lines, number)?;
    let place = place_value(alloc, number, diagnosis)?;
    let object = unreadable_value(alloc, heading, place)?;
    let mut answered = text_of(alloc, Outcome::Unreadable, object)?;
    answered.unreadable = Some(number);
    Ok(answered)
}

/// Which line is unreadable, and what was expected where.
fn place_value(
    alloc: Global,
    number: u64,
    diagnosis: Option<Diagnosis>,
) -> Result<Value, AllocError>
    ensures { IfOk result (λ value. (said : List ℕ) × (view value ≡ place_data number said diagnosis)) }
{
    let Some(fault) = diagnosis else {
        return json!(in alloc; {"line": number});
    };
    let expected = fault.expected;
    let said = format!(in alloc; "{expected}")?;
    json!(in alloc; {"column": fault.column, "line": number, "said": said})
}

/// Says that memory or an id was refused.
fn answer_refusal(
    alloc: Global,
    heading: Heading<'_>,
    refused: StoreError,
) -> Result<AnswerText, AllocError>
    ensures answers { IfOk result (λ answered. ShowsRefusal heading.entry.input.now heading.entry.line
        answered.outcome (string_bytes answered.text)) }
    ensures unreadable { IfOk result (λ answered. answered.unreadable ≡ None) }
{
    let object = refused_value(alloc, heading, refused)?;
    text_of(alloc, Outcome::GaveUp, object)
}

/// The text of an object, as an answer.
fn text_of(alloc: Global, outcome: Outcome, object: Value) -> Result<AnswerText, AllocError>
    requires { has_float (view object) ≡ false }
    ensures shown { IfOk result (λ answered. (answered.outcome ≡ outcome)
        × (string_bytes answered.text ≡ compact_text (view object))) }
    ensures unreadable { IfOk result (λ answered. answered.unreadable ≡ None) }
{
    Ok(AnswerText {
        outcome,
        text: object.to_string(alloc)?,
        unreadable: None,
    })
}

//! The answer with explanations: why each version is picked, or a report that tells why there is no solution.
ghost use Rattle.std.specs.Prelude.{◌≡◌, [], IfOk, OnOk, slice_get, string_bytes};
ghost use Rattle.resolvo_pool.specs.Texts.{IsAppended};
ghost use Rattle.example_answers.specs.Explained.{ExplainsAnswer, lines_of_causes, text_of_cause, text_of_pick};
ghost use Rattle.example_answers.specs.Explained.{text_of_requested, text_of_required};

use crate::conflict::write_conflict;
use crate::outcome::Outcome;
use crate::reasons::{write_need, write_reasons, write_solvable};
use crate::writing::write_best;
use picking::{Answer, pick};
use report_trees::write_tree;
use resolvo_ids::StoreError;
use resolvo_pool::{ConditionalRequirement, DependencyProvider, Interner, ProviderFunctions};
use solutions::Cause;

type Done = Result<(), StoreError>;

/// Searches for what is requested, and writes the answer, with explanations, to a text that is empty so far. One of
/// these names may be meant where there is no package.
pub(crate) fn write_explained<D: DependencyProvider>(
    provider: &D,
    names: &[D::NameId],
    requested: &[ConditionalRequirement],
    steps: u64,
    text: &mut String<D::Alloc>,
) -> Result<Outcome, StoreError>
    requires { string_bytes text.old ≡ [] }
    ensures { IfOk result (λ outcome. ExplainsAnswer D.Alloc
        (⟦<D as ProviderFunctions>⟧.functions provider.now) (D.texts provider.now) names.now requested.now
        outcome (string_bytes text.new)) }
{
    let alloc = *text.allocator();
    text.push_str("request:\n")?;
    match pick(alloc, provider, requested, steps)? {
        Answer::Picked(choice) => {
            let picks = Picks {
                interner: provider,
                requested,
                picked: &choice.solvables,
            };
            picks.write_lines(&choice.causes, text)?;
            write_best(alloc, choice.best_up_to, choice.ranks.len(), text)?;
            Ok(Outcome::Picked)
        }
        Answer::Unsolvable(refutation) => {
            text.push_str("none\n")?;
            write_tree(provider, names, &refutation.reasons, text)?;
            write_conflict(provider, &refutation.reasons, text)?;
            Ok(Outcome::NoSolution)
        }
        Answer::Uncertified(refutation) => {
            text.push_str("gave up: that there is no solution isn't shown\n")?;
            write_reasons(provider, &refutation.reasons, text)?;
            Ok(Outcome::GaveUp)
        }
        Answer::StepsUsed => {
            text.push_str("gave up: too many steps\n")?;
            Ok(Outcome::GaveUp)
        }
        Answer::NotASolution => {
            text.push_str("gave up: what was found is no solution\n")?;
            Ok(Outcome::GaveUp)
        }
    }
}

/// What is picked, and what is requested.
#[derive(Drop)]
struct Picks<'p, I: Interner> {
    interner: &'p I,
    requested: &'p [ConditionalRequirement],
    picked: &'p [I::SolvableId],
}

impl<I: Interner> Picks<'_, I> {
    /// Appends a line for each solvable, with its cause.
    fn write_lines(&self, causes: &[Cause], text: &mut String<I::Alloc>) -> Done
        ensures { OnOk result (IsAppended text.old text.new (lines_of_causes
            (text_of_pick (I.universe self.now.interner.now) (I.texts self.now.interner.now)
            self.now.requested.now self.now.picked.now) causes.now self.now.picked.now)) }
    {
        let mut others = self.picked;
        for cause in causes {
            let [solvable, rest @ ..] = others else {
                return Ok(());
            };
            self.write_pick(*solvable, *cause, text)?;
            text.push_str("\n")?;
            others = rest;
        }
        Ok(())
    }

    /// Appends a solvable, and its cause.
    fn write_pick(&self, solvable: I::SolvableId, cause: Cause, text: &mut String<I::Alloc>) -> Done
        ensures { OnOk result (IsAppended text.old text.new
            (text_of_pick (I.universe self.now.interner.now) (I.texts self.now.interner.now)
            self.now.requested.now self.now.picked.now solvable cause)) }
    {
        write_solvable(self.interner, solvable, text)?;
        text.push_str(": ")?;
        self.write_cause(cause, text)
    }

    /// Appends a cause.
    fn write_cause(&self, cause: Cause, text: &mut String<I::Alloc>) -> Done
        ensures { OnOk result (IsAppended text.old text.new
            (text_of_cause (I.universe self.now.interner.now) (I.texts self.now.interner.now)
            self.now.requested.now self.now.picked.now cause)) }
    {
        match cause {
            Cause::Requested(place) => {
                write_requested(self.interner, self.requested.get(place).copied(), text)
            }
            Cause::Wished(_) => Ok(text.push_str("wished")?),
            Cause::Required(place) => {
                write_required(self.interner, self.picked.get(place).copied(), text)
            }
        }
    }
}

/// Appends what the request needs.
fn write_requested<I: Interner>(
    interner: &I,
    need: Option<ConditionalRequirement>,
    text: &mut String<I::Alloc>,
) -> Done
    ensures { OnOk result (IsAppended text.old text.new
        (text_of_requested (I.universe interner.now) (I.texts interner.now) need)) }
{
    match need {
        Some(need) => write_need(interner, None, need, text),
        None => Ok(()),
    }
}

/// Appends whose need it is.
fn write_required<I: Interner>(
    interner: &I,
    parent: Option<I::SolvableId>,
    text: &mut String<I::Alloc>,
) -> Done
    ensures { OnOk result (IsAppended text.old text.new
        (text_of_required (I.universe interner.now) (I.texts interner.now) parent)) }
{
    match parent {
        Some(solvable) => {
            write_solvable(interner, solvable, text)?;
            Ok(text.push_str(" needs it")?)
        }
        None => Ok(()),
    }
}

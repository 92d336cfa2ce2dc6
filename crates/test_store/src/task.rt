//! What is done with a new store.
use crate::answers::{push_end, push_run, push_set_steps, push_steps, push_texts};
use crate::each::{Fate, push_fate};
use crate::few::push_few;
use crate::given::commands_of;
use crate::implied::{Saturation, push_implied};
use crate::obeys::Obeys;
use crate::played::Output;
use crate::trial::Trial;
use resolvo_store::Command;
use std::alloc::Allocator;
use test_support::Numbered;
use typed_ids::StoreError;

/// What is done with a new store.
#[derive(Clone, Copy)]
pub(crate) enum Task<'t> {
    /// It obeys the commands one by one (`step`). The output has the replies, then the literals of all clauses, the
    /// next decision and the provider's counts.
    Steps,
    /// As `Steps`, but `Standard` is set before each decision, to the first and the second value in turn.
    Set(bool, bool),
    /// As `Steps`, by one call of `run`.
    Run,
    /// It obeys the commands. The output has the texts of its clauses.
    Texts,
    /// It obeys the commands, while a few of their requests for memory are refused. The output has each reply that
    /// isn't one of these lines.
    Few(&'t str),
    /// One request for memory is refused, as the fate says. The output has the replies to the commands, and then to the
    /// trial's probes, which show the store's state.
    Each(Fate),
    /// One request of a saturation is refused. The output has a line for all that isn't as it should be then.
    Implied(Saturation<'t>),
}

/// Carries out a task on a store, and appends its output.
pub(crate) fn push_output<N: Numbered, S: Numbered, A: Allocator + Copy, T: Obeys<N, S, A>>(
    store: &mut T,
    alloc: A,
    trial: &Trial<'_>,
    task: Task<'_>,
    output: &mut Output,
) -> Result<(), StoreError> {
    let commands = commands_of(alloc, trial.commands)?;
    let probes = commands_of(alloc, trial.probes)?;
    if let Task::Texts = task {
        push_texts(store, alloc, trial.heap, &commands, &mut output.text)
    } else {
        push_task(store, trial, (&commands, &probes), task, output)
    }
}

fn push_task<N: Drop, S: Drop, A: Allocator, T: Obeys<N, S, A>>(
    store: &mut T,
    trial: &Trial<'_>,
    (commands, probes): (&[Command<N, S, A>], &[Command<N, S, A>]),
    task: Task<'_>,
    output: &mut Output,
) -> Result<(), StoreError> {
    match task {
        Task::Few(wanted) => {
            output.refused = push_few(store, trial, commands, wanted, &mut output.text)?;
            return Ok(());
        }
        Task::Each(fate) => {
            let both = (commands, probes);
            output.is_reached = push_fate(store, trial.heap, both, fate, &mut output.text)?;
            return Ok(());
        }
        Task::Implied(saturation) => {
            output.is_reached = push_implied(store, trial, commands, saturation, &mut output.text)?;
            return Ok(());
        }
        Task::Run => push_run(store, commands, &mut output.text)?,
        Task::Set(even, odd) => push_set_steps(store, commands, (even, odd), &mut output.text)?,
        _ => push_steps(store, commands, &mut output.text)?,
    }
    push_end(store, &mut output.text)
}

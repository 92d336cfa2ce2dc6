//! Why an index has no solution, as a graph.
ghost use Rattle.std.specs.Prelude.{IfOk, IsTrue, OnOk, map};
ghost use Rattle.index_text.specs.PlainLines.{plain_line};
ghost use Rattle.resolvo_pool.specs.Texts.{IsContinuedBy};
ghost use Rattle.example_answers.specs.Shown.{ShowsLines, ShowsNoSolution};

use example_index::SmallIndex;
use index_text::Line;
use picking::{Answer, pick};
use reports::write_dot;
use resolvo_ids::StoreError;
use resolvo_pool::{ConditionalRequirement, DependencyProvider, Interner, ProviderFunctions};
use std::alloc::{AllocError, Global};

/// Appends a graph that shows why the index of these lines has no solution, in Graphviz' language, if a search in no
/// more steps than these answers that it has none. An error says that it answers otherwise, or that memory was refused.
pub fn append_graph(
    alloc: Global,
    lines: &[Line<'_>],
    steps: u64,
    graphs: &mut String,
) -> Result<(), AllocError>
    ensures { OnOk result (IsContinuedBy graphs.old graphs.new (ShowsLines
        ⟦<SmallIndex as ProviderFunctions>⟧.functions ⟦<SmallIndex as Interner>⟧.texts (map plain_line lines.now))) }
{
    let Ok(index) = example_index::read(alloc, lines) else {
        return Err(AllocError);
    };
    match write_graph(alloc, &index, index.request(), steps, graphs) {
        Ok(true) => Ok(()),
        _ => Err(AllocError),
    }
}

/// Appends a graph that shows why what is requested has no solution, if a search finds that; whether it does.
fn write_graph<D: DependencyProvider>(
    alloc: D::Alloc,
    provider: &D,
    requested: &[ConditionalRequirement],
    steps: u64,
    graphs: &mut String<D::Alloc>,
) -> Result<bool, StoreError>
    ensures { IfOk result (λ is_shown. IsTrue is_shown → IsContinuedBy graphs.old graphs.new (ShowsNoSolution D.Alloc
        (⟦<D as ProviderFunctions>⟧.functions provider.now) (D.texts provider.now) requested.now)) }
{
    match pick(alloc, provider, requested, steps)? {
        Answer::Unsolvable(refutation) => {
            write_dot(provider, &refutation.reasons, graphs)?;
            Ok(true)
        }
        _ => Ok(false),
    }
}

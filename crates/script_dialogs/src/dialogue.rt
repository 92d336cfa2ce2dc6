//! Dialogues over a clause store.
ghost use Rattle.std.specs.Prelude.{◌≡◌, ℕ, Err, IfSome, MatchOption};
ghost use Rattle.script_text.specs.declared.fault.ScriptFault.TheVariants.{Unreadable};
ghost use Rattle.script_text.specs.Lines.{lines as lines_of};
ghost use Rattle.dialogs.specs.Answering.{AreAnswered};
ghost use Rattle.dialogs.specs.Talks.{TalkEnds};
ghost use Rattle.scripts.specs.Commands.{ids_at};
ghost use Rattle.script_dialogs.specs.DialogEnds.{AnswersNamed, WereAnswered, DialogAnswers, IsScriptAnswered};
ghost use Rattle.scripts.specs.Scripts.{ScriptLinesAnswered};

use crate::script_lines::ScriptLines;
use dialogs::{Answerer, Peer, talk};
use providers::DependencyProvider;
use script_packages::Packages;
use script_text::{ScriptFault, write_rest};
use scripts::{OverPackages, push_unreadable};
use solver_cache::ProviderFunctions;
use std::alloc::Global;
use typed_ids::DenseIndex;

/// Obeys the lines of a script as the peer says them. Each answer is written and flushed before anything more is read.
/// At the first unreadable line the line that names it is written, and nothing more is read.
pub fn dialog<P: Peer>(alloc: Global, peer: &mut P) -> Result<(), ScriptFault>
    ensures answers { IfSome (P.remaining peer.old) (λ input. DialogAnswers (lines_of input)
        (P.contents peer.old) result (P.contents peer.new)) }
    ensures calls { TalkEnds P.reads P.Source.fails P.writes P.Sink.fails
        (IsScriptAnswered P.remaining P.contents peer.old) P.remaining peer.old result peer.new }
{
    dialog_over::<Packages, P>(alloc, alloc, peer)
}

/// Obeys the lines, over what is made of the packages that they list.
fn dialog_over<
    D: DependencyProvider<NameId: DenseIndex, SolvableId: DenseIndex> + OverPackages + Drop,
    P: Peer,
>(alloc: Global, store_alloc: D::Alloc, peer: &mut P) -> Result<(), ScriptFault>
    ensures answers { IfSome (P.remaining peer.old) (λ input. AnswersNamed (ScriptLinesAnswered
        (ids_at D.NameId.limit D.NameId.id_at D.SolvableId.limit D.SolvableId.id_at)
        (λ p. ⟦<D as ProviderFunctions>⟧.functions (D.made_of p))) (lines_of input)
        (P.contents peer.old) result (P.contents peer.new)) }
    ensures calls { TalkEnds P.reads P.Source.fails P.writes P.Sink.fails
        (WereAnswered (ScriptLinesAnswered
        (ids_at D.NameId.limit D.NameId.id_at D.SolvableId.limit D.SolvableId.id_at)
        (λ p. ⟦<D as ProviderFunctions>⟧.functions (D.made_of p))) P.remaining P.contents peer.old)
        P.remaining peer.old result peer.new }
{
    let mut lines: ScriptLines<D> = ScriptLines::new(alloc, store_alloc);
    let ended = named_talk(alloc, &mut lines, peer);
    drop(lines);
    ended
}

/// Answers the lines of the peer, and names an unreadable one.
fn named_talk<A: Answerer, P: Peer>(
    alloc: Global,
    answerer: &mut A,
    peer: &mut P,
) -> Result<(), ScriptFault>
    ensures answers { IfSome (P.remaining peer.old) (λ input. AnswersNamed
        (AreAnswered A.answers A.refuses answerer.old 0) (lines_of input)
        (P.contents peer.old) result (P.contents peer.new)) }
    ensures calls { TalkEnds P.reads P.Source.fails P.writes P.Sink.fails
        (WereAnswered (AreAnswered A.answers A.refuses answerer.old 0) P.remaining P.contents peer.old)
        P.remaining peer.old result peer.new }
{
    let ended = talk(alloc, answerer, peer);
    let Some(number) = unreadable_line(&ended) else {
        return ended;
    };
    let mut waiting = Vec::new(alloc);
    push_unreadable(&mut waiting, number)?;
    write_rest(&mut waiting, peer)?;
    ended
}

/// The number of the unreadable line that ended a talk, if one did.
fn unreadable_line(ended: &Result<(), ScriptFault>) -> Option<u64>
    ensures { MatchOption result ((number : ℕ) → ended.now ≡ Err (Unreadable number) → ⊥)
        (λ number. ended.now ≡ Err (Unreadable number)) }
{
    match ended {
        Err(ScriptFault::Unreadable(number)) => Some(*number),
        _ => None,
    }
}

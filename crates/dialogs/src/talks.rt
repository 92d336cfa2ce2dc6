//! Dialogues.
ghost use Rattle.std.specs.Prelude.{IfSome};
ghost use Rattle.script_text.specs.Lines.{lines as lines_of};
ghost use Rattle.dialogs.specs.Answering.{TalkAnswers};
ghost use Rattle.dialogs.specs.Talks.{IsAnswered, TalkEnds};

use crate::answerer::Answerer;
use crate::incoming::Incoming;
use crate::peer::Peer;
use script_text::{ScriptFault, next_statement, write_rest};
use std::alloc::Global;

/// Answers the lines of the peer in their turn. The answer to each is written and flushed before anything more is read.
/// It ends with the lines, or at the first one that isn't in the format, to which nothing is written; or where memory
/// is refused, to which nothing is written either; or with a device's fault.
pub fn talk<A: Answerer, P: Peer>(
    alloc: Global,
    answerer: &mut A,
    peer: &mut P,
) -> Result<(), ScriptFault>
    ensures answers { IfSome (P.remaining peer.old) (λ input. TalkAnswers A.answers A.refuses answerer.old
        (lines_of input) (P.contents peer.old) result (P.contents peer.new)) }
    ensures calls { TalkEnds P.reads P.Source.fails P.writes P.Sink.fails
        (IsAnswered A.answers A.refuses P.remaining P.contents answerer.old peer.old) P.remaining
        peer.old result peer.new }
{
    let mut incoming = Incoming::new(alloc)?;
    let mut answer = Vec::new(alloc);
    for number in 0..u64::MAX {
        let line = incoming.next_line(peer)?;
        let Some((said, _)) = next_statement(&line) else {
            return Ok(());
        };
        match answerer.answer(said, &mut answer) {
            Ok(()) => {}
            Err(fault) => return Err(fault.at(number + 1)),
        }
        write_rest(&mut answer, peer)?;
    }
    Err(ScriptFault::Device)
}

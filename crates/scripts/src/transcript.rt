//! Scripts: a catalogue, and then commands, each of which is answered by a line.
ghost use Rattle.std.specs.Prelude.{◌≡◌, ℕ, true, List, [], ◌++◌, ◌+◌, ◌^◌, ◌<◌, ◌⊎◌, length, IfSome};
ghost use Rattle.script_text.specs.declared.fault.ScriptFault.TheVariants.{Device, Memory};
ghost use Rattle.script_text.specs.Lines.{lines as lines_of};
ghost use Rattle.std.specs.Io.{StartsWith};
ghost use Rattle.script_text.specs.Output.{Writes};
ghost use Rattle.scripts.specs.Commands.{ids_at, command_meant};
ghost use Rattle.scripts.specs.Ends.{HandsAnswer, named_text, TakesBeginning, WriterEnds, DevicesEnd};
ghost use Rattle.scripts.specs.Scripts.{ScriptAnswered, ScriptLinesAnswered, faulty_text};
ghost use Rattle.scripts.specs.Transcript.{ObeysLine, Answered, HasCommand, IfRead};

use crate::obeying::obey_words;
use crate::over_packages::OverPackages;
use crate::reply_line::push_unreadable;
use providers::DependencyProvider;
use resolvo_store::{Abstract, ClauseStore};
use script_packages::{Packages, read_catalogue};
use script_text::{
    Line, LineFault, ScriptFault, Sink, Source, Statement, next_statement, read_whole, write_much,
    write_rest,
};
use solver_cache::ProviderFunctions;
use std::alloc::Global;
use std::mem;
use typed_ids::DenseIndex;

/// Reads a whole script, obeys its commands in turn, and writes a line for each reply. At the first unreadable line the
/// line that names it is written, and nothing more is read. All that was to be written is written and flushed at every
/// end but that of a writer that fails, which isn't written to again.
///
/// It is made for a program that exits then: the packages and the store stay in memory, which the system takes back at
/// once. To free them list by list would take up to a tenth of the instructions. A process that goes on has lost that
/// memory; `script_dialogs::dialog` answers the same lines as they come, and frees it.
pub fn script<R: Source, W: Sink>(
    alloc: Global,
    reader: &mut R,
    writer: &mut W,
) -> Result<(), ScriptFault>
    ensures read { IfSome (R.remaining reader.old) (λ input. IfRead result (λ faulty. (text : List ℕ)
        × ScriptAnswered (lines_of input) text faulty
        × Writes (W.contents writer.old) [] (W.contents writer.new) [] (text ++ faulty_text faulty))) }
    ensures cut { IfSome (R.remaining reader.old)
        (λ input. TakesBeginning (lines_of input) (W.contents writer.old) (W.contents writer.new)) }
    ensures ends { DevicesEnd R.reads R.fails W.writes W.fails reader.old writer.old result reader.new writer.new }
{
    let input = read_whole(alloc, reader)?;
    let mut waiting = Vec::new(alloc);
    let ended = obey_text::<Packages, W>(alloc, alloc, &input, &mut waiting, writer);
    if has_failed(&ended) {
        return Err(ScriptFault::Device);
    }
    let named = name_unreadable(&mut waiting, ended);
    write_rest(&mut waiting, writer)?;
    named
}

/// Whether a device failed.
fn has_failed(ended: &Result<(), ScriptFault>) -> bool
    ensures failed { result ≡ true → ended.now ≡ Err Device }
    ensures other { ended.now ≡ Err Device → result ≡ true }
{
    matches!(ended, Err(ScriptFault::Device))
}

/// How a script ended, once its unreadable line is named.
fn name_unreadable(waiting: &mut Vec<u8>, ended: Result<(), ScriptFault>) -> Result<(), ScriptFault>
    ensures read { IfRead result (λ faulty. IfRead ended (λ was. (faulty ≡ was)
        × (waiting.new.items ≡ waiting.old.items ++ faulty_text was))) }
    ensures device { ended ≡ Err Device → result ≡ Err Device }
    ensures memory { ended ≡ Err Memory → result ≡ Err Memory }
    ensures other { (result ≡ ended) ⊎ (result ≡ Err Memory) }
    ensures cut { StartsWith (waiting.old.items ++ named_text ended) waiting.new.items }
{
    if let Err(ScriptFault::Unreadable(number)) = ended {
        push_unreadable(waiting, number)?;
    }
    ended
}

/// Obeys a script's text, over what is made of the packages that it lists. The store isn't dropped: see [`script`].
fn obey_text<
    D: DependencyProvider<NameId: DenseIndex, SolvableId: DenseIndex> + OverPackages + Drop,
    W: Sink,
>(
    alloc: Global,
    store_alloc: D::Alloc,
    text: &[u8],
    waiting: &mut Vec<u8>,
    writer: &mut W,
) -> Result<(), ScriptFault>
    ensures answer { HandsAnswer (ScriptLinesAnswered
        (ids_at D.NameId.limit D.NameId.id_at D.SolvableId.limit D.SolvableId.id_at)
        (λ p. ⟦<D as ProviderFunctions>⟧.functions (D.made_of p)))
        (lines_of text.now) (W.contents writer.old) waiting.old.items result (W.contents writer.new)
        waiting.new.items }
    ensures ends { WriterEnds W.writes W.fails writer.old result writer.new }
{
    match read_catalogue(alloc, text) {
        Ok(None) => Ok(()),
        Ok(Some(catalogue)) => {
            let Ok(mut store) = ClauseStore::new(store_alloc, D::over(catalogue.packages)) else {
                return Err(ScriptFault::Memory);
            };
            let (lines, before) = (catalogue.commands, catalogue.line_count);
            let ended = obey_lines(store_alloc, &mut store, lines, before, waiting, writer);
            mem::forget(store);
            ended
        }
        Err(fault) => Err(fault),
    }
}

/// Obeys the lines in turn. The number of lines before them is given.
fn obey_lines<D: DependencyProvider<NameId: DenseIndex, SolvableId: DenseIndex> + Drop, W: Sink>(
    alloc: D::Alloc,
    store: &mut ClauseStore<D>,
    lines: &[u8],
    before: u64,
    waiting: &mut Vec<u8>,
    writer: &mut W,
) -> Result<(), ScriptFault>
    requires { before + length lines.now < 2 ^ 64 }
    ensures answer { HandsAnswer (Answered (ids_at D.NameId.limit D.NameId.id_at D.SolvableId.limit D.SolvableId.id_at)
        (⟦<D as Abstract>⟧.store store.old) before)
        (lines_of lines.now) (W.contents writer.old) waiting.old.items result (W.contents writer.new)
        waiting.new.items }
    ensures ends { WriterEnds W.writes W.fails writer.old result writer.new }
    ensures memory { result ≡ Err Memory →
        HasCommand (ids_at D.NameId.limit D.NameId.id_at D.SolvableId.limit D.SolvableId.id_at) (lines_of lines.now) }
{
    let mut number = before;
    let mut rest = lines;
    while let Some((said, others)) = next_statement(rest) {
        number += 1;
        rest = others;
        match obey_line(alloc, store, said, waiting) {
            Ok(()) => {}
            Err(fault) => return Err(fault.at(number)),
        }
        write_much(waiting, writer)?;
    }
    Ok(())
}

/// Obeys a line that says this, and puts the line of the reply after what waits.
#[inline(always)]
pub fn obey_line<D: DependencyProvider<NameId: DenseIndex, SolvableId: DenseIndex> + Drop>(
    alloc: D::Alloc,
    store: &mut ClauseStore<D>,
    said: Line<Statement<'_>>,
    waiting: &mut Vec<u8>,
) -> Result<(), LineFault>
    ensures { ObeysLine (⟦<D as Abstract>⟧.store store.old)
        (command_meant (ids_at D.NameId.limit D.NameId.id_at D.SolvableId.limit D.SolvableId.id_at) said.entry)
        waiting.old.items result waiting.new.items (⟦<D as Abstract>⟧.store store.new) }
{
    match said {
        Line::Skipped => Ok(()),
        Line::Unreadable => Err(LineFault::Unreadable),
        Line::Says(said) => obey_words(alloc, store, said.keyword, said.rest, waiting),
    }
}

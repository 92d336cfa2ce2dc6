//! The texts of replies: what the program's lines have, without the line feed.
ghost use Rattle.std.specs.Prelude.{◌≡◌, ◌++◌, codes, map, flat_map, Some};
ghost use Rattle.std.specs.Fmt.{DisplaysOnOk};
ghost use Rattle.resolvo_store.specs.ReplyTexts.{field, lists_text, list_text, others_text};
ghost use Rattle.resolvo_store.specs.ReplyTexts.{tracked_text, truth_text, assignment_text, undone_text};
ghost use Rattle.resolvo_store.specs.ReplyTexts.{next_text, decision_text};
ghost use Rattle.resolvo_store.specs.ReplyTexts.{clause_text, load_text, watchers_text};

use crate::reply::Reply;
use decisions::Decision;
use resolvo_queue::QueueDecision;
use std::alloc::Allocator;
use std::fmt;
use typed_ids::{ClauseId, DenseIndex, VariableId};

/// The reply's words; ids are shown by their indexes. Takes no memory.
impl<A: Allocator> fmt::Display for Reply<A> {
    ghost use Rattle.resolvo_store.specs.Command.{reply_of};
    ghost use Rattle.resolvo_store.specs.ReplyTexts.{reply_words};

    ghost output = { λ reply. Some (reply_words (reply_of reply)) };

    fn fmt<W: fmt::Write>(&self, f: &mut fmt::Formatter<W>) -> fmt::Result {
        match self {
            Reply::Variable(variable) => write_field(f, "variable ", variable.to_index()),
            Reply::Loaded(lists) => write_lists(f, lists),
            Reply::Disjunction(disjunction) => {
                write_field(f, "disjunction ", disjunction.to_index())
            }
            Reply::Clause(clause, conflict) => write_clause(f, *clause, *conflict),
            Reply::Tracked(new, clauses) => write_tracked(f, *new, *clauses),
            Reply::Assigned => f.write_str("assigned"),
            Reply::Already => f.write_str("already"),
            Reply::Clash => f.write_str("clash"),
            Reply::Undone(last) => write_undone(f, *last),
            Reply::Next(decision) => write_next(f, *decision),
            Reply::Done => f.write_str("done"),
            Reply::Watchers(clauses) => write_watchers(f, clauses),
            Reply::Decided(decision) => write_decision(f, decision),
            Reply::NoDecision => f.write_str("no decision"),
            Reply::Falsified(clause) => write_field(f, "falsified ", clause.to_index()),
            Reply::Conflict(clause) => write_field(f, "conflict ", clause.to_index()),
            Reply::Refused(e) => write_field(f, "refused ", e.code() as usize),
        }
    }
}

/// A text, and a number directly after it.
fn write_field<W: fmt::Write>(f: &mut fmt::Formatter<W>, name: &str, number: usize) -> fmt::Result
    ensures { DisplaysOnOk W.write_str_gives f.old result (Some (field name.now number)) f.new }
{
    write!(f, "{name}{number}")
}

fn write_clause<W: fmt::Write>(
    f: &mut fmt::Formatter<W>,
    clause: ClauseId,
    conflict: bool,
) -> fmt::Result
    ensures { DisplaysOnOk W.write_str_gives f.old result (Some (clause_text clause conflict)) f.new }
{
    let flag = if conflict { " conflict" } else { "" };
    let clause = clause.to_index();
    write!(f, "clause {clause}{flag}")
}

fn write_tracked<W: fmt::Write>(f: &mut fmt::Formatter<W>, new: bool, clauses: usize) -> fmt::Result
    ensures { DisplaysOnOk W.write_str_gives f.old result (Some (tracked_text new clauses)) f.new }
{
    if new {
        write_field(f, "tracked yes ", clauses)
    } else {
        write_field(f, "tracked no ", clauses)
    }
}

fn write_undone<W: fmt::Write>(
    f: &mut fmt::Formatter<W>,
    last: Option<(Decision, u32)>,
) -> fmt::Result
    ensures { DisplaysOnOk W.write_str_gives f.old result (Some (undone_text last)) f.new }
{
    match last {
        None => f.write_str("undone"),
        Some((decision, level)) => {
            f.write_str("undone")?;
            write_assignment(f, decision)?;
            write_field(f, " ", level as usize)
        }
    }
}

fn write_next<W: fmt::Write>(f: &mut fmt::Formatter<W>, decision: Option<Decision>) -> fmt::Result
    ensures { DisplaysOnOk W.write_str_gives f.old result (Some (next_text decision)) f.new }
{
    match decision {
        None => f.write_str("next none"),
        Some(decision) => {
            f.write_str("next")?;
            write_assignment(f, decision)
        }
    }
}

/// A variable, its value, and the clause that gave it, each after a blank.
fn write_assignment<W: fmt::Write>(f: &mut fmt::Formatter<W>, decision: Decision) -> fmt::Result
    ensures { DisplaysOnOk W.write_str_gives f.old result (Some (assignment_text decision)) f.new }
{
    let variable = decision.variable.to_index();
    let value = truth_word(decision.value);
    let clause = decision.derived_from.to_index();
    write!(f, " {variable}{value} {clause}")
}

fn truth_word(value: bool) -> &'static str
    ensures { result.now ≡ truth_text value }
{
    if value { " true" } else { " false" }
}

fn write_decision<W: fmt::Write>(f: &mut fmt::Formatter<W>, decision: &QueueDecision) -> fmt::Result
    ensures { DisplaysOnOk W.write_str_gives f.old result (Some (decision_text decision.now)) f.new }
{
    write_field(f, "decided ", decision.candidate.to_index())?;
    write_field(f, " by ", decision.required_by.to_index())?;
    write_field(f, " clause ", decision.clause_id.to_index())?;
    let (score, count) = (decision.package_activity, decision.candidate_count);
    write!(f, " score {score} count {count}")
}

/// `watchers`, and a word for each clause, or `-` for none.
fn write_watchers<W: fmt::Write>(f: &mut fmt::Formatter<W>, clauses: &[ClauseId]) -> fmt::Result
    ensures { DisplaysOnOk W.write_str_gives f.old result (Some (watchers_text clauses.now)) f.new }
{
    f.write_str("watchers")?;
    match clauses {
        [] => f.write_str(" -"),
        _ => write_clauses(f, clauses),
    }
}

/// Each clause after a blank.
fn write_clauses<W: fmt::Write>(f: &mut fmt::Formatter<W>, clauses: &[ClauseId]) -> fmt::Result
    ensures { DisplaysOnOk W.write_str_gives f.old result (Some (flat_map (field (codes " ")) clauses.now)) f.new }
{
    for clause in clauses {
        write_field(f, " ", clause.to_index())?;
    }
    Ok(())
}

/// `loaded`, and a word for each list.
fn write_lists<W: fmt::Write, A: Allocator>(
    f: &mut fmt::Formatter<W>,
    lists: &[Vec<VariableId, A>],
) -> fmt::Result
    ensures { DisplaysOnOk W.write_str_gives f.old result (Some (load_text (map (λ l. l.items) lists.now))) f.new }
{
    f.write_str("loaded")?;
    write_words(f, lists)
}

/// A word for each list.
fn write_words<W: fmt::Write, A: Allocator>(
    f: &mut fmt::Formatter<W>,
    lists: &[Vec<VariableId, A>],
) -> fmt::Result
    ensures { DisplaysOnOk W.write_str_gives f.old result (Some (lists_text (map (λ l. l.items) lists.now))) f.new }
{
    for list in lists {
        write_word(f, list)?;
    }
    Ok(())
}

/// A blank, and the variables of a list, joined by commas, or `-` for none.
fn write_word<W: fmt::Write>(f: &mut fmt::Formatter<W>, list: &[VariableId]) -> fmt::Result
    ensures { DisplaysOnOk W.write_str_gives f.old result (Some (codes " " ++ list_text list.now)) f.new }
{
    match list {
        [] => f.write_str(" -"),
        [first, others @ ..] => {
            write_field(f, " ", first.to_index())?;
            write_others(f, others)
        }
    }
}

/// Each variable after a comma.
fn write_others<W: fmt::Write>(f: &mut fmt::Formatter<W>, others: &[VariableId]) -> fmt::Result
    ensures { DisplaysOnOk W.write_str_gives f.old result (Some (others_text others.now)) f.new }
{
    for variable in others {
        write_field(f, ",", variable.to_index())?;
    }
    Ok(())
}

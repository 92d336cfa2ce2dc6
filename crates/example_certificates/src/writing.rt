//! The text of a certificate.
ghost use Rattle.std.specs.Prelude.{◌≡◌, IfOk, OnOk, string_bytes};
ghost use Rattle.resolvo_ids.specs.Mapping.{value_at};
ghost use Rattle.resolvo_pool.specs.Texts.{IsAppended};
ghost use Rattle.example_answers.specs.Answers.{lines_of};
ghost use Rattle.example_certificates.specs.Numbers.{number_of, numbered};
ghost use Rattle.example_certificates.specs.Texts.{because_text, certificate_text, clause_text, clauses_text, count_in};
ghost use Rattle.example_certificates.specs.Texts.{is_positive, learnt_text, literal_text, meaning_text, part_text};
ghost use Rattle.example_certificates.specs.Texts.{parts_text, stated_text, variable_line};

use crate::numbering::Variables;
use crate::part::Part;
use example_answers::{write_reason, write_set, write_solvable};
use picking::{PackageLiteral, Reason};
use resolvo_ids::StoreError;
use resolvo_pool::Interner;
use std::alloc::Allocator;

type Done = Result<(), StoreError>;

/// Writes lines to a text.
#[derive(Drop)]
pub(crate) struct LineWriter<'w, I: Interner> {
    pub(crate) interner: &'w I,
    pub(crate) variables: &'w Variables<I::SolvableId, I::Alloc>,
}

impl<I: Interner> LineWriter<'_, I> {
    /// Appends the lines of variables, and those of parts.
    pub(crate) fn write_stated(
        &self,
        parts: &[Part<I::NameId, I::SolvableId, I::Alloc>],
        text: &mut String<I::Alloc>,
    ) -> Done
        ensures { OnOk result (IsAppended text.old text.new (stated_text (I.universe self.now.interner.now)
            (I.texts self.now.interner.now) (numbered self.now.variables.now.literals.items
            (I.SolvableId.Slots.value_at self.now.variables.now.solvables) (value_at self.now.variables.now.sets))
            parts.now)) }
    {
        let variables = self.variables.literals();
        self.write_variables(variables, text)?;
        let (variables, clauses) = (variables.len(), count(parts)?);
        write!(text, "p cnf {variables} {clauses}\n")?;
        self.write_parts(parts, text)
    }

    /// Appends the lines of learnt clauses, and of the empty one.
    pub(crate) fn write_learnt(
        &self,
        learnt: &[Vec<PackageLiteral<I::SolvableId>, I::Alloc>],
        text: &mut String<I::Alloc>,
    ) -> Done
        ensures { OnOk result (IsAppended text.old text.new (learnt_text
            (number_of (I.SolvableId.Slots.value_at self.now.variables.now.solvables)
            (value_at self.now.variables.now.sets)) learnt.now)) }
    {
        let Some(count) = learnt.len().checked_add(1) else {
            return Err(StoreError::IdSpace);
        };
        write!(text, "c learnt {count}\n")?;
        self.write_clauses(learnt, text)?;
        Ok(text.push_str("0\n")?)
    }

    /// Appends the lines of variables.
    fn write_variables(
        &self,
        literals: &[PackageLiteral<I::SolvableId>],
        text: &mut String<I::Alloc>,
    ) -> Done
        ensures { OnOk result (IsAppended text.old text.new (lines_of (variable_line
            (I.universe self.now.interner.now) (I.texts self.now.interner.now)
            (numbered self.now.variables.now.literals.items
            (I.SolvableId.Slots.value_at self.now.variables.now.solvables) (value_at self.now.variables.now.sets)))
            literals.now)) }
    {
        for literal in literals {
            self.write_variable(*literal, text)?;
            text.push_str("\n")?;
        }
        Ok(())
    }

    /// Appends a literal's variable, and what it stands for.
    fn write_variable(
        &self,
        literal: PackageLiteral<I::SolvableId>,
        text: &mut String<I::Alloc>,
    ) -> Done
        ensures { OnOk result (IsAppended text.old text.new (variable_line (I.universe self.now.interner.now)
            (I.texts self.now.interner.now) (numbered self.now.variables.now.literals.items
            (I.SolvableId.Slots.value_at self.now.variables.now.solvables) (value_at self.now.variables.now.sets))
            literal)) }
    {
        let number = self.variables.number(literal)?;
        write!(text, "c var {number} ")?;
        write_meaning(self.interner, literal, text)
    }

    /// Appends the lines of parts.
    fn write_parts(
        &self,
        parts: &[Part<I::NameId, I::SolvableId, I::Alloc>],
        text: &mut String<I::Alloc>,
    ) -> Done
        ensures { OnOk result (IsAppended text.old text.new (parts_text (I.universe self.now.interner.now)
            (I.texts self.now.interner.now) (numbered self.now.variables.now.literals.items
            (I.SolvableId.Slots.value_at self.now.variables.now.solvables) (value_at self.now.variables.now.sets))
            parts.now)) }
    {
        for part in parts {
            self.write_part(part, text)?;
        }
        Ok(())
    }

    /// Appends the lines of a part.
    fn write_part(
        &self,
        part: &Part<I::NameId, I::SolvableId, I::Alloc>,
        text: &mut String<I::Alloc>,
    ) -> Done
        ensures { OnOk result (IsAppended text.old text.new (part_text (I.universe self.now.interner.now)
            (I.texts self.now.interner.now) (numbered self.now.variables.now.literals.items
            (I.SolvableId.Slots.value_at self.now.variables.now.solvables) (value_at self.now.variables.now.sets))
            part.now)) }
    {
        write_because(self.interner, part.because, text)?;
        text.push_str("\n")?;
        self.write_clauses(&part.clauses, text)
    }

    /// Appends the lines of clauses.
    fn write_clauses(
        &self,
        clauses: &[Vec<PackageLiteral<I::SolvableId>, I::Alloc>],
        text: &mut String<I::Alloc>,
    ) -> Done
        ensures { OnOk result (IsAppended text.old text.new (clauses_text
            (number_of (I.SolvableId.Slots.value_at self.now.variables.now.solvables)
            (value_at self.now.variables.now.sets)) clauses.now)) }
    {
        for clause in clauses {
            self.write_clause(clause, text)?;
        }
        Ok(())
    }

    /// Appends a clause's line.
    fn write_clause(
        &self,
        clause: &[PackageLiteral<I::SolvableId>],
        text: &mut String<I::Alloc>,
    ) -> Done
        ensures { OnOk result (IsAppended text.old text.new (clause_text
            (number_of (I.SolvableId.Slots.value_at self.now.variables.now.solvables)
            (value_at self.now.variables.now.sets)) clause.now)) }
    {
        for literal in clause {
            self.write_literal(*literal, text)?;
        }
        Ok(text.push_str("0\n")?)
    }

    /// Appends a literal, and a blank.
    fn write_literal(
        &self,
        literal: PackageLiteral<I::SolvableId>,
        text: &mut String<I::Alloc>,
    ) -> Done
        ensures { OnOk result (IsAppended text.old text.new (literal_text
            (number_of (I.SolvableId.Slots.value_at self.now.variables.now.solvables)
            (value_at self.now.variables.now.sets)) literal)) }
    {
        let number = self.variables.number(literal)?;
        if is_positive(literal) {
            Ok(write!(text, "{number} ")?)
        } else {
            Ok(write!(text, "-{number} ")?)
        }
    }
}

/// Appends what a literal's variable stands for.
fn write_meaning<I: Interner>(
    interner: &I,
    literal: PackageLiteral<I::SolvableId>,
    text: &mut String<I::Alloc>,
) -> Done
    ensures { OnOk result (IsAppended text.old text.new
        (meaning_text (I.universe interner.now) (I.texts interner.now) literal)) }
{
    match literal {
        PackageLiteral::Picked(solvable, _) => write_solvable(interner, solvable, text),
        PackageLiteral::Held(set, _) => write_set(interner, set, text),
    }
}

/// Appends what clauses follow from.
fn write_because<I: Interner>(
    interner: &I,
    because: Option<Reason<I::NameId, I::SolvableId>>,
    text: &mut String<I::Alloc>,
) -> Done
    ensures { OnOk result (IsAppended text.old text.new
        (because_text (I.universe interner.now) (I.texts interner.now) because)) }
{
    match because {
        Some(reason) => {
            text.push_str("c because ")?;
            write_reason(interner, reason, text)
        }
        None => Ok(text.push_str("c by definition")?),
    }
}

/// Whether a literal says that its variable is true.
fn is_positive<S: Copy>(literal: PackageLiteral<S>) -> bool
    ensures { result ≡ is_positive literal }
{
    match literal {
        PackageLiteral::Picked(_, value) => value,
        PackageLiteral::Held(_, value) => value,
    }
}

/// How many clauses parts have.
fn count<N, S, A: Allocator>(parts: &[Part<N, S, A>]) -> Result<usize, StoreError>
    ensures { IfOk result (λ count. count ≡ count_in parts.now) }
{
    let mut count: usize = 0;
    for part in parts {
        let Some(more) = count.checked_add(part.clauses.len()) else {
            return Err(StoreError::IdSpace);
        };
        count = more;
    }
    Ok(count)
}

/// The certificate with the number of this line, and these lines behind its first one.
pub(crate) fn with_first_line<A: Allocator + Copy>(
    alloc: A,
    line: u64,
    others: &str,
) -> Result<String<A>, StoreError>
    ensures { IfOk result (λ text. string_bytes text ≡ certificate_text line others.now) }
{
    let ends = others.bytes().filter(|byte| *byte == b'\n').count();
    let Some(lines) = ends.checked_add(1) else {
        return Err(StoreError::IdSpace);
    };
    let mut text = format!(in alloc; "c certificate {line} {lines}\n")?;
    text.push_str(others)?;
    Ok(text)
}

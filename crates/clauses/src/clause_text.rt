//! The texts of clauses.
ghost use Rattle.std.specs.Prelude.{◌≡◌, ◌+◌, ◌<◌, ◌^◌, true, codes, string_bytes, IfOk, OnOk, OnErr, IfErr};
ghost use Rattle.typed_ids.specs.declared.error.StoreError.TheVariants.{OutOfMemory};
ghost use Rattle.decisions.specs.Literals.{variable_of};
ghost use Rattle.decisions.specs.LiteralIndex.{literal_index};
ghost use Rattle.providers.specs.Provider.{knows_requirement};
ghost use Rattle.providers.specs.Texts.{IsAppended, IsSameText};
ghost use Rattle.variables.specs.VariableTexts.{knows_variable};
ghost use Rattle.clauses.specs.declared.clause.Clause.TheVariants.{Requires, ForbidMultipleInstances, Excluded};
ghost use Rattle.clauses.specs.ClauseTexts.{IsKnownClause, clause_text, numbered_variable};
ghost use Rattle.clauses.specs.ClauseTexts.{numbered_literal, condition_text, of_two, of_three};

use crate::clause::Clause;
use decisions::Literal;
use id_maps::SolverId;
use providers::{Interner, Requirement};
use std::alloc::Allocator;
use typed_ids::{DenseIndex, DisjunctionId, StoreError, StringId, VariableId, VersionSetId};
use variables::{VariableInfo, VariableMap};

impl<N> Clause<N> {
    /// Appends the clause's text: its kind, and in brackets what it is made of. An id's number in it is that of its
    /// `Debug` text. After a refusal `out` is as it was.
    pub fn display<I: Interner<NameId = N>>(
        &self,
        variables: &VariableMap<N, I::SolvableId, I::Alloc>,
        interner: &I,
        out: &mut String<I::Alloc>,
    ) -> Result<(), StoreError>
    where
        N: SolverId<I::Alloc>,
        requires { IsKnownClause (I.universe interner.now) variables.now self.now }
        ensures ok { OnOk result (IsAppended out.old out.new
            (clause_text (I.universe interner.now) (I.texts interner.now) variables.now self.now)) }
        ensures err { OnErr result (IsSameText out.old out.new) }
        ensures memory { IfErr result (λ e. e ≡ OutOfMemory) }
    {
        let alloc = *out.allocator();
        let writer = ClauseWriter {
            variables,
            interner,
            alloc,
        };
        let text = writer.clause(*self)?;
        Ok(out.push_str(&text)?)
    }
}

/// What the text of a clause is made of, and where.
#[derive(Drop)]
struct ClauseWriter<'a, I: Interner> {
    variables: &'a VariableMap<I::NameId, I::SolvableId, I::Alloc>,
    interner: &'a I,
    alloc: I::Alloc,
}

impl<I: Interner> ClauseWriter<'_, I> {
    /// The text of a clause.
    fn clause(&self, clause: Clause<I::NameId>) -> Result<String<I::Alloc>, StoreError>
        requires { IsKnownClause (I.universe self.now.interner.now) self.now.variables.now clause }
        ensures ok { IfOk result (λ text. string_bytes text ≡ clause_text (I.universe self.now.interner.now)
            (I.texts self.now.interner.now) self.now.variables.now clause) }
        ensures err { IfErr result (λ e. e ≡ OutOfMemory) }
    {
        match clause {
            Clause::InstallRoot => Ok(String::from_str(self.alloc, "InstallRoot")?),
            Clause::Requires(parent, disjunction, requirement) => {
                self.requires_clause(parent, disjunction, requirement)
            }
            Clause::ForbidMultipleInstances(candidate, literal, name) => {
                self.forbid_multiple(candidate, literal, name)
            }
            Clause::Constrains(first, second, set) => {
                self.with_set("Constrains", first, second, set)
            }
            Clause::ConstrainsExcluded(first, second, set) => {
                self.with_set("ConstrainsExcluded", first, second, set)
            }
            Clause::ConstrainsParent(first, second, set) => {
                self.with_set("ConstrainsParent", first, second, set)
            }
            Clause::Lock(locked, other) => self.pair("Lock", locked, other),
            Clause::Learnt(id) => {
                let raw = id.to_index();
                Ok(format!(in self.alloc; "Learnt(LearntClauseId({raw}))")?)
            }
            Clause::Excluded(candidate, reason) => self.excluded(candidate, reason),
            Clause::AnyOf(selected, other) => self.pair("AnyOf", selected, other),
        }
    }

    fn requires_clause(
        &self,
        parent: VariableId,
        disjunction: Option<DisjunctionId>,
        requirement: Requirement,
    ) -> Result<String<I::Alloc>, StoreError>
        requires parent { knows_variable (I.universe self.now.interner.now) self.now.variables.now parent ≡ true }
        requires requirement { knows_requirement (I.universe self.now.interner.now) requirement ≡ true }
        ensures ok { IfOk result (λ text. string_bytes text ≡ clause_text (I.universe self.now.interner.now)
            (I.texts self.now.interner.now) self.now.variables.now (Requires parent disjunction requirement)) }
        ensures err { IfErr result (λ e. e ≡ OutOfMemory) }
    {
        let parent = self.variable(parent)?;
        let mut text = String::new(self.alloc);
        requirement.display(self.interner, &mut text)?;
        let condition = text_of_condition(disjunction, self.alloc)?;
        of_three(self.alloc, "Requires", parent, text, condition)
    }

    fn forbid_multiple(
        &self,
        candidate: VariableId,
        literal: Literal,
        name: I::NameId,
    ) -> Result<String<I::Alloc>, StoreError>
        requires candidate { knows_variable (I.universe self.now.interner.now) self.now.variables.now candidate ≡ true }
        requires literal { knows_variable (I.universe self.now.interner.now) self.now.variables.now
            (variable_of literal) ≡ true }
        requires name { (I.universe self.now.interner.now).knows_name name ≡ true }
        ensures ok { IfOk result (λ text. string_bytes text ≡ clause_text (I.universe self.now.interner.now)
            (I.texts self.now.interner.now) self.now.variables.now (ForbidMultipleInstances candidate literal name)) }
        ensures err { IfErr result (λ e. e ≡ OutOfMemory) }
    {
        let candidate = self.variable(candidate)?;
        let literal = self.literal(literal)?;
        let mut text = String::new(self.alloc);
        self.interner.display_name(name, &mut text)?;
        let kind = "ForbidMultipleInstances";
        of_three(self.alloc, kind, candidate, literal, text)
    }

    fn excluded(
        &self,
        candidate: VariableId,
        reason: StringId,
    ) -> Result<String<I::Alloc>, StoreError>
        requires candidate { knows_variable (I.universe self.now.interner.now) self.now.variables.now candidate ≡ true }
        requires reason { (I.universe self.now.interner.now).knows_string reason ≡ true }
        ensures ok { IfOk result (λ text. string_bytes text ≡ clause_text (I.universe self.now.interner.now)
            (I.texts self.now.interner.now) self.now.variables.now (Excluded candidate reason)) }
        ensures err { IfErr result (λ e. e ≡ OutOfMemory) }
    {
        let candidate = self.variable(candidate)?;
        let mut text = String::new(self.alloc);
        self.interner.display_string(reason, &mut text)?;
        of_two(self.alloc, "Excluded", candidate, text)
    }

    /// The kind, and in brackets two variables.
    fn pair(
        &self,
        kind: &str,
        first: VariableId,
        second: VariableId,
    ) -> Result<String<I::Alloc>, StoreError>
        requires first { knows_variable (I.universe self.now.interner.now) self.now.variables.now first ≡ true }
        requires second { knows_variable (I.universe self.now.interner.now) self.now.variables.now second ≡ true }
        ensures ok { let writer = numbered_variable (I.universe self.now.interner.now)
            (I.texts self.now.interner.now) self.now.variables.now in
            IfOk result (λ text. string_bytes text ≡ of_two kind.now (writer first) (writer second)) }
        ensures err { IfErr result (λ e. e ≡ OutOfMemory) }
    {
        let first = self.variable(first)?;
        let second = self.variable(second)?;
        of_two(self.alloc, kind, first, second)
    }

    /// The kind, and in brackets two variables and a version set.
    fn with_set(
        &self,
        kind: &str,
        first: VariableId,
        second: VariableId,
        set: VersionSetId,
    ) -> Result<String<I::Alloc>, StoreError>
        requires first { knows_variable (I.universe self.now.interner.now) self.now.variables.now first ≡ true }
        requires second { knows_variable (I.universe self.now.interner.now) self.now.variables.now second ≡ true }
        requires set { (I.universe self.now.interner.now).knows_set set ≡ true }
        ensures ok { let writer = numbered_variable (I.universe self.now.interner.now) (I.texts self.now.interner.now)
            self.now.variables.now in IfOk result (λ text. string_bytes text ≡
            of_three kind.now (writer first) (writer second) ((I.texts self.now.interner.now).version_set set)) }
        ensures err { IfErr result (λ e. e ≡ OutOfMemory) }
    {
        let first = self.variable(first)?;
        let second = self.variable(second)?;
        let mut text = String::new(self.alloc);
        self.interner.display_version_set(set, &mut text)?;
        of_three(self.alloc, kind, first, second, text)
    }

    /// The variable's text, and its id's.
    fn variable(&self, variable: VariableId) -> Result<String<I::Alloc>, StoreError>
        requires { knows_variable (I.universe self.now.interner.now) self.now.variables.now variable ≡ true }
        ensures ok { IfOk result (λ text. string_bytes text ≡ numbered_variable (I.universe self.now.interner.now)
            (I.texts self.now.interner.now) self.now.variables.now variable) }
        ensures err { IfErr result (λ e. e ≡ OutOfMemory) }
    {
        let mut text = String::new(self.alloc);
        variable.display(self.variables, self.interner, &mut text)?;
        let raw = variable.to_index() + 1;
        Ok(format!(in self.alloc; "{text}(VariableId({raw}))")?)
    }

    /// The text of the literal's variable, and the literal's.
    fn literal(&self, literal: Literal) -> Result<String<I::Alloc>, StoreError>
        requires { knows_variable (I.universe self.now.interner.now) self.now.variables.now
            (variable_of literal) ≡ true }
        ensures ok { IfOk result (λ text. string_bytes text ≡ numbered_literal (I.universe self.now.interner.now)
            (I.texts self.now.interner.now) self.now.variables.now literal) }
        ensures err { IfErr result (λ e. e ≡ OutOfMemory) }
    {
        let mut text = String::new(self.alloc);
        let variable = literal.variable();
        variable.display(self.variables, self.interner, &mut text)?;
        let raw = literal.to_index() + 1;
        Ok(format!(in self.alloc; "{text}(Literal({raw}))")?)
    }
}

/// The kind, and in brackets two parts, which it takes.
fn of_two<A: Allocator + Copy>(
    alloc: A,
    kind: &str,
    first: String<A>,
    second: String<A>,
) -> Result<String<A>, StoreError>
    ensures ok { IfOk result (λ text. string_bytes text ≡ of_two kind.now (string_bytes first) (string_bytes second)) }
    ensures err { IfErr result (λ e. e ≡ OutOfMemory) }
{
    Ok(format!(in alloc; "{kind}({first}, {second})")?)
}

/// The kind, and in brackets three parts, which it takes.
fn of_three<A: Allocator + Copy>(
    alloc: A,
    kind: &str,
    first: String<A>,
    second: String<A>,
    third: String<A>,
) -> Result<String<A>, StoreError>
    ensures ok { IfOk result (λ text. string_bytes text ≡
        of_three kind.now (string_bytes first) (string_bytes second) (string_bytes third)) }
    ensures err { IfErr result (λ e. e ≡ OutOfMemory) }
{
    Ok(format!(in alloc; "{kind}({first}, {second}, {third})")?)
}

/// The disjunction, if there is one.
fn text_of_condition<A: Allocator + Copy>(
    disjunction: Option<DisjunctionId>,
    alloc: A,
) -> Result<String<A>, StoreError>
    ensures ok { IfOk result (λ text. string_bytes text ≡ condition_text disjunction) }
    ensures err { IfErr result (λ e. e ≡ OutOfMemory) }
{
    match disjunction {
        None => Ok(String::from_str(alloc, "condition=None")?),
        Some(disjunction) => {
            let raw = disjunction.to_index() + 1;
            Ok(format!(in alloc; "condition=Some(DisjunctionId({raw}))")?)
        }
    }
}

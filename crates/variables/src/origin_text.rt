//! The texts of what variables stand for.
ghost use Rattle.std.specs.Prelude.{◌≡◌, ◌∷◌, ◌++◌, true, codes, string_bytes, IfOk, OnOk, OnErr, IfErr};
ghost use Rattle.typed_ids.specs.declared.error.StoreError.TheVariants.{OutOfMemory};
ghost use Rattle.providers.specs.Provider.{knows_requirement};
ghost use Rattle.providers.specs.Texts.{IsAppended, IsSameText, requirement_text};
ghost use Rattle.variables.specs.VariableTexts.{knows_origin, origin_text};

use crate::variable_origin::VariableOrigin;
use providers::{Interner, Requirement};
use std::alloc::Allocator;
use typed_ids::{StoreError, VersionSetId};

/// Appends the text of what a variable stands for. After a refusal `out` is as it was.
pub(crate) fn append_origin<I: Interner>(
    interner: &I,
    origin: VariableOrigin<I::NameId, I::SolvableId>,
    out: &mut String<I::Alloc>,
) -> Result<(), StoreError>
    requires { knows_origin (I.universe interner.now) origin ≡ true }
    ensures ok { OnOk result
        (IsAppended out.old out.new (origin_text (I.universe interner.now) (I.texts interner.now) origin)) }
    ensures err { OnErr result (IsSameText out.old out.new) }
    ensures memory { IfErr result (λ e. e ≡ OutOfMemory) }
{
    let text = text_of_origin(interner, *out.allocator(), origin)?;
    Ok(out.push_str(&text)?)
}

/// The text of what a variable stands for.
fn text_of_origin<I: Interner>(
    interner: &I,
    alloc: I::Alloc,
    origin: VariableOrigin<I::NameId, I::SolvableId>,
) -> Result<String<I::Alloc>, StoreError>
    requires { knows_origin (I.universe interner.now) origin ≡ true }
    ensures ok { IfOk result (λ text. string_bytes text ≡
        origin_text (I.universe interner.now) (I.texts interner.now) origin) }
    ensures err { IfErr result (λ e. e ≡ OutOfMemory) }
{
    match origin {
        VariableOrigin::Root => Ok(String::from_str(alloc, "root")?),
        VariableOrigin::Solvable(solvable) => text_of_solvable(interner, alloc, solvable),
        VariableOrigin::ForbidMultiple(name) => {
            bracketed("forbid-multiple(", text_of_name(interner, alloc, name)?)
        }
        VariableOrigin::AtLeastOne(name) => {
            bracketed("any-of(", text_of_name(interner, alloc, name)?)
        }
        VariableOrigin::ConstrainsViolation(set) => {
            bracketed("constrains-violation(", text_of_set(interner, alloc, set)?)
        }
        VariableOrigin::RequiresGate(requirement) => {
            bracketed(
                "requires-gate(",
                text_of_requirement(interner, alloc, requirement)?,
            )
        }
    }
}

/// A word that opens a bracket, a text, and the closing bracket.
fn bracketed<A: Allocator + Copy>(word: &str, text: String<A>) -> Result<String<A>, StoreError>
    ensures ok { IfOk result (λ whole. string_bytes whole ≡ word.now ++ (string_bytes text ++ codes ")")) }
    ensures err { IfErr result (λ e. e ≡ OutOfMemory) }
{
    Ok(format!(in *text.allocator(); "{word}{text})")?)
}

/// The text of a solvable.
fn text_of_solvable<I: Interner>(
    interner: &I,
    alloc: I::Alloc,
    solvable: I::SolvableId,
) -> Result<String<I::Alloc>, StoreError>
    requires { (I.universe interner.now).knows_solvable solvable ≡ true }
    ensures ok { IfOk result (λ text. string_bytes text ≡ (I.texts interner.now).solvable solvable) }
    ensures err { IfErr result (λ e. e ≡ OutOfMemory) }
{
    let mut text = String::new(alloc);
    interner.display_solvable(solvable, &mut text)?;
    Ok(text)
}

/// The name of a package.
fn text_of_name<I: Interner>(
    interner: &I,
    alloc: I::Alloc,
    name: I::NameId,
) -> Result<String<I::Alloc>, StoreError>
    requires { (I.universe interner.now).knows_name name ≡ true }
    ensures ok { IfOk result (λ text. string_bytes text ≡ (I.texts interner.now).name name) }
    ensures err { IfErr result (λ e. e ≡ OutOfMemory) }
{
    let mut text = String::new(alloc);
    interner.display_name(name, &mut text)?;
    Ok(text)
}

/// The name of the set's package, a blank and the set's text, of which nothing is taken away.
fn text_of_set<I: Interner>(
    interner: &I,
    alloc: I::Alloc,
    set: VersionSetId,
) -> Result<String<I::Alloc>, StoreError>
    requires { (I.universe interner.now).knows_set set ≡ true }
    ensures ok { IfOk result (λ text. string_bytes text ≡
        (I.texts interner.now).name ((I.universe interner.now).set_name set) ++ 32 ∷
        (I.texts interner.now).version_set set) }
    ensures err { IfErr result (λ e. e ≡ OutOfMemory) }
{
    let mut text = text_of_name(interner, alloc, interner.version_set_name(set))?;
    text.push_str(" ")?;
    interner.display_version_set(set, &mut text)?;
    Ok(text)
}

/// The text of a requirement.
fn text_of_requirement<I: Interner>(
    interner: &I,
    alloc: I::Alloc,
    requirement: Requirement,
) -> Result<String<I::Alloc>, StoreError>
    requires { knows_requirement (I.universe interner.now) requirement ≡ true }
    ensures ok { IfOk result (λ text. string_bytes text ≡
        requirement_text (I.universe interner.now) (I.texts interner.now) requirement) }
    ensures err { IfErr result (λ e. e ≡ OutOfMemory) }
{
    let mut text = String::new(alloc);
    requirement.display(interner, &mut text)?;
    Ok(text)
}

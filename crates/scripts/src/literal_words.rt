//! Words that stand for literals.
ghost use Rattle.std.specs.Prelude.{◌≡◌, [], ◌∷◌, IfOk, IfErr, IsSome, None};
ghost use Rattle.script_text.specs.declared.fault.LineFault.TheVariants.{Unreadable, Memory};
ghost use Rattle.script_text.specs.Numbers.{number_of};
ghost use Rattle.script_text.specs.Words.{words};
ghost use Rattle.scripts.specs.Commands.{literal_of, are_literals, with_literals};

use decisions::Literal;
use script_packages::id_of;
use script_text::{LineFault, NumberWord, next_marked};
use std::alloc::Allocator;

/// The literals in the text, in turn. Memory counts as refused only where each word is a literal.
#[inline(never)]
#[tactic(auto, using(crate::proofs::LiteralLemmas::some_literals, crate::proofs::LiteralLemmas::none_literals))]
pub(crate) fn literals<A: Allocator>(alloc: A, text: &[u8]) -> Result<Vec<Literal, A>, LineFault>
    ensures ok { IfOk result (λ literals. with_literals [] (words text.now) ≡ Some literals.items) }
    ensures unreadable { IfErr result (λ e. e ≡ Unreadable → with_literals [] (words text.now) ≡ None) }
    ensures memory { IfErr result (λ e. e ≡ Memory → IsSome (with_literals [] (words text.now))) }
{
    match literals_in_turn(alloc, text) {
        Ok(literals) => Ok(literals),
        // Where each word is a literal, memory was refused.
        Err(_) => {
            if are_literals(text) {
                Err(LineFault::Memory)
            } else {
                Err(LineFault::Unreadable)
            }
        }
    }
}

/// The literals in the text, in turn. An unreadable word is found where there is memory for those before it.
fn literals_in_turn<A: Allocator>(alloc: A, text: &[u8]) -> Result<Vec<Literal, A>, LineFault>
    ensures { IfOk result (λ literals. with_literals [] (words text.now) ≡ Some literals.items) }
{
    let mut literals = Vec::new(alloc);
    let mut rest = text;
    while let Some((sign, variable, others)) = next_marked(rest) {
        match literal_of(sign, &variable) {
            Some(literal) => literals.push(literal)?,
            None => return Err(LineFault::Unreadable),
        }
        rest = others;
    }
    Ok(literals)
}

/// Whether each word of the text stands for a literal.
fn are_literals(text: &[u8]) -> bool
    ensures { result ≡ are_literals (words text.now) }
{
    let mut rest = text;
    while let Some((sign, variable, others)) = next_marked(rest) {
        if literal_of(sign, &variable).is_none() {
            return false;
        }
        rest = others;
    }
    true
}

/// A literal: `+` or `-`, and the number of its variable directly after it.
#[inline(always)]
pub(crate) fn literal_of(sign: u8, variable: &NumberWord<'_>) -> Option<Literal>
    requires { variable.now.number ≡ number_of variable.now.word.now }
    ensures { result ≡ literal_of (sign ∷ variable.now.word.now) }
{
    match sign {
        b'+' => Some(Literal::new(id_of(variable)?, false)),
        b'-' => Some(Literal::new(id_of(variable)?, true)),
        _ => None,
    }
}

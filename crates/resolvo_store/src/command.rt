//! Commands to a store.
ghost use Rattle.std.specs.Prelude.{◌≡◌, true};

use crate::helper_origin::HelperOrigin;
use decisions::Literal;
use providers::Requirement;
use std::alloc::Allocator;
use typed_ids::{
    ClauseId, ConditionId, DisjunctionId, SameValue, StringId, VariableId, VersionSetId,
};

/// A command. `N` are the provider's names, `S` its solvables; lists of literals are of the allocator `A`.
///
/// A command that names an id which the store or its provider doesn't know is refused, and so is each command where the
/// list of refusals in docs/BEHAVIOUR.md says so. A refused command changes nothing, but for a [`Command::Saturate`]
/// that memory was refused: what it forced before stays.
#[derive(Drop)]
#[derive_where(Debug, PartialEq, Eq; N, S)]
pub enum Command<N, S, A: Allocator> {
    /// Asks for the variable of a solvable, which is made where there is none.
    Variable(S),
    /// Makes a new variable that stands for this.
    Helper(HelperOrigin<N>),
    /// Loads the candidates of a requirement, best first, and gives each a variable. They are loaded once.
    Load(Requirement),
    /// Keeps literals, all of which are false where this condition, or the part of it that they come of, holds. No
    /// literal is needed.
    Disjunction(Vec<Literal, A>, ConditionId),
    /// Adds the clause that the parent variable, if true, requires one of the requirement's candidates, under the
    /// condition that all literals of the disjunction are false.
    Requires(VariableId, Requirement, Option<DisjunctionId>),
    /// Adds the clause that the root is true.
    Root,
    /// Adds the clause that the first variable, if true, forbids the second one, which the version set doesn't hold.
    Constrains(VariableId, VariableId, VersionSetId),
    /// Adds the clause that the first variable, a candidate outside the version set, if true makes the second one true,
    /// which stands for all of them.
    ConstrainsExcluded(VariableId, VariableId, VersionSetId),
    /// Adds the clause that the first variable, if true, forbids the second one, which stands for all candidates
    /// outside the version set.
    ConstrainsParent(VariableId, VariableId, VersionSetId),
    /// Adds the clause that, the first variable being locked, the second one isn't true where the root is.
    Lock(VariableId, VariableId),
    /// Adds the clause that the variable isn't true, for the reason that the string says.
    Exclude(VariableId, StringId),
    /// Adds the clause that the first variable is true where the second one is.
    AnyOf(VariableId, VariableId),
    /// Adds a learnt clause with these literals.
    Learnt(Vec<Literal, A>),
    /// Tracks the variable under the name, and adds the clauses that keep more than one of the name's variables from
    /// being true. A helper variable is made where one is needed.
    AtMostOnce(N, VariableId),
    /// Gives a variable a value, derived from the clause, at the level.
    Assign(VariableId, bool, ClauseId, u32),
    /// Takes back the newest assignment.
    UndoLast,
    /// Takes back the assignments at the end of the trail whose levels are above this one.
    UndoUntil(u32),
    /// Asks for the next assignment to propagate: the oldest one that wasn't handed out yet.
    Unpropagated,
    /// Adds to the package's score, which stays at 2^64 - 1 at most.
    Bump(N, u64),
    /// Multiplies each score by the first number, divides it by the second one, and rounds down.
    Decay(u64, u64),
    /// Whether a decision may count on it that scores never fall below 0. Both settings answer alike; the first,
    /// `true`, is the faster one.
    Standard(bool),
    /// Lets the clause watch the second literal in the place of the first one.
    Rewatch(ClauseId, Literal, Literal),
    /// Asks which clauses watch the literal.
    Watchers(Literal),
    /// Gives values, at the level, to the variables whose values clauses force: by the values before, all literals of a
    /// clause but one are false, so this one is true. It goes on until no clause forces a value, or until one is false.
    /// Clauses may watch others of their literals then.
    Saturate(u32),
    /// Asks which candidate to decide next.
    Decide,
}

/// A command as the abstract store obeys it, of which `==` speaks: how much room its lists have tells none from
/// another.
pub trait AbstractCommand: Eq {
    ghost use Rattle.resolvo_store.specs.Command.{Command};

    /// The provider's names.
    type NameId;

    /// The provider's solvables.
    type SolvableId;

    /// What the command says.
    ghost command: { Self → Command Self.NameId Self.SolvableId };

    /// Commands that compare equal say the same. (That a command equals itself is a law of `Eq`.)
    ghost same_command: { (a b : Self) → Self.eq a b ≡ true → command a ≡ command b };
}

impl<N: SameValue, S: SameValue, A: Allocator> AbstractCommand for Command<N, S, A> {
    ghost use Rattle.resolvo_store.specs.Command.{command_of};
    ghost use Rattle.resolvo_store.specs.CommandLaws.{by_kind};
    ghost use Rattle.resolvo_store.specs.ReplyLaws.{same_literals};
    ghost use Rattle.std.proofs.Common.{rules};

    type NameId = N;

    type SolvableId = S;

    ghost command = { command_of };

    ghost same_command = { by_kind _
        (λ s b h. Prim.search (rules, same_literals))
        (λ origin b h. Prim.search (rules, same_literals))
        (λ r b h. Prim.search (rules, same_literals))
        (λ literals condition b h. Prim.search (rules, same_literals))
        (λ parent r disjunction b h. Prim.search (rules, same_literals))
        (λ b h. Prim.search (rules, same_literals))
        (λ parent forbidden set b h. Prim.search (rules, same_literals))
        (λ candidate aux set b h. Prim.search (rules, same_literals))
        (λ parent aux set b h. Prim.search (rules, same_literals))
        (λ locked other b h. Prim.search (rules, same_literals))
        (λ variable reason b h. Prim.search (rules, same_literals))
        (λ selected other b h. Prim.search (rules, same_literals))
        (λ literals b h. Prim.search (rules, same_literals))
        (λ name variable b h. Prim.search (rules, same_literals))
        (λ variable value clause level b h. Prim.search (rules, same_literals))
        (λ b h. Prim.search (rules, same_literals))
        (λ level b h. Prim.search (rules, same_literals))
        (λ b h. Prim.search (rules, same_literals))
        (λ name amount b h. Prim.search (rules, same_literals))
        (λ numerator denominator b h. Prim.search (rules, same_literals))
        (λ standard b h. Prim.search (rules, same_literals))
        (λ clause from to b h. Prim.search (rules, same_literals))
        (λ literal b h. Prim.search (rules, same_literals))
        (λ level b h. Prim.search (rules, same_literals))
        (λ b h. Prim.search (rules, same_literals)) };
}

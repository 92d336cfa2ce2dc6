//! What a variable tells of itself.
ghost use Rattle.std.specs.Prelude.{◌≡◌, ◌<◌, true, length, slice_get, option_and_then, OnOk, OnErr, IfErr};
ghost use Rattle.typed_ids.specs.declared.error.StoreError.TheVariants.{OutOfMemory};
ghost use Rattle.decisions.specs.Literals.{Pos, Neg};
ghost use Rattle.providers.specs.Texts.{IsAppended, IsSameText};
ghost use Rattle.variables.specs.Variables.{solvable_of, key_of};
ghost use Rattle.variables.specs.VariableTexts.{knows_variable, variable_text};

use crate::origin_text::append_origin;
use crate::variable_map::VariableMap;
use decisions::Literal;
use id_maps::SolverId;
use providers::Interner;
use std::alloc::Allocator;
use typed_ids::{DenseIndex, SolvableIdOrRoot, StoreError, VariableId};

/// A variable's literals, and what it stands for in a map that it is of.
pub trait VariableInfo: DenseIndex {
    /// The literal that is true where the variable is.
    fn positive(self) -> Literal
        ensures { result ≡ Pos (Self.index_of self) };

    /// The literal that is true where the variable is false.
    fn negative(self) -> Literal
        ensures { result ≡ Neg (Self.index_of self) };

    /// The solvable, if the variable stands for one.
    fn as_solvable<N: Copy, S: SolverId<A>, A: Allocator + Copy>(
        self,
        variables: &VariableMap<N, S, A>,
    ) -> Option<S>
        requires { Self.index_of self < length variables.now }
        ensures { result ≡ option_and_then solvable_of (slice_get variables.now (Self.index_of self)) };

    /// The root or the solvable, if the variable stands for one of these.
    fn as_solvable_or_root<N: Copy, S: SolverId<A>, A: Allocator + Copy>(
        self,
        variables: &VariableMap<N, S, A>,
    ) -> Option<SolvableIdOrRoot<S>>
        requires { Self.index_of self < length variables.now }
        ensures { result ≡ option_and_then key_of (slice_get variables.now (Self.index_of self)) };

    /// Appends the variable's text: `root`, a solvable's text, or that of the kind of helper with what it is for in
    /// brackets. After a refusal `out` is as it was.
    fn display<I: Interner>(
        self,
        variables: &VariableMap<I::NameId, I::SolvableId, I::Alloc>,
        interner: &I,
        out: &mut String<I::Alloc>,
    ) -> Result<(), StoreError>
        requires { knows_variable (I.universe interner.now) variables.now (Self.index_of self) ≡ true }
        ensures ok { OnOk result (IsAppended out.old out.new
            (variable_text (I.universe interner.now) (I.texts interner.now) variables.now (Self.index_of self))) }
        ensures err { OnErr result (IsSameText out.old out.new) }
        ensures memory { IfErr result (λ e. e ≡ OutOfMemory) };
}

impl VariableInfo for VariableId {
    fn positive(self) -> Literal {
        Literal::new(self, false)
    }

    fn negative(self) -> Literal {
        Literal::new(self, true)
    }

    fn as_solvable<N: Copy, S: SolverId<A>, A: Allocator + Copy>(
        self,
        variables: &VariableMap<N, S, A>,
    ) -> Option<S> {
        variables.origin(self).as_solvable()
    }

    fn as_solvable_or_root<N: Copy, S: SolverId<A>, A: Allocator + Copy>(
        self,
        variables: &VariableMap<N, S, A>,
    ) -> Option<SolvableIdOrRoot<S>> {
        variables.origin(self).as_solvable_or_root()
    }

    fn display<I: Interner>(
        self,
        variables: &VariableMap<I::NameId, I::SolvableId, I::Alloc>,
        interner: &I,
        out: &mut String<I::Alloc>,
    ) -> Result<(), StoreError> {
        append_origin(interner, variables.origin(self), out)
    }
}

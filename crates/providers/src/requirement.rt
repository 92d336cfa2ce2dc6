//! What a package asks of another one.
ghost use Rattle.std.specs.Prelude.{◌≡◌, true, Some, OnOk, OnErr, IfErr};
ghost use Rattle.typed_ids.specs.declared.error.StoreError.TheVariants.{OutOfMemory};
ghost use Rattle.providers.specs.Provider.{sets_of, knows_requirement};
ghost use Rattle.providers.specs.Texts.{IsAppended, IsSameText, requirement_text};

use crate::conditional_requirement::ConditionalRequirement;
use crate::interner::Interner;
use crate::joined::append_joined;
use crate::requirement_text::texts_of_sets;
use crate::version_sets::VersionSets;
use std::hash::{Hash, Hasher};
use std::slice;
use typed_ids::{
    ConditionId, DefaultValue, DenseIndex, OrderedByParts, SameClone, SameValue, StoreError,
    VersionSetId, VersionSetUnionId,
};

/// One of the candidates of a version set, or of any set of a union.
#[derive(Clone, Copy, Debug, PartialEq, Eq, PartialOrd, Ord)]
pub enum Requirement {
    /// One of the candidates of this version set.
    Single(VersionSetId),
    /// One of the candidates of any version set of this union.
    Union(VersionSetUnionId),
}

impl Requirement {
    /// The requirement, which counts only if the condition is met.
    pub fn with_condition(self, condition: ConditionId) -> ConditionalRequirement
        ensures condition { result.condition ≡ Some condition }
        ensures requirement { result.requirement ≡ self }
    {
        ConditionalRequirement {
            condition: Some(condition),
            requirement: self,
        }
    }

    /// The version sets of which one is enough, in order; a union may name one more than once.
    pub fn version_sets<'i, I: Interner>(&'i self, interner: &'i I) -> VersionSets<'i>
        requires { knows_requirement (I.universe interner.now) self.now ≡ true }
        ensures { result ≡ sets_of (I.universe interner.now) self.now }
    {
        match self {
            Requirement::Single(set) => VersionSets::new(slice::from_ref(set)),
            Requirement::Union(union) => VersionSets::new(interner.version_sets_in_union(*union)),
        }
    }

    /// Appends the requirement's text: of each version set the name of its package, a blank and its own text, without
    /// the white space at the end ([`char::is_whitespace`]); ` | ` is between the texts of a union's sets. After a
    /// refusal `out` is as it was.
    pub fn display<I: Interner>(
        &self,
        interner: &I,
        out: &mut String<I::Alloc>,
    ) -> Result<(), StoreError>
        requires { knows_requirement (I.universe interner.now) self.now ≡ true }
        ensures ok { OnOk result (IsAppended out.old out.new
            (requirement_text (I.universe interner.now) (I.texts interner.now) self.now)) }
        ensures err { OnErr result (IsSameText out.old out.new) }
        ensures memory { IfErr result (λ e. e ≡ OutOfMemory) }
    {
        let sets = self.version_sets(interner);
        let texts = texts_of_sets(interner, *out.allocator(), sets.as_slice())?;
        append_joined(&texts, out)
    }
}

/// The hash is that of the index alone, so a version set and a union of one index share it.
impl Hash for Requirement {
    ghost use Rattle.std.specs.Hash as fed;
    ghost use Rattle.std.specs.Cmp.Rules.{hashing};
    ghost use Rattle.std.proofs.Common.{rules};
    ghost use Rattle.providers.specs.Requirement.{requirement_index};

    ghost hash_input = { λ requirement. fed.usize (requirement_index requirement) };

    ghost respects_eq = { Prim.search (hashing, rules) };

    fn hash<H: Hasher>(&self, state: &mut H) {
        let index = match self {
            Requirement::Single(set) => set.to_index(),
            Requirement::Union(union) => union.to_index(),
        };
        state.write_usize(index);
    }
}

/// The version set of index 0.
impl Default for Requirement {
    ghost use Rattle.providers.specs.declared.requirement.Requirement.TheVariants.{Single};

    ghost is_default = { λ requirement. requirement ≡ Single (record { 0 = 0 }) };

    fn default() -> Self {
        Requirement::Single(VersionSetId::default())
    }
}

impl From<VersionSetId> for Requirement {
    ghost use Rattle.providers.specs.declared.requirement.Requirement.TheVariants.{Single};

    ghost from_gives = { λ set requirement. requirement ≡ Single set };

    fn from(set: VersionSetId) -> Self {
        Requirement::Single(set)
    }
}

impl From<VersionSetUnionId> for Requirement {
    ghost use Rattle.providers.specs.declared.requirement.Requirement.TheVariants.{Union};

    ghost from_gives = { λ union requirement. requirement ≡ Union union };

    fn from(union: VersionSetUnionId) -> Self {
        Requirement::Union(union)
    }
}

impl SameValue for Requirement {
    ghost use Rattle.std.proofs.Common.{rules};

    ghost same = { λ a b h. Prim.search rules };
}

impl SameClone for Requirement {
    ghost use Rattle.std.proofs.Common.{rules};

    ghost clone_is_same = { λ a b h. Prim.search rules };
}

impl OrderedByParts for Requirement {
    ghost use Rattle.providers.specs.Parts.{requirement_parts};
    ghost use Rattle.std.proofs.Common.{rules};

    ghost parts = { requirement_parts };

    ghost by_parts = { Prim.search rules };
}

/// The default is the version set of index 0.
impl DefaultValue for Requirement {
    ghost use Rattle.std.proofs.Common.{rules};
    ghost use Rattle.providers.specs.declared.requirement.Requirement.TheVariants.{Single};

    ghost default_value = { Single (record { 0 = 0 }) };

    ghost default_is = { Prim.search rules };

    ghost only_default = { λ x h. h };
}

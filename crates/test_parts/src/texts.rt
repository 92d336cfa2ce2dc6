//! Texts of what stands on an interner that writes no text of its own for solvables together, nor for the name of a
//! solvable's package.
ghost use Rattle.std.specs.Prelude.{◌≡◌, true, [], refl, All, OnOk, OnErr, IfErr};
ghost use Rattle.typed_ids.specs.declared.error.StoreError.TheVariants.{OutOfMemory};
ghost use Rattle.typed_ids.specs.declared.version_set_id.VersionSetId.{VersionSetId as AVersionSet};
ghost use Rattle.providers.specs.Texts.{IsAppended, IsSameText};
ghost use Rattle.test_parts.specs.OnePackage.{all_known, texts_of_all, each_made_of_known};

use providers::{Condition, Interner, LogicalOperator, Requirement, RootText};
use std::alloc::Global;
use std::test::Fail;
use test_support::is_same;
use typed_ids::{
    ConditionId, NameId, SolvableId, SolvableIdOrRoot, StoreError, StringId, VersionSetId,
    VersionSetUnionId,
};

/// What is there once each text was put behind `of `: the name of a solvable's package, the texts of a version set, of
/// the root and of the solvable, and that of the solvable twice together.
const TEXTS: [&str; 5] = ["of a", "of a 1", "of root", "of a 1", "of a a 1"];

#[test]
fn texts_are_put_behind_what_is_there(rt: HostRuntime) -> Result<(), Fail> {
    let solvable = SolvableId::from_raw(3);
    for (place, text) in TEXTS.iter().enumerate() {
        let mut out = String::from_str(rt.alloc(), "of ")?;
        let answer = push_text(
            &OnePackage,
            solvable,
            &[solvable, solvable],
            place,
            &mut out,
        );
        let is_written = is_same(out.as_str(), *text);
        drop(out);
        is_written?;
        answer?;
    }
    Ok(())
}

/// Appends the text of a place: the last is that of the solvables together.
fn push_text<I: Interner>(
    interner: &I,
    solvable: I::SolvableId,
    together: &[I::SolvableId],
    place: usize,
    out: &mut String<I::Alloc>,
) -> Result<(), StoreError>
    requires { All (λ s. (I.universe interner.now).knows_solvable s ≡ true) together.now }
{
    let set = VersionSetId(0);
    if !interner.knows_solvable(solvable) || !interner.knows_version_set(set) {
        return Err(StoreError::UnknownId);
    }
    match place {
        0 => interner.display_solvable_name(solvable, out),
        1 => Requirement::Single(set).display(interner, out),
        2 => SolvableIdOrRoot::<I::SolvableId>::Root.display(interner, out),
        3 => SolvableIdOrRoot::Solvable(solvable).display(interner, out),
        _ => interner.display_merged_solvables(together, out),
    }
}

/// One package, `a`: all ids are known, and each solvable is a version of it.
#[derive(Clone, Copy)]
pub(crate) struct OnePackage;

impl Interner for OnePackage {
    ghost use Rattle.std.proofs.lemmas.List.Elements.{All-from_recursion};

    type Alloc = Global;

    type NameId = NameId;

    type SolvableId = SolvableId;

    ghost universe = { λ p. all_known };

    ghost texts = { λ p. texts_of_all };

    ghost solvable_names_known = { λ p s h. refl };

    ghost set_names_known = { λ p v h. refl };

    ghost union_sets_known = { λ p u h. All-from_recursion (λ (set : AVersionSet). true ≡ true) [] tt };

    ghost operands_known = { λ p. each_made_of_known };

    fn knows_string(&self, _string: StringId) -> bool {
        true
    }

    fn knows_name(&self, _name: NameId) -> bool {
        true
    }

    fn knows_solvable(&self, _solvable: SolvableId) -> bool {
        true
    }

    fn knows_version_set(&self, _set: VersionSetId) -> bool {
        true
    }

    fn knows_union(&self, _union: VersionSetUnionId) -> bool {
        true
    }

    fn knows_condition(&self, _condition: ConditionId) -> bool {
        true
    }

    fn version_set_name(&self, _set: VersionSetId) -> NameId {
        NameId::from_raw(0)
    }

    fn solvable_name(&self, _solvable: SolvableId) -> NameId {
        NameId::from_raw(0)
    }

    fn version_sets_in_union(&self, _union: VersionSetUnionId) -> &[VersionSetId] {
        &[]
    }

    fn resolve_condition(&self, condition: ConditionId) -> Condition {
        if condition.as_u32() == 0 {
            return Condition::Requirement(VersionSetId(0));
        }
        let first = ConditionId::new(0);
        Condition::Binary(LogicalOperator::And, first, first)
    }

    fn display_solvable(&self, _solvable: SolvableId, out: &mut String) -> Result<(), StoreError> {
        append(out, "a 1")
    }

    fn display_name(&self, _name: NameId, out: &mut String) -> Result<(), StoreError> {
        append(out, "a")
    }

    fn display_version_set(&self, _set: VersionSetId, out: &mut String) -> Result<(), StoreError> {
        append(out, "1")
    }

    fn display_string(&self, _string: StringId, out: &mut String) -> Result<(), StoreError> {
        append(out, "old")
    }
}

/// Appends a text.
fn append(out: &mut String, text: &str) -> Result<(), StoreError>
    ensures ok { OnOk result (IsAppended out.old out.new text.now) }
    ensures err { OnErr result (IsSameText out.old out.new) }
    ensures memory { IfErr result (λ e. e ≡ OutOfMemory) }
{
    Ok(out.push_str(text)?)
}

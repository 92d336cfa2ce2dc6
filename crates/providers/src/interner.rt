//! The ids of an ecosystem: which are in use, how they belong together, and what texts stand for them.
ghost use Rattle.std.specs.Prelude.{◌≡◌, ℕ, List, Option, None, true, All, OnOk, OnErr, IfErr};
ghost use Rattle.typed_ids.specs.declared.error.StoreError.TheVariants.{OutOfMemory};
ghost use Rattle.providers.specs.Provider.{Universe, AreSolvableNamesKnown, AreSetNamesKnown};
ghost use Rattle.providers.specs.Provider.{AreUnionSetsKnown, AreOperandsKnown};
ghost use Rattle.providers.specs.Texts.{Texts, IsAppended, IsContinuedBy, IsSameText};
ghost use Rattle.providers.specs.Texts.{IsOwnOr, IsSolvableName, IsMergedByDefault};

use crate::condition::Condition;
use crate::merged_text::MergedText;
use id_maps::SolverId;
use std::alloc::Allocator;
use typed_ids::{ConditionId, StoreError, StringId, VersionSetId, VersionSetUnionId};

/// Tells which ids are known, what they stand for, and their texts. Its answers are fixed: they follow from its value
/// alone. Every id that is handed in is known.
///
/// A text is appended to a `String`, which is as it was after a refusal; that is want of memory.
pub trait Interner {
    /// The allocator of whatever is built on this interner.
    type Alloc: Allocator + Copy;

    /// The ids of packages' names.
    type NameId: SolverId<Self::Alloc>;

    /// The ids of solvables.
    type SolvableId: SolverId<Self::Alloc>;

    /// The known ids, and how they belong together.
    ghost universe: { Self → Universe Self.NameId Self.SolvableId };

    /// The texts of known ids.
    ghost texts: { Self → Texts Self.NameId Self.SolvableId };

    /// The text of [`Interner::display_solvable_name`], where it isn't the default's.
    ghost own_solvable_name: { Self → Self.SolvableId → Option (List ℕ) } = { λ _ _. None };

    /// The text of [`Interner::display_merged_solvables`], where it isn't the default's.
    ghost own_merged: { Self → List Self.SolvableId → Option (List ℕ) } = { λ _ _. None };

    /// Whether the string is known.
    fn knows_string(&self, string: StringId) -> bool
        ensures { result ≡ (universe self.now).knows_string string };

    /// Whether the name is known.
    fn knows_name(&self, name: Self::NameId) -> bool
        ensures { result ≡ (universe self.now).knows_name name };

    /// Whether the solvable is known; so is the name of its package then.
    fn knows_solvable(&self, solvable: Self::SolvableId) -> bool
        ensures { result ≡ (universe self.now).knows_solvable solvable };

    /// Whether the version set is known; so is the name of its package then.
    fn knows_version_set(&self, set: VersionSetId) -> bool
        ensures { result ≡ (universe self.now).knows_set set };

    /// Whether the union is known; so are its version sets then.
    fn knows_union(&self, union: VersionSetUnionId) -> bool
        ensures { result ≡ (universe self.now).knows_union union };

    /// Whether the condition is known; so is what it is made of then.
    fn knows_condition(&self, condition: ConditionId) -> bool
        ensures { result ≡ (universe self.now).knows_condition condition };

    /// The package whose versions the set holds.
    fn version_set_name(&self, set: VersionSetId) -> Self::NameId
        requires { (universe self.now).knows_set set ≡ true }
        ensures { result ≡ (universe self.now).set_name set };

    /// The package of which the solvable is a version.
    fn solvable_name(&self, solvable: Self::SolvableId) -> Self::NameId
        requires { (universe self.now).knows_solvable solvable ≡ true }
        ensures { result ≡ (universe self.now).solvable_name solvable };

    /// The version sets of a union, in order.
    fn version_sets_in_union(&self, union: VersionSetUnionId) -> &[VersionSetId]
        requires { (universe self.now).knows_union union ≡ true }
        ensures { result.now ≡ (universe self.now).union_sets union };

    /// What the condition is made of.
    fn resolve_condition(&self, condition: ConditionId) -> Condition
        requires { (universe self.now).knows_condition condition ≡ true }
        ensures { result ≡ (universe self.now).condition condition };

    /// Appends a solvable's text: its package's name, and what else tells it from others.
    fn display_solvable(
        &self,
        solvable: Self::SolvableId,
        out: &mut String<Self::Alloc>,
    ) -> Result<(), StoreError>
        requires { (universe self.now).knows_solvable solvable ≡ true }
        ensures ok { OnOk result (IsAppended out.old out.new ((texts self.now).solvable solvable)) }
        ensures err { OnErr result (IsSameText out.old out.new) }
        ensures memory { IfErr result (λ e. e ≡ OutOfMemory) };

    /// Appends a package's name.
    fn display_name(
        &self,
        name: Self::NameId,
        out: &mut String<Self::Alloc>,
    ) -> Result<(), StoreError>
        requires { (universe self.now).knows_name name ≡ true }
        ensures ok { OnOk result (IsAppended out.old out.new ((texts self.now).name name)) }
        ensures err { OnErr result (IsSameText out.old out.new) }
        ensures memory { IfErr result (λ e. e ≡ OutOfMemory) };

    /// Appends a version set's text, which hasn't the package's name in it. It may be empty.
    fn display_version_set(
        &self,
        set: VersionSetId,
        out: &mut String<Self::Alloc>,
    ) -> Result<(), StoreError>
        requires { (universe self.now).knows_set set ≡ true }
        ensures ok { OnOk result (IsAppended out.old out.new ((texts self.now).version_set set)) }
        ensures err { OnErr result (IsSameText out.old out.new) }
        ensures memory { IfErr result (λ e. e ≡ OutOfMemory) };

    /// Appends a string.
    fn display_string(
        &self,
        string: StringId,
        out: &mut String<Self::Alloc>,
    ) -> Result<(), StoreError>
        requires { (universe self.now).knows_string string ≡ true }
        ensures ok { OnOk result (IsAppended out.old out.new ((texts self.now).string string)) }
        ensures err { OnErr result (IsSameText out.old out.new) }
        ensures memory { IfErr result (λ e. e ≡ OutOfMemory) };

    /// Appends the name of a solvable's package; by default as [`Interner::display_name`] does. Where an override
    /// appends another text, `own_solvable_name` tells it.
    fn display_solvable_name(
        &self,
        solvable: Self::SolvableId,
        out: &mut String<Self::Alloc>,
    ) -> Result<(), StoreError>
        requires { (universe self.now).knows_solvable solvable ≡ true }
        ensures ok { OnOk result (IsContinuedBy out.old out.new
            (IsSolvableName (universe self.now) (texts self.now) (own_solvable_name self.now) solvable)) }
        ensures err { OnErr result (IsSameText out.old out.new) }
        ensures memory { IfErr result (λ e. e ≡ OutOfMemory) }
    {
        self.display_name(self.solvable_name(solvable), out)
    }

    /// Appends a text for solvables of one package together. By default that is nothing for none, and else the text of
    /// [`Interner::display_solvable_name`] for the first, a blank, and the solvables' distinct texts in ascending order
    /// of their bytes, with ` | ` between them. Where an override appends another text, `own_merged` tells it.
    fn display_merged_solvables(
        &self,
        solvables: &[Self::SolvableId],
        out: &mut String<Self::Alloc>,
    ) -> Result<(), StoreError>
        requires { All (λ s. (universe self.now).knows_solvable s ≡ true) solvables.now }
        ensures ok { OnOk result (IsContinuedBy out.old out.new
            (IsOwnOr (IsMergedByDefault (universe self.now) (texts self.now) (own_solvable_name self.now) solvables.now)
            (own_merged self.now solvables.now))) }
        ensures err { OnErr result (IsSameText out.old out.new) }
        ensures memory { IfErr result (λ e. e ≡ OutOfMemory) }
    {
        let Some(first) = solvables.first() else {
            return Ok(());
        };
        let alloc = *out.allocator();
        let mut name = String::new(alloc);
        self.display_solvable_name(*first, &mut name)?;
        let mut merged = MergedText::new(alloc, name);
        for solvable in solvables {
            let mut text = String::new(alloc);
            self.display_solvable(*solvable, &mut text)?;
            merged.push(text)?;
        }
        merged.append_to(out)
    }

    /// What is known is made of what is known.
    ghost solvable_names_known: { (p : Self) → AreSolvableNamesKnown (universe p) };

    ghost set_names_known: { (p : Self) → AreSetNamesKnown (universe p) };

    ghost union_sets_known: { (p : Self) → AreUnionSetsKnown (universe p) };

    /// The conditions that another joins have smaller indexes.
    ghost operands_known: { (p : Self) → AreOperandsKnown (universe p) };
}

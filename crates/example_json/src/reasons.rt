//! Reasons as values.
ghost use Rattle.std.specs.Prelude.{◌≡◌, IfOk};
ghost use Rattle.serde_json.specs.View.{members_view, view};
ghost use Rattle.example_json.specs.Reasons.{limits_data, locked_data, marked_data, need_data, one_version_data};
ghost use Rattle.example_json.specs.Reasons.{of_kind, reason_data, reasons_data};

use crate::values::{Made, Members, Values};
use example_answers::write_name;
use picking::Reason;
use resolvo_ids::{StringId, VersionSetId};
use resolvo_pool::{ConditionalRequirement, Interner};
use serde_json::{Map, Value, json, push, put};
use std::alloc::{AllocError, Global};

impl<I: Interner> Values<'_, I> {
    /// These reasons, in turn.
    pub(crate) fn reasons(&self, reasons: &[Reason<I::NameId, I::SolvableId>]) -> Made
        ensures { IfOk result (λ value. view value ≡
            reasons_data (I.universe self.now.interner.now) (I.texts self.now.interner.now) reasons.now) }
    {
        let mut values = Vec::new(self.alloc);
        for reason in reasons {
            push(&mut values, self.reason(*reason)?)?;
        }
        Ok(Value::Array(values))
    }

    /// A reason: its kind, and what it is about.
    fn reason(&self, reason: Reason<I::NameId, I::SolvableId>) -> Made
        ensures { IfOk result (λ value. view value ≡
            reason_data (I.universe self.now.interner.now) (I.texts self.now.interner.now) reason) }
    {
        match reason {
            Reason::Needs(parent, need) => self.need("needs", parent, need),
            Reason::Lacks(parent, need) => self.need("lacks", parent, need),
            Reason::Limits(solvable, set) => self.limits(solvable, set),
            Reason::Unknown(solvable, why) => self.marked("unknown", solvable, why),
            Reason::Excluded(solvable, why) => self.marked("excluded", solvable, why),
            Reason::Locked(solvable) => self.locked(solvable),
            Reason::OneVersion(name) => self.one_version(name),
        }
    }

    /// That a version, or the request, needs something.
    fn need(&self, kind: &str, parent: Option<I::SolvableId>, need: ConditionalRequirement) -> Made
        ensures { IfOk result (λ value. view value ≡
            need_data (I.universe self.now.interner.now) (I.texts self.now.interner.now) kind.now parent need) }
    {
        let mut members = of_kind(self.alloc, kind, self.parent(parent)?)?;
        put(
            &mut members,
            self.alloc,
            "needs",
            self.sets(need.requirement)?,
        )?;
        put(
            &mut members,
            self.alloc,
            "if",
            self.need_condition(need.condition)?,
        )?;
        Ok(Value::Object(members))
    }

    /// That a version limits a package.
    fn limits(&self, solvable: I::SolvableId, set: VersionSetId) -> Made
        ensures { IfOk result (λ value. view value ≡
            limits_data (I.universe self.now.interner.now) (I.texts self.now.interner.now) solvable set) }
    {
        let mut members = of_kind(self.alloc, "limits", self.version(solvable)?)?;
        put(&mut members, self.alloc, "limits", self.set(set)?)?;
        Ok(Value::Object(members))
    }

    /// That a version can't be picked, for the reason that the string says.
    fn marked(&self, kind: &str, solvable: I::SolvableId, why: StringId) -> Made
        ensures { IfOk result (λ value. view value ≡
            marked_data (I.universe self.now.interner.now) (I.texts self.now.interner.now) kind.now solvable why) }
    {
        let mut members = of_kind(self.alloc, kind, self.version(solvable)?)?;
        put(&mut members, self.alloc, "why", self.string(why)?)?;
        Ok(Value::Object(members))
    }

    /// That a package is locked to a version.
    fn locked(&self, solvable: I::SolvableId) -> Made
        ensures { IfOk result (λ value. view value ≡
            locked_data (I.universe self.now.interner.now) (I.texts self.now.interner.now) solvable) }
    {
        Ok(Value::Object(of_kind(self.alloc, "locked", self.version(solvable)?)?))
    }

    /// That at most one version of a package is picked.
    fn one_version(&self, name: I::NameId) -> Made
        ensures { IfOk result (λ value. view value ≡
            one_version_data (I.universe self.now.interner.now) (I.texts self.now.interner.now) name) }
    {
        let mut text = String::new(self.texts);
        write_name(self.interner, name, &mut text)?;
        Ok(json!(in self.alloc; {"kind": "one version", "name": text.as_str()})?)
    }
}

/// The members that most reasons have: its kind, and whose it is.
fn of_kind(alloc: Global, kind: &str, whose: Value) -> Result<Members, AllocError>
    ensures { IfOk result (λ members. members_view members.entries ≡ of_kind kind.now (view whose)) }
{
    let mut members = Map::new(alloc);
    put(&mut members, alloc, "package", whose)?;
    put(
        &mut members,
        alloc,
        "kind",
        Value::try_from_str(alloc, kind)?,
    )?;
    Ok(members)
}

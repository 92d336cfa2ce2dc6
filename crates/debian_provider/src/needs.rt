//! What a package needs.
ghost use Rattle.std.specs.Prelude.{◌≡◌, [], ◌∷◌, ◌++◌, None, Some, IfOk, OnOk};
ghost use Rattle.debian_scenario.specs.Packages.{PackageText};
ghost use Rattle.debian_scenario.specs.Plain.{plain_package};
ghost use Rattle.debian_text.specs.Plain.{plain_relation};
ghost use Rattle.debian_text.specs.Relations.{relation_of};
ghost use Rattle.debian_directory.specs.Plain.{plain_name};
ghost use Rattle.resolvo_pool.specs.Dependencies.{needs_of};
ghost use Rattle.resolvo_pool.specs.Pool.{AreSetsHere};
ghost use Rattle.debian_provider.specs.Growing.{IsAdded, IsGrown};
ghost use Rattle.debian_provider.specs.Meaning.{HasSet};
ghost use Rattle.debian_provider.specs.Needs.{AreDemanded, AreFreeFor, AreLimited, AreMetFor, AreNeeds, IfReadable};
ghost use Rattle.debian_provider.specs.Needs.{IsGroupMetFor, IsPartFreeFor};
ghost use Rattle.debian_provider.specs.Needs.{IsFreeFor, IsGroupOffered, IsOffered, IsOfferedAt, Spares, SparesOther};
ghost use Rattle.debian_provider.specs.Needs.{sets_in};
ghost use Rattle.debian_provider.specs.Sets.{beside, plain_set};

use crate::archive::Archive;
use crate::set::Set;
use debian_directory::Name;
use debian_installable::{is_blank, is_same};
use debian_scenario::Package;
use debian_text::Relation;
use resolvo_ids::{ConditionId, StoreError, VersionSetId};
use resolvo_pool::{ConditionalRequirement, Dependencies, KnownDependencies, Requirement};

impl<'t> Archive<'_, 't> {
    /// What a package needs.
    pub(crate) fn read_needs(&mut self, one: &Package<'t>) -> Result<Dependencies, StoreError>
        ensures grown { OnOk result (IsGrown self.old self.new) }
        ensures needs { IfOk result (λ needs. AreNeeds self.new.rules self.new.reached.pool (plain_package one.now)
            (needs_of needs)) }
    {
        let mut known = KnownDependencies::new(self.alloc);
        if !self.add_requirements(one, &mut known.requirements)? {
            return Ok(Dependencies::Unknown(self.unreadable));
        }
        if !self.add_constraints(one, &mut known.constrains)? {
            return Ok(Dependencies::Unknown(self.unreadable));
        }
        Ok(Dependencies::Known(known))
    }

    /// Adds what a package depends on. Answers whether it can be read.
    fn add_requirements(
        &mut self,
        one: &Package<'t>,
        requirements: &mut Vec<ConditionalRequirement>,
    ) -> Result<bool, StoreError>
        ensures grown { OnOk result (IsGrown self.old self.new) }
        ensures needs { IfOk result (λ readable. IfReadable self.old self.new (plain_package one.now) readable
            (AreDemanded self.old self.new (plain_package one.now) requirements.old.items requirements.new.items)) }
    {
        let relations = &one.relations;
        if !self.add_required(one, relations.pre_depends, requirements)? {
            return Ok(false);
        }
        self.add_required(one, relations.depends, requirements)
    }

    /// Adds what a field of dependencies asks for. Answers whether it can be read.
    fn add_required(
        &mut self,
        one: &Package<'t>,
        field: &'t [u8],
        requirements: &mut Vec<ConditionalRequirement>,
    ) -> Result<bool, StoreError>
        ensures grown { OnOk result (IsGrown self.old self.new) }
        ensures needs { AreMetFor self.old.rules (plain_package one.now) field.now →
            IfOk result (λ readable. IfReadable self.old self.new (plain_package one.now) readable
            (AreDemanded self.old self.new (plain_package one.now) requirements.old.items requirements.new.items)) }
    {
        for group in field.split(|byte| *byte == b',') {
            if !self.add_group(one, group, requirements)? {
                return Ok(false);
            }
        }
        Ok(true)
    }

    /// Adds what a group of a field asks for, unless it is blank. Answers whether it can be read.
    fn add_group(
        &mut self,
        one: &Package<'t>,
        group: &'t [u8],
        requirements: &mut Vec<ConditionalRequirement>,
    ) -> Result<bool, StoreError>
        ensures grown { OnOk result (IsGrown self.old self.new) }
        ensures needs { IsGroupMetFor self.old.rules (plain_package one.now) group.now →
            IfOk result (λ readable. IfReadable self.old self.new (plain_package one.now) readable
            (AreDemanded self.old self.new (plain_package one.now) requirements.old.items requirements.new.items)) }
    {
        if is_blank(group) {
            return Ok(true);
        }
        let Some(requirement) = self.requirement(one, group)? else {
            return Ok(false);
        };
        push_requirement(requirements, requirement)?;
        Ok(true)
    }

    /// That one of the relations of a group is met; none if none of them can be read.
    fn requirement(
        &mut self,
        one: &Package<'t>,
        group: &'t [u8],
    ) -> Result<Option<Requirement>, StoreError>
        ensures grown { OnOk result (IsGrown self.old self.new) }
        ensures offered { IfOk result (λ found. IsGroupOffered self.new.rules self.new.reached.pool
            (plain_package one.now) (sets_in self.new.reached.pool found) group.now) }
    {
        let mut sets = Vec::new(self.alloc);
        for part in group.split(|byte| *byte == b'|') {
            self.add_alternative(one, part, &mut sets)?;
        }
        self.one_of(&sets)
    }

    /// That one of these version sets has what is picked.
    #[tactic(auto, using(crate::proofs::Offered::grown_itself))]
    pub(crate) fn one_of(
        &mut self,
        sets: &[VersionSetId],
    ) -> Result<Option<Requirement>, StoreError>
        requires { AreSetsHere self.old.reached.pool sets.now }
        ensures grown { OnOk result (IsGrown self.old self.new) }
        ensures sets { IfOk result (λ found. sets_in self.new.reached.pool found ≡ sets.now) }
    {
        match sets {
            [] => Ok(None),
            [only] => Ok(Some(Requirement::Single(*only))),
            [first, others @ ..] => {
                let union = self.reached.add_union(*first, others)?;
                Ok(Some(Requirement::Union(union)))
            }
        }
    }

    /// Adds the sets of versions by which an alternative is met; none if it can't be read.
    #[tactic(auto, using(crate::proofs::Offered::added_itself))]
    fn add_alternative(
        &mut self,
        one: &Package<'t>,
        part: &'t [u8],
        sets: &mut Vec<VersionSetId>,
    ) -> Result<(), StoreError>
        ensures added { OnOk result (IsAdded self.old self.new sets.old.items sets.new.items) }
        ensures offered { OnOk result (IsOffered self.new.rules self.new.reached.pool (plain_package one.now)
            sets.new.items (relation_of part.now)) }
    {
        let Some(relation) = Relation::parse(part) else {
            return Ok(());
        };
        self.add_meeting(one, &relation, sets)
    }

    /// Adds the sets of versions by which a relation is met: of the name itself, and of each name that has one.
    fn add_meeting(
        &mut self,
        one: &Package<'t>,
        relation: &Relation<'t>,
        sets: &mut Vec<VersionSetId>,
    ) -> Result<(), StoreError>
        ensures added { OnOk result (IsAdded self.old self.new sets.old.items sets.new.items) }
        ensures offered { OnOk result (IsOffered self.new.rules self.new.reached.pool (plain_package one.now)
            sets.new.items (Some (plain_relation relation.now))) }
    {
        let rules = self.rules;
        let architecture = rules.name_of(one).architecture;
        let set = Set::Meeting(*relation, architecture);
        self.add_set(meant(relation, architecture), set, sets)?;
        let places = rules.directory.places(relation.name);
        for place in places {
            self.add_set_at(*place, set, sets)?;
        }
        Ok(())
    }

    /// Adds a version set of the name of the package at a place, if it has that package.
    #[tactic(auto, using(crate::proofs::Offered::added_itself))]
    fn add_set_at(
        &mut self,
        place: usize,
        set: Set<'t>,
        sets: &mut Vec<VersionSetId>,
    ) -> Result<(), StoreError>
        ensures added { OnOk result (IsAdded self.old self.new sets.old.items sets.new.items) }
        ensures offered { OnOk result (IsOfferedAt self.new.rules self.new.reached.pool place sets.new.items
            (plain_set set.entry)) }
    {
        let Some(one) = self.rules.packages.get(place) else {
            return Ok(());
        };
        if !set.has(self.rules.request.architecture, one) {
            return Ok(());
        }
        let name = self.rules.name_of(one);
        self.add_set(name, set, sets)
    }

    /// Adds a version set of a name, unless it is there.
    pub(crate) fn add_set(
        &mut self,
        name: Name<'t>,
        set: Set<'t>,
        sets: &mut Vec<VersionSetId>,
    ) -> Result<(), StoreError>
        ensures added { OnOk result (IsAdded self.old self.new sets.old.items sets.new.items) }
        ensures has { OnOk result (HasSet self.new.reached.pool sets.new.items (plain_name name.entry)
            (plain_set set.entry)) }
        ensures limits { OnOk result ((one : PackageText) →
            Spares self.old.rules one (plain_name name.entry) (plain_set set.entry) →
            AreLimited self.old self.new one sets.old.items sets.new.items) }
    {
        let name = self.reach(name)?;
        let set = self.reached.add_set(name, set)?;
        if sets.contains(&set) {
            return Ok(());
        }
        sets.push(set)?;
        Ok(())
    }

    /// Adds what can't be there beside a package. Answers whether it can be read.
    fn add_constraints(
        &mut self,
        one: &Package<'t>,
        constrains: &mut Vec<VersionSetId>,
    ) -> Result<bool, StoreError>
        ensures grown { OnOk result (IsGrown self.old self.new) }
        ensures limits { IfOk result (λ readable. IfReadable self.old self.new (plain_package one.now) readable
            (AreLimited self.old self.new (plain_package one.now) constrains.old.items constrains.new.items)) }
    {
        let relations = &one.relations;
        self.add_others(one, constrains)?;
        if !self.add_conflicts(one, relations.conflicts, constrains)? {
            return Ok(false);
        }
        self.add_conflicts(one, relations.breaks, constrains)
    }

    /// Adds what a field of conflicts rules out. Answers whether it can be read.
    fn add_conflicts(
        &mut self,
        one: &Package<'t>,
        field: &'t [u8],
        constrains: &mut Vec<VersionSetId>,
    ) -> Result<bool, StoreError>
        ensures grown { OnOk result (IsGrown self.old self.new) }
        ensures limits { AreFreeFor self.old.rules (plain_package one.now) field.now →
            IfOk result (λ readable. IfReadable self.old self.new (plain_package one.now) readable
            (AreLimited self.old self.new (plain_package one.now) constrains.old.items constrains.new.items)) }
    {
        for part in field.split(|byte| *byte == b',') {
            if !self.add_part(one, part, constrains)? {
                return Ok(false);
            }
        }
        Ok(true)
    }

    /// Adds what a part of a field rules out, unless it is blank. Answers whether it can be read.
    fn add_part(
        &mut self,
        one: &Package<'t>,
        part: &'t [u8],
        constrains: &mut Vec<VersionSetId>,
    ) -> Result<bool, StoreError>
        ensures grown { OnOk result (IsGrown self.old self.new) }
        ensures limits { IsPartFreeFor self.old.rules (plain_package one.now) part.now →
            IfOk result (λ readable. IfReadable self.old self.new (plain_package one.now) readable
            (AreLimited self.old self.new (plain_package one.now) constrains.old.items constrains.new.items)) }
    {
        if is_blank(part) {
            return Ok(true);
        }
        let Some(relation) = Relation::parse(part) else {
            return Ok(false);
        };
        self.add_conflict(one, relation, constrains)?;
        Ok(true)
    }

    /// Adds, for each other name that has versions which a conflict is with, the set of those that it spares.
    fn add_conflict(
        &mut self,
        one: &Package<'t>,
        relation: Relation<'t>,
        constrains: &mut Vec<VersionSetId>,
    ) -> Result<(), StoreError>
        ensures grown { OnOk result (IsGrown self.old self.new) }
        ensures limits { OnOk result (IsFreeFor self.old.rules (plain_package one.now) (plain_relation relation.entry) →
            AreLimited self.old self.new (plain_package one.now) constrains.old.items constrains.new.items) }
    {
        let rules = self.rules;
        for place in rules.directory.places(relation.name) {
            self.add_conflict_at(one, relation, *place, constrains)?;
        }
        Ok(())
    }

    /// Adds, for the name of the package at a place, the set of those that a conflict spares, unless it spares it. A
    /// conflict spares its package's own name.
    fn add_conflict_at(
        &mut self,
        one: &Package<'t>,
        relation: Relation<'t>,
        place: usize,
        constrains: &mut Vec<VersionSetId>,
    ) -> Result<(), StoreError>
        ensures grown { OnOk result (IsGrown self.old self.new) }
        ensures limits { OnOk result (IsFreeFor self.old.rules (plain_package one.now) (plain_relation relation.entry) →
            AreLimited self.old self.new (plain_package one.now) constrains.old.items constrains.new.items) }
    {
        let Some(other) = self.rules.packages.get(place) else {
            return Ok(());
        };
        if other.identity.name == one.identity.name {
            return Ok(());
        }
        let own = self.rules.name_of(one);
        self.add_constraint(own, other, Set::Spared(relation), constrains)
    }

    /// Adds, for each other architecture of the package's name, the set of versions that may stand beside it.
    fn add_others(
        &mut self,
        one: &Package<'t>,
        constrains: &mut Vec<VersionSetId>,
    ) -> Result<(), StoreError>
        ensures grown { OnOk result (IsGrown self.old self.new) }
        ensures limits { OnOk result
            (AreLimited self.old self.new (plain_package one.now) constrains.old.items constrains.new.items) }
    {
        let rules = self.rules;
        for place in rules.directory.places(one.identity.name) {
            self.add_other_at(one, *place, constrains)?;
        }
        Ok(())
    }

    /// Adds, if the package at a place has the same name in another architecture, the set of versions that may stand
    /// beside this one.
    fn add_other_at(
        &mut self,
        one: &Package<'t>,
        place: usize,
        constrains: &mut Vec<VersionSetId>,
    ) -> Result<(), StoreError>
        ensures grown { OnOk result (IsGrown self.old self.new) }
        ensures limits { OnOk result
            (AreLimited self.old self.new (plain_package one.now) constrains.old.items constrains.new.items) }
    {
        let Some(other) = self.rules.packages.get(place) else {
            return Ok(());
        };
        if other.identity.name != one.identity.name {
            return Ok(());
        }
        let own = self.rules.name_of(one);
        self.add_constraint(own, other, beside(one), constrains)
    }

    /// Adds a version set of the name of another package than the own one, unless it has that package.
    fn add_constraint(
        &mut self,
        own: Name<'t>,
        other: &Package<'t>,
        set: Set<'t>,
        constrains: &mut Vec<VersionSetId>,
    ) -> Result<(), StoreError>
        ensures grown { OnOk result (IsGrown self.old self.new) }
        ensures limits { OnOk result ((one : PackageText) →
            SparesOther self.old.rules one (plain_name own.entry) (plain_package other.now) (plain_set set.entry) →
            AreLimited self.old self.new one constrains.old.items constrains.new.items) }
    {
        let name = self.rules.name_of(other);
        if name == own || set.has(self.rules.request.architecture, other) {
            return Ok(());
        }
        self.add_set(name, set, constrains)
    }
}

/// Adds a requirement that has no condition.
pub(crate) fn push_requirement(
    requirements: &mut Vec<ConditionalRequirement>,
    requirement: Requirement,
) -> Result<(), StoreError>
    ensures { OnOk result (requirements.new.items ≡
        requirements.old.items ++ record { condition = None; requirement = requirement } ∷ []) }
{
    let condition: Option<ConditionId> = None;
    requirements.push(ConditionalRequirement {
        condition,
        requirement,
    })?;
    Ok(())
}

/// The name that a relation says: in this architecture, or the one behind the colon.
fn meant<'t>(relation: &Relation<'t>, architecture: &'t [u8]) -> Name<'t> {
    Name {
        name: relation.name,
        architecture: match relation.qualifier {
            None | Some(b"any") => architecture,
            Some(named) => named,
        },
    }
}

/// The versions of a package's name that may stand beside it in other architectures.
fn beside<'t>(one: &Package<'t>) -> Set<'t>
    ensures { plain_set result ≡ beside (plain_package one.now) }
{
    Set::Beside(if is_same(one.multi_arch) {
        Some(one.identity.version)
    } else {
        None
    })
}

//! What has to be there.
ghost use Rattle.std.specs.Prelude.{◌≡◌, ◌&&◌, true, map, Contains, IfOk, OnOk};
ghost use Rattle.debian_scenario.specs.Plain.{plain_package};
ghost use Rattle.debian_directory.specs.Answers.{has, is_lost, is_to_be_kept, name_of};
ghost use Rattle.debian_directory.specs.Plain.{plain_name};
ghost use Rattle.resolvo_pool.specs.Pool.{AreSetsHere};
ghost use Rattle.debian_provider.specs.Growing.{IsAdded, IsGrown, native_in, packages_in, request_in};
ghost use Rattle.debian_provider.specs.Meaning.{HasSet};
ghost use Rattle.debian_provider.specs.Needs.{AreOfLost, IsOneOf, IsWanted};
ghost use Rattle.debian_provider.specs.Sets.{All as Whole};
ghost use Rattle.debian_provider.specs.Reading.{AreKept, IsWhole, IsWider};

use crate::archive::Archive;
use crate::needs::push_requirement;
use crate::set::Set;
use debian_directory::{Name, Rules, Together, names_of};
use debian_scenario::Package;
use resolvo_ids::{SolvableId, StoreError, VersionSetId};
use resolvo_pool::{ConditionalRequirement, Requirement};

impl<'t> Archive<'_, 't> {
    /// Adds the names of `Install`.
    pub(crate) fn add_requested(&mut self) -> Result<(), StoreError>
        ensures { OnOk result (IsWider self.old self.new) }
    {
        let names = names_of(
            self.alloc,
            self.rules.request.architecture,
            self.rules.request.install,
        )?;
        for name in &names {
            self.add_wanted(*name)?;
        }
        Ok(())
    }

    /// Adds that a version of a name is there.
    fn add_wanted(&mut self, name: Name<'t>) -> Result<(), StoreError>
        ensures { IsWanted self.old.rules (plain_name name.entry) → OnOk result (IsWider self.old self.new) }
    {
        let requirement = self.requirement_of(name)?;
        push_requirement(&mut self.requirements, requirement)
    }

    /// Brings in what is installed, and adds that a version of a name is there that has to stay.
    pub(crate) fn add_installed(&mut self) -> Result<(), StoreError>
        ensures { OnOk result (IsWider self.old self.new) }
    {
        let packages = self.rules.packages;
        for one in packages {
            self.add_if_installed(one)?;
        }
        Ok(())
    }

    /// Brings in the name of a package, if the package is installed, and adds that a version is there if one has to be.
    fn add_if_installed(&mut self, one: &Package<'t>) -> Result<(), StoreError>
        ensures { Contains self.old.rules.packages.now one.now → OnOk result (IsWider self.old self.new) }
    {
        if !one.state.is_installed {
            return Ok(());
        }
        let name = self.rules.name_of(one);
        if self.rules.must_stay(one) {
            return self.add_wanted(name);
        }
        self.reach(name)?;
        Ok(())
    }

    /// What has to be there; a version of each package that is to be kept, and has one among these packages; and a
    /// version of one of those that are to be kept, and have none.
    pub fn requirements_to_keep(
        &mut self,
        few: &Together<'_, 't>,
    ) -> Result<Vec<ConditionalRequirement>, StoreError>
        requires whole { IsWhole self.old }
        requires native { few.now.native.now ≡ native_in self.old.rules }
        ensures rules { OnOk result (self.new.rules ≡ self.old.rules) }
        ensures whole { OnOk result (IsWhole self.new) }
        ensures kept { IfOk result (λ all. AreKept (map plain_package few.now.packages.now) self.new all.items) }
    {
        let mut all = Vec::new(self.alloc);
        all.extend_from_slice(&self.requirements)?;
        let packages = self.rules.packages;
        for one in packages {
            self.add_to_keep(one, few, &mut all)?;
        }
        self.add_another(few, &mut all)?;
        self.read_reached()?;
        Ok(all)
    }

    /// Adds that the name of a package has a version, if the package is to be kept and one of these packages is a
    /// version of its name.
    fn add_to_keep(
        &mut self,
        one: &Package<'t>,
        few: &Together<'_, 't>,
        requirements: &mut Vec<ConditionalRequirement>,
    ) -> Result<(), StoreError>
        requires { few.now.native.now ≡ native_in self.old.rules }
        ensures grown { OnOk result (IsGrown self.old self.new) }
        ensures kept { Contains self.old.rules.packages.now one.now →
            OnOk result (AreKept (map plain_package few.now.packages.now) self.old requirements.old.items →
            AreKept (map plain_package few.now.packages.now) self.new requirements.new.items) }
    {
        let rules = self.rules;
        if !is_to_stay(&rules, few, one) {
            return Ok(());
        }
        let name = rules.name_of(one);
        let requirement = self.requirement_of(name)?;
        push_requirement(requirements, requirement)
    }

    /// Adds that a lost package has a version, if there is one that these packages lack.
    fn add_another(
        &mut self,
        few: &Together<'_, 't>,
        requirements: &mut Vec<ConditionalRequirement>,
    ) -> Result<(), StoreError>
        requires { few.now.native.now ≡ native_in self.old.rules }
        ensures grown { OnOk result (IsGrown self.old self.new) }
        ensures kept { OnOk result (AreKept (map plain_package few.now.packages.now) self.old requirements.old.items →
            AreKept (map plain_package few.now.packages.now) self.new requirements.new.items) }
    {
        let sets = self.sets_of_lost(few)?;
        match self.one_of(&sets)? {
            Some(requirement) => push_requirement(requirements, requirement),
            None => Ok(()),
        }
    }

    /// Of each name that these packages lack the set of all its versions: the names of packages that are to be kept.
    fn sets_of_lost(&mut self, few: &Together<'_, 't>) -> Result<Vec<VersionSetId>, StoreError>
        requires { few.now.native.now ≡ native_in self.old.rules }
        ensures grown { OnOk result (IsGrown self.old self.new) }
        ensures here { IfOk result (λ sets. AreSetsHere self.new.reached.pool sets.items) }
        ensures lost { IfOk result (λ sets. AreOfLost (map plain_package few.now.packages.now) self.old.rules
            self.new.reached.pool (packages_in self.old.rules) sets.items) }
    {
        let mut sets = Vec::new(self.alloc);
        let packages = self.rules.packages;
        for one in packages {
            self.add_if_lost(one, few, &mut sets)?;
        }
        Ok(sets)
    }

    /// Adds the set of all versions of a package's name, if the package is to be kept and these packages lack its name.
    fn add_if_lost(
        &mut self,
        one: &Package<'t>,
        few: &Together<'_, 't>,
        sets: &mut Vec<VersionSetId>,
    ) -> Result<(), StoreError>
        requires { few.now.native.now ≡ native_in self.old.rules }
        ensures added { OnOk result (IsAdded self.old self.new sets.old.items sets.new.items) }
        ensures lost { OnOk result (is_lost (request_in self.old.rules) (packages_in self.old.rules)
            (map plain_package few.now.packages.now) (plain_package one.now) ≡ true →
            HasSet self.new.reached.pool sets.new.items (name_of (native_in self.old.rules) (plain_package one.now))
            Whole) }
    {
        let rules = self.rules;
        if !is_lost(&rules, few, one) {
            return Ok(());
        }
        self.add_set(rules.name_of(one), Set::All, sets)
    }

    /// Of each name that is asked for the version to try first, if it has one.
    pub fn requested(&self) -> Result<Vec<SolvableId>, StoreError> {
        let mut found = Vec::new(self.alloc);
        for name in &names_of(
            self.alloc,
            self.rules.request.architecture,
            self.rules.request.install,
        )? {
            if let Some(id) = self.reached.pool.lookup_package_name(name) {
                if let Some(solvable) = self.favored(self.reached.versions_of(id)) {
                    found.push(solvable)?;
                }
            }
        }
        Ok(found)
    }

    /// That a version of a name is there.
    fn requirement_of(&mut self, name: Name<'t>) -> Result<Requirement, StoreError>
        ensures grown { OnOk result (IsGrown self.old self.new) }
        ensures of { IfOk result (IsOneOf self.new.reached.pool (plain_name name.entry)) }
    {
        let id = self.reach(name)?;
        let set = self.reached.add_set(id, Set::All)?;
        Ok(Requirement::Single(set))
    }
}

/// Whether a package is to be kept, and one of these packages is a version of its name.
fn is_to_stay<'t>(rules: &Rules<'_, 't>, few: &Together<'_, 't>, one: &Package<'t>) -> bool
    requires { few.now.native.now ≡ native_in rules.now }
    ensures { result ≡ (is_to_be_kept (request_in rules.now) (packages_in rules.now) (plain_package one.now)
        && has (native_in rules.now) (map plain_package few.now.packages.now)
        (name_of (native_in rules.now) (plain_package one.now))) }
{
    rules.is_to_be_kept(one) && few.has(rules.name_of(one))
}

/// Whether a package is to be kept, and none of these packages is a version of its name.
fn is_lost<'t>(rules: &Rules<'_, 't>, few: &Together<'_, 't>, one: &Package<'t>) -> bool
    requires { few.now.native.now ≡ native_in rules.now }
    ensures { result ≡ is_lost (request_in rules.now) (packages_in rules.now) (map plain_package few.now.packages.now)
        (plain_package one.now) }
{
    rules.is_to_be_kept(one) && !few.has(rules.name_of(one))
}

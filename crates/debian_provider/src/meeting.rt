//! Which solvables meet the relations of a field.
ghost use Rattle.std.specs.Prelude.{◌≡◌, OnOk};
ghost use Rattle.debian_provider.specs.Growing.{IsGrown};
ghost use Rattle.debian_provider.specs.Reading.{IsWhole};

use crate::archive::Archive;
use crate::set::Set;
use debian_installable::is_blank;
use debian_scenario::Package;
use debian_text::Relation;
use resolvo_ids::{NameId, SolvableId, StoreError};

impl<'t> Archive<'_, 't> {
    /// The solvables that meet a field of a package: a list for each of the field's groups (the alternatives between
    /// two commas), alternative by alternative. They are added to the pool, with all that they reach. Nothing meets an
    /// alternative that can't be read.
    pub fn meeting(
        &mut self,
        package: &Package<'t>,
        field: &'t [u8],
    ) -> Result<Vec<Vec<SolvableId>>, StoreError>
        ensures rules { OnOk result (self.new.rules ≡ self.old.rules) }
        ensures whole { OnOk result (IsWhole self.old → IsWhole self.new) }
    {
        let mut lists = Vec::new(self.alloc);
        for group in field.split(|byte| *byte == b',') {
            self.add_list(package, group, &mut lists)?;
        }
        self.read_reached()?;
        Ok(lists)
    }

    /// Adds the solvables that meet a group, unless it is blank.
    fn add_list(
        &mut self,
        package: &Package<'t>,
        group: &'t [u8],
        lists: &mut Vec<Vec<SolvableId>>,
    ) -> Result<(), StoreError>
        ensures { OnOk result (IsGrown self.old self.new) }
    {
        if is_blank(group) {
            return Ok(());
        }
        let solvables = self.solvables_meeting(package, group)?;
        lists.push(solvables)?;
        Ok(())
    }

    /// The solvables that meet one of the relations of a group.
    fn solvables_meeting(
        &mut self,
        package: &Package<'t>,
        group: &'t [u8],
    ) -> Result<Vec<SolvableId>, StoreError>
        ensures { OnOk result (IsGrown self.old self.new) }
    {
        let mut solvables = Vec::new(self.alloc);
        for part in group.split(|byte| *byte == b'|') {
            self.add_solvables_of(package, part, &mut solvables)?;
        }
        Ok(solvables)
    }

    /// Adds the solvables that meet an alternative, if it can be read.
    fn add_solvables_of(
        &mut self,
        package: &Package<'t>,
        part: &'t [u8],
        solvables: &mut Vec<SolvableId>,
    ) -> Result<(), StoreError>
        ensures { OnOk result (IsGrown self.old self.new) }
    {
        let Some(relation) = Relation::parse(part) else {
            return Ok(());
        };
        let architecture = self.rules.name_of(package).architecture;
        self.add_solvables(relation, architecture, solvables)
    }

    /// Adds the solvables that meet a relation. The package whose relation it is has this architecture.
    fn add_solvables(
        &mut self,
        relation: Relation<'t>,
        architecture: &'t [u8],
        solvables: &mut Vec<SolvableId>,
    ) -> Result<(), StoreError>
        ensures { OnOk result (IsGrown self.old self.new) }
    {
        let rules = self.rules;
        let set = Set::Meeting(relation, architecture);
        for place in rules.directory.places(relation.name) {
            self.add_solvable_at(*place, set, solvables)?;
        }
        Ok(())
    }

    /// Adds the solvable of the package at this place, if the set has the package, and the package may be picked. It is
    /// added only once.
    fn add_solvable_at(
        &mut self,
        place: usize,
        set: Set<'t>,
        solvables: &mut Vec<SolvableId>,
    ) -> Result<(), StoreError>
        ensures { OnOk result (IsGrown self.old self.new) }
    {
        let Some(package) = self.rules.packages.get(place) else {
            return Ok(());
        };
        if !set.has(self.rules.request.architecture, package) {
            return Ok(());
        }
        let name = self.rules.name_of(package);
        let name = self.reach(name)?;
        self.add_version_at(name, place, solvables)
    }

    /// Adds the version of a name whose package is at this place, if the name has one. It is added only once.
    fn add_version_at(
        &self,
        name: NameId,
        place: usize,
        solvables: &mut Vec<SolvableId>,
    ) -> Result<(), StoreError> {
        for solvable in self.reached.versions_of(name) {
            if self.reached.place_of(*solvable) == Some(place) && !solvables.contains(solvable) {
                solvables.push(*solvable)?;
            }
        }
        Ok(())
    }
}

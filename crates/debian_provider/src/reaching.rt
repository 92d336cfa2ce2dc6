//! How names and what packages need come into an archive.
ghost use Rattle.std.specs.Prelude.{◌≡◌, ◌<◌, ◌≤◌, ◌↔◌, ℕ, Some, true, length, All, Contains, IfOk, IfSome};
ghost use Rattle.std.specs.Prelude.{IsTrue, OnOk};
ghost use Rattle.debian_directory.specs.Plain.{plain_name};
ghost use Rattle.debian_provider.specs.Answers.{package_in};
ghost use Rattle.debian_provider.specs.Growing.{IsGrown, IsPlaceOf};
ghost use Rattle.debian_provider.specs.Meaning.{IsNamed};
ghost use Rattle.debian_provider.specs.Reading.{IsWider};

use crate::archive::Archive;
use debian_directory::Name;
use debian_scenario::Package;
use resolvo_ids::{DenseIndex, NameId, SolvableId, StoreError};

impl<'s, 't> Archive<'s, 't> {
    /// The id of a name. A new one comes into the pool, with its versions that may be picked.
    #[tactic(auto, using(crate::proofs::Offered::grown_itself))]
    pub(crate) fn reach(&mut self, name: Name<'t>) -> Result<NameId, StoreError>
        ensures here { IfOk result (λ id. id < length self.new.reached.pool.names) }
        ensures named { IfOk result (λ id. IsNamed self.new.reached.pool id (plain_name name.entry)) }
        ensures grown { OnOk result (IsGrown self.old self.new) }
    {
        match self.reached.pool.lookup_package_name(&name) {
            Some(id) => Ok(id),
            None => self.reach_new(name),
        }
    }

    /// The id of a name that comes into the pool.
    fn reach_new(&mut self, name: Name<'t>) -> Result<NameId, StoreError>
        ensures here { IfOk result (λ id. id < length self.new.reached.pool.names) }
        ensures named { IfOk result (λ id. IsNamed self.new.reached.pool id (plain_name name.entry)) }
        ensures grown { OnOk result (IsGrown self.old self.new) }
    {
        let places = self.places_to_pick(name)?;
        let id = self.reached.add_name(self.alloc, name, &places)?;
        let favored = self.favored(self.reached.versions_of(id));
        self.favored.push(favored)?;
        Ok(id)
    }

    /// The places of the versions of a name that may be picked.
    fn places_to_pick(&self, name: Name<'t>) -> Result<Vec<usize>, StoreError>
        ensures all { IfOk result (λ places. (place : ℕ) → IsPlaceOf self.now.rules (plain_name name.entry) place →
            Contains places.items place) }
        ensures each { IfOk result (λ places. All (IsPlaceOf self.now.rules (plain_name name.entry)) places.items) }
    {
        let mut found = Vec::new(self.alloc);
        let places = self.rules.directory.places(name.name);
        for place in places {
            self.add_place(name, *place, &mut found)?;
        }
        Ok(found)
    }

    /// Adds a place, if a package of this name that may be picked is there, unless it is among the others.
    fn add_place(
        &self,
        name: Name<'t>,
        place: usize,
        found: &mut Vec<usize>,
    ) -> Result<(), StoreError>
        ensures each { OnOk result (All (IsPlaceOf self.now.rules (plain_name name.entry)) found.old.items →
            All (IsPlaceOf self.now.rules (plain_name name.entry)) found.new.items) }
        ensures kept { OnOk result ((other : ℕ) → Contains found.old.items other → Contains found.new.items other) }
        ensures added { OnOk result
            (IsPlaceOf self.now.rules (plain_name name.entry) place → Contains found.new.items place) }
    {
        if !self.is_to_pick(name, place) {
            return Ok(());
        }
        if found.contains(&place) {
            return Ok(());
        }
        found.push(place)?;
        Ok(())
    }

    /// Whether a package of this name that may be picked is at a place.
    fn is_to_pick(&self, name: Name<'t>, place: usize) -> bool
        ensures { IsTrue result ↔ IsPlaceOf self.now.rules (plain_name name.entry) place }
    {
        let Some(one) = self.rules.packages.get(place) else {
            return false;
        };
        if self.rules.name_of(one) != name {
            return false;
        }
        self.rules.may_be_picked(one)
    }

    /// Reads what each solvable needs, and brings in what that reaches.
    pub(crate) fn read_reached(&mut self) -> Result<(), StoreError>
        ensures wider { OnOk result (IsWider self.old self.new) }
        ensures closed { OnOk result (length self.new.reached.pool.solvables ≤ length self.new.needs.items) }
    {
        self.read_on()?;
        if self.are_all_read() {
            Ok(())
        } else {
            Err(StoreError::IdSpace)
        }
    }

    /// Reads what solvables need until there is no more. Each package is read once at most.
    fn read_on(&mut self) -> Result<(), StoreError>
        ensures { OnOk result (IsWider self.old self.new) }
    {
        for _ in 0..self.rules.packages.len() {
            if !self.read_next()? {
                return Ok(());
            }
        }
        Ok(())
    }

    /// Reads what the first solvable whose needs weren't read needs. Answers whether there was one.
    fn read_next(&mut self) -> Result<bool, StoreError>
        ensures { OnOk result (IsWider self.old self.new) }
    {
        let Some(one) = self.next_to_read() else {
            return Ok(false);
        };
        let needs = self.read_needs(one)?;
        self.needs.push(needs)?;
        Ok(true)
    }

    /// The package of the first solvable whose needs weren't read.
    fn next_to_read(&self) -> Option<&'s Package<'t>>
        ensures { IfSome result (λ one. package_in self.now.reached.pool self.now.rules.packages.now
            (length self.now.needs.items) ≡ Some one.now) }
    {
        let place = self.needs.len();
        if !SolvableId::in_range(place) {
            return None;
        }
        self.package(SolvableId::from_index(place))
    }

    /// Whether the needs of all solvables were read.
    fn are_all_read(&self) -> bool
        ensures { result ≡ true → length self.now.reached.pool.solvables ≤ length self.now.needs.items }
    {
        let place = self.needs.len();
        if !SolvableId::in_range(place) {
            return false;
        }
        let next = SolvableId::from_index(place);
        !self.reached.pool.knows_solvable(next)
    }

    /// Of the versions of a name the one to try first: the candidate where it is asked for or all are upgraded, and
    /// the installed one otherwise.
    pub fn favored(&self, versions: &[SolvableId]) -> Option<SolvableId> {
        let mut installed = None;
        let mut candidate = None;
        for solvable in versions {
            if let Some(package) = self.package(*solvable) {
                if package.state.is_installed {
                    installed = Some(*solvable);
                }
                if package.state.is_candidate {
                    candidate = Some(*solvable);
                }
            }
        }
        if installed.is_none() || self.is_upgrade() || self.are_asked(versions) {
            candidate.or(installed)
        } else {
            installed
        }
    }

    /// Whether the name of these versions is asked for.
    fn are_asked(&self, versions: &[SolvableId]) -> bool {
        let Some(solvable) = versions.first() else {
            return false;
        };
        let Some(package) = self.package(*solvable) else {
            return false;
        };
        self.rules.is_asked(self.rules.name_of(package))
    }

    /// Whether all that is installed is to be upgraded.
    pub fn is_upgrade(&self) -> bool {
        let actions = &self.rules.request.actions;
        actions.upgrade_all || actions.upgrade || actions.dist_upgrade
    }
}

//! The provider's data.
ghost use Rattle.std.specs.Prelude.{◌≡◌, ◌≤◌, [], length, IfOk, OnOk};
ghost use Rattle.std.specs.Option.{option_copied};

use crate::reached::Reached;
use debian_directory::Rules;
use debian_scenario::{Package, Request};
use resolvo_ids::{SolvableId, StoreError, StringId};
use resolvo_pool::{ConditionalRequirement, Dependencies};
use std::alloc::Global;

/// The packages of a scenario, as far as what is installed and requested reaches.
#[derive(Drop)]
pub struct Archive<'s, 't> {
    pub(crate) alloc: Global,
    /// What apt asks for, and all packages of the scenario.
    pub(crate) rules: Rules<'s, 't>,
    pub(crate) reached: Reached<'t>,
    /// The version of each name to try first, at the name's place.
    pub(crate) favored: Vec<Option<SolvableId>>,
    /// What each solvable needs, at its place.
    pub(crate) needs: Vec<Dependencies>,
    /// What has to be there, whatever else is.
    pub(crate) requirements: Vec<ConditionalRequirement>,
    /// That relations can't be read.
    pub(crate) unreadable: StringId,
}

impl<'s, 't> Archive<'s, 't> {
    ghost use Rattle.debian_provider.specs.Answers.{package_in};
    ghost use Rattle.debian_provider.specs.Growing.{AreNamed};
    ghost use Rattle.debian_provider.specs.Reading.{IsWhole, IsWider};

    /// The provider of a scenario.
    pub fn new(alloc: Global, rules: Rules<'s, 't>) -> Result<Archive<'s, 't>, StoreError>
        ensures rules { IfOk result (λ archive. archive.rules ≡ rules.entry) }
        ensures whole { IfOk result IsWhole }
    {
        match Archive::of_nothing(alloc, rules) {
            Ok(archive) => archive.filled(),
            Err(refused) => Err(refused),
        }
    }

    /// The provider before anything was reached.
    fn of_nothing(alloc: Global, rules: Rules<'s, 't>) -> Result<Archive<'s, 't>, StoreError>
        ensures rules { IfOk result (λ archive. archive.rules ≡ rules.entry) }
        ensures named { IfOk result (λ archive. AreNamed archive.rules archive.reached) }
        ensures unread { IfOk result (λ archive. archive.needs.items ≡ []) }
        ensures free { IfOk result (λ archive. archive.requirements.items ≡ []) }
    {
        let mut reached = Reached::new(alloc);
        let unreadable = reached.add_string(String::from_str(
            alloc,
            "its relations can't be read",
        )?)?;
        Ok(Archive {
            alloc,
            rules,
            reached,
            favored: Vec::new(alloc),
            needs: Vec::new(alloc),
            requirements: Vec::new(alloc),
            unreadable,
        })
    }

    /// The provider with all that is reached in it.
    fn filled(mut self) -> Result<Archive<'s, 't>, StoreError>
        ensures wider { IfOk result (IsWider self.entry) }
        ensures closed { IfOk result (λ archive.
            length archive.reached.pool.solvables ≤ length archive.needs.items) }
    {
        match self.fill() {
            Ok(()) => Ok(self),
            Err(refused) => {
                drop(self);
                Err(refused)
            }
        }
    }

    /// Brings in what is requested, what is installed, and all that these reach.
    fn fill(&mut self) -> Result<(), StoreError>
        ensures wider { OnOk result (IsWider self.old self.new) }
        ensures closed { OnOk result (length self.new.reached.pool.solvables ≤ length self.new.needs.items) }
    {
        self.add_requested()?;
        self.add_installed()?;
        self.read_reached()
    }

    /// What apt asks for, and all packages of the scenario.
    pub fn rules(&self) -> Rules<'s, 't>
        ensures { result ≡ self.now.rules }
    {
        self.rules
    }

    /// All packages of the scenario.
    pub fn packages(&self) -> &'s [Package<'t>]
        ensures { result.now ≡ self.now.rules.packages.now }
    {
        self.rules.packages
    }

    /// What apt asks for.
    pub fn request(&self) -> &'s Request<'t>
        ensures { result.now ≡ self.now.rules.request.now }
    {
        self.rules.request
    }

    /// What has to be there.
    pub fn requirements(&self) -> &[ConditionalRequirement]
        ensures { result.now ≡ self.now.requirements.items }
    {
        &self.requirements
    }

    /// The package of a solvable.
    pub fn package(&self, solvable: SolvableId) -> Option<&'s Package<'t>>
        ensures { option_copied result ≡ package_in self.now.reached.pool self.now.rules.packages.now solvable }
    {
        let Some(place) = self.reached.place_of(solvable) else {
            return None;
        };
        self.rules.packages.get(place)
    }

    /// The places of the packages of these solvables.
    pub fn places_of(&self, solvables: &[SolvableId]) -> Result<Vec<usize>, StoreError> {
        let mut places = Vec::new(self.alloc);
        for solvable in solvables {
            if let Some(place) = self.reached.place_of(*solvable) {
                places.push(place)?;
            }
        }
        Ok(places)
    }

    /// The versions that may be picked of a package's name, in the scenario's order; none if they weren't reached.
    pub fn versions_beside(&self, package: &Package<'t>) -> &[SolvableId] {
        match self
            .reached
            .pool
            .lookup_package_name(&self.rules.name_of(package))
        {
            Some(name) => self.reached.versions_of(name),
            None => &[],
        }
    }
}

//! Which packages a name may mean.
ghost use Rattle.std.specs.Prelude.{◌≡◌, ◌<◌, ℕ, List, Some, true, length, map, IfOk, OnOk};
ghost use Rattle.debian_scenario.specs.Plain.{plain_package};
ghost use Rattle.debian_text.specs.Relations.{relation_of};

use debian_scenario::Package;
use debian_text::Relation;
use indexmap::IndexSet;
use std::alloc::{AllocError, Global};

/// For each name the places of the packages that have it, and then of those that provide it, in their order.
#[derive(Drop)]
pub struct Directory<'t> {
    names: IndexSet<&'t [u8]>,
    /// For each name, at its index.
    places: Vec<Vec<usize>>,
}

impl<'t> Directory<'t> {
    ghost use Rattle.debian_directory.specs.Directory.{has_name, index_of, is_placed, is_provided, places_of};
    ghost use Rattle.debian_directory.specs.Directory.{AreUnderNames, AreUnderProvided, IsDirectoryOf, IsInStep, Keeps};

    /// The directory of these packages. What can't be read provides nothing.
    pub fn new(alloc: Global, packages: &[Package<'t>]) -> Result<Directory<'t>, AllocError>
        ensures { IfOk result (IsDirectoryOf (map plain_package packages.now)) }
    {
        let mut directory = Directory {
            names: IndexSet::with_capacity(alloc, packages.len())?,
            places: Vec::new(alloc),
        };
        directory.add_names(alloc, packages)?;
        directory.add_provisions(alloc, packages)?;
        Ok(directory)
    }

    /// Adds packages under their names.
    fn add_names(&mut self, alloc: Global, packages: &[Package<'t>]) -> Result<(), AllocError>
        requires { IsInStep self.old }
        ensures in_step { OnOk result (IsInStep self.new) }
        ensures added { OnOk result (AreUnderNames (map plain_package packages.now) self.new) }
    {
        for (place, package) in packages.iter().enumerate() {
            self.add(alloc, package.identity.name, place)?;
        }
        Ok(())
    }

    /// Adds packages under what they provide.
    fn add_provisions(&mut self, alloc: Global, packages: &[Package<'t>]) -> Result<(), AllocError>
        requires { IsInStep self.old }
        ensures kept { OnOk result (Keeps self.old self.new) }
        ensures added { OnOk result (AreUnderProvided (map plain_package packages.now) self.new) }
    {
        for (place, package) in packages.iter().enumerate() {
            self.add_provided(alloc, package.relations.provides, place)?;
        }
        Ok(())
    }

    /// Adds the package at a place under what it provides.
    fn add_provided(
        &mut self,
        alloc: Global,
        provides: &'t [u8],
        place: usize,
    ) -> Result<(), AllocError>
        requires { IsInStep self.old }
        ensures in_step { OnOk result (IsInStep self.new) }
        ensures kept { OnOk result (Keeps self.old self.new) }
        ensures added { OnOk result ((name : List ℕ) → is_provided name provides.now ≡ true →
            is_placed self.new name place ≡ true) }
    {
        for part in provides.split(|byte| *byte == b',') {
            self.add_part(alloc, part, place)?;
        }
        Ok(())
    }

    /// Adds a place under the name that a part of `Provides` says, if it says one.
    fn add_part(&mut self, alloc: Global, part: &'t [u8], place: usize) -> Result<(), AllocError>
        requires { IsInStep self.old }
        ensures in_step { OnOk result (IsInStep self.new) }
        ensures kept { OnOk result (Keeps self.old self.new) }
        ensures added { OnOk result ((name : List ℕ) → has_name name (relation_of part.now) ≡ true →
            is_placed self.new name place ≡ true) }
    {
        match Relation::parse(part) {
            Some(relation) => self.add(alloc, relation.name, place),
            None => Ok(()),
        }
    }

    /// Adds a place under a name.
    fn add(&mut self, alloc: Global, name: &'t [u8], place: usize) -> Result<(), AllocError>
        requires { IsInStep self.old }
        ensures in_step { OnOk result (IsInStep self.new) }
        ensures kept { OnOk result (Keeps self.old self.new) }
        ensures added { OnOk result (is_placed self.new name.now place ≡ true) }
    {
        let index = self.index_of(alloc, name)?;
        self.places[index].push(place)?;
        Ok(())
    }

    /// The index of a name, which is added if it is new.
    fn index_of(&mut self, alloc: Global, name: &'t [u8]) -> Result<usize, AllocError>
        requires { IsInStep self.old }
        ensures in_step { OnOk result (IsInStep self.new) }
        ensures kept { OnOk result (Keeps self.old self.new) }
        ensures index { IfOk result (λ index. index_of self.new name.now ≡ Some index) }
        ensures within { IfOk result (λ index. index < length self.new.places.items) }
    {
        let (index, is_new) = self.names.insert_full(name)?;
        if is_new {
            let places = Vec::with_capacity(alloc, 1)?;
            self.places.push(places)?;
        }
        Ok(index)
    }

    /// The places under a name. One may be there twice.
    pub fn places(&self, name: &[u8]) -> &[usize]
        ensures { result.now ≡ places_of self.now name.now }
    {
        let Some(index) = self.names.get_index_of(name) else {
            return &[];
        };
        match self.places.get(index) {
            Some(places) => places,
            None => &[],
        }
    }
}

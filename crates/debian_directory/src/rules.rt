//! What apt asks for, and what it leaves a solver to pick.
ghost use Rattle.std.specs.Prelude.{◌≡◌, ◌&&◌, ◌||◌, not, map};
ghost use Rattle.debian_scenario.specs.Plain.{plain_package, plain_request};
ghost use Rattle.debian_directory.specs.Answers as spec;
ghost use Rattle.debian_directory.specs.Directory.{any_at, IsDirectoryOf};
ghost use Rattle.debian_directory.specs.Plain.{plain_name};
ghost use Rattle.std.proofs.Props.{props};

use crate::directory::Directory;
use crate::name::Name;
use crate::words::is_named;
use debian_scenario::{Package, Request};

/// A request, and the packages that it is about.
#[derive(Clone, Copy)]
pub struct Rules<'s, 't> {
    pub request: &'s Request<'t>,
    pub packages: &'s [Package<'t>],
    /// The directory of these packages.
    pub directory: &'s Directory<'t>,
    ghost of_packages: { IsDirectoryOf (map plain_package packages.now) directory.now } by { Prim.hlevel props },
}

impl<'s, 't> Rules<'s, 't> {
    /// The name of a package.
    pub fn name_of(&self, one: &Package<'t>) -> Name<'t>
        ensures { plain_name result ≡ spec.name_of self.now.request.now.architecture.now (plain_package one.now) }
    {
        Name::of(self.request.architecture, one)
    }

    /// Whether a version of a name is asked for.
    pub fn is_asked(&self, name: Name<'t>) -> bool
        ensures { result ≡ spec.is_asked (plain_request self.now.request.now) (map plain_package self.now.packages.now)
            (plain_name name.entry) }
    {
        is_named(self.request.install, self.request.architecture, name)
    }

    /// Whether a name is to go.
    pub fn is_to_go(&self, name: Name<'t>) -> bool
        ensures { result ≡ spec.is_to_go (plain_request self.now.request.now) (map plain_package self.now.packages.now)
            (plain_name name.entry) }
    {
        is_named(self.request.remove, self.request.architecture, name)
    }

    /// Whether a version of a package's name has to be there since the package is installed.
    pub fn must_stay(&self, one: &Package<'t>) -> bool
        ensures { result ≡ spec.must_stay (plain_request self.now.request.now) (map plain_package self.now.packages.now)
            (plain_package one.now) }
    {
        let state = &one.state;
        state.is_installed
            && (self.forbids_removals() || state.is_essential || state.is_held)
            && !self.is_to_go(self.name_of(one))
    }

    /// Whether a version of a package's name is to stay, if that can be: the package is installed, and apt lets it go
    /// neither by `Remove` nor by `Autoremove`.
    pub fn is_to_be_kept(&self, one: &Package<'t>) -> bool
        ensures { result ≡ spec.is_to_be_kept (plain_request self.now.request.now)
            (map plain_package self.now.packages.now) (plain_package one.now) }
    {
        let state = &one.state;
        let own = self.name_of(one);
        state.is_installed
            && !self.is_to_go(own)
            && !(state.is_automatic && self.request.actions.autoremove)
    }

    /// Whether nothing may be removed but what is to go.
    fn forbids_removals(&self) -> bool
        ensures { result ≡ spec.forbids_removals (plain_request self.now.request.now)
            (map plain_package self.now.packages.now) }
    {
        self.request.actions.forbid_remove || self.request.actions.upgrade
    }

    /// Whether a package may be picked.
    pub fn may_be_picked(&self, one: &Package<'t>) -> bool
        ensures { result ≡ spec.may_be_picked (plain_request self.now.request.now)
            (map plain_package self.now.packages.now) (plain_package one.now) }
    {
        let name = self.name_of(one);
        !self.is_to_go(name)
            && (self.may_stay(one) || (self.is_pinned(one) && self.may_change(name)))
    }

    /// Whether a package is installed, and isn't to make room for apt's candidate of its name, which is asked for.
    fn may_stay(&self, one: &Package<'t>) -> bool
        ensures { result ≡ spec.may_stay (plain_request self.now.request.now) (map plain_package self.now.packages.now)
            (plain_package one.now) }
    {
        let name = self.name_of(one);
        one.state.is_installed
            && (self.is_pinned(one) || !self.is_asked(name) || !self.has_candidate(name))
    }

    /// Whether apt leaves it to a solver to install a package.
    fn is_pinned(&self, one: &Package<'t>) -> bool
        ensures { result ≡ spec.is_pinned (plain_request self.now.request.now)
            (map plain_package self.now.packages.now) (plain_package one.now) }
    {
        one.state.is_candidate || !self.request.actions.strict_pinning
    }

    /// Whether a name may get a version that isn't installed. What forbids that doesn't count if the name is asked for.
    fn may_change(&self, name: Name<'t>) -> bool
        ensures { result ≡ spec.may_change (plain_request self.now.request.now)
            (map plain_package self.now.packages.now) (plain_name name.entry) }
    {
        let actions = &self.request.actions;
        self.is_asked(name)
            || (!self.is_held(name)
                && (self.is_installed(name) || !(actions.forbid_new_install || actions.upgrade)))
    }

    /// Whether a version of a name is installed.
    pub fn is_installed(&self, name: Name<'t>) -> bool
        ensures { result ≡ spec.is_name_installed (plain_request self.now.request.now)
            (map plain_package self.now.packages.now) (plain_name name.entry) }
    {
        self.directory
            .places(name.name)
            .iter()
            .any(|place| self.is_installed_at(*place, name))
    }

    /// Whether a name has a candidate of apt.
    fn has_candidate(&self, name: Name<'t>) -> bool
        ensures { result ≡ spec.has_candidate (plain_request self.now.request.now)
            (map plain_package self.now.packages.now) (plain_name name.entry) }
    {
        self.directory
            .places(name.name)
            .iter()
            .any(|place| self.is_candidate_at(*place, name))
    }

    /// Whether apt is to leave a name as it is.
    fn is_held(&self, name: Name<'t>) -> bool
        ensures { result ≡ spec.is_name_held (plain_request self.now.request.now)
            (map plain_package self.now.packages.now) (plain_name name.entry) }
    {
        self.directory
            .places(name.name)
            .iter()
            .any(|place| self.is_held_at(*place, name))
    }

    /// Whether a package of this name is at a place, and is installed.
    fn is_installed_at(&self, place: usize, name: Name<'t>) -> bool
        ensures { result ≡ any_at (spec.is_installed_as (plain_request self.now.request.now)
            (map plain_package self.now.packages.now) (plain_name name.entry))
            (map plain_package self.now.packages.now) place }
    {
        match self.packages.get(place) {
            Some(one) => name == self.name_of(one) && one.state.is_installed,
            None => false,
        }
    }

    /// Whether a package of this name is at a place, and is apt's candidate.
    fn is_candidate_at(&self, place: usize, name: Name<'t>) -> bool
        ensures { result ≡ any_at (spec.is_candidate_as (plain_request self.now.request.now)
            (map plain_package self.now.packages.now) (plain_name name.entry))
            (map plain_package self.now.packages.now) place }
    {
        match self.packages.get(place) {
            Some(one) => name == self.name_of(one) && one.state.is_candidate,
            None => false,
        }
    }

    /// Whether a package of this name is at a place, and is held.
    fn is_held_at(&self, place: usize, name: Name<'t>) -> bool
        ensures { result ≡ any_at (spec.is_held_as (plain_request self.now.request.now)
            (map plain_package self.now.packages.now) (plain_name name.entry))
            (map plain_package self.now.packages.now) place }
    {
        match self.packages.get(place) {
            Some(one) => name == self.name_of(one) && one.state.is_held,
            None => false,
        }
    }
}

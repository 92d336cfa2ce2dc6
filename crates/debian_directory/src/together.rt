//! Packages that are there together.
ghost use Rattle.std.specs.Prelude.{◌≡◌, ◌+◌, drop, map, take};
ghost use Rattle.std.specs.List.{list_all};
ghost use Rattle.debian_scenario.specs.Plain.{plain_package};
ghost use Rattle.debian_text.specs.Plain.{plain_relation};
ghost use Rattle.debian_text.specs.Relations.{relation_of};
ghost use Rattle.debian_installable.specs.Installable as spec;
ghost use Rattle.debian_directory.specs.Answers.{has, is_of_name};
ghost use Rattle.debian_directory.specs.Directory.{all_at, any_at, IsDirectoryOf};
ghost use Rattle.debian_directory.specs.Plain.{plain_name};
ghost use Rattle.std.proofs.Props.{props};

use crate::directory::Directory;
use crate::name::Name;
use debian_installable::{is_blank, is_free_of, is_met_by, may_stand_beside};
use debian_scenario::Package;
use debian_text::Relation;

/// Packages that are there together.
#[derive(Clone, Copy)]
pub struct Together<'p, 't> {
    /// The native architecture.
    pub native: &'t [u8],
    /// All that are there.
    pub packages: &'p [Package<'t>],
    /// Their directory.
    pub directory: &'p Directory<'t>,
    ghost of_packages: { IsDirectoryOf (map plain_package packages.now) directory.now } by { Prim.hlevel props },
}

impl<'p, 't> Together<'p, 't> {
    /// The first `count` of them.
    pub fn first(&self, count: usize) -> Together<'p, 't>
        ensures native { result.native.now ≡ self.now.native.now }
        ensures packages { result.packages.now ≡ take count self.now.packages.now }
    {
        let (packages, _) = self.packages.split_at(count.min(self.packages.len()));
        Together {
            native: self.native,
            packages,
            directory: self.directory,
        }
    }

    /// Whether they may be there together, and no others.
    pub fn is_installable(&self) -> bool
        ensures { result ≡ spec.is_installable self.now.native.now (map plain_package self.now.packages.now) }
    {
        self.stand_together() && self.packages.iter().all(|one| self.is_served(one))
    }

    /// Whether a version of a name is there.
    pub fn has(&self, name: Name<'t>) -> bool
        ensures { result ≡ has self.now.native.now (map plain_package self.now.packages.now) (plain_name name.entry) }
    {
        self.directory
            .places(name.name)
            .iter()
            .any(|place| self.has_at(*place, name))
    }

    /// Whether a package of this name is at a place.
    fn has_at(&self, place: usize, name: Name<'t>) -> bool
        ensures { result ≡ any_at (is_of_name self.now.native.now (plain_name name.entry))
            (map plain_package self.now.packages.now) place }
    {
        match self.packages.get(place) {
            Some(one) => name == Name::of(self.native, one),
            None => false,
        }
    }

    /// Whether of each name there is one version, in several architectures only if each is `same`.
    fn stand_together(&self) -> bool
        ensures { result ≡ spec.stand_together self.now.native.now (map plain_package self.now.packages.now) }
    {
        for (place, one) in self.packages.iter().enumerate() {
            if !self.stands_beside_later(place, one) {
                return false;
            }
        }
        true
    }

    /// Whether the package at a place may be there together with those behind it.
    fn stands_beside_later(&self, place: usize, one: &Package<'t>) -> bool
        ensures { result ≡ list_all (spec.may_stand_beside self.now.native.now (plain_package one.now))
            (drop (place + 1) (map plain_package self.now.packages.now)) }
    {
        self.directory
            .places(one.identity.name)
            .iter()
            .all(|other| *other <= place || self.stands_beside(one, *other))
    }

    /// Whether a package may be there together with the one at a place.
    fn stands_beside(&self, one: &Package<'t>, place: usize) -> bool
        ensures { result ≡ all_at (spec.may_stand_beside self.now.native.now (plain_package one.now))
            (map plain_package self.now.packages.now) place }
    {
        match self.packages.get(place) {
            Some(other) => may_stand_beside(self.native, one, other),
            None => true,
        }
    }

    /// Whether all relations of a package hold.
    fn is_served(&self, one: &Package<'t>) -> bool
        ensures { result ≡ spec.is_served self.now.native.now (map plain_package self.now.packages.now)
            (plain_package one.now) }
    {
        let relations = &one.relations;
        self.are_met(one, relations.pre_depends)
            && self.are_met(one, relations.depends)
            && self.are_free(one, relations.conflicts)
            && self.are_free(one, relations.breaks)
    }

    /// Whether of each group of a field an alternative is met.
    fn are_met(&self, one: &Package<'t>, field: &[u8]) -> bool
        ensures { result ≡ spec.are_met self.now.native.now (map plain_package self.now.packages.now)
            (plain_package one.now) field.now }
    {
        field
            .split(|byte| *byte == b',')
            .filter(|group| !is_blank(group))
            .all(|group| self.is_group_met(one, group))
    }

    /// Whether an alternative of a group of a package's relations is met.
    pub fn is_group_met(&self, one: &Package<'t>, group: &[u8]) -> bool
        ensures { result ≡ spec.is_group_met self.now.native.now (map plain_package self.now.packages.now)
            (plain_package one.now) group.now }
    {
        group
            .split(|byte| *byte == b'|')
            .any(|part| self.is_met(one, part))
    }

    /// Whether a relation of a package is met by a package that is there.
    fn is_met(&self, one: &Package<'t>, part: &[u8]) -> bool
        ensures { result ≡ spec.is_met self.now.native.now (map plain_package self.now.packages.now)
            (plain_package one.now) (relation_of part.now) }
    {
        let Some(relation) = Relation::parse(part) else {
            return false;
        };
        self.directory
            .places(relation.name)
            .iter()
            .any(|place| self.is_met_at(one, &relation, *place))
    }

    /// Whether a relation of a package is met by the package at a place.
    fn is_met_at(&self, one: &Package<'t>, relation: &Relation<'_>, place: usize) -> bool
        ensures { result ≡ any_at (spec.is_met_by self.now.native.now (plain_package one.now)
            (plain_relation relation.now)) (map plain_package self.now.packages.now) place }
    {
        match self.packages.get(place) {
            Some(other) => is_met_by(self.native, one, relation, other),
            None => false,
        }
    }

    /// Whether nothing that is there conflicts with a package by a field of it.
    fn are_free(&self, one: &Package<'t>, field: &[u8]) -> bool
        ensures { result ≡ spec.are_free self.now.native.now (map plain_package self.now.packages.now)
            (plain_package one.now) field.now }
    {
        field
            .split(|byte| *byte == b',')
            .filter(|part| !is_blank(part))
            .all(|part| self.is_free(one, part))
    }

    /// Whether nothing that is there conflicts with a package by this relation of it, but itself.
    fn is_free(&self, one: &Package<'t>, part: &[u8]) -> bool
        ensures { result ≡ spec.is_free self.now.native.now (map plain_package self.now.packages.now)
            (plain_package one.now) (relation_of part.now) }
    {
        let Some(relation) = Relation::parse(part) else {
            return false;
        };
        self.directory
            .places(relation.name)
            .iter()
            .all(|place| self.is_free_at(one, &relation, *place))
    }

    /// Whether a package doesn't conflict by this relation of it with the package at a place.
    fn is_free_at(&self, one: &Package<'t>, relation: &Relation<'_>, place: usize) -> bool
        ensures { result ≡ all_at (spec.is_free_of self.now.native.now (plain_package one.now)
            (plain_relation relation.now)) (map plain_package self.now.packages.now) place }
    {
        match self.packages.get(place) {
            Some(other) => is_free_of(self.native, one, relation, other),
            None => true,
        }
    }
}

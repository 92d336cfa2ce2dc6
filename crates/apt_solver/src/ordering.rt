//! Packages in an order in which each comes after its cause. Nothing is promised of the order: `causes` checks it.
ghost use Rattle.std.specs.Prelude.{All, Contains, IfOk, OnOk};

use debian_directory::{Directory, Rules};
use debian_installable::{is_blank, is_met_by};
use debian_scenario::Package;
use debian_text::Relation;
use indexmap::IndexSet;
use std::alloc::{AllocError, Global};

/// The places of packages, and for each where its cause is among them.
#[derive(Drop)]
pub(crate) struct Order {
    places: Vec<usize>,
    /// Any number, where a version of the package's name is installed or asked for.
    pub(crate) causes: Vec<usize>,
    /// The places again, to find one.
    placed: IndexSet<usize>,
}

/// Packages, each after its cause.
#[derive(Drop)]
pub(crate) struct Ordered<'t> {
    pub(crate) there: Vec<Package<'t>>,
    pub(crate) order: Order,
}

/// The packages at these places, in an order in which each comes after its cause, but for those that have none.
pub(crate) fn packages_in_order<'t>(
    alloc: Global,
    rules: &Rules<'_, 't>,
    places: &[usize],
) -> Result<Ordered<'t>, AllocError>
    ensures { IfOk result (λ found. All (Contains rules.now.packages.now) found.there.items) }
{
    let found = packages_at(alloc, rules.packages, places)?;
    let order = in_order(alloc, rules, &found)?;
    let there = packages_at(alloc, &found, &order.places)?;
    Ok(Ordered { there, order })
}

/// The packages at these places.
fn packages_at<'t>(
    alloc: Global,
    packages: &[Package<'t>],
    places: &[usize],
) -> Result<Vec<Package<'t>>, AllocError>
    ensures { IfOk result (λ there. All (Contains packages.now) there.items) }
{
    let mut there = Vec::new(alloc);
    for place in places {
        add_at(packages, *place, &mut there)?;
    }
    Ok(there)
}

/// Adds the package at a place, if there is one.
fn add_at<'t>(
    packages: &[Package<'t>],
    place: usize,
    there: &mut Vec<Package<'t>>,
) -> Result<(), AllocError>
    requires { All (Contains packages.now) there.old.items }
    ensures { OnOk result (All (Contains packages.now) there.new.items) }
{
    let Some(version) = packages.get(place) else {
        return Ok(());
    };
    there.push(*version)?;
    Ok(())
}

/// Brings packages into an order in which each comes after its cause. Those that have none are left out. The order has
/// what its packages depend on, so the rest is an answer if all are.
fn in_order<'t>(
    alloc: Global,
    rules: &Rules<'_, 't>,
    there: &[Package<'t>],
) -> Result<Order, AllocError> {
    let mut order = Order {
        places: Vec::new(alloc),
        causes: Vec::new(alloc),
        placed: IndexSet::with_capacity(alloc, there.len())?,
    };
    order.add_first(rules, there)?;
    let directory = Directory::new(alloc, there)?;
    let those = Those {
        rules,
        there,
        directory: &directory,
    };
    let mut followed = 0;
    for at in 0..there.len() {
        followed = order.follow_dependencies(&those, followed)?;
        order.follow_recommendations(&those, at)?;
    }
    Ok(order)
}

/// Packages that are there, by name.
#[derive(Clone, Copy)]
struct Those<'p, 's, 't> {
    rules: &'p Rules<'s, 't>,
    there: &'p [Package<'t>],
    directory: &'p Directory<'t>,
}

impl Those<'_, '_, '_> {
    /// Whether the package at a place meets a relation of another one.
    fn is_met_at(&self, one: &Package<'_>, relation: &Relation<'_>, place: usize) -> bool {
        let native = self.rules.request.architecture;
        match self.there.get(place) {
            Some(other) => is_met_by(native, one, relation, other),
            None => false,
        }
    }
}

impl Order {
    /// Adds the packages of which a version is installed or asked for.
    fn add_first<'t>(
        &mut self,
        rules: &Rules<'_, 't>,
        there: &[Package<'t>],
    ) -> Result<(), AllocError> {
        for (place, one) in there.iter().enumerate() {
            let name = rules.name_of(one);
            if rules.is_installed(name) || rules.is_asked(name) {
                self.add(place, place)?;
            }
        }
        Ok(())
    }

    /// Adds what the packages of the order need, from this place of the order on: those that this adds too. Answers at
    /// which place the order ends.
    fn follow_dependencies(
        &mut self,
        those: &Those<'_, '_, '_>,
        from: usize,
    ) -> Result<usize, AllocError> {
        for at in from..those.there.len() {
            let Some(one) = self.package_at(those, at) else {
                return Ok(at);
            };
            self.follow(those, one, one.relations.pre_depends, at)?;
            self.follow(those, one, one.relations.depends, at)?;
        }
        Ok(those.there.len())
    }

    /// Adds what the package that is at this place of the order recommends, if no version of its name is installed.
    fn follow_recommendations(
        &mut self,
        those: &Those<'_, '_, '_>,
        at: usize,
    ) -> Result<(), AllocError> {
        let Some(one) = self.package_at(those, at) else {
            return Ok(());
        };
        if those.rules.is_installed(those.rules.name_of(one)) {
            return Ok(());
        }
        self.follow(those, one, one.relations.recommends, at)
    }

    /// The package that is at this place of the order.
    fn package_at<'p, 't>(&self, those: &Those<'p, '_, 't>, at: usize) -> Option<&'p Package<'t>> {
        let Some(place) = self.places.get(at) else {
            return None;
        };
        those.there.get(*place)
    }

    /// Adds a package for each group of a field that no package of the order meets. The field is of the package that is
    /// at this place of the order.
    fn follow(
        &mut self,
        those: &Those<'_, '_, '_>,
        one: &Package<'_>,
        field: &[u8],
        at: usize,
    ) -> Result<(), AllocError> {
        for group in field.split(|byte| *byte == b',') {
            if !is_blank(group) {
                if let Some(place) = self.first_meeting(those, one, group) {
                    self.add(place, at)?;
                }
            }
        }
        Ok(())
    }

    /// The first package that meets a group. It is in the order, if one there meets the group.
    fn first_meeting(
        &self,
        those: &Those<'_, '_, '_>,
        one: &Package<'_>,
        group: &[u8],
    ) -> Option<usize> {
        let mut first = None;
        for part in group.split(|byte| *byte == b'|') {
            if let Some(place) = self.first_of(those, one, part) {
                if self.placed.contains(&place) {
                    return Some(place);
                }
                if first.is_none() {
                    first = Some(place);
                }
            }
        }
        first
    }

    /// The first package that meets a relation. It is in the order, if one there meets the relation.
    fn first_of(&self, those: &Those<'_, '_, '_>, one: &Package<'_>, part: &[u8]) -> Option<usize> {
        let Some(relation) = Relation::parse(part) else {
            return None;
        };
        let mut first = None;
        for place in those.directory.places(relation.name) {
            if those.is_met_at(one, &relation, *place) {
                if self.placed.contains(place) {
                    return Some(*place);
                }
                if first.is_none() {
                    first = Some(*place);
                }
            }
        }
        first
    }

    /// Adds the package at a place, unless it is there.
    fn add(&mut self, place: usize, cause: usize) -> Result<(), AllocError> {
        if self.placed.insert(place)? {
            self.places.push(place)?;
            self.causes.push(cause)?;
        }
        Ok(())
    }
}

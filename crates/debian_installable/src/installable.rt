//! Packages that may be installed together.
ghost use Rattle.std.specs.List.{list_all};
ghost use Rattle.std.specs.Prelude.{◌≡◌, map};
ghost use Rattle.debian_installable.specs.Installable.{are_free, are_met, is_free, is_free_of, is_group_met};
ghost use Rattle.debian_installable.specs.Installable.{is_installable, is_met, is_met_by, is_served};
ghost use Rattle.debian_installable.specs.Installable.{may_stand_beside, stand_together};
ghost use Rattle.debian_scenario.specs.Plain.{plain_package};
ghost use Rattle.debian_text.specs.Plain.{plain_relation};
ghost use Rattle.debian_text.specs.Relations.{relation_of};

use crate::fields::is_blank;
use crate::relations::{
    have_one_architecture, have_one_name, is_concerned, is_same, means, serves,
};
use debian_scenario::Package;
use debian_text::Relation;

/// Whether these packages may be there together, and no others. The architecture `all` counts as the native one.
pub fn is_installable(native: &[u8], there: &[Package<'_>]) -> bool
    ensures { result ≡ is_installable native.now (map plain_package there.now) }
{
    stand_together(native, there)
        && there
            .iter()
            .all(|package| is_served(native, there, package))
}

/// Whether of each name there is one version, in several architectures only if each is `same`.
fn stand_together(native: &[u8], there: &[Package<'_>]) -> bool
    ensures { result ≡ stand_together native.now (map plain_package there.now) }
{
    'packages: for (i, one) in there.iter().enumerate() {
        if !stands_beside(native, one, &there[i + 1..]) {
            return false;
        }
    }
    true
}

/// Whether a package may be there together with each of these.
fn stands_beside(native: &[u8], one: &Package<'_>, others: &[Package<'_>]) -> bool
    ensures { result ≡ list_all (may_stand_beside native.now (plain_package one.now)) (map plain_package others.now) }
{
    others
        .iter()
        .all(|other| may_stand_beside(native, one, other))
}

pub fn may_stand_beside(native: &[u8], one: &Package<'_>, other: &Package<'_>) -> bool
    ensures { result ≡ may_stand_beside native.now (plain_package one.now) (plain_package other.now) }
{
    !have_one_name(one, other)
        || (is_same(one.multi_arch)
            && is_same(other.multi_arch)
            && one.identity.version == other.identity.version
            && !have_one_architecture(native, one, other))
}

/// Whether all relations of a package hold.
fn is_served(native: &[u8], there: &[Package<'_>], one: &Package<'_>) -> bool
    ensures { result ≡ is_served native.now (map plain_package there.now) (plain_package one.now) }
{
    let relations = &one.relations;
    are_met(native, there, one, relations.pre_depends)
        && are_met(native, there, one, relations.depends)
        && are_free(native, there, one, relations.conflicts)
        && are_free(native, there, one, relations.breaks)
}

/// Whether of each group of a field of a package an alternative is met.
fn are_met(native: &[u8], there: &[Package<'_>], one: &Package<'_>, field: &[u8]) -> bool
    ensures { result ≡ are_met native.now (map plain_package there.now) (plain_package one.now) field.now }
{
    field
        .split(|byte| *byte == b',')
        .filter(|group| !is_blank(group))
        .all(|group| is_group_met(native, there, one, group))
}

/// Whether an alternative of a group is met.
fn is_group_met(native: &[u8], there: &[Package<'_>], one: &Package<'_>, group: &[u8]) -> bool
    ensures { result ≡ is_group_met native.now (map plain_package there.now) (plain_package one.now) group.now }
{
    group
        .split(|byte| *byte == b'|')
        .any(|part| is_met(native, there, one, part))
}

/// Whether a relation of a package is met by a package that is there.
fn is_met(native: &[u8], there: &[Package<'_>], one: &Package<'_>, part: &[u8]) -> bool
    ensures { result ≡ is_met native.now (map plain_package there.now) (plain_package one.now)
        (relation_of part.now) }
{
    let Some(relation) = Relation::parse(part) else {
        return false;
    };
    there
        .iter()
        .any(|other| is_met_by(native, one, &relation, other))
}

/// Whether a relation of a package is met by another one.
pub fn is_met_by(
    native: &[u8],
    one: &Package<'_>,
    relation: &Relation<'_>,
    other: &Package<'_>,
) -> bool
    ensures { result ≡ is_met_by native.now (plain_package one.now) (plain_relation relation.now)
        (plain_package other.now) }
{
    means(relation, other) && serves(native, one, other, relation.qualifier)
}

/// Whether nothing conflicts with a package by a field of it.
fn are_free(native: &[u8], there: &[Package<'_>], one: &Package<'_>, field: &[u8]) -> bool
    ensures { result ≡ are_free native.now (map plain_package there.now) (plain_package one.now) field.now }
{
    field
        .split(|byte| *byte == b',')
        .filter(|part| !is_blank(part))
        .all(|part| is_free(native, there, one, part))
}

/// Whether nothing conflicts with a package by this relation of it, but itself.
fn is_free(native: &[u8], there: &[Package<'_>], one: &Package<'_>, part: &[u8]) -> bool
    ensures { result ≡ is_free native.now (map plain_package there.now) (plain_package one.now)
        (relation_of part.now) }
{
    let Some(relation) = Relation::parse(part) else {
        return false;
    };
    there
        .iter()
        .all(|other| is_free_of(native, one, &relation, other))
}

/// Whether a package doesn't conflict with another one by this relation of it. It never does if both have one name:
/// then [`may_stand_beside`] says whether both may be there.
pub fn is_free_of(
    native: &[u8],
    one: &Package<'_>,
    relation: &Relation<'_>,
    other: &Package<'_>,
) -> bool
    ensures { result ≡ is_free_of native.now (plain_package one.now) (plain_relation relation.now)
        (plain_package other.now) }
{
    have_one_name(one, other)
        || !(means(relation, other) && is_concerned(native, other, relation.qualifier))
}

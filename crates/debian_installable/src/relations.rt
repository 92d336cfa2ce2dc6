//! What a relation means.
ghost use Rattle.std.specs.Prelude.{◌≡◌, option_map};
ghost use Rattle.debian_installable.specs.Installable.{architecture_of, have_one_architecture, have_one_name};
ghost use Rattle.debian_installable.specs.Installable.{is_allowed, is_concerned, is_foreign, is_in_order, is_meant};
ghost use Rattle.debian_installable.specs.Installable.{is_provided, is_same, means, meets, serves, serves_architecture};
ghost use Rattle.debian_scenario.specs.Plain.{plain_package};
ghost use Rattle.debian_text.specs.Plain.{plain_bound, plain_relation};

use crate::fields::is_blank;
use debian_scenario::{MultiArch, Package};
use debian_text::{Bound, Operator, Relation};
use debian_versions::compare;
use std::cmp::Ordering;

/// Whether a relation means this package, or something that it provides.
pub fn means(relation: &Relation<'_>, one: &Package<'_>) -> bool
    ensures { result ≡ means (plain_relation relation.now) (plain_package one.now) }
{
    (relation.name == one.identity.name && meets(relation.bound, Some(one.identity.version)))
        || is_provided(relation, one.relations.provides)
}

/// Whether a relation means something that a field provides.
fn is_provided(relation: &Relation<'_>, field: &[u8]) -> bool
    ensures { result ≡ is_provided (plain_relation relation.now) field.now }
{
    field
        .split(|byte| *byte == b',')
        .filter(|part| !is_blank(part))
        .any(|part| is_meant(relation, Relation::parse(part)))
}

/// Whether a relation means what a package provides.
fn is_meant(relation: &Relation<'_>, provided: Option<Relation<'_>>) -> bool
    ensures { result ≡ is_meant (plain_relation relation.now) (option_map plain_relation provided.entry) }
{
    let Some(said) = provided else {
        return false;
    };
    relation.name == said.name && meets(relation.bound, said.bound.map(|bound| bound.version))
}

/// Whether a version meets a bound. What has no version meets none.
fn meets(bound: Option<Bound<'_>>, version: Option<&[u8]>) -> bool
    ensures { result ≡ meets (option_map plain_bound bound.entry) (option_map (λ v. v.now) version.entry) }
{
    let Some(bound) = bound else {
        return true;
    };
    let Some(version) = version else {
        return false;
    };
    is_in_order(bound.operator, compare(version, bound.version))
}

fn is_in_order(operator: Operator, order: Ordering) -> bool
    ensures { result ≡ is_in_order operator order }
{
    match operator {
        Operator::Earlier => order.is_lt(),
        Operator::EarlierOrEqual => order.is_le(),
        Operator::Equal => order.is_eq(),
        Operator::LaterOrEqual => order.is_ge(),
        Operator::Later => order.is_gt(),
    }
}

/// Whether one package may serve another one that names it with this behind the colon.
pub fn serves(
    native: &[u8],
    one: &Package<'_>,
    other: &Package<'_>,
    qualifier: Option<&[u8]>,
) -> bool
    ensures { result ≡ serves native.now (plain_package one.now) (plain_package other.now)
        (option_map (λ q. q.now) qualifier.entry) }
{
    serves_architecture(native, architecture_of(native, one), other, qualifier)
}

/// Whether a package may serve one of this architecture that names it with this behind the colon.
pub fn serves_architecture(
    native: &[u8],
    architecture: &[u8],
    other: &Package<'_>,
    qualifier: Option<&[u8]>,
) -> bool
    ensures { result ≡ serves_architecture native.now architecture.now (plain_package other.now)
        (option_map (λ q. q.now) qualifier.entry) }
{
    let own = architecture_of(native, other);
    match qualifier {
        None => architecture == own || is_foreign(other.multi_arch),
        Some(b"any") => is_allowed(other.multi_arch),
        Some(named) => named == own,
    }
}

/// Whether a conflict that has this behind the colon concerns a package.
pub fn is_concerned(native: &[u8], one: &Package<'_>, qualifier: Option<&[u8]>) -> bool
    ensures { result ≡ is_concerned native.now (plain_package one.now) (option_map (λ q. q.now) qualifier.entry) }
{
    match qualifier {
        None | Some(b"any") => true,
        Some(architecture) => architecture == architecture_of(native, one),
    }
}

pub fn have_one_name(one: &Package<'_>, other: &Package<'_>) -> bool
    ensures { result ≡ have_one_name (plain_package one.now) (plain_package other.now) }
{
    one.identity.name == other.identity.name
}

pub fn have_one_architecture(native: &[u8], one: &Package<'_>, other: &Package<'_>) -> bool
    ensures { result ≡ have_one_architecture native.now (plain_package one.now) (plain_package other.now) }
{
    architecture_of(native, one) == architecture_of(native, other)
}

/// The architecture of a package; `all` is the native one.
pub fn architecture_of<'t>(native: &'t [u8], one: &Package<'t>) -> &'t [u8]
    ensures { result.now ≡ architecture_of native.now (plain_package one.now) }
{
    match one.identity.architecture {
        b"all" => native,
        architecture => architecture,
    }
}

fn is_foreign(multi_arch: MultiArch) -> bool
    ensures { result ≡ is_foreign multi_arch }
{
    matches!(multi_arch, MultiArch::Foreign)
}

fn is_allowed(multi_arch: MultiArch) -> bool
    ensures { result ≡ is_allowed multi_arch }
{
    matches!(multi_arch, MultiArch::Allowed)
}

pub fn is_same(multi_arch: MultiArch) -> bool
    ensures { result ≡ is_same multi_arch }
{
    matches!(multi_arch, MultiArch::Same)
}

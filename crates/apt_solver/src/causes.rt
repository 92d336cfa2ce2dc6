//! A check that each package has a cause. A version of its name is installed or asked for; or it is the first to meet a
//! dependency of a package before it, or a recommendation of one that is new.
ghost use Rattle.std.specs.Prelude.{◌≡◌, ◌++◌, ◌∷◌, [], ◌<◌, true, length, map, take, IfOk};
ghost use Rattle.std.specs.List.{list_any};
ghost use Rattle.debian_scenario.specs.Plain.{plain_package, plain_request};
ghost use Rattle.apt_solver.specs.Causes as spec;

use debian_directory::{Directory, Rules, Together};
use debian_installable::is_blank;
use debian_scenario::Package;
use std::alloc::{AllocError, Global};

/// Whether each package has a cause: `causes` has, for each, the place where its cause is to be.
pub(crate) fn have_causes<'t>(
    alloc: Global,
    rules: &Rules<'_, 't>,
    there: &[Package<'t>],
    causes: &[usize],
) -> Result<bool, AllocError>
    ensures { IfOk result (λ yes. yes ≡ true → spec.HaveCauses (plain_request rules.now.request.now)
        (map plain_package rules.now.packages.now) (map plain_package there.now)) }
{
    let directory = Directory::new(alloc, there)?;
    let together = Together {
        native: rules.request.architecture,
        packages: there,
        directory: &directory,
    };
    Ok(are_caused(rules, &together, causes))
}

/// Whether each of these packages has a cause.
fn are_caused<'t>(rules: &Rules<'_, 't>, together: &Together<'_, 't>, causes: &[usize]) -> bool
    requires { together.now.native.now ≡ rules.now.request.now.architecture.now }
    ensures { result ≡ true → spec.HaveCauses (plain_request rules.now.request.now)
        (map plain_package rules.now.packages.now) (map plain_package together.now.packages.now) }
{
    for (place, one) in together.packages.iter().enumerate() {
        let there = together.first(place + 1);
        if !is_caused(rules, &there, place, one, causes.get(place).copied()) {
            return false;
        }
    }
    true
}

/// Whether the last of these packages has a cause. There are `before` packages before it, and each may be the cause.
fn is_caused<'t>(
    rules: &Rules<'_, 't>,
    there: &Together<'_, 't>,
    before: usize,
    one: &Package<'t>,
    cause: Option<usize>,
) -> bool
    requires native { there.now.native.now ≡ rules.now.request.now.architecture.now }
    requires last { there.now.packages.now ≡ take before there.now.packages.now ++ one.now ∷ [] }
    ensures { result ≡ true → spec.has_cause (plain_request rules.now.request.now)
        (map plain_package rules.now.packages.now) (map plain_package (take before there.now.packages.now))
        (plain_package one.now) ≡ true }
{
    let name = rules.name_of(one);
    if rules.is_installed(name) {
        return true;
    }
    if rules.is_asked(name) {
        return true;
    }
    is_brought_in(rules, there, before, cause)
}

/// Whether the package at a place, one of the first `before`, brings in the others.
fn is_brought_in<'t>(
    rules: &Rules<'_, 't>,
    there: &Together<'_, 't>,
    before: usize,
    cause: Option<usize>,
) -> bool
    requires { there.now.native.now ≡ rules.now.request.now.architecture.now }
    ensures { result ≡ true → list_any (spec.brings_in (plain_request rules.now.request.now)
        (map plain_package rules.now.packages.now) (map plain_package (take before there.now.packages.now))
        (map plain_package there.now.packages.now)) (map plain_package (take before there.now.packages.now)) ≡ true }
{
    let Some(place) = cause else {
        return false;
    };
    let earlier = there.first(before);
    match earlier.packages.get(place) {
        Some(by) => brings_in(rules, there, before, by),
        None => false,
    }
}

/// Whether a package brings in what comes behind the first `before`: by a dependency, or by a recommendation if the
/// package is new.
#[tactic(auto, unfolding(crate::specs::Causes::brings_in))]
fn brings_in<'t>(
    rules: &Rules<'_, 't>,
    there: &Together<'_, 't>,
    before: usize,
    by: &Package<'t>,
) -> bool
    requires { there.now.native.now ≡ rules.now.request.now.architecture.now }
    ensures { result ≡ spec.brings_in (plain_request rules.now.request.now) (map plain_package rules.now.packages.now)
        (map plain_package (take before there.now.packages.now)) (map plain_package there.now.packages.now)
        (plain_package by.now) }
{
    let relations = &by.relations;
    has_newly_met(there, before, by, relations.pre_depends)
        || has_newly_met(there, before, by, relations.depends)
        || (!rules.is_installed(rules.name_of(by))
            && has_newly_met(there, before, by, relations.recommends))
}

/// Whether a field of a package has a group that is met, and that the first `before` packages don't meet.
fn has_newly_met<'t>(
    there: &Together<'_, 't>,
    before: usize,
    by: &Package<'t>,
    field: &[u8],
) -> bool
    ensures { result ≡ spec.has_newly_met there.now.native.now (map plain_package (take before there.now.packages.now))
        (map plain_package there.now.packages.now) (plain_package by.now) field.now }
{
    field
        .split(|byte| *byte == b',')
        .filter(|group| !is_blank(group))
        .any(|group| is_newly_met(there, before, by, group))
}

/// Whether a group of a package's relations is met, and the first `before` packages don't meet it.
fn is_newly_met<'t>(there: &Together<'_, 't>, before: usize, by: &Package<'t>, group: &[u8]) -> bool
    ensures { result ≡ spec.is_newly_met there.now.native.now (map plain_package (take before there.now.packages.now))
        (map plain_package there.now.packages.now) (plain_package by.now) group.now }
{
    there.is_group_met(by, group) && !there.first(before).is_group_met(by, group)
}

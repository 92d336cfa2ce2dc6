//! A check that installed packages get another version only where they have to, or where that is asked for.
ghost use Rattle.std.specs.Prelude.{◌≡◌, ◌&&◌, ◌||◌, true, not, map, All, IfOk, slice_set};
ghost use Rattle.debian_scenario.specs.Plain.{plain_package, plain_request};
ghost use Rattle.debian_directory.specs.Answers.{is_answer, is_installed_as};
ghost use Rattle.debian_directory.specs.Plain.{plain_name};
ghost use Rattle.apt_solver.specs.Versions as spec;

use debian_directory::{Name, Rules, is_answer};
use debian_scenario::{Package, Request};
use std::alloc::{AllocError, Global};

/// Whether each package that isn't asked for, and is there in another version than the installed one, has to be: with
/// that one in its place these packages are no answer. In an upgrade of all, each may be there in another version.
pub(crate) fn change_in_need<'t>(
    alloc: Global,
    rules: &Rules<'_, 't>,
    there: &[Package<'t>],
) -> Result<bool, AllocError>
    ensures { IfOk result (λ yes. yes ≡ true → spec.ChangeInNeed (plain_request rules.now.request.now)
        (map plain_package rules.now.packages.now) (map plain_package there.now)) }
{
    for (place, one) in there.iter().enumerate() {
        if !changes_in_need(alloc, rules, there, place, one)? {
            return Ok(false);
        }
    }
    Ok(true)
}

/// Whether a package isn't changed, or these packages are no answer with an installed version of its name in its place.
fn changes_in_need<'t>(
    alloc: Global,
    rules: &Rules<'_, 't>,
    there: &[Package<'t>],
    place: usize,
    one: &Package<'t>,
) -> Result<bool, AllocError>
    ensures { IfOk result (λ yes. yes ≡ true → spec.is_changed (plain_request rules.now.request.now)
        (map plain_package rules.now.packages.now) (plain_package one.now) ≡ true →
        All (spec.IsNeededAt (plain_request rules.now.request.now) (map plain_package rules.now.packages.now)
        (map plain_package there.now) place) (map plain_package rules.now.packages.now)) }
{
    if !is_changed(rules, one) {
        return Ok(true);
    }
    for other in rules.packages {
        if !is_needed(alloc, rules, there, place, other)? {
            return Ok(false);
        }
    }
    Ok(true)
}

/// Whether a package isn't installed, though a version of its name is, and the request doesn't say that it is to get
/// another version.
#[tactic(auto, unfolding(crate::specs::Versions::is_changed))]
fn is_changed<'t>(rules: &Rules<'_, 't>, one: &Package<'t>) -> bool
    ensures { result ≡ spec.is_changed (plain_request rules.now.request.now)
        (map plain_package rules.now.packages.now) (plain_package one.now) }
{
    let name = rules.name_of(one);
    let is_asked = rules.is_asked(name);
    rules.is_installed(name) && !(one.state.is_installed || is_asked || is_upgrade(rules.request))
}

/// Whether all that is installed is to get apt's candidate.
fn is_upgrade(request: &Request<'_>) -> bool
    ensures { result ≡ spec.is_upgrade (plain_request request.now) }
{
    let actions = &request.actions;
    actions.upgrade_all || actions.upgrade || actions.dist_upgrade
}

/// Whether these packages are no answer with another one at a place, if it is an installed version of the name there.
fn is_needed<'t>(
    alloc: Global,
    rules: &Rules<'_, 't>,
    there: &[Package<'t>],
    place: usize,
    other: &Package<'t>,
) -> Result<bool, AllocError>
    ensures { IfOk result (λ yes. yes ≡ true → spec.IsNeededAt (plain_request rules.now.request.now)
        (map plain_package rules.now.packages.now) (map plain_package there.now) place (plain_package other.now)) }
{
    let Some(one) = there.get(place) else {
        return Ok(true);
    };
    if !is_installed_as(rules, rules.name_of(one), other) {
        return Ok(true);
    }
    let is_answer = is_answer_with(alloc, rules, there, place, other)?;
    Ok(!is_answer)
}

/// Whether a package has this name, and is installed.
fn is_installed_as<'t>(rules: &Rules<'_, 't>, name: Name<'t>, one: &Package<'t>) -> bool
    ensures { result ≡ is_installed_as (plain_request rules.now.request.now)
        (map plain_package rules.now.packages.now) (plain_name name.entry) (plain_package one.now) }
{
    name == rules.name_of(one) && one.state.is_installed
}

/// Whether the packages are an answer with another one in a place.
fn is_answer_with<'t>(
    alloc: Global,
    rules: &Rules<'_, 't>,
    there: &[Package<'t>],
    place: usize,
    one: &Package<'t>,
) -> Result<bool, AllocError>
    ensures { IfOk result (λ yes. yes ≡ is_answer (plain_request rules.now.request.now)
        (map plain_package rules.now.packages.now) (map plain_package (slice_set there.now place one.now))) }
{
    let mut others = there.to_vec(alloc)?;
    if place < others.len() {
        others[place] = *one;
    }
    is_answer(alloc, rules, &others)
}

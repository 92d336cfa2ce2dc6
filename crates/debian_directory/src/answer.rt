//! Whether packages are an answer to a request.
ghost use Rattle.std.specs.Prelude.{◌≡◌, ◌||◌, not, map, IfOk};
ghost use Rattle.std.specs.List.{list_all};
ghost use Rattle.debian_scenario.specs.Plain.{plain_package, plain_request};
ghost use Rattle.debian_directory.specs.Answers.{has, is_answer, is_kept, keeps_all, may_all_be_picked, stay, stays};
ghost use Rattle.debian_directory.specs.Plain.{plain_name};

use crate::directory::Directory;
use crate::name::Name;
use crate::rules::Rules;
use crate::together::Together;
use crate::words::names_of;
use debian_scenario::Package;
use std::alloc::{AllocError, Global};

/// Whether these packages may be there together, may each be picked, and have what is requested.
pub fn is_answer<'t>(
    alloc: Global,
    rules: &Rules<'_, 't>,
    packages: &[Package<'t>],
) -> Result<bool, AllocError>
    ensures { IfOk result (λ yes. yes ≡ is_answer (plain_request rules.now.request.now)
        (map plain_package rules.now.packages.now) (map plain_package packages.now)) }
{
    let native = rules.request.architecture;
    let directory = Directory::new(alloc, packages)?;
    let together = Together {
        native,
        packages,
        directory: &directory,
    };
    let asked = names_of(alloc, native, rules.request.install)?;
    Ok(
        together.is_installable()
            && may_all_be_picked(rules, packages)
            && are_there(&together, &asked)
            && stay(rules, &together),
    )
}

/// Whether each of these packages may be picked.
fn may_all_be_picked<'t>(rules: &Rules<'_, 't>, packages: &[Package<'t>]) -> bool
    ensures { result ≡ may_all_be_picked (plain_request rules.now.request.now)
        (map plain_package rules.now.packages.now) (map plain_package packages.now) }
{
    packages.iter().all(|one| rules.may_be_picked(one))
}

/// Whether a version of each of these names is there.
fn are_there<'t>(together: &Together<'_, 't>, names: &[Name<'t>]) -> bool
    ensures { result ≡ list_all (has together.now.native.now (map plain_package together.now.packages.now))
        (map plain_name names.now) }
{
    names.iter().all(|name| together.has(*name))
}

/// Whether of each package that has to stay a version is there.
fn stay<'t>(rules: &Rules<'_, 't>, together: &Together<'_, 't>) -> bool
    requires { together.now.native.now ≡ rules.now.request.now.architecture.now }
    ensures { result ≡ stay (plain_request rules.now.request.now) (map plain_package rules.now.packages.now)
        (map plain_package together.now.packages.now) }
{
    rules.packages.iter().all(|one| stays(rules, together, one))
}

/// Whether a version of a package's name is there, if it has to stay.
fn stays<'t>(rules: &Rules<'_, 't>, together: &Together<'_, 't>, one: &Package<'t>) -> bool
    requires { together.now.native.now ≡ rules.now.request.now.architecture.now }
    ensures { result ≡ stays (plain_request rules.now.request.now) (map plain_package rules.now.packages.now)
        (map plain_package together.now.packages.now) (plain_package one.now) }
{
    !rules.must_stay(one) || together.has(rules.name_of(one))
}

/// Whether each package that is to be kept has a version among these.
pub fn keeps_all<'t>(
    alloc: Global,
    rules: &Rules<'_, 't>,
    packages: &[Package<'t>],
) -> Result<bool, AllocError>
    ensures { IfOk result (λ yes. yes ≡ keeps_all (plain_request rules.now.request.now)
        (map plain_package rules.now.packages.now) (map plain_package packages.now)) }
{
    let directory = Directory::new(alloc, packages)?;
    let together = Together {
        native: rules.request.architecture,
        packages,
        directory: &directory,
    };
    Ok(are_kept(rules, &together))
}

/// Whether of each package that is to be kept a version is there.
fn are_kept<'t>(rules: &Rules<'_, 't>, together: &Together<'_, 't>) -> bool
    requires { together.now.native.now ≡ rules.now.request.now.architecture.now }
    ensures { result ≡ keeps_all (plain_request rules.now.request.now) (map plain_package rules.now.packages.now)
        (map plain_package together.now.packages.now) }
{
    rules
        .packages
        .iter()
        .all(|one| is_kept(rules, together, one))
}

/// Whether a version of a package's name is there, if the package is to be kept.
fn is_kept<'t>(rules: &Rules<'_, 't>, together: &Together<'_, 't>, one: &Package<'t>) -> bool
    requires { together.now.native.now ≡ rules.now.request.now.architecture.now }
    ensures { result ≡ is_kept (plain_request rules.now.request.now) (map plain_package rules.now.packages.now)
        (map plain_package together.now.packages.now) (plain_package one.now) }
{
    !rules.is_to_be_kept(one) || together.has(rules.name_of(one))
}

//! From the text of a scenario to the text of its answer.
ghost use Rattle.std.specs.Prelude.{◌≡◌, false, true, All, Contains, map, IfOk, OnOk};
ghost use Rattle.debian_scenario.specs.Plain.{plain_package, plain_request};
ghost use Rattle.debian_scenario.specs.Scenarios.{scenario_of};
ghost use Rattle.debian_directory.specs.Answers.{keeps_all};
ghost use Rattle.debian_provider.specs.Needs.{IsKeepingMore};
ghost use Rattle.apt_solver.specs.Causes.{HaveCauses};
ghost use Rattle.apt_solver.specs.Errors.{SaysFault};
ghost use Rattle.apt_solver.specs.Program.{IsSaid, IsSaidOf, IsSaidTo, is_whole};
ghost use Rattle.apt_solver.specs.Search.{HasNoSuch, IsFound};

use crate::causes::have_causes;
use crate::difference::difference;
use crate::errors::{fault_text, none_text, unread_text};
use crate::finding::{Found, find};
use crate::ordering::Ordered;
use crate::versions::change_in_need;
use debian_directory::{Directory, Rules, is_answer, keeps_all};
use debian_scenario::{Package, Request, read};
use std::alloc::{AllocError, Global};

/// Why packages aren't written that were found.
const UNCONFIRMED: &str = "a check didn't confirm what was found";

/// What is said to a text.
pub(crate) fn answer(alloc: Global, text: &[u8]) -> Result<Vec<u8>, AllocError>
    ensures { IfOk result (λ said. IsSaid text.now said.items) }
{
    if is_whole(text) {
        answer_whole(alloc, text)
    } else {
        fault_text(alloc, "the scenario doesn't end with an empty line")
    }
}

/// Whether a text ends with an empty line, as a scenario of apt does. Where it was cut a package may lack what it
/// needs.
fn is_whole(text: &[u8]) -> bool
    ensures { result ≡ is_whole text.now }
{
    text.ends_with(b"\n\n")
}

/// What is said to a text that wasn't cut.
fn answer_whole(alloc: Global, text: &[u8]) -> Result<Vec<u8>, AllocError>
    ensures { IfOk result (λ said. IsSaidTo (scenario_of text.now) said.items) }
{
    match read(alloc, text) {
        Ok(scenario) => answer_scenario(alloc, &scenario.request, &scenario.packages),
        Err(error) => unread_text(alloc, error),
    }
}

/// What is said to a scenario.
fn answer_scenario<'s, 't>(
    alloc: Global,
    request: &'s Request<'t>,
    packages: &'s [Package<'t>],
) -> Result<Vec<u8>, AllocError>
    ensures { IfOk result (λ said. IsSaidOf (plain_request request.now) (map plain_package packages.now) said.items) }
{
    let directory = Directory::new(alloc, packages)?;
    let rules = Rules {
        request,
        packages,
        directory: &directory,
    };
    match find(alloc, rules) {
        Ok(found) => found_text(alloc, &rules, &found),
        Err(refused) => unanswered(alloc, &format!(in alloc; "{refused}")?),
    }
}

/// What is said where the search found this.
fn found_text<'t>(
    alloc: Global,
    rules: &Rules<'_, 't>,
    found: &Found<'t>,
) -> Result<Vec<u8>, AllocError>
    requires { IsFound rules.now found.now }
    ensures { IfOk result (λ said. IsSaidOf (plain_request rules.now.request.now)
        (map plain_package rules.now.packages.now) said.items) }
{
    match found {
        Found::Packages { ordered, keeps_all } => answer_caused(alloc, rules, ordered, *keeps_all),
        Found::NoAnswer(reasons) => none_text(alloc, reasons),
        Found::StepsUsed => unanswered(alloc, "the search took too long"),
        Found::Unconfirmed => unanswered(alloc, UNCONFIRMED),
    }
}

/// What is said of these packages, if a check confirms that each has a cause.
fn answer_caused<'t>(
    alloc: Global,
    rules: &Rules<'_, 't>,
    ordered: &Ordered<'t>,
    keeps_all: bool,
) -> Result<Vec<u8>, AllocError>
    requires known { All (Contains rules.now.packages.now) ordered.now.there.items }
    requires none { keeps_all ≡ false →
        HasNoSuch (IsKeepingMore (map plain_package ordered.now.there.items)) rules.now }
    ensures { IfOk result (λ said. IsSaidOf (plain_request rules.now.request.now)
        (map plain_package rules.now.packages.now) said.items) }
{
    if have_causes(alloc, rules, &ordered.there, &ordered.order.causes)? {
        answer_found(alloc, rules, &ordered.there, keeps_all)
    } else {
        unanswered(alloc, UNCONFIRMED)
    }
}

/// What is said of these packages: that they are to be there, if checks confirm that they are an answer, that they
/// keep all if they are to, and that versions change only in need.
fn answer_found<'t>(
    alloc: Global,
    rules: &Rules<'_, 't>,
    there: &[Package<'t>],
    is_to_keep_all: bool,
) -> Result<Vec<u8>, AllocError>
    requires known { All (Contains rules.now.packages.now) there.now }
    requires caused { HaveCauses (plain_request rules.now.request.now) (map plain_package rules.now.packages.now)
        (map plain_package there.now) }
    requires none { is_to_keep_all ≡ false → HasNoSuch (IsKeepingMore (map plain_package there.now)) rules.now }
    ensures { IfOk result (λ said. IsSaidOf (plain_request rules.now.request.now)
        (map plain_package rules.now.packages.now) said.items) }
{
    let keeps = keeps_as_sought(alloc, rules, there, is_to_keep_all)?;
    let answers = is_answer(alloc, rules, there)?;
    let changes = change_in_need(alloc, rules, there)?;
    if keeps && answers && changes {
        difference(alloc, rules, there)
    } else {
        unanswered(alloc, UNCONFIRMED)
    }
}

/// Whether these packages keep all that is to be kept, if that was sought.
fn keeps_as_sought<'t>(
    alloc: Global,
    rules: &Rules<'_, 't>,
    there: &[Package<'t>],
    is_to_keep_all: bool,
) -> Result<bool, AllocError>
    ensures { is_to_keep_all ≡ true → IfOk result (λ yes. yes ≡ keeps_all (plain_request rules.now.request.now)
        (map plain_package rules.now.packages.now) (map plain_package there.now)) }
{
    if is_to_keep_all {
        keeps_all(alloc, rules, there)
    } else {
        Ok(true)
    }
}

/// That a scenario isn't answered, and why.
fn unanswered(alloc: Global, why: &str) -> Result<Vec<u8>, AllocError>
    ensures { IfOk result (λ said. SaysFault said.items) }
{
    fault_text(alloc, why)
}

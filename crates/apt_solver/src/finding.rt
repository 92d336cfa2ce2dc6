//! What the search finds for a scenario.
ghost use Rattle.std.specs.Prelude.{◌≡◌, All, Contains, IfOk, OnOk, map};
ghost use Rattle.debian_scenario.specs.Plain.{plain_package};
ghost use Rattle.debian_provider.specs.Needs.{IsAnswer, IsKeepingMore};
ghost use Rattle.debian_provider.specs.Reading.{IsWhole};
ghost use Rattle.apt_solver.specs.Search.{FindsNoSuch, HasNoSuch, IsFound, StaysWhole};

use crate::ordering::{Ordered, packages_in_order};
use crate::reasons::write_reasons;
use crate::solving::{keep_all, keep_more, keep_what_can_be};
use debian_directory::{Directory, Rules, Together};
use debian_provider::Archive;
use debian_scenario::Package;
use picking::{Answer, Choice};
use resolvo_ids::{NameId, SolvableId, StoreError};
use std::alloc::{AllocError, Global};

/// How many steps a search makes at most.
const STEPS: u64 = 1 << 22;

/// What a search found.
#[derive(Drop)]
pub(crate) enum Found<'t> {
    /// Packages that are to be there.
    Packages {
        ordered: Ordered<'t>,
        /// Whether they are to keep all that is to be kept. If not, no answer keeps all that they keep, and more.
        keeps_all: bool,
    },
    /// That no packages are an answer, and why, in further lines.
    NoAnswer(String),
    /// That the steps ended first.
    StepsUsed,
    /// What a check of the search didn't confirm.
    Unconfirmed,
}

type Answered = Answer<NameId, SolvableId, Global>;

/// Searches for packages that are to be there. That they are an answer is checked later. But if it says that there is
/// no answer, or none that keeps more, there is none.
pub(crate) fn find<'t>(alloc: Global, rules: Rules<'_, 't>) -> Result<Found<'t>, StoreError>
    ensures { IfOk result (IsFound rules.entry) }
{
    let mut archive = match Archive::new(alloc, rules) {
        Ok(archive) => archive,
        Err(refused) => return Err(refused),
    };
    find_in(alloc, &mut archive, &rules)
}

/// Searches for packages that keep all; if there are none, for those that keep the most.
fn find_in<'t>(
    alloc: Global,
    archive: &mut Archive<'_, 't>,
    rules: &Rules<'_, 't>,
) -> Result<Found<'t>, StoreError>
    requires whole { IsWhole archive.old }
    requires rules { archive.old.rules ≡ rules.now }
    ensures { IfOk result (IsFound rules.now) }
{
    let installed = installed(alloc, rules)?;
    let directory = Directory::new(alloc, &installed)?;
    let together = Together {
        native: rules.request.architecture,
        packages: &installed,
        directory: &directory,
    };
    let answer = keep_all(alloc, archive, &together, STEPS)?;
    match &answer {
        Answer::Picked(choice) => all_kept(alloc, archive, rules, choice),
        Answer::Unsolvable(_) => find_others(alloc, archive, rules),
        Answer::StepsUsed => Ok(Found::StepsUsed),
        Answer::Uncertified(_) | Answer::NotASolution => Ok(Found::Unconfirmed),
    }
}

/// The packages that are installed.
fn installed<'t>(alloc: Global, rules: &Rules<'_, 't>) -> Result<Vec<Package<'t>>, AllocError> {
    let mut installed = Vec::new(alloc);
    for one in rules.packages {
        if one.state.is_installed {
            installed.push(*one)?;
        }
    }
    Ok(installed)
}

/// That packages were found that are to keep all.
fn all_kept<'t>(
    alloc: Global,
    archive: &Archive<'_, 't>,
    rules: &Rules<'_, 't>,
    choice: &Choice<SolvableId, Global>,
) -> Result<Found<'t>, StoreError>
    ensures { IfOk result (IsFound rules.now) }
{
    let ordered = ordered_of(alloc, archive, rules, choice)?;
    Ok(Found::Packages {
        ordered,
        keeps_all: true,
    })
}

/// The packages that were picked, each after its cause.
fn ordered_of<'t>(
    alloc: Global,
    archive: &Archive<'_, 't>,
    rules: &Rules<'_, 't>,
    choice: &Choice<SolvableId, Global>,
) -> Result<Ordered<'t>, StoreError>
    ensures { IfOk result (λ found. All (Contains rules.now.packages.now) found.there.items) }
{
    let places = archive.places_of(&choice.solvables)?;
    Ok(packages_in_order(alloc, rules, &places)?)
}

/// Searches for others, since none keep all.
fn find_others<'t>(
    alloc: Global,
    archive: &mut Archive<'_, 't>,
    rules: &Rules<'_, 't>,
) -> Result<Found<'t>, StoreError>
    requires whole { IsWhole archive.old }
    requires rules { archive.old.rules ≡ rules.now }
    ensures { IfOk result (IsFound rules.now) }
{
    let answer = keep_what_can_be(alloc, archive, STEPS)?;
    match &answer {
        Answer::Picked(choice) => {
            let ordered = ordered_of(alloc, archive, rules, choice)?;
            keep_most(alloc, archive, rules, ordered)
        }
        _ => none_picked(alloc, archive, &answer),
    }
}

/// What an answer says that picks nothing: perhaps that there is no answer.
fn none_picked<'t>(
    alloc: Global,
    archive: &Archive<'_, 't>,
    answer: &Answered,
) -> Result<Found<'t>, StoreError>
    requires { FindsNoSuch IsAnswer archive.now.rules answer.now }
    ensures { IfOk result (IsFound archive.now.rules) }
{
    match answer {
        Answer::Unsolvable(refutation) => {
            let mut text = String::new(alloc);
            write_reasons(archive, &refutation.reasons, &mut text)?;
            Ok(Found::NoAnswer(text))
        }
        Answer::StepsUsed => Ok(Found::StepsUsed),
        _ => Ok(Found::Unconfirmed),
    }
}

/// Searches for packages that keep all that these keep, and more; and again, until there are none.
fn keep_most<'t>(
    alloc: Global,
    archive: &mut Archive<'_, 't>,
    rules: &Rules<'_, 't>,
    ordered: Ordered<'t>,
) -> Result<Found<'t>, StoreError>
    requires whole { IsWhole archive.old }
    requires rules { archive.old.rules ≡ rules.now }
    requires known { All (Contains rules.now.packages.now) ordered.there.items }
    ensures { IfOk result (IsFound rules.now) }
{
    let mut ordered = ordered;
    for _ in 0..rules.packages.len().saturating_add(1) {
        let answer = keep_more_than(alloc, archive, rules, &ordered)?;
        match &answer {
            Answer::Picked(choice) => ordered = ordered_of(alloc, archive, rules, choice)?,
            _ => return Ok(most_kept(ordered, &answer)),
        }
    }
    Ok(Found::StepsUsed)
}

/// Searches for packages that keep all that these keep, and more.
fn keep_more_than<'t>(
    alloc: Global,
    archive: &mut Archive<'_, 't>,
    rules: &Rules<'_, 't>,
    ordered: &Ordered<'t>,
) -> Result<Answered, StoreError>
    requires whole { IsWhole archive.old }
    requires rules { archive.old.rules ≡ rules.now }
    ensures stays { OnOk result (StaysWhole archive.old archive.new) }
    ensures none { IfOk result (FindsNoSuch (IsKeepingMore (map plain_package ordered.now.there.items)) rules.now) }
{
    let directory = Directory::new(alloc, &ordered.there)?;
    let few = Together {
        native: rules.request.architecture,
        packages: &ordered.there,
        directory: &directory,
    };
    keep_more(alloc, archive, &few, STEPS)
}

/// That these packages were found, if the answer says that none keep more.
fn most_kept<'t>(ordered: Ordered<'t>, answer: &Answered) -> Found<'t>
    ensures { (rules : _) → All (Contains rules.packages.now) ordered.entry.there.items →
        FindsNoSuch (IsKeepingMore (map plain_package ordered.entry.there.items)) rules answer.now →
        IsFound rules result }
{
    match answer {
        Answer::Unsolvable(_) => Found::Packages {
            ordered,
            keeps_all: false,
        },
        Answer::StepsUsed => Found::StepsUsed,
        _ => Found::Unconfirmed,
    }
}

//! The search.
ghost use Rattle.std.specs.Prelude.{◌≡◌, map, IfNone, IfOk, IfSome, List, OnOk};
ghost use Rattle.debian_scenario.specs.Packages.{PackageText};
ghost use Rattle.debian_scenario.specs.Plain.{plain_package};
ghost use Rattle.debian_provider.specs.Growing.{native_in};
ghost use Rattle.debian_provider.specs.Needs.{IsAnswer, IsKeepingMore};
ghost use Rattle.debian_provider.specs.Reading.{AreKept, IsWhole};
ghost use Rattle.apt_solver.specs.Search.{FindsNoSuch, StaysWhole};

use crate::recommending::Recommending;
use crate::wishes::{Wishes, add_asked, add_favored, kept};
use debian_directory::Together;
use debian_provider::Archive;
use picking::{Answer, pick_by_wishes};
use resolvo_ids::{NameId, SolvableId, StoreError};
use resolvo_pool::ConditionalRequirement;
use solutions::Request;
use std::alloc::Global;

type Answered = Result<Answer<NameId, SolvableId, Global>, StoreError>;

/// Searches for the best solution that keeps a version of each package that is to be kept: of those that are installed.
pub(crate) fn keep_all<'t>(
    alloc: Global,
    archive: &mut Archive<'_, 't>,
    installed: &Together<'_, 't>,
    steps: u64,
) -> Answered
    requires whole { IsWhole archive.old }
    requires native { installed.now.native.now ≡ native_in archive.old.rules }
    ensures { OnOk result (StaysWhole archive.old archive.new) }
{
    let mut recommending = Recommending::new(alloc);
    let wishes = wishes_beside(alloc, archive, &mut recommending)?;
    search(archive, Some(installed), wishes, recommending, steps)
}

/// What is wished where all that is installed keeps a version: what is asked for in its favored version; the first
/// alternatives, and what is recommended; and the favored version of what is installed, which comes first in an
/// upgrade.
fn wishes_beside(
    alloc: Global,
    archive: &mut Archive<'_, '_>,
    recommending: &mut Recommending,
) -> Result<Wishes, StoreError>
    ensures { OnOk result (StaysWhole archive.old archive.new) }
{
    let mut wishes = Vec::new(alloc);
    add_asked(alloc, archive, &mut wishes)?;
    let is_upgrade = archive.is_upgrade();
    if is_upgrade {
        add_favored(alloc, archive, &mut wishes)?;
    }
    recommending.guess(archive, &mut wishes)?;
    if !is_upgrade {
        add_favored(alloc, archive, &mut wishes)?;
    }
    Ok(wishes)
}

/// Searches for the best solution that keeps what can be kept, in the order of `kept`.
pub(crate) fn keep_what_can_be(alloc: Global, archive: &mut Archive<'_, '_>, steps: u64) -> Answered
    requires { IsWhole archive.old }
    ensures stays { OnOk result (StaysWhole archive.old archive.new) }
    ensures none { IfOk result (FindsNoSuch IsAnswer archive.old.rules) }
{
    let mut recommending = Recommending::new(alloc);
    let wishes = wishes_to_keep(alloc, archive, &mut recommending)?;
    search(archive, None, wishes, recommending, steps)
}

/// Searches for the best solution that keeps all that these packages keep, and more.
pub(crate) fn keep_more<'t>(
    alloc: Global,
    archive: &mut Archive<'_, 't>,
    few: &Together<'_, 't>,
    steps: u64,
) -> Answered
    requires whole { IsWhole archive.old }
    requires native { few.now.native.now ≡ native_in archive.old.rules }
    ensures stays { OnOk result (StaysWhole archive.old archive.new) }
    ensures none { IfOk result (FindsNoSuch (IsKeepingMore (map plain_package few.now.packages.now))
        archive.old.rules) }
{
    let mut recommending = Recommending::new(alloc);
    let wishes = wishes_to_keep(alloc, archive, &mut recommending)?;
    search(archive, Some(few), wishes, recommending, steps)
}

/// What is wished where something has to go: that each installed package keeps a version, in the order of `kept`; and
/// the first alternatives, and what is recommended.
fn wishes_to_keep(
    alloc: Global,
    archive: &mut Archive<'_, '_>,
    recommending: &mut Recommending,
) -> Result<Wishes, StoreError>
    ensures { OnOk result (StaysWhole archive.old archive.new) }
{
    let mut wishes = kept(alloc, archive)?;
    recommending.guess(archive, &mut wishes)?;
    Ok(wishes)
}

/// Searches for the best solution by these wishes of what has to be there; and, if there are such packages, one that
/// keeps all that they keep, and more. If it has new packages that weren't guessed, what they recommend is wished for
/// too, and the search begins again.
fn search<'t>(
    archive: &mut Archive<'_, 't>,
    few: Option<&Together<'_, 't>>,
    wishes: Wishes,
    recommending: Recommending,
    steps: u64,
) -> Answered
    requires whole { IsWhole archive.old }
    requires native { IfSome few (λ f. f.now.native.now ≡ native_in archive.old.rules) }
    ensures stays { OnOk result (StaysWhole archive.old archive.new) }
    ensures kept { IfSome few.entry (λ f.
        IfOk result (FindsNoSuch (IsKeepingMore (map plain_package f.now.packages.now)) archive.old.rules)) }
    ensures none { IfNone few.entry (IfOk result (FindsNoSuch IsAnswer archive.old.rules)) }
{
    let mut wishes = wishes;
    let mut recommending = recommending;
    for _ in 0..archive.packages().len().saturating_add(1) {
        let answer = search_once(archive, few, &wishes, steps)?;
        let Answer::Picked(choice) = answer else {
            return Ok(answer);
        };
        if !recommending.add(archive, &choice.solvables, &mut wishes)? {
            return Ok(Answer::Picked(choice));
        }
    }
    Ok(Answer::StepsUsed)
}

/// Searches for the best solution by these wishes, of what is required.
fn search_once<'t>(
    archive: &mut Archive<'_, 't>,
    few: Option<&Together<'_, 't>>,
    wishes: &Wishes,
    steps: u64,
) -> Answered
    requires whole { IsWhole archive.old }
    requires native { IfSome few (λ f. f.now.native.now ≡ native_in archive.old.rules) }
    ensures stays { OnOk result (StaysWhole archive.old archive.new) }
    ensures kept { IfSome few.entry (λ f.
        IfOk result (FindsNoSuch (IsKeepingMore (map plain_package f.now.packages.now)) archive.old.rules)) }
    ensures none { IfNone few.entry (IfOk result (FindsNoSuch IsAnswer archive.old.rules)) }
{
    match few {
        Some(few) => {
            let requirements = archive.requirements_to_keep(few)?;
            pick(archive, &requirements, wishes, steps)
        }
        None => pick(archive, archive.requirements(), wishes, steps),
    }
}

/// Searches for the best solution of these requirements, by these wishes.
fn pick(
    archive: &Archive<'_, '_>,
    requirements: &[ConditionalRequirement],
    wishes: &Wishes,
    steps: u64,
) -> Answered
    requires { IsWhole archive.now }
    ensures kept { (few : List PackageText) → AreKept few archive.now requirements.now →
        IfOk result (FindsNoSuch (IsKeepingMore few) archive.now.rules) }
    ensures none { requirements.now ≡ archive.now.requirements.items →
        IfOk result (FindsNoSuch IsAnswer archive.now.rules) }
{
    let request = Request {
        requirements,
        wishes,
    };
    pick_by_wishes(*wishes.allocator(), archive, &request, steps)
}

//! What a search grants of wishes that a caller makes, and what it leaves out.
//!
//! A version is named by its place among the versions of the index, counted from 0.
use crate::indexes::holes;
use example_index::IndexFault;
use picking::{Answer, Choice, pick_by_wishes};
use resolvo_ids::{DenseIndex, SolvableId, StoreError};
use resolvo_pool::{DependencyProvider, Interner};
use solutions::{Alternative, Request, Wish};
use std::alloc::{Allocator, Global};
use std::test::Fail;

/// A wish: that the versions at these places are picked, or aren't, the best first.
type Wished = &'static [(u32, bool)];

/// Shows that an earlier wish counts for more than a later one.
#[test]
fn the_first_wish_counts_most(rt: HostRuntime) -> Result<(), Fail> {
    let index =
        "request needs app 1..9\napp 1 needs lib 1..9\napp 2 needs lib 2..9\nlib 1\nlib 2\nlib 3\n";
    let app_first: &[Wished] = &[&[(1, true), (0, true)], &[(2, true), (3, true)]];
    let said_of_app = said(rt.alloc(), index, app_first, 1000)?;
    assert_eq!(rt;
        said_of_app.as_str(),
        "app 2 requested; lib 2 by 0; ranks 0 1; best by 2"
    );
    let lib_first: &[Wished] = &[&[(2, true), (3, true)], &[(1, true), (0, true)]];
    let said_of_lib = said(rt.alloc(), index, lib_first, 1000)?;
    assert_eq!(rt;
        said_of_lib.as_str(),
        "app 1 requested; lib 1 by 0; ranks 0 1; best by 2"
    );
    Ok(())
}

/// Shows that a version isn't picked if a wish says so, and is if nothing else is left.
#[test]
fn a_version_is_not_wanted(rt: HostRuntime) -> Result<(), Fail> {
    let index = "request needs app 1..9\napp 1\napp 2\n";
    let said_of_one = said(rt.alloc(), index, &[&[(1, false)]], 1000)?;
    assert_eq!(rt; said_of_one.as_str(), "app 1 requested; ranks 0; best by 1");
    let said_of_both = said(rt.alloc(), index, &[&[(1, false)], &[(0, false)]], 1000)?;
    assert_eq!(rt;
        said_of_both.as_str(),
        "app 1 requested; ranks 0 1; best by 2"
    );
    Ok(())
}

/// Shows that a version that nothing needs is picked if a wish has it, with what it needs, and isn't otherwise.
#[test]
fn a_wish_is_reason_enough(rt: HostRuntime) -> Result<(), Fail> {
    let index = "request needs app 1..9\napp 1\ntool 1 needs lib 1..9\nlib 1\n";
    let said_of_none = said(rt.alloc(), index, &[], 1000)?;
    assert_eq!(rt; said_of_none.as_str(), "app 1 requested; best by 0");
    let said_of_tool = said(rt.alloc(), index, &[&[(1, true)]], 1000)?;
    assert_eq!(rt;
        said_of_tool.as_str(),
        "app 1 requested; tool 1 wished; lib 1 by 1; ranks 0; best by 1"
    );
    Ok(())
}

/// Shows that of two ways to meet a need the one that is needed anyway is taken, and the other one left out.
#[test]
fn what_can_be_left_out_is(rt: HostRuntime) -> Result<(), Fail> {
    let index =
        "request needs x 1..9 needs y 1..9\nx 1 needs p 1..9 | q 1..9\ny 1 needs q 1..9\np 1\nq 1\n";
    let said = said(rt.alloc(), index, &[], 1000)?;
    assert_eq!(rt;
        said.as_str(),
        "x 1 requested; y 1 requested; q 1 by 0; best by 0"
    );
    Ok(())
}

/// Shows that steps that end before the best solution is shown leave a solution, and that more of them show it.
///
/// The host has one guest more than places, which takes some thousand conflicts to refute.
#[test]
fn steps_end_before_the_best_is_shown(rt: HostRuntime) -> Result<(), Fail> {
    let mut index = String::from_str(rt.alloc(), "request needs easy 1..2 | host 1..2\neasy 1\n")?;
    index.push_str(&holes(rt.alloc(), "host 1", 6)?)?;
    let few = said(rt.alloc(), &index, &[&[(1, true)]], 50)?;
    assert_eq!(rt; few.as_str(), "easy 1 requested; ranks 1; best by 0");
    let many = said(rt.alloc(), &index, &[&[(1, true)]], 100_000)?;
    assert_eq!(rt; many.as_str(), "easy 1 requested; ranks 1; best by 1");
    Ok(())
}

/// What is picked for what an index requests, by these wishes.
fn said(alloc: Global, text: &str, wishes: &[Wished], steps: u64) -> Result<String, IndexFault> {
    let indexes = index_text::split(alloc, text.as_bytes())?;
    let Some(lines) = indexes.first() else {
        return Err(IndexFault::Unreadable(1));
    };
    let index = example_index::read(alloc, lines)?;
    let mut made = Vec::new(alloc);
    for wished in wishes {
        made.push(wish(alloc, wished)?)?;
    }
    let request = Request {
        requirements: index.request(),
        wishes: &made,
    };
    let said = said_of_request(alloc, &index, &request, steps);
    drop(index);
    Ok(said?)
}

/// A wish by the places of its versions.
fn wish(alloc: Global, wished: &[(u32, bool)]) -> Result<Wish<SolvableId, Global>, StoreError> {
    let mut alternatives = Vec::new(alloc);
    for (place, is_picked) in wished {
        alternatives.push(Alternative {
            solvable: SolvableId::from_index(*place as usize),
            is_picked: *is_picked,
        })?;
    }
    Ok(Wish { alternatives })
}

/// What is picked for a request.
fn said_of_request<D: DependencyProvider>(
    alloc: D::Alloc,
    provider: &D,
    request: &Request<'_, D::SolvableId, D::Alloc>,
    steps: u64,
) -> Result<String<D::Alloc>, StoreError> {
    match pick_by_wishes(alloc, provider, request, steps)? {
        Answer::Picked(choice) => said_of(alloc, provider, &choice),
        _ => Ok(String::from_str(alloc, "nothing is picked")?),
    }
}

/// Each version with its cause, the ranks, and by how many wishes the choice is shown to be the best.
fn said_of<I: Interner>(
    alloc: I::Alloc,
    interner: &I,
    choice: &Choice<I::SolvableId, I::Alloc>,
) -> Result<String<I::Alloc>, StoreError> {
    let mut text = String::new(alloc);
    for (solvable, cause) in choice.solvables.iter().zip(choice.causes.iter()) {
        if interner.knows_solvable(*solvable) {
            interner.display_solvable(*solvable, &mut text)?;
        }
        text.push_str(&cause_text(alloc, *cause)?)?;
    }
    if !choice.ranks.is_empty() {
        text.push_str("ranks ")?;
        for rank in &choice.ranks {
            text.push_str(&format!(in alloc; "{rank} ")?)?;
        }
        text.pop();
        text.push_str("; ")?;
    }
    let shown = choice.best_up_to;
    text.push_str(&format!(in alloc; "best by {shown}")?)?;
    Ok(text)
}

/// A cause, and a semicolon.
fn cause_text<A: Allocator + Copy>(
    alloc: A,
    cause: solutions::Cause,
) -> Result<String<A>, StoreError> {
    match cause {
        solutions::Cause::Requested(_) => Ok(String::from_str(alloc, " requested; ")?),
        solutions::Cause::Wished(_) => Ok(String::from_str(alloc, " wished; ")?),
        solutions::Cause::Required(place) => Ok(format!(in alloc; " by {place}; ")?),
    }
}

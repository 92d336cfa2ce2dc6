//! Whose dependencies are queried: by the search, and again by the check of what it found.
//!
//! The provider is asked whether to stop twice for each package that a true version names, since the store and the
//! search each query its candidates, once for the dependencies of each solvable, and once for each conflict. The check
//! asks once for each learnt clause that it replays.
use crate::indexes::with_versions;
use crate::seen::{AMPLE, End, search_text};
use std::test::Fail;

/// Nothing is in conflict, and `older` and `idle` aren't needed.
const CHAIN: &str = "\
    request needs wide 1..51 needs first 1..2\n\
    first 1 needs second 1..3\n\
    second 1 needs older 1..2\n\
    second 2 needs third 1..2 needs third 2..3 if idle 1..2\n\
    third 1\n\
    third 2 needs older 1..2\n\
    older 1\n\
    idle 1 needs older 1..2\n";

/// Shows that without a conflict only picked versions are queried: none of 49 others, and nothing that isn't needed.
#[test]
fn without_a_conflict_what_is_picked_is_queried(rt: HostRuntime) -> Result<(), Fail> {
    let index = with_versions(rt.alloc(), CHAIN, "wide", 50)?;
    let seen = search_text(rt.alloc(), &index, AMPLE)?;
    assert_eq!(rt; seen.end, End::Picked(4));
    assert_eq!(rt;
        seen.queried.text.as_str(),
        "first 1; wide 50; second 2; third 1; "
    );
    assert_eq!(rt;
        seen.again.text.as_str(),
        "wide 50; first 1; second 2; third 1; "
    );
    assert_eq!(rt; seen.questions, 5 * 2 + 4);
    Ok(())
}

/// What `left` 2 needs rules out `right` 3 and 2.
const CONFLICT: &str = "\
    request needs left 1..3 needs middle 1..3 needs right 1..4\n\
    left 1 needs older 1..2\n\
    left 2 needs shared 1..2\n\
    middle 1 needs older 1..2\n\
    middle 2\n\
    right 1\n\
    right 2 needs shared 2..3\n\
    right 3 needs shared 2..3\n\
    shared 1\n\
    shared 2 needs older 1..2\n\
    older 1\n\
    idle 1\n";

/// Shows that two conflicts cost two dependencies more than the four that are picked, and that `middle` 2 is queried
/// once, though it is undone with them. Both learnt clauses are replayed. The check queries them all again: what
/// `right` 3 and 2 need shows that no newer `right` can be picked.
#[test]
fn what_is_tried_is_queried_once(rt: HostRuntime) -> Result<(), Fail> {
    let seen = search_text(rt.alloc(), CONFLICT, AMPLE)?;
    assert_eq!(rt; seen.end, End::Picked(4));
    assert_eq!(rt;
        seen.queried.text.as_str(),
        "left 2; shared 1; middle 2; right 3; right 2; right 1; "
    );
    assert_eq!(rt;
        seen.again.text.as_str(),
        "left 2; middle 2; right 1; shared 1; right 3; right 2; "
    );
    assert_eq!(rt; seen.questions, 4 * 2 + 6 + 2 + 2);
    Ok(())
}

/// Each version of `left` conflicts with the one of `right`.
const UNSOLVABLE: &str = "\
    request needs free 1..3 needs left 1..3 needs right 1..2\n\
    free 1 needs older 1..2\n\
    free 2 needs deep 1..2\n\
    deep 1\n\
    left 1 needs shared 1..2\n\
    left 2 needs shared 1..2\n\
    right 1 needs shared 2..3\n\
    shared 1 needs older 1..2\n\
    shared 2\n\
    older 1\n\
    idle 1\n";

/// Shows that the check queries the three that reasons name, of the six that the search queried. Of the six reasons
/// none is spare: the searches that show this query no dependencies, and the candidates of two or three packages each,
/// which are 16 queries; one of them has a conflict.
#[test]
fn the_check_queries_what_is_in_the_reasons(rt: HostRuntime) -> Result<(), Fail> {
    let seen = search_text(rt.alloc(), UNSOLVABLE, AMPLE)?;
    assert_eq!(rt; seen.end, End::Unsolvable);
    assert_eq!(rt;
        seen.queried.text.as_str(),
        "right 1; shared 2; free 2; deep 1; left 2; left 1; "
    );
    assert_eq!(rt; seen.again.text.as_str(), "right 1; left 2; left 1; ");
    assert_eq!(rt; seen.questions, 5 * 2 + 6 + 2 + 16 + 1);
    Ok(())
}

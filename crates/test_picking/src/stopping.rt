//! What ends a search before it is done.
use crate::indexes::holes;
use crate::seen::{AMPLE, Bounds, End, search_text};
use resolvo_ids::StoreError;
use std::test::Fail;

/// Shows that a stop ends the search, and after which question.
///
/// The store queries the candidates of twelve guests (12), and then the search does (24). The dependencies of the first
/// version that is decided follow (25), and its place's candidates (26). There are 264 versions.
#[test]
fn a_provider_stops_the_search(rt: HostRuntime) -> Result<(), Fail> {
    let index = holes(rt.alloc(), "request", 11)?;
    for (question, most) in [(1, 0), (12, 0), (24, 0), (25, 0), (26, 1), (500, 264)] {
        let bounds = Bounds {
            stop_at: question,
            ..AMPLE
        };
        let seen = search_text(rt.alloc(), &index, bounds)?;
        assert_eq!(rt;
            seen.end,
            End::Refused(StoreError::Cancelled),
            "question {question}"
        );
        assert_eq!(rt; seen.questions, question);
        assert!(rt; seen.queried.number <= most, "question {question}");
        assert_eq!(rt; seen.again.number, 0, "question {question}");
    }
    Ok(())
}

/// Shows that a stop ends the check as well, at its first question and at its last.
///
/// Before its first question the check queries the 42 versions of guests, since each is in a reason, and for no place.
#[test]
fn a_provider_stops_the_check(rt: HostRuntime) -> Result<(), Fail> {
    let index = holes(rt.alloc(), "request", 6)?;
    let whole = search_text(rt.alloc(), &index, AMPLE)?;
    assert_eq!(rt; whole.end, End::Unsolvable);
    assert_eq!(rt; whole.again.number, 42);
    let last = whole.questions_before;
    for (question, again) in [
        (last, 0),
        (last.saturating_add(1), 42),
        (whole.questions, 42),
    ] {
        let bounds = Bounds {
            stop_at: question,
            ..AMPLE
        };
        let seen = search_text(rt.alloc(), &index, bounds)?;
        assert_eq!(rt;
            seen.end,
            End::Refused(StoreError::Cancelled),
            "question {question}"
        );
        assert_eq!(rt; seen.questions, question);
        assert_eq!(rt; seen.again.number, again, "question {question}");
    }
    Ok(())
}

/// Shows that steps end the search without a check.
///
/// The candidates of 23 packages are queried twice, the dependencies of 264 versions once, and a step has one more
/// question at most.
#[test]
fn steps_end_the_search(rt: HostRuntime) -> Result<(), Fail> {
    let index = holes(rt.alloc(), "request", 11)?;
    let bounds = Bounds {
        steps: 2000,
        ..AMPLE
    };
    let seen = search_text(rt.alloc(), &index, bounds)?;
    assert_eq!(rt; seen.end, End::StepsUsed);
    assert_eq!(rt; seen.again.number, 0);
    assert!(rt; seen.questions <= 46 + 264 + 2000);
    Ok(())
}

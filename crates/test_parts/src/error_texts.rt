//! What errors tell.
use script_text::ScriptFault;
use std::fmt::Display;
use std::test::Fail;
use test_support::is_same;
use typed_ids::{InsertError, StoreError};

/// Each refusal, and what it is told by.
const REFUSALS: [(StoreError, &str); 12] = [
    (StoreError::OutOfMemory, "out of memory"),
    (StoreError::IdSpace, "no id is left"),
    (StoreError::UnknownId, "unknown id"),
    (StoreError::LevelOutOfRange, "level out of range"),
    (StoreError::NotLoaded, "requirement not loaded"),
    (
        StoreError::NegatesParent,
        "the condition negates the parent",
    ),
    (StoreError::BadWatch, "the watch can't be moved so"),
    (StoreError::BadLearnt, "not a learnt clause"),
    (StoreError::EmptyTrail, "the trail is empty"),
    (StoreError::BadFraction, "not a fraction of at most one"),
    (StoreError::TooManyClauses, "too many clauses"),
    (StoreError::Cancelled, "cancelled"),
];

#[test]
fn errors_say_what_is_wrong(rt: HostRuntime) -> Result<(), Fail> {
    each_says(&rt, &REFUSALS)?;
    let refused = InsertError {
        error: StoreError::IdSpace,
        value: 7u32,
    };
    each_says(&rt, &[(refused, "no id is left")])?;
    let faults = [
        (ScriptFault::Unreadable(3), "line 3 is unreadable"),
        (ScriptFault::Device, "a read or a write failed"),
        (ScriptFault::Memory, "out of memory"),
    ];
    each_says(&rt, &faults)
}

/// Each error is told by the text beside it.
fn each_says<E: Display>(rt: &impl AllocGlobal, rows: &[(E, &str)]) -> Result<(), Fail> {
    for (error, text) in rows {
        let told = format!(in rt.alloc(); "{error}")?;
        let is_said = is_same(told.as_str(), *text);
        drop(told);
        is_said?;
    }
    Ok(())
}

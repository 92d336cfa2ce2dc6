//! Conditions that are nested deep, and such as have a normal form that no memory would hold.
use providers::{Interner, convert_conditions_to_dnf};
use script_packages::read_catalogue;
use std::alloc::{Allocator, Global};
use std::test::Fail;
use test_support::{Refusing, is_same};
use typed_ids::{ConditionId, StoreError};

/// Where a condition joins the one before it. At its other side there is a version set.
enum Before {
    Left,
    Right,
    BothSides,
}

/// How many lists a normal form has, and how many version sets are in the first of them.
type Size = (usize, usize);

/// The word that joins, and where; how many conditions join the one before them; the number of the request that is
/// refused, if one is; and the answer.
type Case = (&'static str, Before, u32, u64, Result<Size, StoreError>);

/// One list with each version set, or a list for each version set; but neither of 2^64 of them.
const CASES: [Case; 6] = [
    ("and", Before::Left, 100_000, 0, Ok((1, 100_001))),
    ("and", Before::Right, 100_000, 0, Ok((1, 100_001))),
    (
        "and",
        Before::BothSides,
        64,
        16,
        Err(StoreError::OutOfMemory),
    ),
    ("or", Before::Left, 100_000, 0, Ok((100_001, 1))),
    ("or", Before::Right, 100_000, 0, Ok((100_001, 1))),
    (
        "or",
        Before::BothSides,
        64,
        1000,
        Err(StoreError::OutOfMemory),
    ),
];

#[test]
fn conditions_may_be_nested_deep_but_not_too_large(rt: HostRuntime) -> Result<(), Fail> {
    for (place, (word, before, depth, refused, wanted)) in CASES.iter().enumerate() {
        let text = catalogue(rt.alloc(), word, before, *depth)?;
        let heap = Refusing::new(rt.alloc());
        heap.arm(*refused);
        let seen = size_in(rt.alloc(), &heap, text.as_bytes(), *depth);
        drop(heap);
        drop(text);
        is_same((place, seen?), (place, *wanted))?;
    }
    Ok(())
}

/// A version set, its condition, and as many conditions as asked for, each of which joins the one before it.
fn catalogue(alloc: Global, word: &str, before: &Before, depth: u32) -> Result<String, Fail> {
    let mut text = String::from_str(alloc, "package p 1\nset p 1 2\ncondition set 0\n")?;
    for number in 0..depth {
        let (left, right) = match before {
            Before::Left => (number, 0),
            Before::Right => (0, number),
            Before::BothSides => (number, number),
        };
        writeln!(text, "condition {word} {left} {right}")?;
    }
    text.push_str("begin\n")?;
    Ok(text)
}

/// The size of the normal form of a catalogue's condition, for which the heap has memory.
fn size_in<A: Allocator + Copy>(
    alloc: Global,
    heap: A,
    catalogue: &[u8],
    condition: u32,
) -> Result<Result<Size, StoreError>, Fail> {
    match read_catalogue(alloc, catalogue) {
        Ok(Some(catalogue)) => {
            let seen = size(heap, &catalogue.packages, condition);
            drop(catalogue);
            Ok(seen)
        }
        _ => Err(Fail::new("the catalogue has a begin")),
    }
}

/// The size of a condition's normal form; nothing, if the interner doesn't know it.
fn size<I: Interner, A: Allocator + Copy>(
    heap: A,
    interner: &I,
    number: u32,
) -> Result<Size, StoreError> {
    if number == u32::MAX || !interner.knows_condition(ConditionId::new(number)) {
        return Ok((0, 0));
    }
    let lists = convert_conditions_to_dnf(heap, ConditionId::new(number), interner)?;
    let first = match lists.first() {
        Some(list) => list.len(),
        None => 0,
    };
    let size = (lists.len(), first);
    drop(lists);
    Ok(size)
}

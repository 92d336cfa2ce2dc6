//! Sets of places, as marks: a place is in the set if its mark is true.
ghost use Rattle.std.specs.Prelude.{◌≡◌, ◌≤◌, true, All, Contains, IfOk, IfSome, OnOk, slice_set};
ghost use Rattle.std.specs.List.{Any};
ghost use Rattle.corrections.specs.Marks.{AreApart, Extends, ExtendsAt, IsWithin, is_marked, size};

use resolvo_ids::StoreError;
use std::alloc::Allocator;

/// Whether a place is in the set.
pub(crate) fn is_marked(marks: &[bool], place: usize) -> bool
    ensures { result ≡ is_marked marks.now place }
{
    match marks.get(place) {
        Some(mark) => *mark,
        None => false,
    }
}

/// How many places are in the set.
pub(crate) fn size(marks: &[bool]) -> usize
    ensures { result ≡ size marks.now }
{
    marks.iter().filter(|mark| **mark).count()
}

/// Whether the second set has each place of the first.
fn is_within(few: &[bool], many: &[bool]) -> bool
    ensures { result ≡ true → IsWithin few.now many.now }
{
    for (place, mark) in few.iter().enumerate() {
        if *mark && !is_marked(many, place) {
            return false;
        }
    }
    true
}

/// Whether no place is in both sets.
fn are_apart(one: &[bool], other: &[bool]) -> bool
    ensures { result ≡ true → AreApart one.now other.now }
{
    for (place, mark) in one.iter().enumerate() {
        if *mark && is_marked(other, place) {
            return false;
        }
    }
    true
}

/// The first of the sets that has no place of this one.
pub(crate) fn find_apart<'s, A: Allocator>(
    sets: &'s [Vec<bool, A>],
    marks: &[bool],
) -> Option<&'s Vec<bool, A>>
    ensures { IfSome result (λ set. Contains sets.now set.now × AreApart set.now.items marks.now) }
{
    for set in sets {
        if are_apart(set, marks) {
            return Some(set);
        }
    }
    None
}

/// Whether each of the sets has at least `least` places.
pub(crate) fn are_as_large<A: Allocator>(sets: &[Vec<bool, A>], least: usize) -> bool
    ensures { result ≡ true → All (λ set. least ≤ size set.items) sets.now }
{
    for set in sets {
        if size(set) < least {
            return false;
        }
    }
    true
}

/// The set, and a place that its list has.
fn with<A: Allocator>(alloc: A, marks: &[bool], place: usize) -> Result<Vec<bool, A>, StoreError>
    ensures { IfOk result (λ more. more.items ≡ slice_set marks.now place true) }
{
    let mut more = marks.to_vec(alloc)?;
    if place < more.len() {
        more[place] = true;
    }
    Ok(more)
}

/// Whether one of the sets is within this one.
fn is_any_within<A: Allocator>(sets: &[Vec<bool, A>], marks: &[bool]) -> bool
    ensures { result ≡ true → Any (λ set. IsWithin set.items marks.now) sets.now }
{
    for set in sets {
        if is_within(set, marks) {
            return true;
        }
    }
    false
}

/// Adds this set with one place more, unless one of the sets is within that.
fn add_with<A: Allocator + Copy>(
    sets: &mut Vec<Vec<bool, A>, A>,
    marks: &[bool],
    place: usize,
) -> Result<(), StoreError>
    ensures { OnOk result (ExtendsAt sets.old.items sets.new.items marks.now place) }
{
    let more = with(*sets.allocator(), marks, place)?;
    if is_any_within(sets, &more) {
        return Ok(());
    }
    sets.push(more)?;
    Ok(())
}

/// Adds this set with each place of the conflict in turn, unless one of the sets is within that.
pub(crate) fn add_extensions<A: Allocator + Copy>(
    sets: &mut Vec<Vec<bool, A>, A>,
    marks: &[bool],
    conflict: &[bool],
) -> Result<(), StoreError>
    ensures { OnOk result (Extends sets.old.items sets.new.items marks.now conflict.now) }
{
    for (place, is_in_conflict) in conflict.iter().enumerate() {
        if *is_in_conflict {
            add_with(sets, marks, place)?;
        }
    }
    Ok(())
}

//! Literals, groups, and what a group that becomes false or isn't false any more does to its clauses.
ghost use Rattle.std.specs.Prelude.{◌≡◌, ◌<◌, ◌≤◌, ◌+◌, ◌-◌, ◌^◌, ℕ, length, slice_index, slice_set, vec_len};
ghost use Rattle.clause_counters.specs.Links.{IsLinked, numbers_at, count};
ghost use Rattle.clause_counters.specs.Counted.{CountsMembers, group_at, with_left};

use crate::falsified_heap::FalsifiedHeap;
use crate::links::Link;
use std::alloc::Allocator;

/// A literal that may stand in groups.
#[derive(Clone, Copy, Debug, PartialEq, Eq)]
pub(crate) struct Standing {
    /// Whether it is false, if it stands in a group; else this says nothing.
    pub(crate) is_false: bool,
    /// The list of the groups in which it stands: of each it has one place.
    pub(crate) groups: u32,
}

/// Literals that are false together or aren't.
#[derive(Clone, Copy, Debug, PartialEq, Eq)]
pub(crate) struct Group {
    /// How many of its places hold a literal that isn't false.
    pub(crate) left: u32,
    /// The list of the clauses that have it, each once for each membership.
    pub(crate) clauses: u32,
}

/// One place more of the group is false; with the last one the group is, and each of its clauses counts one less.
pub(crate) fn lower_group<A: Allocator + Copy>(
    groups: &mut Vec<Group, A>,
    members: &[Link],
    falsified: &mut FalsifiedHeap<A>,
    group: u32,
)
    requires left { 1 ≤ (group_at groups.old.items group).left }
    requires joined { CountsMembers members.now groups.old.items falsified.old.lefts }
    ensures groups { groups.new.items ≡ with_left ((group_at groups.old.items group).left - 1) group groups.old.items }
    ensures joined { CountsMembers members.now groups.new.items falsified.new.lefts }
    ensures firsts { falsified.new.firsts ≡ falsified.old.firsts }
    ensures clauses { length falsified.new.lefts ≡ length falsified.old.lefts }
{
    let at = groups[group as usize];
    groups[group as usize].left = at.left - 1;
    if at.left == 1 {
        lower_clauses(members, falsified, at.clauses);
    }
}

/// One place fewer of the group is false; with the first one the group isn't, and each of its clauses counts one more.
pub(crate) fn raise_group<A: Allocator + Copy>(
    groups: &mut Vec<Group, A>,
    members: &[Link],
    falsified: &mut FalsifiedHeap<A>,
    group: u32,
)
    requires within { group < vec_len groups.old }
    requires few { (group_at groups.old.items group).left + 1 < 2 ^ 32 }
    requires joined { CountsMembers members.now groups.old.items falsified.old.lefts }
    ensures groups { groups.new.items ≡ with_left ((group_at groups.old.items group).left + 1) group groups.old.items }
    ensures joined { CountsMembers members.now groups.new.items falsified.new.lefts }
    ensures firsts { falsified.new.firsts ≡ falsified.old.firsts }
    ensures clauses { length falsified.new.lefts ≡ length falsified.old.lefts }
{
    let at = groups[group as usize];
    groups[group as usize].left = at.left + 1;
    if at.left == 0 {
        raise_clauses(members, falsified, at.clauses);
    }
}

/// Of each clause of the list one group more is false.
fn lower_clauses<A: Allocator + Copy>(members: &[Link], falsified: &mut FalsifiedHeap<A>, list: u32)
    requires linked { IsLinked members.now }
    requires within { list ≤ length members.now }
    requires enough { (c : ℕ) → count c (numbers_at members.now list) ≤ slice_index falsified.old.lefts c }
    ensures lefts { (c : ℕ) →
        slice_index falsified.new.lefts c + count c (numbers_at members.now list) ≡ slice_index falsified.old.lefts c }
    ensures firsts { falsified.new.firsts ≡ falsified.old.firsts }
    ensures clauses { length falsified.new.lefts ≡ length falsified.old.lefts }
{
    let mut rest = list;
    while rest != 0 {
        let link = members[(rest - 1) as usize];
        falsified.lower(link.value);
        rest = link.next;
    }
}

/// Of each clause of the list one group fewer is false.
fn raise_clauses<A: Allocator + Copy>(members: &[Link], falsified: &mut FalsifiedHeap<A>, list: u32)
    requires linked { IsLinked members.now }
    requires within { list ≤ length members.now }
    requires known { (c : ℕ) → length falsified.old.lefts ≤ c → count c (numbers_at members.now list) ≡ 0 }
    requires few { (c : ℕ) → slice_index falsified.old.lefts c + count c (numbers_at members.now list) < 2 ^ 8 }
    ensures lefts { (c : ℕ) →
        slice_index falsified.new.lefts c ≡ slice_index falsified.old.lefts c + count c (numbers_at members.now list) }
    ensures firsts { falsified.new.firsts ≡ falsified.old.firsts }
    ensures clauses { length falsified.new.lefts ≡ length falsified.old.lefts }
{
    let mut rest = list;
    while rest != 0 {
        let link = members[(rest - 1) as usize];
        falsified.raise(link.value);
        rest = link.next;
    }
}

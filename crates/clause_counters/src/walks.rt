//! Changes the counters of all groups in which a literal stands.
ghost use Rattle.std.specs.Prelude.{◌≡◌, ◌<◌, ◌≤◌, ◌+◌, ◌^◌, ℕ, length, map, vec_len};
ghost use Rattle.clause_counters.specs.Links.{IsLinked, numbers_at, count};
ghost use Rattle.clause_counters.specs.Counted.{CountsMembers, group_at, clause_lists};

use crate::falsified_heap::FalsifiedHeap;
use crate::groups::{Group, lower_group, raise_group};
use crate::links::Link;
use std::alloc::Allocator;

/// A literal became false: lowers the counter of each group in the literal's list, by one each time that it is listed.
pub(crate) fn lower_groups<A: Allocator + Copy>(
    groups: &mut Vec<Group, A>,
    members: &[Link],
    falsified: &mut FalsifiedHeap<A>,
    places: &[Link],
    list: u32,
)
    requires linked { IsLinked places.now }
    requires within { list ≤ length places.now }
    requires enough { (g : ℕ) → count g (numbers_at places.now list) ≤ (group_at groups.old.items g).left }
    requires joined { CountsMembers members.now groups.old.items falsified.old.lefts }
    ensures lefts { (g : ℕ) → (group_at groups.new.items g).left + count g (numbers_at places.now list) ≡
        (group_at groups.old.items g).left }
    ensures joined { CountsMembers members.now groups.new.items falsified.new.lefts }
    ensures lists { clause_lists groups.new.items ≡ clause_lists groups.old.items }
    ensures firsts { falsified.new.firsts ≡ falsified.old.firsts }
    ensures clauses { length falsified.new.lefts ≡ length falsified.old.lefts }
{
    let mut rest = list;
    while rest != 0 {
        let link = places[(rest - 1) as usize];
        lower_group(groups, members, falsified, link.value);
        rest = link.next;
    }
}

/// A literal became undecided: raises the counter of each group in the literal's list, by one each time that it is
/// listed.
pub(crate) fn raise_groups<A: Allocator + Copy>(
    groups: &mut Vec<Group, A>,
    members: &[Link],
    falsified: &mut FalsifiedHeap<A>,
    places: &[Link],
    list: u32,
)
    requires linked { IsLinked places.now }
    requires within { list ≤ length places.now }
    requires known { (g : ℕ) → length groups.old.items ≤ g → count g (numbers_at places.now list) ≡ 0 }
    requires few { (g : ℕ) → (group_at groups.old.items g).left + count g (numbers_at places.now list) < 2 ^ 32 }
    requires joined { CountsMembers members.now groups.old.items falsified.old.lefts }
    ensures lefts { (g : ℕ) → (group_at groups.new.items g).left ≡
        (group_at groups.old.items g).left + count g (numbers_at places.now list) }
    ensures joined { CountsMembers members.now groups.new.items falsified.new.lefts }
    ensures lists { clause_lists groups.new.items ≡ clause_lists groups.old.items }
    ensures firsts { falsified.new.firsts ≡ falsified.old.firsts }
    ensures clauses { length falsified.new.lefts ≡ length falsified.old.lefts }
{
    let mut rest = list;
    while rest != 0 {
        let link = places[(rest - 1) as usize];
        raise_group(groups, members, falsified, link.value);
        rest = link.next;
    }
}

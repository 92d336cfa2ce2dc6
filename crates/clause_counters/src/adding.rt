//! Literals get places of a group, and a clause becomes a member of its groups.
ghost use Rattle.std.specs.Prelude.{◌≡◌, ◌<◌, ◌≤◌, ◌+◌, ◌^◌, ◌==◌, ℕ};
ghost use Rattle.std.specs.Prelude.{Bool, not, ◌&&◌, length};
ghost use Rattle.std.specs.Prelude.{vec_len, vec_capacity, if◌then◌else◌, List, OnOk, OnErr, IfErr};
ghost use Rattle.typed_ids.specs.declared.error.StoreError.TheVariants.{OutOfMemory};
ghost use Rattle.clause_counters.specs.declared.links.Link.{Link};
ghost use Rattle.std.specs.List.{All};
ghost use Rattle.decisions.specs.Decisions.{values_in};
ghost use Rattle.decisions.specs.Literals.{is_false_literal};
ghost use Rattle.decisions.specs.LiteralIndex.{literal_index};
ghost use Rattle.clause_counters.specs.Links.{IsLinked, numbers_at, count};
ghost use Rattle.clause_counters.specs.Counted.{standing_at, group_at, all_places};
ghost use Rattle.clause_counters.specs.Counted.{open_places, all_members, open_members};
ghost use Rattle.clause_counters.specs.GroupedClauses.{once};
ghost use Rattle.clause_counters.specs.Adding.{IsStanding, IsMember, initial_flag, is_newest, with_place_once};
ghost use Rattle.clause_counters.specs.Adding.{placed_once, with_member, joined_at, AreFlagged, open_count};

use crate::groups::{Group, Standing};
use crate::links::Link;
use decisions::{DecisionMap, Literal};
use std::alloc::Allocator;
use typed_ids::{DenseIndex, StoreError};

/// Grows the table of literals as far as the literals of the list need, and no further. It never shrinks.
pub(crate) fn pad<A: Allocator + Copy>(
    literals: &mut Vec<Standing, A>,
    list: &[Literal],
) -> Result<(), StoreError>
    ensures same { (l : ℕ) → standing_at literals.new.items l ≡ standing_at literals.old.items l }
    ensures all { (places : List Link) (g : ℕ) →
        all_places places literals.new.items g ≡ all_places places literals.old.items g }
    ensures left { (places : List Link) (g : ℕ) →
        open_places places literals.new.items g ≡ open_places places literals.old.items g }
    ensures reached { OnOk result (All (λ l. literal_index l < vec_len literals.new) list.now) }
    ensures needed { (n : ℕ) → vec_len literals.old ≤ n → All (λ l. literal_index l < n) list.now
        → vec_len literals.new ≤ n }
    ensures err { OnErr result (literals.new.items ≡ literals.old.items) }
    ensures memory { IfErr result (λ e. e ≡ OutOfMemory) }
{
    let end = end_of(list, literals.len());
    let nowhere = Standing {
        is_false: false,
        groups: 0,
    };
    literals.resize(end, nowhere)?;
    Ok(())
}

/// The length that the table needs for the literals, or what it has if that is more.
fn end_of(list: &[Literal], len: usize) -> usize
    ensures least { len ≤ result }
    ensures reached { All (λ l. literal_index l < result) list.now }
    ensures needed { (n : ℕ) → len ≤ n → All (λ l. literal_index l < n) list.now → result ≤ n }
{
    let mut end = len;
    for literal in list {
        end = end.max(literal.to_index() + 1);
    }
    end
}

/// The flag of a literal that gets a place: the new one if it stands in no group yet, otherwise the one that it has.
fn flag_of(at: Standing, new_flag: bool) -> bool
    ensures { result ≡ initial_flag at new_flag }
{
    if at.groups == 0 {
        new_flag
    } else {
        at.is_false
    }
}

/// Whether the values make the literal false.
fn is_false<A: Allocator + Copy>(literal: Literal, values: &DecisionMap<A>) -> bool
    ensures { result ≡ is_false_literal (values_in values.now) literal }
{
    match literal.eval(values) {
        Some(value) => !value,
        None => false,
    }
}

/// Whether the literal's newest place is of the group.
fn is_newest(places: &[Link], at: Standing, group: u32) -> bool
    requires { at.groups ≤ length places.now }
    ensures { result ≡ is_newest places.now at group }
{
    at.groups != 0 && places[(at.groups - 1) as usize].value == group
}

/// Gives the literal at the index a place in the group, unless its newest place is in this group. Answers whether it
/// got a place and isn't false.
fn place<A: Allocator + Copy>(
    literals: &mut Vec<Standing, A>,
    places: &mut Vec<Link, A>,
    group: u32,
    index: usize,
    new_flag: bool,
) -> bool
    requires within { index < vec_len literals.old }
    requires standing { (standing_at literals.old.items index).groups ≤ vec_len places.old }
    requires room { vec_len places.old < vec_capacity places.old }
    requires few { vec_len places.old + 1 < 2 ^ 32 }
    ensures places { places.new.items ≡ with_place_once places.old.items literals.old.items index group }
    ensures literals { literals.new.items ≡ placed_once places.old.items literals.old.items index group new_flag }
    ensures left { let at = standing_at literals.old.items index in
        result ≡ (not (is_newest places.old.items at group) && not (initial_flag at new_flag)) }
    ensures capacity { vec_capacity places.new ≡ vec_capacity places.old }
{
    let at = literals[index];
    if is_newest(places, at, group) {
        return false;
    }
    let is_false = flag_of(at, new_flag);
    places.push_reserved(Link {
        value: group,
        next: at.groups,
    });
    literals[index] = Standing {
        is_false,
        groups: places.len() as u32,
    };
    !is_false
}

/// Gives each literal of the list one place in the group, which has no places yet. Answers how many of the new places
/// hold a literal that isn't false.
pub(crate) fn place_literals<A: Allocator + Copy>(
    literals: &mut Vec<Standing, A>,
    places: &mut Vec<Link, A>,
    list: &[Literal],
    values: &DecisionMap<A>,
    group: u32,
) -> u32
    requires standing { IsStanding places.old.items literals.old.items }
    requires new { all_places places.old.items literals.old.items group ≡ 0 }
    requires reached { All (λ l. literal_index l < vec_len literals.old) list.now }
    requires room { vec_len places.old + length list.now ≤ vec_capacity places.old }
    requires few { vec_len places.old + length list.now < 2 ^ 32 }
    ensures standing { IsStanding places.new.items literals.new.items }
    ensures lists { (i g : ℕ) → count g (numbers_at places.new.items (standing_at literals.new.items i).groups) ≡
        count g (numbers_at places.old.items (standing_at literals.old.items i).groups)
        + (if group == g then once i list.now else 0) }
    ensures all { (g : ℕ) → all_places places.new.items literals.new.items g ≤
        all_places places.old.items literals.old.items g + (if group == g then length list.now else 0) }
    ensures left { (g : ℕ) → open_places places.new.items literals.new.items g ≡
        open_places places.old.items literals.old.items g + (if group == g then result else 0) }
    ensures flags { (is_false : ℕ → Bool) → AreFlagged places.old.items literals.old.items is_false
        → All (λ l. is_false (literal_index l) ≡ is_false_literal (values_in values.now) l) list.now
        → AreFlagged places.new.items literals.new.items is_false }
{
    let mut left = 0u32;
    for literal in list {
        let new_flag = is_false(*literal, values);
        let is_left = place(literals, places, group, literal.to_index(), new_flag);
        left += u32::from(is_left);
    }
    left
}

/// Makes the clause a member of each group of the list, once for each time that the list has the group.
pub(crate) fn join_groups<A: Allocator + Copy>(
    groups: &mut Vec<Group, A>,
    members: &mut Vec<Link, A>,
    list: &[u32],
    clause: u32,
)
    requires member { IsMember members.old.items groups.old.items }
    requires known { All (λ g. g < vec_len groups.old) list.now }
    requires room { vec_len members.old + length list.now ≤ vec_capacity members.old }
    requires few { vec_len members.old + length list.now < 2 ^ 32 }
    ensures member { IsMember members.new.items groups.new.items }
    ensures lists { (g c : ℕ) → count c (numbers_at members.new.items (group_at groups.new.items g).clauses) ≡
        count c (numbers_at members.old.items (group_at groups.old.items g).clauses)
        + (if clause == c then count g list.now else 0) }
    ensures all { (c : ℕ) → all_members members.new.items groups.new.items c ≡
        all_members members.old.items groups.old.items c + (if clause == c then length list.now else 0) }
    ensures counts { (c : ℕ) → open_members members.new.items groups.new.items c ≡
        open_members members.old.items groups.old.items c
        + (if clause == c then open_count groups.old.items list.now else 0) }
    ensures lefts { (g : ℕ) → (group_at groups.new.items g).left ≡ (group_at groups.old.items g).left }
    ensures len { vec_len groups.new ≡ vec_len groups.old }
{
    for group in list {
        join(groups, members, *group, clause);
    }
}

/// Makes the clause a member of the group.
fn join<A: Allocator + Copy>(
    groups: &mut Vec<Group, A>,
    members: &mut Vec<Link, A>,
    group: u32,
    clause: u32,
)
    requires within { group < vec_len groups.old }
    requires room { vec_len members.old < vec_capacity members.old }
    requires few { vec_len members.old + 1 < 2 ^ 32 }
    ensures members { members.new.items ≡ with_member members.old.items groups.old.items group clause }
    ensures groups { groups.new.items ≡ joined_at members.old.items groups.old.items group }
    ensures capacity { vec_capacity members.new ≡ vec_capacity members.old }
{
    let at = groups[group as usize];
    members.push_reserved(Link {
        value: clause,
        next: at.clauses,
    });
    groups[group as usize].clauses = members.len() as u32;
}

/// How many groups of the list are open here, that is, aren't false.
pub(crate) fn count_open(groups: &[Group], list: &[u32]) -> u8
    requires known { All (λ g. g < length groups.now) list.now }
    requires few { length list.now ≤ 3 }
    ensures { result ≡ open_count groups.now list.now }
{
    let mut left = 0u8;
    for group in list {
        left += u8::from(groups[*group as usize].left != 0);
    }
    left
}

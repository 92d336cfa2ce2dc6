//! Whether a condition holds, by its normal form: a caller that knows nothing of it but the contract.
ghost use Rattle.std.specs.Prelude.{◌≡◌, true, map, IfOk};
ghost use Rattle.std.specs.List.{list_all};
ghost use Rattle.providers.specs.Conditions.{Formula, Denotes, form_holds, formula_holds};
ghost use Rattle.test_part_calls.specs.Met.{holds_in};

use providers::{Interner, convert_conditions_to_dnf};
use std::alloc::Allocator;
use typed_ids::{ConditionId, StoreError, VersionSetId};

/// Whether the condition holds, where it is listed which version sets hold; those past the end don't.
pub fn condition_holds<I: Interner, A: Allocator + Copy>(
    alloc: A,
    condition: ConditionId,
    interner: &I,
    sets: &[bool],
) -> Result<bool, StoreError>
    requires { (I.universe interner.now).knows_condition condition ≡ true }
    ensures { (f : Formula) → Denotes (I.universe interner.now) condition f →
        IfOk result (λ met. met ≡ formula_holds (holds_in sets.now) f) }
{
    let lists = convert_conditions_to_dnf(alloc, condition, interner)?;
    let condition_holds = form_holds(&lists, sets);
    drop(lists);
    Ok(condition_holds)
}

/// Whether all version sets of one of the lists hold.
fn form_holds<A: Allocator>(lists: &[Vec<VersionSetId, A>], sets: &[bool]) -> bool
    ensures { result ≡ form_holds (holds_in sets.now) (map (λ l. l.items) lists.now) }
{
    lists.iter().any(|list| all_hold(list, sets))
}

fn all_hold(list: &[VersionSetId], sets: &[bool]) -> bool
    ensures { result ≡ list_all (holds_in sets.now) list.now }
{
    list.iter().all(|set| holds(*set, sets))
}

fn holds(set: VersionSetId, sets: &[bool]) -> bool
    ensures { result ≡ holds_in sets.now set }
{
    sets.get(set.0 as usize).copied().unwrap_or(false)
}

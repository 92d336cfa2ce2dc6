//! The conversion of a condition into its normal form.
ghost use Rattle.std.specs.Prelude.{◌≡◌, ◌++◌, ◌∷◌, [], true, map, option_to_list};
ghost use Rattle.std.specs.Prelude.{IfNone, Bool, OnOk, OnErr, IfOk, IfErr};
ghost use Rattle.typed_ids.specs.declared.version_set_id.VersionSetId.{VersionSetId};
ghost use Rattle.typed_ids.specs.declared.error.StoreError.TheVariants.{OutOfMemory};
ghost use Rattle.providers.specs.Conditions.{Formula, Denotes, normal_form, form_holds, formula_holds};
ghost use Rattle.providers.specs.Expansion.{expanded};

use crate::alternative::Alternative;
use crate::condition::{Condition, LogicalOperator};
use crate::interner::Interner;
use std::alloc::Allocator;
use std::marker::Model;
use typed_ids::{ConditionId, StoreError, VersionSetId};

/// The disjunctive normal form of a condition, which is known: the condition holds where, of one of the lists, each
/// version set does. A version set is one list of one; of two conditions that are joined by "or", the lists of the
/// right one come behind those of the left one; of two that are joined by "and", each list of the left one is joined
/// with each list of the right one, left outer.
///
/// There may be very many lists, since "and" multiplies those of its two sides; time and memory follow what is
/// answered. The stack doesn't grow with the depth.
pub fn convert_conditions_to_dnf<I: Interner, A: Allocator + Copy>(
    alloc: A,
    condition: ConditionId,
    interner: &I,
) -> Result<Vec<Vec<VersionSetId, A>, A>, StoreError>
    requires { (I.universe interner.now).knows_condition condition ≡ true }
    ensures written { (f : Formula) × Denotes (I.universe interner.now) condition f }
    ensures form { (f : Formula) → Denotes (I.universe interner.now) condition f →
        IfOk result (λ lists. map (λ l. l.items) lists.items ≡ normal_form f) }
    ensures truth { (f : Formula) → Denotes (I.universe interner.now) condition f → (holds : VersionSetId → Bool) →
        IfOk result (λ lists. form_holds holds (map (λ l. l.items) lists.items) ≡ formula_holds holds f) }
    ensures memory { IfErr result (λ e. e ≡ OutOfMemory) }
{
    let mut expansion = Expansion::new(alloc);
    match expand_all(&mut expansion, condition, interner) {
        Ok(()) => Ok(expansion.into_lists()),
        Err(error) => {
            drop(expansion);
            Err(error)
        }
    }
}

/// Takes the alternatives in turn, until none is left.
fn expand_all<I: Interner, A: Allocator + Copy>(
    expansion: &mut Expansion<A>,
    condition: ConditionId,
    interner: &I,
) -> Result<(), StoreError>
    requires known { (I.universe interner.now).knows_condition condition ≡ true }
    requires empty { expansion.old ≡ record { alternatives = []; lists = [] } }
    ensures form { (f : Formula) → Denotes (I.universe interner.now) condition f →
        OnOk result (expansion.new.lists ≡ normal_form f) }
    ensures memory { IfErr result (λ e. e ≡ OutOfMemory) }
{
    expansion.begin(condition)?;
    while let Some(mut alternative) = expansion.take_next() {
        match alternative.next() {
            Some(condition) => {
                expansion.expand(alternative, &interner.resolve_condition(condition))?;
            }
            None => expansion.finish(alternative)?,
        }
    }
    Ok(())
}

/// What is left to convert, and the lists that are done.
#[derive(Drop)]
struct Expansion<A: Allocator + Copy> {
    /// The last comes next.
    alternatives: Vec<Alternative<A>, A>,
    lists: Vec<Vec<VersionSetId, A>, A>,
    alloc: A,
}

impl<A: Allocator + Copy> Model for Expansion<A> {
    ghost use Rattle.std.specs.Prelude.{map};
    ghost use Rattle.providers.specs.Expansion as spec;

    ghost Value = { spec.Expansion };

    ghost view = { λ e. record { alternatives = e.alternatives.items; lists = map (λ l. l.items) e.lists.items } };
}

impl<A: Allocator + Copy> Expansion<A> {
    fn new(alloc: A) -> Self
        ensures { result ≡ record { alternatives = []; lists = [] } }
    {
        Expansion {
            alternatives: Vec::new(alloc),
            lists: Vec::new(alloc),
            alloc,
        }
    }

    /// Begins with the lists of this condition.
    fn begin(&mut self, condition: ConditionId) -> Result<(), StoreError>
        ensures ok { OnOk result
            (self.new ≡ record {
              alternatives = self.old.alternatives ++
                  record { sets = []; pending = condition ∷ [] } ∷ [];
              lists = self.old.lists;
            }) }
        ensures memory { IfErr result (λ e. e ≡ OutOfMemory) }
    {
        let first = Alternative::of_condition(self.alloc, condition)?;
        self.alternatives.push(first)?;
        Ok(())
    }

    /// Takes away the next alternative.
    fn take_next(&mut self) -> Option<Alternative<A>>
        ensures alternatives { self.old.alternatives ≡ self.new.alternatives ++ option_to_list result }
        ensures none { IfNone result (self.old.alternatives ≡ []) }
        ensures lists { self.new.lists ≡ self.old.lists }
    {
        self.alternatives.pop()
    }

    /// Keeps the list of an alternative of which nothing is pending.
    fn finish(&mut self, alternative: Alternative<A>) -> Result<(), StoreError>
        ensures ok { OnOk result
            (self.new ≡ record {
              alternatives = self.old.alternatives;
              lists = self.old.lists ++ alternative.sets ∷ [];
            }) }
        ensures memory { IfErr result (λ e. e ≡ OutOfMemory) }
    {
        self.lists.push(alternative.into_sets())?;
        Ok(())
    }

    /// Puts back what becomes of an alternative whose next condition was taken away, and is this one.
    fn expand(
        &mut self,
        mut alternative: Alternative<A>,
        condition: &Condition,
    ) -> Result<(), StoreError>
        ensures ok { OnOk result
            (self.new ≡ record {
              alternatives = self.old.alternatives ++ expanded alternative condition.now;
              lists = self.old.lists;
            }) }
        ensures memory { IfErr result (λ e. e ≡ OutOfMemory) }
    {
        match condition {
            Condition::Requirement(set) => alternative.push_set(set)?,
            Condition::Binary(LogicalOperator::And, left, right) => {
                alternative.push_condition(right)?;
                alternative.push_condition(left)?;
            }
            Condition::Binary(LogicalOperator::Or, left, right) => {
                let other = alternative.followed_by(self.alloc, right)?;
                self.alternatives.push(other)?;
                alternative.push_condition(left)?;
            }
        }
        self.alternatives.push(alternative)?;
        Ok(())
    }

    /// The lists that are done.
    fn into_lists(self) -> Vec<Vec<VersionSetId, A>, A>
        ensures { map (λ l. l.items) result.items ≡ self.lists }
    {
        let Expansion {
            alternatives,
            lists,
            alloc: _,
        } = self;
        drop(alternatives);
        lists
    }
}

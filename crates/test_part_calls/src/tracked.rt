//! Variables of which at most one may be true, with all clauses that say so.
ghost use Rattle.std.specs.Prelude.{◌≡◌, [], ◌∷◌, not, false, IfOk, OnOk, IfErr, OnErr};
ghost use Rattle.typed_ids.specs.declared.error.StoreError.TheVariants.{OutOfMemory};
ghost use Rattle.at_most_once.specs.AtMostOne.{empty, is_tracked, needs_helper, with_variable};
ghost use Rattle.at_most_once.specs.AtMostOne.{IsAllowed, SaysAtMostOne, is_satisfied};

use at_most_once::AtMostOnceTracker;
use std::alloc::Allocator;
use std::hash::Hash;
use std::marker::Model;
use typed_ids::StoreError;

/// A tracker, and the clauses that it appended.
#[derive(Drop)]
pub struct TrackedVariables<V: Eq + Hash + Copy, A: Allocator + Copy> {
    tracker: AtMostOnceTracker<V, A>,
    clauses: Vec<(V, V, bool), A>,
}

/// Tracker and clauses, as additions to an empty tracker leave them.
impl<V: Eq + Hash + Copy, A: Allocator + Copy> Model for TrackedVariables<V, A> {
    ghost use Rattle.std.specs.Prelude.{List};
    ghost use Rattle.at_most_once.specs.AtMostOne.{Tracker, BitClause, IsEncoding};

    ghost Value = { Tracker V × List (BitClause V) };

    ghost view = { λ t. (t.tracker.tracker, t.clauses.items) };

    ghost invariant = { λ t. IsEncoding V.eq t.tracker.tracker t.clauses.items };
}

impl<V: Eq + Hash + Copy, A: Allocator + Copy> TrackedVariables<V, A> {
    /// Nothing is tracked.
    pub fn new(alloc: A) -> Self
        ensures { result.0 ≡ empty }
    {
        TrackedVariables {
            tracker: AtMostOnceTracker::new(alloc),
            clauses: Vec::new(alloc),
        }
    }

    /// Whether the addition of this variable needs a helper more.
    pub fn needs_helper(&self, variable: &V) -> bool
        ensures { result ≡ needs_helper V.eq self.now.0 variable.now }
    {
        self.tracker.needs_helper(variable)
    }

    /// Tracks a variable, with a helper where one is needed. Answers whether it is new.
    pub fn add(&mut self, variable: V, helper: Option<V>) -> Result<bool, StoreError>
        requires { IsAllowed V.eq self.old.0 helper variable }
        ensures added { IfOk result (λ added. added ≡ not (is_tracked V.eq self.old.0 variable)) }
        ensures ok { OnOk result (self.new.0 ≡ with_variable V.eq self.old.0 helper variable) }
        ensures err { OnErr result (self.new ≡ self.old) }
        ensures memory { IfErr result (λ e. e ≡ OutOfMemory) }
    {
        self.tracker.add(variable, helper, &mut self.clauses)
    }

    /// The clauses. They can be met by choosing helpers exactly when at most one variable is true; n variables have n *
    /// k clauses, k the least number with n <= 2^k.
    pub fn clauses(&self) -> &[(V, V, bool)]
        ensures { SaysAtMostOne V.eq is_satisfied self.now.0 result.now }
    {
        self.clauses.as_slice()
    }
}

/// The clauses of two variables, which can be met by choosing the helper exactly when at most one of the two is true.
pub fn one_of_two<V: Eq + Hash + Copy, A: Allocator + Copy>(
    alloc: A,
    first: V,
    second: V,
    helper: V,
) -> Result<Vec<(V, V, bool), A>, StoreError>
    requires different { V.eq second first ≡ false }
    requires other_than_first { V.eq helper first ≡ false }
    requires other_than_second { V.eq helper second ≡ false }
    ensures { IfOk result (λ clauses. SaysAtMostOne V.eq is_satisfied
        (record { variables = first ∷ second ∷ []; helpers = helper ∷ [] }) clauses.items) }
{
    let mut clauses = Vec::new(alloc);
    let mut tracker = AtMostOnceTracker::new(alloc);
    tracker.add(first, None, &mut clauses)?;
    tracker.add(second, Some(helper), &mut clauses)?;
    Ok(clauses)
}

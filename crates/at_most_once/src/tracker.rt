//! The variables of which at most one may be true, and their helpers.
ghost use Rattle.std.specs.Prelude.{◌≡◌, ◌≤◌, ◌+◌, ◌-◌, ◌^◌, ◌++◌, [], ◌&&◌, not, nat_lt, length, vec_len};
ghost use Rattle.std.specs.Prelude.{vec_capacity, is_some, IsTrue, IsOk, IfOk, OnOk, IfErr, OnErr};
ghost use Rattle.typed_ids.specs.declared.error.StoreError.TheVariants.{OutOfMemory};
ghost use Rattle.at_most_once.specs.AtMostOne.{empty, HasRoom, KeepsRoom, is_tracked, needs_helper, clauses_for};
ghost use Rattle.at_most_once.specs.AtMostOne.{with_variable, new_clauses, helper_clauses, variable_clauses};
ghost use Rattle.at_most_once.specs.AtMostOne.{IsAllowed, IsEncoding};
ghost use Rattle.at_most_once.specs.AtMostOne as def;

use indexmap::IndexSet;
use std::alloc::{Allocator, Global};
use std::hash::{BuildHasherDefault, FoldHasher, Hash};
use std::marker::Model;
use typed_ids::StoreError;

/// The number of bits in a number.
const WORD_BITS: usize = 64;

/// Variables of which at most one may be true, and the helpers that spell their numbers.
///
/// It hands out clauses and keeps none. A clause is written `(x, h, true)` for "not x or h", and `(x, h, false)` for
/// "not x or not h".
#[derive(Drop)]
pub struct AtMostOnceTracker<V: Eq + Hash + Copy, A: Allocator = Global> {
    variables: IndexSet<V, BuildHasherDefault<FoldHasher>, A>,
    helpers: Vec<V, A>,
}

/// The tracked variables and the helpers, in order, and the room for more.
impl<V: Eq + Hash + Copy, A: Allocator> Model for AtMostOnceTracker<V, A> {
    ghost use Rattle.at_most_once.specs.AtMostOne.{TrackerState};
    ghost use Rattle.at_most_once.specs.TrackerView.{tracker_in};

    ghost Value = { TrackerState V };

    ghost view = { tracker_in };
}

impl<V: Eq + Hash + Copy, A: Allocator + Copy> AtMostOnceTracker<V, A> {
    /// Nothing is tracked. Takes no memory.
    pub fn new(alloc: A) -> Self
        ensures empty { result.tracker ≡ empty }
        ensures at_most_one { IsEncoding V.eq result.tracker [] }
    {
        AtMostOnceTracker {
            variables: IndexSet::new(alloc),
            helpers: Vec::new(alloc),
        }
    }

    /// Whether this variable is tracked. Constant time.
    pub fn is_tracked(&self, variable: &V) -> bool
        ensures { result ≡ is_tracked V.eq self.now.tracker variable.now }
    {
        self.variables.contains(variable)
    }

    /// Whether the addition of this variable needs a helper more. Constant time. It is looked up only where the numbers
    /// are used up.
    pub fn needs_helper(&self, variable: &V) -> bool
        ensures { result ≡ needs_helper V.eq self.now.tracker variable.now }
    {
        is_past(self.variables.len(), self.helpers.len()) && !self.variables.contains(variable)
    }

    /// Appends the clauses that [`AtMostOnceTracker::add`] would append. Takes time and memory for these alone.
    pub fn clauses_for(
        &self,
        variable: &V,
        helper: Option<V>,
        clauses: &mut Vec<(V, V, bool), A>,
    ) -> Result<(), StoreError>
        ensures ok { OnOk result (clauses.new.items ≡
            clauses.old.items ++ clauses_for V.eq self.now.tracker helper variable.now) }
        ensures err { OnErr result (clauses.new.items ≡ clauses.old.items) }
        ensures memory { IfErr result (λ e. e ≡ OutOfMemory) }
    {
        if self.variables.contains(variable) {
            return Ok(());
        }
        self.append_new(*variable, helper, clauses)
    }

    /// Tracks a variable, and appends its clauses: first those of the helper that is given with it, if one is, with
    /// each earlier variable, then its own with each helper. Answers whether it is new; one that is tracked changes
    /// nothing.
    ///
    /// A helper is given exactly if [`AtMostOnceTracker::needs_helper`] says so, and is neither tracked nor a helper
    /// before. Then all clauses that a tracker appended, from the empty one on, can be met by choosing helpers exactly
    /// when at most one tracked variable is true. Takes time for the clauses that it appends.
    pub fn add(
        &mut self,
        variable: V,
        helper: Option<V>,
        clauses: &mut Vec<(V, V, bool), A>,
    ) -> Result<bool, StoreError>
        ensures at_most_one { IsEncoding V.eq self.old.tracker clauses.old.items
            → IsAllowed V.eq self.old.tracker helper variable → IsEncoding V.eq self.new.tracker clauses.new.items }
        ensures added { IfOk result (λ added. added ≡ not (is_tracked V.eq self.old.tracker variable)) }
        ensures ok { OnOk result (self.new.tracker ≡ with_variable V.eq self.old.tracker helper variable) }
        ensures ok_clauses { OnOk result (clauses.new.items ≡
            clauses.old.items ++ clauses_for V.eq self.old.tracker helper variable) }
        ensures err { OnErr result (self.new.tracker ≡ self.old.tracker) }
        ensures err_clauses { OnErr result (clauses.new.items ≡ clauses.old.items) }
        ensures tracked { IsTrue (is_tracked V.eq self.old.tracker variable) → IsOk result }
        ensures memory { IfErr result (λ e. e ≡ OutOfMemory) }
    {
        if self.is_tracked(&variable) {
            return Ok(false);
        }
        self.make_room(helper.is_some())?;
        self.append_new(variable, helper, clauses)?;
        self.add_reserved(variable, helper);
        Ok(true)
    }

    /// Makes room for one more variable, and for a helper where one comes with it: then
    /// [`AtMostOnceTracker::add_reserved`] may add them. Room that is there is kept.
    pub fn make_room(&mut self, with_helper: bool) -> Result<(), StoreError>
        ensures same { self.new.tracker ≡ self.old.tracker }
        ensures room { OnOk result (HasRoom self.new with_helper) }
        ensures succeeds { HasRoom self.old with_helper → IsOk result }
        ensures keeps { KeepsRoom self.old self.new }
        ensures memory { IfErr result (λ e. e ≡ OutOfMemory) }
    {
        self.variables.reserve(1)?;
        self.helpers.reserve(usize::from(with_helper))?;
        Ok(())
    }

    /// Tracks a variable for which there is room, as [`AtMostOnceTracker::add`] does, and appends no clauses. Takes no
    /// memory, and constant time.
    pub fn add_reserved(&mut self, variable: V, helper: Option<V>)
        requires { HasRoom self.old (is_some helper) }
        ensures { self.new.tracker ≡ with_variable V.eq self.old.tracker helper variable }
    {
        match self.variables.insert(variable) {
            Ok(true) => {}
            Ok(false) => return,
            Err(_) => unreachable!(),
        }
        if let Some(helper) = helper {
            self.helpers.push_reserved(helper);
        }
    }

    /// Appends the clauses of a variable that is new.
    fn append_new(
        &self,
        variable: V,
        helper: Option<V>,
        clauses: &mut Vec<(V, V, bool), A>,
    ) -> Result<(), StoreError>
        ensures ok { OnOk result (clauses.new.items ≡
            clauses.old.items ++ new_clauses self.now.tracker helper variable) }
        ensures err { OnErr result (clauses.new.items ≡ clauses.old.items) }
        ensures memory { IfErr result (λ e. e ≡ OutOfMemory) }
    {
        let (number, bits) = (self.variables.len(), self.helpers.len());
        match helper {
            Some(helper) => {
                clauses.reserve(number + bits + 1)?;
                push_helper(clauses, helper, bits, self.variables.as_slice());
                push_variable(clauses, variable, number, self.helpers.as_slice());
                clauses.push_reserved((variable, helper, has_bit(number, bits)));
            }
            None => {
                clauses.reserve(bits)?;
                push_variable(clauses, variable, number, self.helpers.as_slice());
            }
        }
        Ok(())
    }
}

/// Appends the clause of a helper, which stands for this bit, with each of the variables. There is room.
fn push_helper<V: Copy, A: Allocator>(
    clauses: &mut Vec<(V, V, bool), A>,
    helper: V,
    bit: usize,
    variables: &[V],
)
    requires { vec_len clauses.old + length variables.now ≤ vec_capacity clauses.old }
    ensures len { vec_len clauses.new ≡ vec_len clauses.old + length variables.now }
    ensures items { clauses.new.items ≡ clauses.old.items ++ helper_clauses bit helper variables.now }
    ensures room { vec_capacity clauses.new ≡ vec_capacity clauses.old }
{
    for (number, variable) in variables.iter().enumerate() {
        clauses.push_reserved((*variable, helper, has_bit(number, bit)));
    }
}

/// Appends the clause of a variable, which has this number, with each of the helpers. There is room.
fn push_variable<V: Copy, A: Allocator>(
    clauses: &mut Vec<(V, V, bool), A>,
    variable: V,
    number: usize,
    helpers: &[V],
)
    requires { vec_len clauses.old + length helpers.now ≤ vec_capacity clauses.old }
    ensures len { vec_len clauses.new ≡ vec_len clauses.old + length helpers.now }
    ensures items { clauses.new.items ≡ clauses.old.items ++ variable_clauses number variable helpers.now }
    ensures room { vec_capacity clauses.new ≡ vec_capacity clauses.old }
{
    for (bit, helper) in helpers.iter().enumerate() {
        clauses.push_reserved((variable, *helper, has_bit(number, bit)));
    }
}

/// Whether this bit of a number is 1.
fn has_bit(number: usize, bit: usize) -> bool
    ensures { result ≡ def.has_bit number bit }
{
    bit < WORD_BITS && (number >> bit) & 1 == 1
}

/// Whether `count` variables and one more need more bits than these.
fn is_past(count: usize, bits: usize) -> bool
    ensures { result ≡ (nat_lt 0 count && nat_lt (2 ^ bits - 1) count) }
{
    bits < WORD_BITS && count >> bits > 0
}

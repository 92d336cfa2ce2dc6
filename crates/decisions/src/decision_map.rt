//! The values of variables, and the levels at which they got them.
ghost use Rattle.std.specs.Prelude.{◌≡◌, ◌<◌, ◌≤◌, ◌↔◌, [], true, false, Some, None, option_map, IsTrue};
ghost use Rattle.std.specs.Prelude.{OnOk, OnErr, IfErr, refl};
ghost use Rattle.std.specs.Option.{option_map_or};
ghost use Rattle.std.specs.List.{list_all};
ghost use Rattle.typed_ids.specs.declared.error.StoreError.TheVariants.{OutOfMemory};
ghost use Rattle.typed_ids.specs.TotalMaps.{IsUpdate, SameValues};
ghost use Rattle.decisions.specs.Decisions.{decision_in, values_in, level_in};
ghost use Rattle.decisions.specs.Literals.{known_false};

use id_maps::IdMap;
use std::alloc::Allocator;
use std::marker::Model;
use typed_ids::{DefaultValue, DenseIndex, StoreError, VariableId};

/// The value of a variable and the level at which it got it, or neither, kept as one number: 0 is neither, else it is
/// twice the level and two, and one more if the value is true.
#[derive(Clone, Copy, Debug, PartialEq, Eq)]
struct DecisionAndLevel(u64);

impl Model for DecisionAndLevel {
    ghost use Rattle.std.specs.Prelude.{◌≢◌, ◌<◌, ◌+◌, ◌^◌, ℕ, Bool, Option};
    ghost use Rattle.std.proofs.Common.{ap};
    ghost use Rattle.decisions.specs.DecisionCode.{decision_at, code_of, code_of-decision_at};

    ghost Value = { Option (Bool × ℕ) };

    ghost view = { λ a. decision_at a.0 };

    ghost invariant = { λ a. (a.0 ≢ 1) × (a.0 < 2 ^ 33 + 2) };

    ghost inverse = { λ d. record { 0 = code_of d } };

    ghost inverse_ok = { λ a h. ap (λ (n : ℕ). record { 0 = n }) (code_of-decision_at a.0 h.0) };
}

impl DecisionAndLevel {
    /// Neither a value nor a level.
    fn undecided() -> DecisionAndLevel
        ensures { result ≡ None }
    {
        DecisionAndLevel(0)
    }

    /// A value, and the level at which the variable got it.
    fn decided(value: bool, level: u32) -> DecisionAndLevel
        ensures { result ≡ Some (value, level) }
    {
        DecisionAndLevel(2 * (u64::from(level) + 1) + u64::from(value))
    }

    /// The value, if there is one.
    fn value(self) -> Option<bool>
        ensures { result ≡ option_map (λ d. d.0) self }
    {
        if self.0 == 0 {
            return None;
        }
        Some(self.0 % 2 == 1)
    }

    /// The level, 0 if there is none.
    fn level(self) -> u32
        ensures { result ≡ option_map_or (λ d. d.1) self 0 }
    {
        if self.0 == 0 {
            return 0;
        }
        (self.0 / 2 - 1) as u32
    }

    /// Whether there is a level, and it is above this one.
    fn is_above(self, level: u32) -> bool
        ensures { IsTrue result ↔ (level < option_map_or (λ d. d.1) self 0) }
    {
        self.0 >= 2 * (u64::from(level) + 2)
    }
}

impl Default for DecisionAndLevel {
    ghost is_default = { λ d. d ≡ None };

    fn default() -> DecisionAndLevel {
        DecisionAndLevel::undecided()
    }
}

impl DefaultValue for DecisionAndLevel {
    ghost default_value = { None };

    ghost default_is = { refl };

    ghost only_default = { λ d h. h };
}

/// A map from variables to their values and levels. Reading takes constant time; a write may grow the map to the
/// variable's index.
#[derive(Drop)]
pub struct DecisionMap<A: Allocator + Copy> {
    map: Vec<DecisionAndLevel, A>,
}

impl<A: Allocator + Copy> Model for DecisionMap<A> {
    ghost use Rattle.std.specs.Prelude.{ℕ, ◌-◌, ◌^◌, Bool, List, Option};
    ghost use Rattle.typed_ids.specs.TotalMaps.{kept};

    ghost Value = { List (Option (Bool × ℕ)) };

    ghost view = { λ m. kept (2 ^ 31 - 1) m.map.items };
}

impl<A: Allocator + Copy> DecisionMap<A> {
    /// The map in which nothing is decided. Takes no memory.
    pub fn new(alloc: A) -> Self
        ensures { result ≡ [] }
    {
        DecisionMap {
            map: Vec::new(alloc),
        }
    }

    /// Forgets what was decided of the variable. Takes no memory.
    pub fn reset(&mut self, variable: VariableId)
        ensures { IsUpdate (decision_in self.old) variable None (decision_in self.new) }
    {
        if self.decision(variable).value().is_some() {
            let undecided = DecisionAndLevel::undecided();
            IdMap::<VariableId, DecisionAndLevel, A>::put(&mut self.map, variable, undecided);
        }
    }

    /// Forgets what was decided of the variable at a level above this one. Answers whether something was.
    pub(crate) fn reset_above(&mut self, variable: VariableId, level: u32) -> bool
        ensures reset { result ≡ true → (level < level_in self.old variable)
            × IsUpdate (decision_in self.old) variable None (decision_in self.new) }
        ensures left { result ≡ false → (level_in self.old variable ≤ level) × (self.new ≡ self.old) }
    {
        if !self.decision(variable).is_above(level) {
            return false;
        }
        let undecided = DecisionAndLevel::undecided();
        IdMap::<VariableId, DecisionAndLevel, A>::put(&mut self.map, variable, undecided);
        true
    }

    /// Gives the variable a value, at a level.
    pub fn set(&mut self, variable: VariableId, value: bool, level: u32) -> Result<(), StoreError>
        ensures ok { OnOk result
            (IsUpdate (decision_in self.old) variable (Some (value, level)) (decision_in self.new)) }
        ensures err { OnErr result (SameValues (decision_in self.old) (decision_in self.new)) }
        ensures memory { IfErr result (λ e. e ≡ OutOfMemory) }
    {
        if self.set_in_place(variable, value, level) {
            return Ok(());
        }
        self.set_growing(variable, value, level)
    }

    /// What [`DecisionMap::set`] does where it takes memory: apart, so that one that takes none makes no call.
    #[inline(never)]
    fn set_growing(
        &mut self,
        variable: VariableId,
        value: bool,
        level: u32,
    ) -> Result<(), StoreError>
        ensures ok { OnOk result
            (IsUpdate (decision_in self.old) variable (Some (value, level)) (decision_in self.new)) }
        ensures err { OnErr result (SameValues (decision_in self.old) (decision_in self.new)) }
        ensures memory { IfErr result (λ e. e ≡ OutOfMemory) }
    {
        let decided = DecisionAndLevel::decided(value, level);
        IdMap::<VariableId, DecisionAndLevel, A>::set(&mut self.map, variable, decided)
    }

    /// Gives the variable a value, at a level, where that takes no memory. Answers whether it did.
    fn set_in_place(&mut self, variable: VariableId, value: bool, level: u32) -> bool
        ensures set { result ≡ true →
            IsUpdate (decision_in self.old) variable (Some (value, level)) (decision_in self.new) }
        ensures left { result ≡ false → self.new ≡ self.old }
    {
        if variable.to_index() >= self.map.len() {
            return false;
        }
        let decided = DecisionAndLevel::decided(value, level);
        IdMap::<VariableId, DecisionAndLevel, A>::put(&mut self.map, variable, decided);
        true
    }

    /// The level at which the variable got its value, 0 if it has none.
    pub fn level(&self, variable: VariableId) -> u32
        ensures { result ≡ level_in self.now variable }
    {
        self.decision(variable).level()
    }

    /// The value of the variable, if it has one.
    pub fn value(&self, variable: VariableId) -> Option<bool>
        ensures { result ≡ values_in self.now variable }
    {
        self.decision(variable).value()
    }

    /// Whether all of these variables are false. Reads them up to the first that isn't.
    pub fn are_false(&self, variables: &[VariableId]) -> bool
        ensures { result ≡ list_all (λ v. known_false (values_in self.now v)) variables.now }
    {
        variables
            .iter()
            .all(|variable| self.value(*variable) == Some(false))
    }

    /// What was decided of the variable.
    fn decision(&self, variable: VariableId) -> DecisionAndLevel
        ensures { result ≡ decision_in self.now variable }
    {
        IdMap::<VariableId, DecisionAndLevel, A>::get(&self.map, variable)
    }
}

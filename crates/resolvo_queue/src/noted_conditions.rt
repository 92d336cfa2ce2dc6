//! Conditions that may be met since a decision was last asked for.
ghost use Rattle.std.specs.Prelude.{◌≡◌, ℕ, true, false, if◌then◌else◌, OnOk, OnErr, IfErr};
ghost use Rattle.resolvo_queue.specs.Types.{OutOfMemory};
ghost use Rattle.resolvo_queue.specs.Routing.Noted.{is_noted, same_number};

use std::alloc::Allocator;
use std::marker::Model;
use typed_ids::StoreError;

/// Conditions, by the indexes of their disjunctions, each once. A contract sees these in the order in which they came.
#[derive(Drop)]
pub(crate) struct NotedConditions<A: Allocator + Copy> {
    disjunctions: Vec<u32, A>,
    /// Whether the condition at an index is among them. Those past the end aren't.
    are_noted: Vec<bool, A>,
}

impl<A: Allocator + Copy> Model for NotedConditions<A> {
    ghost use Rattle.std.specs.Prelude.{List, ℕ};
    ghost use Rattle.resolvo_queue.specs.Routing.Noted.{AreFlagged};

    ghost Value = { List ℕ };

    ghost view = { λ s. s.disjunctions.items };

    ghost invariant = { λ s. AreFlagged s.disjunctions.items s.are_noted.items };
}

impl<A: Allocator + Copy> NotedConditions<A> {
    /// None is noted. Takes no memory.
    pub(crate) fn new(alloc: A) -> Self
        ensures { (d : ℕ) → is_noted result d ≡ false }
    {
        NotedConditions {
            disjunctions: Vec::new(alloc),
            are_noted: Vec::new(alloc),
        }
    }

    /// Notes a condition. One that is noted already takes no memory.
    pub(crate) fn note(&mut self, disjunction: u32) -> Result<(), StoreError>
        ensures ok { OnOk result ((d : ℕ) →
            is_noted self.new d ≡ (if same_number disjunction d then true else is_noted self.old d)) }
        ensures err { OnErr result ((d : ℕ) → is_noted self.new d ≡ is_noted self.old d) }
        ensures memory { IfErr result (λ e. e ≡ OutOfMemory) }
    {
        let index = disjunction as usize;
        if index >= self.are_noted.len() {
            self.are_noted.resize(index + 1, false)?;
        }
        if self.are_noted[index] {
            return Ok(());
        }
        self.disjunctions.push(disjunction)?;
        self.are_noted[index] = true;
        Ok(())
    }

    /// Those that are noted.
    pub(crate) fn disjunctions(&self) -> &[u32]
        ensures { result.now ≡ self.now }
    {
        self.disjunctions.as_slice()
    }

    /// Takes all of them out. Takes no memory.
    pub(crate) fn clear(&mut self)
        ensures { (d : ℕ) → is_noted self.new d ≡ false }
    {
        while let Some(disjunction) = self.disjunctions.pop() {
            let index = disjunction as usize;
            if index < self.are_noted.len() {
                self.are_noted[index] = false;
            }
        }
    }
}

//! A script whose lines come one by one.
ghost use Rattle.scripts.specs.Commands.{ids_at};
ghost use Rattle.script_dialogs.specs.ScriptLines.{IsAnswered, IsUnreadable};

use crate::stage::Stage;
use dialogs::Answerer;
use providers::DependencyProvider;
use resolvo_store::{Abstract, ClauseStore};
use script_packages::{Packages, list_line};
use script_text::{Line, LineFault, Statement};
use scripts::{OverPackages, obey_line};
use solver_cache::ProviderFunctions;
use std::alloc::Global;
use std::mem;
use typed_ids::DenseIndex;

/// A script whose lines come one by one, and whose commands are given to a store over such packages.
#[derive(Drop)]
pub(crate) struct ScriptLines<D: DependencyProvider> {
    pub(crate) stage: Stage<ClauseStore<D>>,
    alloc: Global,
    store_alloc: D::Alloc,
}

impl<D: DependencyProvider> ScriptLines<D> {
    ghost use Rattle.script_dialogs.specs.ScriptLines.{IsAtStart};

    /// No line has come.
    pub(crate) fn new(alloc: Global, store_alloc: D::Alloc) -> ScriptLines<D>
        ensures { IsAtStart result.stage }
    {
        ScriptLines {
            stage: Stage::Catalogue(Packages::new(alloc)),
            alloc,
            store_alloc,
        }
    }
}

impl<
    D: DependencyProvider<NameId: DenseIndex, SolvableId: DenseIndex> + OverPackages + Drop,
> Answerer for ScriptLines<D> {
    ghost answers = { λ a line text b. IsAnswered
        (ids_at D.NameId.limit D.NameId.id_at D.SolvableId.limit D.SolvableId.id_at)
        (λ p. ⟦<D as ProviderFunctions>⟧.functions (D.made_of p)) ⟦<D as Abstract>⟧.store
        a.stage line text b.stage };

    ghost refuses = { λ a line. IsUnreadable
        (ids_at D.NameId.limit D.NameId.id_at D.SolvableId.limit D.SolvableId.id_at) a.stage line };

    fn answer(&mut self, said: Line<Statement<'_>>, text: &mut Vec<u8>) -> Result<(), LineFault> {
        match &mut self.stage {
            Stage::Commands(store) => obey_line(self.store_alloc, store, said, text),
            Stage::Catalogue(packages) => {
                let begins = list_line(packages, said)?;
                if begins {
                    let listed = mem::replace(packages, Packages::new(self.alloc));
                    let Ok(store) = ClauseStore::new(self.store_alloc, D::over(listed)) else {
                        return Err(LineFault::Memory);
                    };
                    let before = mem::replace(&mut self.stage, Stage::Commands(store));
                    drop(before);
                    return Ok(());
                }
                Ok(())
            }
        }
    }
}

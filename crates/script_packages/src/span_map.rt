//! The spans of names.
ghost use Rattle.std.specs.Prelude.{◌≡◌, [], OnOk, OnErr, IfErr};
ghost use Rattle.std.specs.Map.{lookup};
ghost use Rattle.indexmap.specs.IndexMap.{insert_entry};
ghost use Rattle.typed_ids.specs.declared.error.StoreError.TheVariants.{OutOfMemory};
ghost use Rattle.script_packages.specs.Packages.{same_id};

use crate::packages::Span;
use id_maps::{IdMap, SolverId};
use id_storage::StoredAnswers;
use std::alloc::Global;
use std::marker::Model;
use typed_ids::{NameId, StoreError};

/// The spans of names, from which none is taken away, and of which only copies are handed out. A contract sees the
/// entries in the order of insertion.
#[derive(Drop)]
pub struct SpanMap {
    entries: StoredAnswers<u32, NameId, Span, Global>,
}

impl Model for SpanMap {
    ghost use Rattle.std.specs.Prelude.{List, ℕ};
    ghost use Rattle.script_packages.specs.declared.packages.Span.{Span};

    ghost Value = { List (ℕ × Span) };

    ghost view = { λ map. map.entries };
}

impl SpanMap {
    /// No spans. Takes no memory.
    pub fn new(alloc: Global) -> SpanMap
        ensures { result ≡ [] }
    {
        SpanMap {
            entries: StoredAnswers::new(alloc),
        }
    }

    /// Gives the name a span. A name that has one already keeps its place.
    pub fn insert_copy(&mut self, name: NameId, span: Span) -> Result<(), StoreError>
        ensures ok { OnOk result (self.new ≡ insert_entry same_id self.old name span) }
        ensures err { OnErr result (self.new ≡ self.old) }
        ensures memory { IfErr result (λ e. e ≡ OutOfMemory) }
    {
        if self.entries.find(name).is_some() {
            let _earlier = self.entries.replace(name, span);
        } else {
            let _place = self.entries.insert(name, span)?;
        }
        Ok(())
    }

    /// A copy of the name's span.
    pub fn get_copy(&self, name: NameId) -> Option<Span>
        ensures { result ≡ lookup (same_id name) self.now }
    {
        match self.entries.find(name) {
            Some(place) => Some(self.entries[place]),
            None => None,
        }
    }
}

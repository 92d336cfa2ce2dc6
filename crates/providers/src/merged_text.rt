//! One text for several solvables of a package.
ghost use Rattle.std.specs.Prelude.{◌≡◌, [], ◌∷◌, ◌++◌, map, string_bytes, OnOk, OnErr, IfErr};
ghost use Rattle.typed_ids.specs.declared.error.StoreError.TheVariants.{OutOfMemory};
ghost use Rattle.providers.specs.Texts.{IsContinuedBy, IsMerged, IsSameText};

use crate::joined::{append, append_joined};
use std::alloc::Allocator;
use typed_ids::StoreError;

/// The package's name and the solvables' texts, as they are gathered.
#[derive(Drop)]
pub(crate) struct MergedText<A: Allocator> {
    name: String<A>,
    texts: Vec<String<A>, A>,
}

impl<A: Allocator + Copy> MergedText<A> {
    /// The name, with no text. Takes no memory.
    pub(crate) fn new(alloc: A, name: String<A>) -> Self
        ensures name { result.name ≡ name }
        ensures texts { result.texts.items ≡ [] }
    {
        MergedText {
            name,
            texts: Vec::new(alloc),
        }
    }

    /// A further text.
    pub(crate) fn push(&mut self, text: String<A>) -> Result<(), StoreError>
        ensures name { self.new.name ≡ self.old.name }
        ensures ok { OnOk result (self.new.texts.items ≡ self.old.texts.items ++ text ∷ []) }
        ensures err { IfErr result (λ e. e ≡ OutOfMemory) }
    {
        Ok(self.texts.push(text)?)
    }

    /// Appends the name, a blank and the distinct texts in ascending order of their bytes, with ` | ` between them.
    /// After a refusal `out` is as it was.
    pub(crate) fn append_to(mut self, out: &mut String<A>) -> Result<(), StoreError>
        ensures ok { OnOk result
            (IsContinuedBy out.old out.new (IsMerged (string_bytes self.name) (map string_bytes self.texts.items))) }
        ensures err { OnErr result (IsSameText out.old out.new) }
        ensures memory { IfErr result (λ e. e ≡ OutOfMemory) }
    {
        self.texts.sort_unstable();
        self.texts.dedup();
        append(&mut self.name, " ")?;
        append_joined(&self.texts, &mut self.name)?;
        append(out, &self.name)
    }
}

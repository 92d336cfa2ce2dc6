//! What a name reads as.
ghost use Rattle.std.specs.Prelude.{◌≡◌, ◌<◌, ℕ, length, slice_get, OnOk, OnErr, IfErr, IfSome};
ghost use Rattle.typed_ids.specs.declared.error.StoreError.TheVariants.{OutOfMemory};
ghost use Rattle.providers.specs.Texts.{IsAppended, IsContinued, IsSameText};

use crate::pool::Pool;
use crate::version_set::VersionSet;
use std::alloc::Allocator;
use std::fmt::Display;
use std::hash::Hash;
use typed_ids::{NameId, StoreError};

/// Names that have a text.
pub trait NameText {
    /// The place of the name in its pool.
    ghost place: { Self → ℕ };

    /// Appends the name's text, as its `Display` writes it. The name is of this pool. After a refusal, which is want of
    /// memory, the text is as it was.
    fn display<VS: VersionSet, N: Eq + Hash + Display, A: Allocator + Copy>(
        self,
        pool: &Pool<VS, N, A>,
        out: &mut String<A>,
    ) -> Result<(), StoreError>
        requires { place self < length pool.now.names }
        ensures ok { OnOk result (IsContinued out.old out.new) }
        ensures text { OnOk result (IfSome (slice_get pool.now.names (place self)) (λ name.
            IfSome (N.output name) (IsAppended out.old out.new))) }
        ensures err { OnErr result (IsSameText out.old out.new) }
        ensures memory { IfErr result (λ e. e ≡ OutOfMemory) };
}

impl NameText for NameId {
    ghost place = { λ name. name };

    fn display<VS: VersionSet, N: Eq + Hash + Display, A: Allocator + Copy>(
        self,
        pool: &Pool<VS, N, A>,
        out: &mut String<A>,
    ) -> Result<(), StoreError> {
        let name = pool.resolve_package_name(self);
        let text = name.to_string(*out.allocator())?;
        out.push_str(text.as_str())?;
        Ok(())
    }
}

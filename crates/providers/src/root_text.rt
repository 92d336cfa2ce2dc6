//! The texts of keys that are the root or a solvable.
ghost use Rattle.std.specs.Prelude.{◌≡◌, true, Bool, ℕ, List, OnOk, OnErr, IfErr};
ghost use Rattle.typed_ids.specs.declared.error.StoreError.TheVariants.{OutOfMemory};
ghost use Rattle.providers.specs.Provider.{knows_key};
ghost use Rattle.providers.specs.Texts.{IsAppended, IsSameText, key_text};

use crate::interner::Interner;
use crate::joined::append;
use typed_ids::{SolvableIdOrRoot, StoreError};

/// Keys of which the interner makes texts.
pub trait RootText<I: Interner> {
    /// Whether the interner knows the key.
    ghost is_known: { I → Self → Bool };

    /// The key's text.
    ghost text: { I → Self → List ℕ };

    /// Appends the key's text. After a refusal `out` is as it was.
    fn display(self, interner: &I, out: &mut String<I::Alloc>) -> Result<(), StoreError>
        requires { is_known interner.now self ≡ true }
        ensures ok { OnOk result (IsAppended out.old out.new (text interner.now self)) }
        ensures err { OnErr result (IsSameText out.old out.new) }
        ensures memory { IfErr result (λ e. e ≡ OutOfMemory) };
}

/// `root`, or the solvable's text.
impl<I: Interner> RootText<I> for SolvableIdOrRoot<I::SolvableId> {
    ghost is_known = { λ interner key. knows_key (I.universe interner).knows_solvable key };

    ghost text = { λ interner key. key_text (I.texts interner).solvable key };

    fn display(self, interner: &I, out: &mut String<I::Alloc>) -> Result<(), StoreError> {
        match self {
            SolvableIdOrRoot::Root => append(out, "root"),
            SolvableIdOrRoot::Solvable(solvable) => interner.display_solvable(solvable, out),
        }
    }
}

//! The texts of version sets, as requirements show them.
ghost use Rattle.std.specs.Prelude.{◌≡◌, true, All, map, string_bytes, IfOk, IfErr};
ghost use Rattle.typed_ids.specs.declared.error.StoreError.TheVariants.{OutOfMemory};
ghost use Rattle.providers.specs.Texts.{single_text};

use crate::interner::Interner;
use crate::joined::append;
use typed_ids::{StoreError, VersionSetId};

/// The name of the set's package, a blank and the set's text, without the white space at the end.
fn text_of_set<I: Interner>(
    interner: &I,
    alloc: I::Alloc,
    set: VersionSetId,
) -> Result<String<I::Alloc>, StoreError>
    requires { (I.universe interner.now).knows_set set ≡ true }
    ensures ok { IfOk result (λ text.
        string_bytes text ≡ single_text (I.universe interner.now) (I.texts interner.now) set) }
    ensures err { IfErr result (λ e. e ≡ OutOfMemory) }
{
    let mut whole = String::new(alloc);
    interner.display_name(interner.version_set_name(set), &mut whole)?;
    append(&mut whole, " ")?;
    interner.display_version_set(set, &mut whole)?;
    Ok(String::from_str(alloc, whole.trim_end())?)
}

/// The texts of sets, in order.
pub(crate) fn texts_of_sets<I: Interner>(
    interner: &I,
    alloc: I::Alloc,
    sets: &[VersionSetId],
) -> Result<Vec<String<I::Alloc>, I::Alloc>, StoreError>
    requires { All (λ v. (I.universe interner.now).knows_set v ≡ true) sets.now }
    ensures ok { IfOk result (λ texts.
        map string_bytes texts.items ≡ map (single_text (I.universe interner.now) (I.texts interner.now)) sets.now) }
    ensures err { IfErr result (λ e. e ≡ OutOfMemory) }
{
    let mut texts = Vec::new(alloc);
    for set in sets {
        let text = text_of_set(interner, alloc, *set)?;
        texts.push(text)?;
    }
    Ok(texts)
}

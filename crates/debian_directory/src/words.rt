//! The names that a request says.
ghost use Rattle.std.specs.Prelude.{◌≡◌, map, IfOk};
ghost use Rattle.debian_directory.specs.Answers as spec;
ghost use Rattle.debian_directory.specs.Plain.{plain_name};

use crate::name::Name;
use debian_text::named_value;
use std::alloc::{AllocError, Global};

/// Whether a name is among these words.
pub(crate) fn is_named<'t>(words: &'t [u8], native: &'t [u8], name: Name<'t>) -> bool
    ensures { result ≡ spec.is_named native.now words.now (plain_name name.entry) }
{
    words
        .split(|byte| byte.is_ascii_whitespace())
        .filter(|word| !word.is_empty())
        .any(|word| name == named(native, word))
}

/// The names that words say, in their order.
pub fn names_of<'t>(
    alloc: Global,
    native: &'t [u8],
    words: &'t [u8],
) -> Result<Vec<Name<'t>>, AllocError>
    ensures { IfOk result (λ names. map plain_name names.items ≡ spec.names_of native.now words.now) }
{
    let mut names = Vec::new(alloc);
    for word in words
        .split(|byte| byte.is_ascii_whitespace())
        .filter(|word| !word.is_empty())
    {
        names.push(named(native, word))?;
    }
    Ok(names)
}

/// The name that a word says, as `git:amd64`.
fn named<'t>(native: &'t [u8], word: &'t [u8]) -> Name<'t>
    ensures { plain_name result ≡ spec.named native.now word.now }
{
    match named_value(word) {
        None => Name {
            name: word,
            architecture: native,
        },
        Some((name, b"all")) => Name {
            name,
            architecture: native,
        },
        Some((name, architecture)) => Name { name, architecture },
    }
}

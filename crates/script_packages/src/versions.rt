//! The versions of a package line, as words of a text. One of them may have a star directly behind it: it is the
//! favored one.
ghost use Rattle.std.specs.Prelude.{◌≡◌, Some, None, IfOk, IfErr};
ghost use Rattle.script_text.specs.Numbers.{number_of};
ghost use Rattle.script_text.specs.Words.{words};
ghost use Rattle.script_text.specs.declared.fault.LineFault.TheVariants.{Unreadable};
ghost use Rattle.script_packages.specs.Versions.{is_starred, version_of, favored_place, are_versions, each_is_version};

use crate::ids::{id, id_of};
use script_text::{LineFault, NumberWord, next_word};

/// Whether a word ends with a star.
fn is_starred(word: &[u8]) -> bool
    ensures { result ≡ is_starred word.now }
{
    word.strip_suffix(b"*").is_some()
}

/// The version that a word stands for, with a star behind it or without.
#[inline(never)]
fn version(word: &[u8]) -> Option<u32>
    ensures { result ≡ version_of word.now }
{
    match word.strip_suffix(b"*") {
        Some(number) => id(number),
        None => id(word),
    }
}

/// The version that a word stands for whose number was read with it. Only where it writes no number can it have a star.
#[inline(always)]
pub(crate) fn version_of(word: &NumberWord<'_>) -> Option<u32>
    requires { word.now.number ≡ number_of word.now.word.now }
    ensures { result ≡ version_of word.now.word.now }
{
    match word.number {
        Some(_) => id_of(word),
        None => version(word.word),
    }
}

/// The place of the one word with a star. Two of them are unreadable.
pub(crate) fn favored_place(text: &[u8]) -> Result<Option<usize>, LineFault>
    ensures ok { IfOk result (λ place. favored_place (words text.now) ≡ Some place) }
    ensures err { IfErr result (λ e. (e ≡ Unreadable) × (favored_place (words text.now) ≡ None)) }
{
    if !text.contains(&b'*') {
        return Ok(None);
    }
    let mut favored = None;
    let mut place = 0;
    let mut rest = text;
    while let Some((word, others)) = next_word(rest) {
        if is_starred(word) {
            if favored.is_some() {
                return Err(LineFault::Unreadable);
            }
            favored = Some(place);
        }
        place += 1;
        rest = others;
    }
    Ok(favored)
}

/// Whether each word of the text is a version, and at most one has a star.
pub(crate) fn are_versions(text: &[u8]) -> bool
    ensures { result ≡ are_versions (words text.now) }
{
    favored_place(text).is_ok() && each_is_version(text)
}

/// Whether each word of the text is a version.
fn each_is_version(text: &[u8]) -> bool
    ensures { result ≡ each_is_version (words text.now) }
{
    let mut rest = text;
    while let Some((word, others)) = next_word(rest) {
        if version(word).is_none() {
            return false;
        }
        rest = others;
    }
    true
}

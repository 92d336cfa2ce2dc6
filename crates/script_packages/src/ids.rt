//! Numbers that stand for ids.
ghost use Rattle.std.specs.Prelude.{◌≡◌, ◌∷◌, option_map, Some, None};
ghost use Rattle.script_text.specs.Numbers.{number_of, below};
ghost use Rattle.script_packages.specs.Ids.{requirement_of};

use providers::Requirement;
use script_text::{NumberWord, number};
use typed_ids::{DenseIndex, VersionSetId, VersionSetUnionId};

/// The id that a word stands for: its number is an index in range.
pub fn id<I: DenseIndex>(word: &[u8]) -> Option<I>
    ensures { result ≡ option_map I.id_at (below I.limit (number_of word.now)) }
{
    let index = number(word)? as usize;
    if I::in_range(index) {
        Some(I::from_index(index))
    } else {
        None
    }
}

/// The id that a word stands for whose number was read with it.
#[inline(always)]
pub fn id_of<I: DenseIndex>(word: &NumberWord<'_>) -> Option<I>
    ensures { result ≡ option_map I.id_at (below I.limit word.now.number) }
{
    let index = word.number? as usize;
    if I::in_range(index) {
        Some(I::from_index(index))
    } else {
        None
    }
}

/// The requirement that a marked number stands for: `s` marks that of a version set, `u` that of a union.
#[inline(always)]
pub fn requirement_of(mark: u8, word: &NumberWord<'_>) -> Option<Requirement>
    requires { word.now.number ≡ number_of word.now.word.now }
    ensures { result ≡ requirement_of (mark ∷ word.now.word.now) }
{
    match mark {
        b's' => Some(Requirement::Single(VersionSetId(id_of(word)?))),
        b'u' => Some(Requirement::Union(VersionSetUnionId(id_of(word)?))),
        _ => None,
    }
}

/// A requirement: `s` or `u`, and the number of a version set or of a union directly after it.
pub fn requirement(word: &[u8]) -> Option<Requirement>
    ensures { result ≡ requirement_of word.now }
{
    match word {
        [b's', set @ ..] => Some(Requirement::Single(VersionSetId(id(set)?))),
        [b'u', union @ ..] => Some(Requirement::Union(VersionSetUnionId(id(union)?))),
        _ => None,
    }
}

//! Version sets of a line.
ghost use Rattle.std.specs.Prelude.{◌≡◌, IfOk, option_map};
ghost use Rattle.std.specs.Result.{result_ok, result_err};
ghost use Rattle.index_text.specs.Expected.{range_fault};
ghost use Rattle.index_text.specs.Plain.{plain_set, plain_sets, plain_lists};
ghost use Rattle.index_text.specs.PlainFormats.{plain_format};
ghost use Rattle.index_text.specs.Sets.{texts, version_of, range_of, set_of, sets_of, alternatives_of};

use crate::format::{VersionFormat, split_at_dots};
use crate::words::first_part;
use script_text::number;
use std::alloc::{AllocError, Global};

/// The versions v of a package with `low <= v < high`, as `app 1..3`.
#[derive(Clone, Copy, Debug, PartialEq, Eq)]
pub struct Set<'t> {
    pub name: &'t str,
    pub low: u32,
    pub high: u32,
}

/// One set or more.
#[derive(Drop)]
pub struct Sets<'t> {
    pub first: Set<'t>,
    pub others: Vec<Set<'t>>,
}

/// A number below 2^32.
pub(crate) fn version(word: &[u8]) -> Option<u32>
    ensures { result ≡ version_of word.now }
{
    u32::try_from(number(word)?).ok()
}

/// Why a word is no range.
#[derive(Clone, Copy)]
pub(crate) enum BadRange {
    /// It isn't two versions with `..` between them.
    NotARange,
    /// Its first version is above its second one.
    Reversed,
}

/// The bounds of a range `LOW..HIGH`, the lower one first.
pub(crate) fn read_range(
    alloc: Global,
    format: &VersionFormat,
    word: &[u8],
) -> Result<Result<(u32, u32), BadRange>, AllocError>
    ensures is { IfOk result (λ found. result_ok found ≡ range_of (plain_format format.now) word.now) }
    ensures fault { IfOk result (λ found. result_err found ≡ range_fault (plain_format format.now) word.now) }
{
    let Some((low, high)) = split_at_dots(word) else {
        return Ok(Err(BadRange::NotARange));
    };
    let Some(low) = format.number(alloc, low)? else {
        return Ok(Err(BadRange::NotARange));
    };
    let Some(high) = format.number(alloc, high)? else {
        return Ok(Err(BadRange::NotARange));
    };
    if low <= high {
        Ok(Ok((low, high)))
    } else {
        Ok(Err(BadRange::Reversed))
    }
}

/// `NAME LOW..HIGH`.
pub(crate) fn read_set<'t>(
    alloc: Global,
    format: &VersionFormat,
    words: &[&'t str],
) -> Result<Option<Set<'t>>, AllocError>
    ensures { IfOk result (λ found. option_map plain_set found ≡ set_of (plain_format format.now) (texts words.now)) }
{
    let [name, range] = words else {
        return Ok(None);
    };
    let Ok((low, high)) = read_range(alloc, format, range.as_bytes())? else {
        return Ok(None);
    };
    Ok(Some(Set {
        name: *name,
        low,
        high,
    }))
}

/// Sets with a word between each and the next.
pub(crate) fn read_sets<'t>(
    alloc: Global,
    format: &VersionFormat,
    words: &[&'t str],
    between: &[u8],
) -> Result<Option<Sets<'t>>, AllocError>
    ensures { IfOk result (λ found. option_map plain_sets found ≡
        sets_of (plain_format format.now) between.now (texts words.now)) }
{
    let (part, mut rest) = first_part(words, between);
    let Some(first) = read_set(alloc, format, part)? else {
        return Ok(None);
    };
    let mut others = Vec::new(alloc);
    'parts: while let Some(words) = rest {
        let (part, behind) = first_part(words, between);
        let Some(set) = read_set(alloc, format, part)? else {
            return Ok(None);
        };
        others.push(set)?;
        rest = behind;
    }
    Ok(Some(Sets { first, others }))
}

/// Lists of sets: `or` between the lists, `and` between the sets of one.
pub(crate) fn alternatives<'t>(
    alloc: Global,
    format: &VersionFormat,
    words: &[&'t str],
) -> Result<Option<Vec<Sets<'t>>>, AllocError>
    ensures { IfOk result (λ found. option_map plain_lists found ≡
        alternatives_of (plain_format format.now) (texts words.now)) }
{
    let mut found = Vec::new(alloc);
    let mut rest = Some(words);
    'parts: while let Some(words) = rest {
        let (part, behind) = first_part(words, b"or");
        let Some(together) = read_sets(alloc, format, part, b"and")? else {
            return Ok(None);
        };
        found.push(together)?;
        rest = behind;
    }
    Ok(Some(found))
}

//! Providers of what a catalogue lists, whose names are numbers. Beside the lines of scripts a catalogue may have
//! these:
//!
//! | line | meaning |
//! |---|---|
//! | `hint all`, `hint S ..` | the dependencies of all candidates, or of these solvables, are said to be at hand |
//! | `locked S` | this solvable is locked, and excluded too |
//! | `twice` | each candidate is listed twice |
use crate::trial::Trial;
use script_text::{Statement, is_word, next_word, number};
use std::alloc::Allocator;
use test_support::{Hint, Listed, Listing, Manner, Package, VersionRange};
use typed_ids::{StoreError, VersionSetId};

/// The packages, version sets and unions.
pub(crate) fn listed<A: Allocator + Copy>(
    alloc: A,
    catalogue: &[Statement<'_>],
) -> Result<Listed<A>, StoreError> {
    let mut listed = Listed {
        packages: Vec::new(alloc),
        ranges: Vec::new(alloc),
        unions: Vec::new(alloc),
        favored: None,
    };
    for said in catalogue {
        add(alloc, &mut listed, *said)?;
    }
    Ok(listed)
}

/// Adds what a line lists.
fn add<A: Allocator + Copy>(
    alloc: A,
    listed: &mut Listed<A>,
    said: Statement<'_>,
) -> Result<(), StoreError> {
    if is_word(said.keyword, b"package") {
        let favored = add_package(&mut listed.packages, said.rest);
        listed.packages.truncate(4294967296);
        if let Some(favored) = favored? {
            listed.favored = Some(favored);
        }
    } else if is_word(said.keyword, b"set") {
        listed.ranges.push(range_of(said.rest)?)?;
    } else if is_word(said.keyword, b"union") {
        listed.unions.push(sets_of(alloc, said.rest)?)?;
    }
    Ok(())
}

/// How the provider of a trial answers.
pub(crate) fn manner<A: Allocator + Copy>(
    alloc: A,
    trial: &Trial<'_>,
) -> Result<Manner<A>, StoreError> {
    let mut manner = Manner::plain();
    manner.stops = trial.stops();
    for said in trial.catalogue {
        if is_word(said.keyword, b"twice") {
            manner.listing = Listing::Twice;
        } else if is_word(said.keyword, b"locked") {
            manner.locked = Some(number_of(said.rest));
        } else if is_word(said.keyword, b"hint") {
            manner.hint = hint_of(alloc, said.rest)?;
        }
    }
    Ok(manner)
}

fn hint_of<A: Allocator>(alloc: A, line: &[u8]) -> Result<Hint<A>, StoreError> {
    let mut solvables = Vec::new(alloc);
    let mut rest = line;
    for _ in 0..line.len() {
        let Some((word, others)) = next_word(rest) else {
            break;
        };
        if is_word(word, b"all") {
            return Ok(Hint::All);
        }
        rest = others;
        solvables.push(number_of(word))?;
    }
    Ok(Hint::Some(solvables))
}

/// The number that a line begins with; 0 where there is none.
pub(crate) fn number_of(line: &[u8]) -> u32 {
    match next_word(line) {
        Some((word, _)) => version_of(word).unwrap_or(0),
        None => 0,
    }
}

/// Adds the versions of a package's line, and answers which of them is the favored one.
fn add_package<A: Allocator>(
    packages: &mut Vec<Package, A>,
    line: &[u8],
) -> Result<Option<u32>, StoreError> {
    let Some((name, versions)) = next_word(line) else {
        return Err(StoreError::UnknownId);
    };
    let name = version_of(name)?;
    let mut favored = None;
    let mut rest = versions;
    for _ in 0..line.len() {
        let Some((word, others)) = next_word(rest) else {
            break;
        };
        rest = others;
        let (digits, is_favored) = match word {
            [digits @ .., b'*'] => (digits, true),
            digits => (digits, false),
        };
        if is_favored {
            favored = Some(u32::try_from(packages.len()).unwrap_or(0));
        }
        let version = version_of(digits)?;
        packages.push(Package { name, version })?;
    }
    Ok(favored)
}

fn version_of(word: &[u8]) -> Result<u32, StoreError> {
    match number(word) {
        Some(version) => Ok(u32::try_from(version).unwrap_or(u32::MAX)),
        None => Err(StoreError::UnknownId),
    }
}

fn range_of(line: &[u8]) -> Result<VersionRange, StoreError> {
    let Some((name, rest)) = next_word(line) else {
        return Err(StoreError::UnknownId);
    };
    let Some((low, rest)) = next_word(rest) else {
        return Err(StoreError::UnknownId);
    };
    let Some((high, _)) = next_word(rest) else {
        return Err(StoreError::UnknownId);
    };
    Ok(VersionRange {
        name: version_of(name)?,
        low: version_of(low)?,
        high: version_of(high)?,
    })
}

fn sets_of<A: Allocator>(alloc: A, line: &[u8]) -> Result<Vec<VersionSetId, A>, StoreError> {
    let mut sets = Vec::new(alloc);
    let mut rest = line;
    for _ in 0..line.len() {
        let Some((word, others)) = next_word(rest) else {
            break;
        };
        rest = others;
        sets.push(VersionSetId(version_of(word)?))?;
    }
    Ok(sets)
}

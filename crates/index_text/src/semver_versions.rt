//! The SemVer versions that are written in an index.
ghost use Rattle.std.specs.Prelude.{◌≡◌, IfOk, map, option_map};
ghost use Rattle.std.specs.Ordering.{on};
ghost use Rattle.std.specs.List.Sorted.{IsStrictlySortedBy};
ghost use Rattle.std.proofs.Props.{props};
ghost use Rattle.index_text.specs.Formats.{version_cmp, place_of, semver_of, number_in, Semver};
ghost use Rattle.semver.specs.Identifiers.{parts_of};

use semver::{Error, Version};
use std::alloc::{AllocError, Global};
use std::str;

/// The SemVer versions of an index, in ascending order, each once. The number of a version is its place.
#[derive(Drop)]
pub struct SemverVersions {
    versions: Vec<Version>,
    ghost ascending: { IsStrictlySortedBy (on parts_of version_cmp) versions.items } by { Prim.hlevel props },
}

impl SemverVersions {
    /// Of versions in ascending order.
    pub(crate) fn new(versions: Vec<Version>) -> SemverVersions
        requires { IsStrictlySortedBy (on parts_of version_cmp) versions.items }
        ensures { result.versions ≡ versions }
    {
        SemverVersions { versions }
    }

    /// The versions, the lowest first.
    pub fn versions(&self) -> &[Version]
        ensures { result.now ≡ self.now.versions.items }
    {
        &self.versions
    }

    /// The number of the version that the word says; none if the version isn't there.
    #[inline(never)]
    pub(crate) fn number(&self, alloc: Global, word: &[u8]) -> Result<Option<u32>, AllocError>
        ensures { IfOk result (λ found. found ≡ number_in (Semver (map parts_of self.now.versions.items)) word.now) }
    {
        let Some(version) = read_semver(alloc, word)? else {
            return Ok(None);
        };
        let Some(place) = self.place_of(&version) else {
            return Ok(None);
        };
        Ok(u32::try_from(place).ok())
    }

    /// The place of a version.
    fn place_of(&self, version: &Version) -> Option<usize>
        ensures { result ≡ place_of (map parts_of self.now.versions.items) (parts_of version.now) }
    {
        self.versions.binary_search(version).ok()
    }
}

/// The SemVer version that a word says; none if it says none.
pub(crate) fn read_semver(alloc: Global, word: &[u8]) -> Result<Option<Version>, AllocError>
    ensures { IfOk result (λ found. option_map parts_of found ≡ semver_of word.now) }
{
    let Ok(text) = str::from_utf8(word) else {
        return Ok(None);
    };
    match Version::parse(alloc, text) {
        Ok(version) => Ok(Some(version)),
        Err(error) => {
            if error == Error::from(AllocError) {
                return Err(AllocError);
            }
            Ok(None)
        }
    }
}

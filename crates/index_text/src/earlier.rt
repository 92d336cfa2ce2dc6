//! The line that a version has already.
ghost use Rattle.std.specs.Prelude.{◌≡◌, IfOk, map, option_map};
ghost use Rattle.index_text.specs.Diagnoses.{earlier_line, names_version};
ghost use Rattle.index_text.specs.PlainLines.{plain_line};
ghost use Rattle.index_text.specs.PlainFormats.{plain_format};

use crate::format::VersionFormat;
use crate::line::Line;
use crate::version::Version;
use script_text::{is_word, next_word};
use std::alloc::{AllocError, Global};

/// The number of the first line of a version, before the line of this number.
pub(crate) fn earlier_line(
    alloc: Global,
    format: &VersionFormat,
    lines: &[Line<'_>],
    number: u64,
    version: &Version<'_>,
) -> Result<Option<u64>, AllocError>
    ensures { IfOk result (λ found. found ≡ option_map (λ line. line.number)
        (earlier_line (plain_format format.now) number version.now.name.now version.now.version
        (map plain_line lines.now))) }
{
    for line in lines {
        if line.number < number && names_version(alloc, format, line, version)? {
            return Ok(Some(line.number));
        }
    }
    Ok(None)
}

/// Whether a line begins with this name and this version.
fn names_version(
    alloc: Global,
    format: &VersionFormat,
    line: &Line<'_>,
    version: &Version<'_>,
) -> Result<bool, AllocError>
    ensures { IfOk result (λ same. same ≡ names_version (plain_format format.now)
        version.now.name.now version.now.version (plain_line line.now).words) }
{
    let Some(said) = line.said else {
        return Ok(false);
    };
    if !is_word(said.keyword, version.name.as_bytes()) {
        return Ok(false);
    }
    let Some((word, _)) = next_word(said.rest) else {
        return Ok(false);
    };
    Ok(format.number(alloc, word)? == Some(version.version))
}

//! What a line says of a version.
ghost use Rattle.std.specs.Prelude.{◌≡◌, IfOk, option_map, string_bytes};
ghost use Rattle.index_text.specs.Lines.{version_named, is_of, joined};
ghost use Rattle.index_text.specs.Plain.{plain_version, plain_state};
ghost use Rattle.index_text.specs.PlainFormats.{plain_format};
ghost use Rattle.index_text.specs.Sets.{texts};

use crate::entry::{Entry, entries};
use crate::format::VersionFormat;
use script_text::is_word;
use std::alloc::{AllocError, Global};

/// A version of a package.
#[derive(Drop)]
pub struct Version<'t> {
    pub name: &'t str,
    pub version: u32,
    pub state: State<'t>,
}

/// What is known of a version.
#[derive(Drop)]
pub enum State<'t> {
    /// It may be picked, and its line says this.
    Offered(Vec<Entry<'t>>),
    /// It may not be picked, for this reason.
    Excluded(String),
    /// Nobody knows what it needs, for this reason.
    Unknown(String),
}

/// The version of this name, from the words behind it.
pub(crate) fn version_of<'t>(
    alloc: Global,
    format: &VersionFormat,
    name: &'t str,
    words: &[&'t str],
) -> Result<Option<Version<'t>>, AllocError>
    ensures { IfOk result (λ found. option_map plain_version found ≡
        version_named (plain_format format.now) name.now (texts words.now)) }
{
    let [number, words @ ..] = words else {
        return Ok(None);
    };
    let Some(version) = format.number(alloc, number.as_bytes())? else {
        return Ok(None);
    };
    let Some(state) = read_state(alloc, format, words)? else {
        return Ok(None);
    };
    Ok(Some(Version {
        name,
        version,
        state,
    }))
}

/// What the words behind a name and a version say.
fn read_state<'t>(
    alloc: Global,
    format: &VersionFormat,
    words: &[&'t str],
) -> Result<Option<State<'t>>, AllocError>
    ensures { IfOk result (λ found. option_map plain_state found ≡ is_of (plain_format format.now) (texts words.now)) }
{
    let [keyword, reason @ ..] = words else {
        return Ok(Some(State::Offered(Vec::new(alloc))));
    };
    let keyword = keyword.as_bytes();
    if is_word(keyword, b"excluded") {
        return Ok(Some(State::Excluded(joined(alloc, reason)?)));
    }
    if is_word(keyword, b"unknown") {
        return Ok(Some(State::Unknown(joined(alloc, reason)?)));
    }
    Ok(entries(alloc, format, words)?.map(State::Offered))
}

/// Words with a blank between each and the next.
fn joined(alloc: Global, words: &[&str]) -> Result<String, AllocError>
    ensures { IfOk result (λ text. string_bytes text ≡ joined (texts words.now)) }
{
    let mut text = String::new(alloc);
    for (i, word) in words.iter().enumerate() {
        if i > 0 {
            text.push(' ')?;
        }
        text.push_str(word)?;
    }
    Ok(text)
}

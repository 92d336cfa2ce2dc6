//! The lines of a text, by index.
ghost use Rattle.std.specs.Prelude.{◌≡◌, ◌∷◌, ◌++◌, [], IfOk, OnOk, List, map, option_map};
ghost use Rattle.index_text.specs.Entries.{put_front};
ghost use Rattle.index_text.specs.Indexes.{indexes_of, begins_index, before_parts, NumberedWords};
ghost use Rattle.index_text.specs.PlainLines.{plain_line, plain_lines, line_meant};
ghost use Rattle.index_text.specs.Printed.{first_line};
ghost use Rattle.script_text.specs.Statements.{IsRestPrinted, MeansWords};

use crate::line::Line;
use script_text::{Line as Said, Statement, is_word, next_statement};
use std::alloc::{AllocError, Global};
use std::mem;

/// The lines of each index of a text. A `request` line begins an index. Comments and lines without words are left out.
pub fn split(alloc: Global, text: &[u8]) -> Result<Vec<Vec<Line<'_>>>, AllocError>
    ensures { IfOk result (λ indexes. map plain_lines indexes.items ≡ indexes_of text.now) }
{
    let mut indexes = Vec::new(alloc);
    let mut lines = Vec::new(alloc);
    let mut number = 0;
    let mut rest = text;
    while let Some((said, others)) = next_statement(rest) {
        number += 1;
        if let Some(line) = numbered_line(number, said, rest) {
            add_line(alloc, &mut indexes, &mut lines, line)?;
        }
        rest = others;
    }
    if !lines.is_empty() {
        indexes.push(lines)?;
    }
    Ok(indexes)
}

/// Adds a line to those of the last index, or begins another one with it.
fn add_line<'t>(
    alloc: Global,
    indexes: &mut Vec<Vec<Line<'t>>>,
    lines: &mut Vec<Line<'t>>,
    line: Line<'t>,
) -> Result<(), AllocError>
    ensures { OnOk result ((parts : List (List NumberedWords)) →
        map plain_lines indexes.new.items ++ before_parts (plain_lines lines.new) parts ≡
        map plain_lines indexes.old.items ++ before_parts (plain_lines lines.old)
        (put_front begins_index (plain_line line.entry ∷ []) parts)) }
{
    if is_request(line) && !lines.is_empty() {
        indexes.push(mem::replace(lines, Vec::new(alloc)))?;
    }
    Ok(lines.push(line)?)
}

/// The line of this number with which a text begins, if it says something.
fn numbered_line<'t>(number: u64, said: Said<Statement<'t>>, text: &'t [u8]) -> Option<Line<'t>>
    requires means { MeansWords (first_line text.now) said }
    requires rest { IsRestPrinted said }
    ensures { option_map plain_line result ≡ line_meant number said.entry }
{
    match said {
        Said::Skipped => None,
        Said::Unreadable => Some(Line {
            number,
            said: None,
            text,
        }),
        Said::Says(said) => Some(Line {
            number,
            said: Some(said),
            text,
        }),
    }
}

/// Whether a line begins an index.
fn is_request(line: Line<'_>) -> bool
    ensures { result ≡ begins_index (plain_line line.entry) }
{
    match line.said {
        Some(said) => is_word(said.keyword, b"request"),
        None => false,
    }
}

//! Lines that say something.
ghost use Rattle.std.specs.Prelude.{◌≡◌, ◌<◌, [], take, length, IfSome, MatchOption};
ghost use Rattle.std.specs.List.{list_all};
ghost use Rattle.script_text.specs.Lines.{lines, is_printed};
ghost use Rattle.script_text.specs.Statements.{MeansWords, FirstMeans, IsRestPrinted};

use crate::first_word::first_word;
use crate::line::first_line;
use typed_ids::{SameClone, SameValue};

/// What a line says.
#[derive(Clone, Copy, PartialEq, Eq)]
pub enum Line<T> {
    /// Nothing: it has no word, or is a comment.
    Skipped,
    /// It isn't in the format.
    Unreadable,
    Says(T),
}

/// The first word of a line, and what is after it.
#[derive(Clone, Copy)]
pub struct Statement<'a> {
    pub keyword: &'a [u8],
    pub rest: &'a [u8],
}

/// What the first line of a text says, and what is after the line; none where no line is left. A printed line is looked
/// at once for its end, and a second time for its words only if it says something.
#[inline(always)]
pub fn next_statement(text: &[u8]) -> Option<(Line<Statement<'_>>, &[u8])>
    ensures first { MatchOption result (lines text.now ≡ []) (λ r. FirstMeans (lines text.now) r.0 (lines r.1.now)) }
    ensures printed { IfSome result (λ r. IsRestPrinted r.0) }
    ensures shorter { MatchOption result (text.now ≡ []) (λ r. length r.1.now < length text.now) }
{
    if text.is_empty() {
        return None;
    }
    let first = first_line(text);
    Some((meaning(first.line, first.is_printed, text), first.rest))
}

/// The line with which a text begins as a statement, where it is known whether the line is printed.
#[inline(always)]
fn meaning<'a>(line: &'a [u8], all_printed: bool, text: &[u8]) -> Line<Statement<'a>>
    requires printed { all_printed ≡ list_all is_printed line.now }
    requires begins { line.now ≡ take (length line.now) text.now }
    ensures means { MeansWords line.now result }
    ensures printed { IsRestPrinted result }
{
    if !all_printed {
        return Line::Unreadable;
    }
    match first_word(line, text) {
        None | Some(([b'#', ..], _)) => Line::Skipped,
        Some((keyword, rest)) => Line::Says(Statement { keyword, rest }),
    }
}

impl<T: SameValue> SameValue for Line<T> {
    ghost use Rattle.std.proofs.Common.{rules};

    ghost same = { λ a b h. Prim.search rules };
}

impl<T: SameClone> SameClone for Line<T> {
    ghost use Rattle.std.proofs.Common.{rules};

    ghost clone_is_same = { λ a b h. Prim.search rules };
}

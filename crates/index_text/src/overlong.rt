//! Lines that have too many words.
ghost use Rattle.std.specs.Prelude.{◌≡◌, ◌∷◌, ◌≤◌, nat_lt, length, is_some, IfSome};
ghost use Rattle.index_text.specs.Indexes.{are_too_many};
ghost use Rattle.script_text.specs.Words.{words as words_of};

use crate::words::without_blanks;
use script_text::{Statement, next_word};

/// How many words a line has at most.
pub(crate) const MOST_WORDS: usize = 1 << 21;

/// Whether a line has too many words.
#[tactic(auto, using(crate::proofs::OverlongLemmas::with_keyword))]
pub(crate) fn is_overlong(said: &Statement<'_>) -> bool
    ensures { result ≡ are_too_many (said.now.keyword.now ∷ words_of said.now.rest.now) }
{
    surplus_length(said.rest, MOST_WORDS - 1).is_some()
}

/// The length of what follows the `most` first words, from its first word on. None if no more words follow.
#[tactic(auto, using(crate::proofs::OverlongLemmas::passing))]
pub(crate) fn surplus_length(words: &[u8], most: usize) -> Option<usize>
    ensures some { is_some result ≡ nat_lt most (length (words_of words.now)) }
    ensures within { IfSome result (λ left. left ≤ length words.now) }
{
    if words.len() <= most {
        return None;
    }
    let (mut rest, mut passed) = (words, 0);
    'passing: while let Some((_, others)) = next_word(rest) {
        if passed == most {
            return Some(without_blanks(rest).len());
        }
        passed += 1;
        rest = others;
    }
    None
}

//! A line of an index.
ghost use Rattle.std.specs.Prelude.{◌≡◌, true};
ghost use Rattle.std.proofs.Props.{props};
ghost use Rattle.index_text.specs.Indexes.{words_in};
ghost use Rattle.index_text.specs.Printed.{is_said_printed, plain_said, first_line};

use script_text::Statement;

/// A line that says something.
#[derive(Clone, Copy)]
pub struct Line<'t> {
    /// Counted from 1, over the whole text.
    pub number: u64,
    /// Its first word, and what is behind that. None if a byte of the line isn't printed.
    pub said: Option<Statement<'t>>,
    /// The text from this line on.
    pub text: &'t [u8],
    ghost printed: { is_said_printed said ≡ true },
    ghost first: { words_in (first_line text.now) ≡ plain_said said } by { Prim.hlevel props },
}

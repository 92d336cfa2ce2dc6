//! What answers the indexes of an input.
ghost use Rattle.std.specs.Prelude.{ℕ, List, IfOk, map, string_bytes};
ghost use Rattle.index_text.specs.Indexes.{NumberedWords};
ghost use Rattle.index_text.specs.PlainLines.{plain_line};
ghost use Rattle.example_answers.specs.declared.outcome.Outcome.{Outcome};

use crate::index_answer::AnswerText;
use index_text::Line;
use std::alloc::{AllocError, Global};

/// What answers an index.
pub trait Answering {
    /// Whether an index of these lines is answered by this outcome and this text.
    ghost answers: { List NumberedWords → Outcome → List ℕ → Type 0 };

    /// Answers the index of these lines.
    fn answer(&mut self, alloc: Global, lines: &[Line<'_>]) -> Result<AnswerText, AllocError>
        ensures { IfOk result
            (λ answered. answers (map plain_line lines.now) answered.outcome (string_bytes answered.text)) };
}

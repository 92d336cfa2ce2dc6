//! What answers lines.
ghost use Rattle.std.specs.Prelude.{◌≡◌, ◌++◌, List, ℕ, OnOk, Err};
ghost use Rattle.script_text.specs.declared.fault.LineFault.TheVariants.{Unreadable};
ghost use Rattle.script_text.specs.Statements.{MeansWords, IsRestPrinted};

use script_text::{Line, LineFault, Statement};

/// What answers lines in their turn.
pub trait Answerer {
    /// A line is answered by a text, and this answers the lines after it.
    ghost answers: { Self → List ℕ → List ℕ → Self → Type 0 };

    /// A line isn't in the format.
    ghost refuses: { Self → List ℕ → Type 0 };

    /// Obeys a line that says this, and puts its answer after the text.
    fn answer(&mut self, said: Line<Statement<'_>>, text: &mut Vec<u8>) -> Result<(), LineFault>
        requires { IsRestPrinted said }
        ensures answered { OnOk result ((line : List ℕ) → MeansWords line said.entry → (own : List ℕ)
            × answers self.old line own self.new × (text.new.items ≡ text.old.items ++ own)) }
        ensures unreadable { result ≡ Err Unreadable → (line : List ℕ) → MeansWords line said.entry →
            refuses self.old line };
}

//! A line of a text as it stands there.
ghost use Rattle.std.specs.Prelude.{◌≡◌};
ghost use Rattle.index_text.specs.Printed.{first_line};
ghost use Rattle.script_text.specs.Lines.{without_return};

/// The first line of a text; empty if there is none.
pub(crate) fn raw_line(text: &[u8]) -> &[u8]
    ensures { first_line text.now ≡ result.now }
{
    for (i, byte) in text.iter().enumerate() {
        if *byte == b'\n' {
            return without_return(&text[..i]);
        }
    }
    without_return(text)
}

/// A line but for the carriage return at its end.
fn without_return(line: &[u8]) -> &[u8]
    ensures { result.now ≡ without_return line.now }
{
    match line {
        [before @ .., b'\r'] => before,
        _ => line,
    }
}

//! Reads a script from standard input, gives its commands to a clause store as they come, and answers each by a line
//! before it reads on. So a program in any language drives the store through a pipe.
//!
//! docs/DIALOGUE.md says how a dialogue goes. The exit status is that of `clause_store`.
#![tactic(auto)]

ghost use Rattle.std.specs.Prelude.{◌≡◌};
ghost use Rattle.std.specs.Process.{exit_status};
ghost use Rattle.script_text.specs.Status.{status_of};

use dialogs::Pipe;
use script_dialogs::{ScriptFault, dialog, status};
use std::io;
use std::process::ExitCode;

fn main(rt: HostRuntime) -> ExitCode {
    let mut pipe = Pipe {
        reader: rt.reader(),
        writer: io::writer(&rt),
    };
    exit_code(dialog(rt.alloc(), &mut pipe))
}

/// The exit code of a dialogue that ended so.
fn exit_code(ended: Result<(), ScriptFault>) -> ExitCode
    ensures { exit_status result ≡ status_of ended }
{
    ExitCode::from(status(&ended))
}

//! Reads a script from standard input, gives its commands to a clause store, and writes a line for each reply.
//!
//! docs/FORMAT.md has the format. The exit status is 0 where all lines were read, 1 at a line that can't be read, 2
//! where a read or a write failed, and 3 where memory ran out.
#![tactic(auto)]

ghost use Rattle.std.specs.Prelude.{◌≡◌};
ghost use Rattle.std.specs.Process.{exit_status};
ghost use Rattle.script_text.specs.Status.{status_of};

use scripts::{ScriptFault, script, status};
use std::io;
use std::process::ExitCode;

fn main(rt: HostRuntime) -> ExitCode {
    exit_code(script(rt.alloc(), &mut rt.reader(), &mut io::writer(&rt)))
}

/// The exit code of a script that ended so.
fn exit_code(ended: Result<(), ScriptFault>) -> ExitCode
    ensures { exit_status result ≡ status_of ended }
{
    ExitCode::from(status(&ended))
}

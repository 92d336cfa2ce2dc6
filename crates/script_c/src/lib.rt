//! The transcript of a script, for programs in C, or in any language that calls C: an example.
//!
//! [`nivolakku_script`] takes a whole script, gives its commands to a clause store, and answers as the program
//! `clause_store` does, into a buffer of the caller's. `script.h` declares it and says how it is called; no proof
//! covers that declaration, nor what the caller owes. It frees all memory that it takes: so it holds a dialogue, whose
//! answers are those of `scripts::script`, which is for programs that exit then.
#![tactic(auto)]

ghost use Rattle.std.specs.Prelude.{[], Some};
ghost use Rattle.script_text.specs.Lines.{lines as lines_of};
ghost use Rattle.script_dialogs.specs.DialogEnds.{DialogAnswers};
ghost use Rattle.script_c.specs.Calls.{IsTranscribed};

use call_texts::write;
use dialogs::Pipe;
use script_dialogs::{ScriptFault, dialog, status};
use std::alloc::Global;

/// The status of a transcript that takes more room than there is.
const TOO_SMALL: u32 = 4;

/// Obeys the commands of a whole script, and answers each by a line. At the first unreadable line the line that names
/// it is written, and nothing more is obeyed.
#[unsafe(no_mangle)]
pub extern "C" fn nivolakku_script(
    alloc: Global,
    script: &[u8],
    transcript: &mut [u8],
    needed: &mut usize,
) -> u32
    ensures { IsTranscribed (lines_of script.now) transcript.old transcript.new needed.new result }
{
    let (text, ended) = transcribe(alloc, script);
    *needed = text.len();
    if write(&text, transcript) {
        u32::from(status(&ended))
    } else {
        TOO_SMALL
    }
}

/// What a script is answered, and how it ended.
fn transcribe(alloc: Global, script: &[u8]) -> (Vec<u8>, Result<(), ScriptFault>)
    ensures { DialogAnswers (lines_of script.now) (Some []) result.1 (Some result.0.items) }
{
    let mut pipe = Pipe {
        reader: script,
        writer: Vec::new(alloc),
    };
    let ended = dialog(alloc, &mut pipe);
    (pipe.writer, ended)
}

#[cfg(test)]
mod tests {
    use super::nivolakku_script;

    const SCRIPT: &str = "package a 1 2\nset a 1 3\nbegin\nload s0\n";

    #[test]
    fn a_call_answers_as_its_room_allows(rt: HostRuntime) {
        for (script, room, status, size, transcript) in [
            (SCRIPT, 11, 0, 11, "loaded 1,2\n........."),
            (SCRIPT, 20, 0, 11, "loaded 1,2\n........."),
            (SCRIPT, 10, 4, 11, "...................."),
            (SCRIPT, 0, 4, 11, "...................."),
            ("x\n", 20, 1, 18, "line 1 unreadable\n.."),
            ("", 20, 0, 0, "...................."),
        ] {
            let mut buffer = [b'.'; 20];
            let mut needed = 0;
            let got = nivolakku_script(
                rt.alloc(),
                script.as_bytes(),
                &mut buffer[..room],
                &mut needed,
            );
            assert_eq!(rt; (got, needed), (status, size), "room {room}");
            assert_eq!(rt; buffer.as_slice(), transcript.as_bytes(), "room {room}");
        }
    }
}

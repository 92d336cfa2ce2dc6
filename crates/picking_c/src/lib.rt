//! Picking versions, for programs in C, or in any language that calls C: an example.
//!
//! [`nivolakku_pick`] takes an index as a text, in the format of `index_text`, and answers as the program
//! `pick_versions` does, into a buffer of the caller's. [`nivolakku_versions`] takes such an answer apart. `picking.h`
//! declares both and says how they are called; no proof covers that declaration, nor what the caller owes.
#![tactic(auto)]

ghost use Rattle.std.specs.Prelude.{◌≡◌, length};
ghost use Rattle.call_texts.specs.Versions.{filled, versions_in};
ghost use Rattle.example_answers.specs.Answers.{AnswersText};
ghost use Rattle.picking_c.specs.Calls.{IsAnswered, TellsPicked};

use call_texts::{Version, versions_in, write};
use example_answers::{Outcome, answer_text};
use example_index::SmallIndex;
use resolvo_pool::{Interner, ProviderFunctions};
use std::alloc::Global;

/// Answers the index of a text, in at most `steps` steps. If memory is refused for the answer, the answer is empty.
#[unsafe(no_mangle)]
pub extern "C" fn nivolakku_pick(
    alloc: Global,
    index: &[u8],
    steps: u64,
    answer: &mut [u8],
    needed: &mut usize,
) -> u32
    ensures { IsAnswered
        (AnswersText ⟦<SmallIndex as ProviderFunctions>⟧.functions ⟦<SmallIndex as Interner>⟧.texts index.now)
        answer.old answer.new needed.new result }
{
    let Ok(answered) = answer_text(alloc, index, steps) else {
        *needed = 0;
        return u32::from(Outcome::GaveUp.status());
    };
    let text = answered.text.as_bytes();
    *needed = text.len();
    if write(text, answer) {
        u32::from(answered.outcome.status())
    } else {
        u32::from(Outcome::Failed.status())
    }
}

/// How many versions an answer names, and where: those of the lines below the first, up to a line that isn't a name, a
/// blank and a version. They are put into the buffer in their order, as many as it has room for.
#[unsafe(no_mangle)]
pub extern "C" fn nivolakku_versions(answer: &[u8], versions: &mut [Version]) -> usize
    ensures count { result ≡ length (versions_in answer.now) }
    ensures filled { versions.new ≡ filled 0 (versions_in answer.now) versions.old }
    ensures picked { TellsPicked answer.now (versions_in answer.now) }
{
    versions_in(answer, versions)
}

#[cfg(test)]
mod tests {
    use super::nivolakku_pick;

    const INDEX: &str = "request needs a 1..9\na 1\na 2 needs b 1..2\n";

    #[test]
    fn a_call_answers_as_its_room_allows(rt: HostRuntime) {
        for (steps, room, status, size, answer) in [
            (9, 13, 0, 13, "request:\na 1\n..."),
            (9, 16, 0, 13, "request:\na 1\n..."),
            (9, 12, 4, 13, "................"),
            (9, 0, 4, 13, "................"),
            (0, 16, 4, 33, "................"),
        ] {
            let mut buffer = [b'.'; 16];
            let mut needed = 0;
            let got = nivolakku_pick(
                rt.alloc(),
                INDEX.as_bytes(),
                steps,
                &mut buffer[..room],
                &mut needed,
            );
            assert_eq!(rt; (got, needed), (status, size), "room {room}");
            assert_eq!(rt; buffer.as_slice(), answer.as_bytes(), "room {room}");
        }
    }
}

//! Scripts as dialogues: the lines of a script are obeyed as they come, and each is answered before the next one is
//! read. What is answered is what [`script`](scripts::script) answers.
#![tactic(auto)]

mod dialogue;
mod script_lines;
mod stage;

pub use dialogue::dialog;
pub use scripts::{ScriptFault, status};

//! Scripts: what their commands say, what each is answered, and the text of each answer.
//!
//! [`script`] reads a whole script, gives its commands in turn to a clause store over the packages that its catalogue
//! lists, and writes a line for each reply. Its contract says that these lines are the texts of an abstract store's
//! replies: `specs/Scripts.antt` defines what a whole script is answered, `specs/Transcript.antt` what its commands
//! are.
#![tactic(auto)]

mod answer_line;
mod command_line;
mod digit_pairs;
mod line_text;
mod literal_words;
mod obeying;
mod over_packages;
mod reply_line;
mod transcript;

pub use over_packages::OverPackages;
pub use reply_line::push_unreadable;
pub use script_text::{ScriptFault, status};
pub use transcript::{obey_line, script};

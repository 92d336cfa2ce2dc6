//! Dialogues: lines that come, each of which is answered before the next one is read.
//!
//! [`talk`] reads the lines of a [`Peer`], gives them in turn to an [`Answerer`], and writes and flushes each answer
//! before it reads on. Nothing is known here of what the lines say.
#![tactic(auto)]

mod answerer;
mod incoming;
mod peer;
mod talks;

pub use answerer::Answerer;
pub use peer::{Peer, Pipe};
pub use talks::talk;

//! The answer to an index, as a text: for the program `pick_versions` and the library `picking_c`.
//!
//! [`answer_text`] reads the index of a text, and searches by `picking` for what it requests. The answer has the line
//! `request:`, and below it a line for each version that is picked, or `none` if there is no solution, and why
//! (`reasons`); if the search gives up, or a line is unreadable, it says so. If the search ends before it is shown that
//! no solution is better, a last line tells by how many wishes none is.
//!
//! All of that is proved of the text of the answer, for the text of the index: what is picked is the best solution of
//! what the index's lines say, after `none` there is no solution, the reasons are true and enough, and a line that is
//! called unreadable is (`specs/Answers`; `specs/Reasons` has a reason's line).
//!
//! [`answer_with_notes`] also notes version sets that no version is in. [`explain_with_notes`] does too, and its answer
//! says why each version is picked, or reports why there is no solution (`specs/Explained`); [`append_graph`] shows
//! that as a graph (`specs/Shown`). [`answer_all`] prints the answers of all indexes of an input, in turn
//! (`specs/Printed`). Crates that write answers in other forms use [`write_reason`] and its parts, [`words_of`] and
//! [`first_number`].
#![tactic(auto)]

mod answering;
mod conflict;
mod explained;
mod graph;
mod in_turn;
mod index_answer;
mod input_answers;
mod names;
mod outcome;
mod print_fault;
mod printer;
mod reasons;
mod refusal;
mod why;
mod writing;
mod writing_bytes;

pub use answering::Answering;
pub use explained::explain_with_notes;
pub use graph::append_graph;
pub use in_turn::print_in_turn;
pub use index_answer::{AnswerText, answer, answer_text, answer_with_notes, first_number};
pub use input_answers::answer_all;
pub use outcome::Outcome;
pub use print_fault::PrintFault;
pub use printer::Printer;
pub use reasons::{write_name, write_reason, write_set, write_solvable};
pub use refusal::words_of;

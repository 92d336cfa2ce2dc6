//! The answers of indexes as JSON, for programs.
//!
//! [`answer_as_json`] searches as `example_answers` does, and answers each index by one object: what is picked, or the
//! reasons why there is no solution, or which line is unreadable. docs/JSON.md lists the members. `values` makes the
//! values of versions, sets and conditions, `reasons` those of reasons, `objects` the object of an answer;
//! `answering` goes from the lines of an index to a text.
//!
//! All of that is proved of the text: it is that of an object with these members, and the answer keeps what a search
//! promises (`specs/Answers`; `specs/Objects` has the objects).
#![tactic(auto)]

mod answering;
mod objects;
mod reasons;
mod values;

pub use answering::{JsonAnswers, answer_as_json};

//! What a script's text is made of: lines, statements, words and numbers; how it is read, and its answer written.
//!
//! A script is read whole by [`read_whole`], or piece by piece by [`read_piece`], and cut into lines, statements and
//! words. An answer waits in a vector, and is written in large pieces by [`write_much`] and [`write_rest`]. Nothing is
//! known here of packages and commands.
#![tactic(auto)]

mod decimal;
mod device;
mod fault;
mod first_word;
mod input;
mod line;
mod number_word;
mod output;
mod printed;
mod sixteen;
mod statement;
mod word;

pub use decimal::number;
pub use device::{Sink, Source};
pub use fault::{LineFault, ScriptFault, status};
pub use input::{read_piece, read_whole, read_within};
pub use number_word::{NumberWord, next_marked, next_number};
pub use output::{write_much, write_rest};
pub use statement::{Line, Statement, next_statement};
pub use word::{is_word, next_word, text_of};

//! Callers of the clause store as who embeds it writes them: they know nothing of the provider but its traits, and
//! nothing of the store but its contracts, from which alone they are proved. Each item and definition is named through
//! a crate for users: `resolvo_ids`, `resolvo_pool`, `resolvo_clauses`, `resolvo_queue` and `resolvo_store`.
//! docs/CLAUSES.md quotes `requirement_callers`, and docs/SEARCH.md names `searching`, a small search.
//!
//! Beside them are worked examples that the checker computes from the definitions (`computed`); the program
//! `test_examples` runs the same examples.
#![tactic(auto)]

mod callers;
mod clause_callers;
mod computed;
mod keeping_callers;
mod law_callers;
mod requirement_callers;
mod searching;

pub use callers::{decide, load_first, obey, undo_nothing, unknown};
pub use clause_callers::{add, exclude, stands_for};
pub use computed::{examples, play_is_run};
pub use keeping_callers::{exclude_first, load_again};
pub use law_callers::{
    obey_forbids_two, obey_watched, search_is_done, start_again, value_of_unknown,
};
pub use requirement_callers::{give, load, may_pass, register, require};
pub use searching::{DecideFault, SearchEnd, ask, rule_out, search};

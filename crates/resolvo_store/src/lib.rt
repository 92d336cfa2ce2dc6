//! The clause store: what a search over packages keeps, decides and takes back, as one abstract machine.
//!
//! A [`ClauseStore`] stands over the packages of a provider. It keeps what each variable stands for, the candidates'
//! variables of each requirement that was loaded, the requires clauses, and the trail of assignments. A search calls
//! its methods, which answer what they mean in small types. The same is there as data: [`ClauseStore::step`] obeys one
//! [`Command`] and answers it with one [`Reply`], and [`ClauseStore::run`] obeys a list of them in turn. What is
//! refused changes nothing, but for `saturate`, which keeps what it forced.
//!
//! Contracts don't speak of the store's fields. They name the abstract store, `⟦<D as Abstract>⟧.store self.now`, a
//! record of plain lists and functions, and a step of it, `⟦<D as Abstract>⟧.step self.old command reply self.new`:
//!
//! - `specs/Store.antt`: the abstract store;
//! - `specs/Refusals.antt`: the refusals that a caller can foresee, in the order in which they are tested;
//! - `specs/Outcome.antt`: the reply to a command that nothing refuses, and the store after it;
//! - `specs/Saturating.antt`: what `Saturate`, which has no one outcome, may reply and leave;
//! - `specs/Step.antt`: a step, which adds the refusals for want of memory or of ids, and a run, one step after
//!   another;
//! - `specs/Answers.antt`: what the methods answer, as replies;
//! - `specs/Loading.antt`, `specs/Deciding.antt`, `specs/Reading.antt`: what some methods tell beside their step;
//! - `specs/ReplyTexts.antt`: the texts of replies.
//!
//! What a method or `step` answers and leaves is a step of the abstract store, and what `run` answers and leaves is a
//! run.
#![tactic(auto)]

mod abstract_store;
mod answers;
mod command;
mod helper_origin;
mod loaded_lists;
mod reply;
mod reply_text;
mod replying;
mod store;

pub use abstract_store::Abstract;
pub use answers::{Added, Assignment, Next, Tracked};
pub use command::{AbstractCommand, Command};
pub use helper_origin::HelperOrigin;
pub use reply::{AbstractReply, Reply};
pub use store::ClauseStore;

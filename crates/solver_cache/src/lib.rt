//! A solver's cache: each query to a provider is made once, and each answer stored.
//!
//! A resolver asks for the same candidates again and again, and a provider may read them from a disk or a network. A
//! [`SolverCache`] stands between them: it keeps the candidates of each package that was asked for, the candidates that
//! a version set holds and those that it doesn't, the candidates of a requirement in order, and what a solvable needs.
//! Before a question that may be costly, for a package's candidates or a solvable's dependencies, the provider is asked
//! whether to stop.
//!
//! `specs/Cache` is what a cache is, as plain lists. `specs/Outcomes` has a word for each outcome of a question, as
//! `AnswersCandidates` where it is answered and `RefusesCandidates` where it is refused. Their parts say what is left:
//! `specs/Questions` of an answered question, `specs/Unanswered` of a refused one. `specs/Refused` says which refusals
//! there may be, and `specs/CandidateLaws` what is true of the candidate lists of every provider.
//!
//! `cache` has the type, and in `cache/` are the questions. Those of `querying` are put to the provider, those of
//! `filtering`, `sorting` and `best` are about version sets and requirements. Each answers an id, by which `reading`
//! shows what is kept; `answering` does both in one call, and answers a reference. `candidates` asks the provider for a
//! package's candidates, and `favored` puts the favored one first among others; `stored_lists` keeps lists by keys, and
//! `hints` marks the solvables whose dependencies are at hand.
#![tactic(auto)]

mod cache;
mod candidates;
mod error;
mod favored;
mod hints;
mod list_id;
mod provider_functions;
mod stored_lists;

pub use cache::SolverCache;
pub use error::CacheError;
pub use list_id::ListId;
pub use provider_functions::ProviderFunctions;

//! Checks of a search's answers: that the picked versions are a solution, and the best one; or that there is no
//! solution. They read the provider alone, and are proved.
//!
//! A search for versions promises nothing: its answers are checked at its end. The checks share only the conversion of
//! conditions with it.
//!
//! - [`is_solution`] checks what was picked: the request and each picked version's requirements are satisfied, its
//!   constraints are respected, and at most one version of a package is picked. Each picked version is allowed: its
//!   package has it, doesn't exclude it, and isn't locked to another one.
//! - [`are_so`] checks that each [`Reason`] is true: the packages or the request say it. [`are_enough`] checks that no
//!   choice of versions meets all reasons. It replays the search's learnt clauses, lists of [`PackageLiteral`]s: each
//!   follows by unit propagation from the reasons and the clauses before it. If the reasons are true and enough, there
//!   is no solution (`proofs/ReasonLaws`). [`are_met`] checks that a choice meets reasons. [`is_no_reason_spare`] gets,
//!   for each reason, a choice that meets all others, and checks it; so no reason is spare.
//! - A [`Wish`] lists alternatives, the best first. [`ranks`] counts for each wish how many come before the first true
//!   one, and [`best_up_to`] says for how many wishes, from the first on, no solution is better. [`newest_wishes`] are
//!   the wishes for the newest versions of what is requested.
//! - [`are_needed`] checks that each picked version has a [`Cause`]: the request offers it, or a wish has it, or an
//!   earlier picked version requires it. [`find_spare`] finds one without which the rest is as good a solution.
//!
//! `specs/Solutions`, `specs/Reasons`, `specs/Wishes`, `specs/Needed` and `specs/Newest` say this in the words of the
//! provider alone.
//!
//! | files | what they decide |
//! |---|---|
//! | `selection`, `allowed`, `solution` | what is picked, what its packages allow, whether it is a solution |
//! | `reason`, `reasons`, `meeting` | why there is no solution, whether that is so, and whether a choice meets it |
//! | `literal`, `atoms`, `encoding`, `encoded` | facts of a selection, their numbers, what reasons say, as clauses |
//! | `clauses`, `clause_state`, `trail`, `watches` | what follows from clauses, and which clauses to visit |
//! | `refuting`, `settling`, `best` | the replay of learnt clauses, which wishes are settled, and the number of these |
//! | `wish`, `newest`, `ranking` | wishes, those for the newest versions, how good what is picked is |
//! | `needed`, `offers`, `spare` | causes, what requirements offer, what is left without a version |
//!
//! `queries` queries the provider for candidates, and `evidence` is what a search hands over to be checked.
#![tactic(auto)]

mod allowed;
mod atoms;
mod best;
mod clause_state;
mod clauses;
mod encoded;
mod encoding;
mod evidence;
mod literal;
mod meeting;
mod needed;
mod newest;
mod offers;
mod package_literal;
mod queries;
mod ranking;
mod reason;
mod reasons;
mod refuting;
mod selection;
mod settling;
mod solution;
mod spare;
mod trail;
mod watches;
mod wish;

pub use best::best_up_to;
pub use evidence::Evidence;
pub use meeting::{are_met, is_no_reason_spare};
pub use needed::{Cause, are_needed};
pub use newest::newest_wishes;
pub use package_literal::PackageLiteral;
pub use ranking::ranks;
pub use reason::Reason;
pub use reasons::are_so;
pub use refuting::are_enough;
pub use solution::is_solution;
pub use spare::find_spare;
pub use wish::{Alternative, Request, Wish};

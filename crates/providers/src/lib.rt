//! What a resolver asks of an ecosystem of packages: requirements and conditions, the interner that tells what an id
//! stands for and writes its text, and the provider that answers which packages there are.
//!
//! The two traits are in `interner` and `provider`; the words of their contracts are in `specs/Provider`,
//! `specs/Dependencies` and `specs/Texts`. `candidates` and `dependencies` hold what a provider answers.
//! `requirement`, `conditional_requirement` and `condition` are what packages ask of one another. `requirement_map` is
//! a map that is kept by requirements; `requirement_slots` finds the places of its entries. The texts of requirements,
//! of keys and of several solvables together are made in `requirement_text`, `root_text` and `merged_text`.
//!
//! A requirement may be asked for only under a condition, which joins version sets by "and" and "or". A solver wants it
//! as a list of lists: the condition holds if, of one of the lists, each version set does. `normal_form` makes that
//! list, each `alternative` of which is a list of which a part is known; and while the condition doesn't hold yet, the
//! requirement may be put off with one of the lists and the candidates of its version sets (`deferred`). A condition
//! may come from outside, and be nested to any depth. The conversion keeps what is left to do in a list of its own, and
//! so takes memory, which may be refused, but no more of the stack than a flat one. What they make is said in
//! `specs/Conditions` and `specs/Deferred`.
#![tactic(auto)]

mod alternative;
mod candidates;
mod condition;
mod conditional_requirement;
mod deferred;
mod dependencies;
mod interner;
mod joined;
mod merged_text;
mod normal_form;
mod provider;
mod requirement;
mod requirement_map;
mod requirement_slots;
mod requirement_text;
mod root_text;
mod version_sets;

pub use candidates::{Candidates, HintDependenciesAvailable};
pub use condition::{Condition, LogicalOperator};
pub use conditional_requirement::ConditionalRequirement;
pub use deferred::{DeferredConjunct, DeferredRequirement, condition_disjunct_holds};
pub use dependencies::{Dependencies, KnownDependencies};
pub use interner::Interner;
pub use normal_form::convert_conditions_to_dnf;
pub use provider::DependencyProvider;
pub use requirement::Requirement;
pub use requirement_map::RequirementMap;
pub use root_text::RootText;
pub use version_sets::VersionSets;

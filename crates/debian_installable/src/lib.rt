//! Which packages of a scenario may be installed together.
//!
//! [`is_installable`] judges a set of packages by Debian's rules: relations, architectures, and one version of a name.
//! `specs/Installable` says these rules.
#![tactic(auto)]

mod fields;
mod installable;
mod relations;

pub use fields::is_blank;
pub use installable::{is_free_of, is_installable, is_met_by, may_stand_beside};
pub use relations::{
    architecture_of, have_one_architecture, have_one_name, is_concerned, is_same, means, serves,
    serves_architecture,
};

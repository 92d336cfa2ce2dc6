//! The variables of a clause store: what each stands for, the variable of each solvable, and those of a list of
//! solvables; and what a variable tells of itself: its literals, what it stands for in a map of variables, and its
//! text.
//!
//! The texts are said in `specs/VariableTexts`, one line a kind of variable.
#![tactic(auto)]

mod forget;
mod info;
mod lists;
mod origin_text;
mod stored_origin;
mod variable_map;
mod variable_origin;

pub use info::VariableInfo;
pub use lists::{VariableLists, intern_list};
pub use variable_map::VariableMap;
pub use variable_origin::VariableOrigin;

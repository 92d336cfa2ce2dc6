//! The packages that a script's catalogue lists.
//!
//! [`read_catalogue`] makes [`Packages`] of the lines up to `begin`, and hands back the lines after it: the commands,
//! of which nothing is known here but that words of theirs stand for ids too. [`list_line`] lists what one line says,
//! where lines come one by one. The packages answer what a store asks of its provider.
#![tactic(auto)]

mod catalogue;
mod catalogue_line;
mod ids;
mod order;
mod packages;
mod provider;
mod span_map;
mod versions;

pub use catalogue::{Catalogue, list_line, read_catalogue};
pub use ids::{id, id_of, requirement, requirement_of};
pub use packages::{Packages, Span, VersionRange};
pub use span_map::SpanMap;

//! A report for people: why there is no solution.
//!
//! A search answers a list of reasons ([`Reason`]), each of one version. [`merged`] tells those together that say the
//! same of several versions of a package: a [`Line`] each. [`write_report`] writes them, and [`write_dot`] makes a
//! graph of them. [`write_report_with_names`] also says which package may be meant by one that there isn't. For a text
//! of another form, [`write_line_with_names`] writes one line, and [`leads_to`] says which line another one leads to.
//!
//! All of it is for any provider. The contracts (`specs/Lines`, `LineTexts`, `Reports`) say that the lines tell the
//! given reasons, each once, and no others; and that the text of a line is that of `specs/LineTexts`. `specs/Nearest`
//! says which name is the nearest one, and `specs/Graphs` what a graph shows.
#![tactic(auto)]

mod candidates;
mod condition_text;
mod dot;
mod edges;
mod line;
mod line_text;
mod meant;
mod merging;
mod missing;
mod nearest_name;
mod report;
mod versions;
mod words;

pub use dot::write_dot;
pub use edges::leads_to;
pub use line::Line;
pub use merging::merged;
pub use nearest_name::nearest;
pub use report::{write_line_with_names, write_report, write_report_with_names};
pub use solutions::Reason;

//! Printed reports: as text, and as JSON. And counts of traces and their reports.
//!
//! docs/GLOSSARY.md has its words beside those of the field.
#![tactic(auto)]

mod counted;
mod escapes;
mod exclusive;
mod findings;
mod listed;
mod listings;
mod members;
mod number;
mod printing;
mod report_members;
mod stats;
mod tree;
mod tree_v1;
mod values;
mod words;

pub use escapes::escaped_name;
pub use exclusive::{is_exclusive, lists_exclusive};
pub use findings::{findings_json, findings_json_text};
pub use listed::edge_json;
pub use listings::{listed_json_text, listed_text};
pub use number::put_number;
pub use printing::{findings_text, text, thread_name};
pub use stats::{Stats, stats_text};
pub use tree::{json, json_text};
pub use tree_v1::{edge_json_v1, json_text_v1, json_v1};

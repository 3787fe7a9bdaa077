//! Worked examples of gl_cycles and gl_findings, and worked reports: what gl_report prints of them, and which
//! gl_check accepts. All by public calls.
//!
//! They stand in a crate of their own, since a crate is proved once more with its tests. What they share is
//! the trace of a text, [`traces`]; [`format_1`] prints the reports that format 1 stands for.
#![tactic(auto)]

#[cfg(test)]
pub mod format_1;
#[cfg(test)]
mod tests;
#[cfg(test)]
pub mod traces;

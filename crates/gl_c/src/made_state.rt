//! What a report's handle is of.
use gl_cycles::Report;
use gl_findings::Listing;
use gl_std::Names;

/// A report that was made.
#[derive(Drop)]
pub struct MadeState {
    /// The report.
    pub report: Report,
    /// What it lists.
    pub listing: Listing,
    /// The names that it is printed by, where locks and places were numbered by first mention. Else those of
    /// the session are.
    pub names: Option<Names>,
}

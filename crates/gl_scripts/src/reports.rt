//! What reports are asked, and what is printed of them.
use crate::say::Stop;
use gl_cycles::{Report, ReportFault};
use gl_filters::{Mode, Query};

/// Cycles of up to four edges, in the full mode.
pub(crate) fn full() -> Result<Query, Stop> {
    match Query::new(Mode::Full, 4, 1_000) {
        Ok(query) => Ok(query),
        Err(_) => Err(Stop::Astray),
    }
}

/// How many edges and cycles a report has, and whether there are more cycles; nothing where there is none.
pub(crate) fn counts_of(answer: &Result<Report, ReportFault>) -> Option<(usize, usize, bool)> {
    match answer {
        Ok(report) => Some((
            report.edges.entries().len(),
            report.found.cycles.as_slice().len(),
            report.found.more,
        )),
        Err(_) => None,
    }
}

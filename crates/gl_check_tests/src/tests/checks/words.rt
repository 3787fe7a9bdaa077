//! What is printed of a report that is accepted.
use gl_check::Checked;
use gl_findings::Listing;
use std::alloc::Global;

const WORDS: &[(Checked, &str)] = &[
    (
        Checked {
            listing: Listing::Findings,
            cycles: 12,
            acyclic: false,
        },
        "ok, findings: 12",
    ),
    (
        Checked {
            listing: Listing::Cycles,
            cycles: 1,
            acyclic: false,
        },
        "ok, cycles: 1",
    ),
    (
        Checked {
            listing: Listing::Cycles,
            cycles: 0,
            acyclic: true,
        },
        "ok, cycles: 0, none of any length",
    ),
];

// Whether it is printed so.
fn is_printed(alloc: Global, checked: &Checked, wanted: &str) -> bool {
    match format!(in alloc; "{checked}") {
        Ok(text) => text.as_str() == wanted,
        Err(_) => false,
    }
}

#[test]
fn words_of_checked(rt: HostRuntime) {
    for (checked, wanted) in WORDS {
        assert!(rt; is_printed(rt.alloc(), checked, *wanted), "{wanted}");
    }
}

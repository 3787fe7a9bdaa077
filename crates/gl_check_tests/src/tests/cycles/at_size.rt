//! Searches at size.
use super::asks::{search, search_parallel};
use super::known_from;
use super::lists::Lists::Crossed;
use gl_cycles::Found;
use gl_filters::Mode;
use gl_worked::cycles::are_cycles;

// Whether a hundred thousand cycles were found, the first and the last of them these, and there are more.
fn is_hundred_thousand(found: &Found) -> bool {
    let cycles = found.cycles.as_slice();
    found.more
        && cycles.len() == 100_000
        && are_cycles(&cycles[..1], &[&[0, 317]])
        && are_cycles(&cycles[99_999..], &[&[316, 460]])
}

// As many cycles are listed as may be asked for, and there are more.
#[test]
fn hundred_thousand_cycles(rt: HostRuntime) {
    let known = known_from(rt.alloc(), Crossed(317, 316)).expect(&rt, "known lists");
    let found = search(rt.alloc(), &known, (Mode::Full, 2, 100_000)).expect(&rt, "cycles");
    assert!(rt; is_hundred_thousand(&found));
}

// The same on several threads.
#[test]
fn hundred_thousand_cycles_in_parallel(rt: HostRuntime) {
    let known = known_from(rt.alloc(), Crossed(317, 316)).expect(&rt, "known lists");
    let asked = (Mode::Full, 2, 100_000);
    let found = search_parallel(&rt, rt.alloc(), &known, asked).expect(&rt, "cycles");
    assert!(rt; is_hundred_thousand(&found));
}

//! A module for each crate; gl_lane has one for each of its two lanes.
use std::process::Abort;

mod edges;
mod io;
mod lanes;
mod own_lanes;
mod shards;

// So it is where the case of this name is asked for the time with this number.
fn expect(rt: &impl Abort, is_so: bool, name: &str, at: usize) {
    assert!(rt; is_so, "{name}: {at}");
}

//! Sessions over given lists of events: threads record them at once, workers take the edges, and the
//! report is that of the lists. And sessions over a text, which is recorded as it is read. The report of
//! either lists cycles, or findings, as its caller asks.
//!
//! ```text
//! let options = SessionOptions { recorders: 2, shards: 3, ring: 256 };
//! let report = live_report(&rt, alloc, lists, &options, &query, &Open)?;
//! ```
//!
//! docs/GLOSSARY.md has its words beside those of the field.
#![tactic(auto)]

mod faults;
mod live;
mod recording;
mod reports;
mod run;
mod session;
mod start_gate;
mod stream;
mod streaming;
mod working;

pub use faults::{LiveFault, StreamFault};
pub use live::{live_report, live_report_with};
pub use session::SessionOptions;
pub use stream::{stream_report, stream_report_with};
pub use streaming::StreamOptions;

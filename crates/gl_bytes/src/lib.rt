//! Finding a byte that is near, and comparing short texts, many bytes in a step.
//!
//! The fields of a line and the names in them are a few to some thirty bytes long. There a search made for
//! long texts, and a comparison byte by byte, take more steps than the rest of reading the line. What is
//! far away is left to the library's search.
//!
//! ```text
//! let line = b"T1|acq(L7)|server.cc:120".as_slice();
//! assert_eq!(find_from(b'|', line, 0), Some(2));
//! assert_eq!(find_from(b'|', line, 3), Some(10));
//! assert!(is_same(&line[..2], b"T1".as_slice()));
//! ```
//!
//! docs/GLOSSARY.md has its words beside those of the field.
#![tactic(auto)]

mod near;
mod same;

pub use near::find_from;
pub use same::is_same;

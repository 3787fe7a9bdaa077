//! The words of the command line: what they ask for, or why they ask for nothing.
//!
//! [`parse`] reads words, of which the first is the program's name.
//!
//! ```text
//! let words = ["goodlock", "live", "--ring", "1", "--json"];
//! match parse(rt.alloc(), &words) {
//!     Ok(Command::Live(options)) => ..       // options.ring is 1, options.form is Form::Json, the others are by default
//!     Err(Usage::Refused(text)) => ..        // for `--ring 0`: the text says that 0 isn't a number from 1 to 65536
//!     Err(Usage::Shown(text)) => ..          // for `--help`: the text is the help
//!     ..
//! }
//! ```
//!
//! `specs/Options.antt` has the command line, command by command and option by option, and says which words ask for a
//! command, its query and its form. `specs/Sessions.antt` says which numbers a session can be run with: words ask for no
//! others.
//!
//! docs/GLOSSARY.md has its words beside those of the field.
#![tactic(auto)]

mod building;
mod form;
mod found;
mod jobs;
mod live_options;
mod options;
mod query_options;

pub use form::Form;
pub use live_options::LiveOptions;
pub use options::{Command, Usage, parse};

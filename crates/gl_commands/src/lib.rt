//! The commands of `goodlock`, over a reader and a writer.
//!
//! ```text
//! let mut input = FromStd::new(rt.stdin());
//! let mut output = FromStd::new(rt.stdout());
//! let reading = Reading { turns, seed, jobs };
//! let ended = predict(&rt, &mut input, &mut output, &reading, &query, Form::Text);
//! let (line, status) = said(&ended);       // what standard error gets, and the exit status
//! ```
//!
//! [`perform`] does what the words of a command line ask for. Each command tells by [`Ended`] how it ended.
//! `specs/Ending.antt` says which ends there are and what was written then, `specs/Answer.antt` and
//! `specs/Checking.antt` what is answered to a text, and `specs/Said.antt` what is said of an end.
//!
//! docs/GLOSSARY.md has its words beside those of the field.
#![tactic(auto)]

mod answer;
mod checking;
mod commands;
mod ended;
mod laws;
mod limits;
mod reading;
mod recorded;
mod refusal_lines;
mod streamed;

pub use commands::{
    check_input, live, live_gated, perform, predict, predict_findings, replay, stats,
};
pub use ended::{Ended, Outcome, said};
pub use laws::{answers_are_unique, plain_answers_are_unique};
pub use limits::limits_in_numbers;
pub use reading::Reading;

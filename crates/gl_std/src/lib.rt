//! Reads traces in the STD text form, one event a line: `thread|operation(operand)|location`.
//!
//! ```text
//! T0|acq(a)|Main.java:1
//! T0|acq(b)|Main.java:2
//! T0|rel(b)|Main.java:3
//! T0|rel(a)|Main.java:4
//! T1|acq(b)|Main.java:5
//! T1|acq(a)|Main.java:6
//! ```
//!
//! [`read_trace`] gives each thread's events as a list, with threads, locks and locations as numbers
//! in order of first mention, and the [`Names`] that the numbers stand for. These operations are
//! events:
//!
//! | Word | Event |
//! |---|---|
//! | `acq`, `racq` | the thread acquires a lock, exclusively or shared with other readers |
//! | `tryacq`, `tryracq` | it acquires one by an attempt that could not have waited for ever |
//! | `rel`, `rrel` | it releases a lock once; either word does, in whichever mode the lock is held |
//! | `fork`, `join` | it starts or has waited for another thread, which gets a number and a list |
//!
//! A line with another operation is skipped and counted, and so is a release of a lock that its
//! thread doesn't hold. The first line that is at fault decides the text: [`ReadFault::Line`] has its
//! number and what is wrong with it.
//!
//! [`read_source`] reads the text of a [`Source`] as it comes, read by read, and doesn't keep it;
//! [`read_source_parallel`], which the program calls, has the same answer by several threads.
//! [`Lines`] gives the lines of such a text one at a time, each as an [`Item`], and keeps no events;
//! [`Items`] does so with a source that is lent to each call.
//! Both are given a [`Seed`] for the hash of names: with one that was drawn at random, names can't be
//! chosen to make reading slow.
//!
//! The definitions go from bytes to lines (`specs/Lines`), from a line alone to what it says
//! (`specs/Line`), and from lines to the trace (`specs/Trace`), one step a line; `specs/Heard` says
//! what was read of a source, and `specs/Streaming` what was told of it so far where it is read item by
//! item. Above them stand the laws (`specs/Laws`): a text has one list of lines, a line says one thing,
//! a text is read piece by piece, its trace tells the kept lines and obeys the limits, and the first
//! fault in the order of the reasons decides. gl_writing writes a trace as a text.
//!
//! docs/GLOSSARY.md has its words beside those of the field.
#![tactic(auto)]

mod block;
mod faults;
mod from_source;
mod guess;
mod judge;
mod laws;
mod line;
mod line_ends;
mod line_reader;
mod lists;
mod name;
mod names;
mod numbered_line;
mod ruling;
mod seed;
mod stream;
mod trace;
mod whole_text;

pub use faults::{LinesFault, ReadFault, StdKind};
pub use from_source::{Heard, read_source, read_source_parallel};
pub use gl_io::{Failed, FromStd, Sink, Source};
pub use laws::{
    faults_come_first, lines_are_unique, lines_follow_lines, lines_say_one_thing, reading_goes_on,
    traces_grow, traces_obey_limits, traces_tell_lines,
};
pub use line::{MAX_LINE, limits_in_numbers};
pub use line_ends::{ended_lines, without_cr};
pub use lists::Lists;
pub use names::{Names, NamesFault};
pub use seed::Seed;
pub use stream::{Item, Items, Lines};
pub use trace::Trace;
pub use whole_text::{read_seeded, read_trace};

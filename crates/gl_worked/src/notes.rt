//! Notes of threads, as constants tell them.
use crate::ops::{Op, event_of};
use gl_event::{Body, Note, ThreadId};

/// A note: the number of its thread and its place, and its event or how many events it counts.
#[derive(Clone, Copy)]
pub enum Told {
    /// An event.
    Happened(u32, u32, Op),
    /// An end mark.
    Ended(u32, u32, u32),
}

/// The note.
pub fn note_of(told: Told) -> Note {
    let (thread, place, body) = match told {
        Told::Happened(thread, place, op) => (thread, place, Body::Happened(event_of(op))),
        Told::Ended(thread, place, count) => (thread, place, Body::Ended { count }),
    };
    Note {
        thread: ThreadId::new(thread),
        place,
        body,
    }
}

/// Whether the notes are these.
pub fn are_notes(notes: &[Note], wanted: &[Told]) -> bool {
    if notes.len() != wanted.len() {
        return false;
    }
    for (note, told) in notes.iter().zip(wanted) {
        if *note != note_of(*told) {
            return false;
        }
    }
    true
}

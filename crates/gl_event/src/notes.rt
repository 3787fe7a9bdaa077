//! What recorders tell a collector of the threads' events.
use crate::events::Event;
use crate::ids::ThreadId;

/// What a thread's recorder tells: an event of the thread, or that it has ended.
#[derive(Clone, Copy, Debug, PartialEq, Eq)]
#[repr(u8)]
pub enum Body {
    /// The thread's next event.
    Happened(Event),
    /// The thread has no further event, and had this many.
    Ended { count: u32 },
}

/// A note of a thread. Its place is how many events the thread had before; that of an end mark is
/// its count.
#[derive(Clone, Copy, Debug, PartialEq, Eq)]
pub struct Note {
    pub thread: ThreadId,
    pub place: u32,
    pub body: Body,
}

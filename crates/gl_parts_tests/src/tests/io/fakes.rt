//! A reader and a writer of std that go on byte by byte, and stop.
use std::io::{self, ErrorKind};

// What a reader does once its text has been read: it is at its end, or fails once, and then is.
#[derive(Clone, Copy)]
pub(super) enum After {
    End,
    Fails(ErrorKind),
}

// A reader that gives one byte a call, and counts its calls.
#[derive(Drop)]
pub(super) struct Gives<'a> {
    pub(super) rest: &'a [u8],
    pub(super) after: After,
    pub(super) calls: u32,
}

impl Gives<'_> {
    fn failure(&mut self, kind: ErrorKind) -> io::Error {
        self.after = After::End;
        io::Error::from(kind)
    }
}

impl io::Read for Gives<'_> {
    fn read(&mut self, buffer: &mut [u8]) -> io::Result<usize> {
        self.calls = self.calls.saturating_add(1);
        if buffer.is_empty() {
            return Ok(0);
        }
        if let Some((first, rest)) = self.rest.split_first() {
            buffer[0] = *first;
            self.rest = rest;
            return Ok(1);
        }
        match self.after {
            After::End => Ok(0),
            After::Fails(kind) => Err(self.failure(kind)),
        }
    }
}

// What a writer does once it is full: it takes none, or fails once and has room then.
#[derive(Clone, Copy)]
pub(super) enum Full {
    TakesNone,
    Fails(ErrorKind),
}

// A writer that takes one byte a call until it is full, and counts its calls.
#[derive(Drop)]
pub(super) struct Stops {
    pub(super) held: Vec<u8>,
    pub(super) room: usize,
    pub(super) full: Full,
    pub(super) calls: u32,
}

impl Stops {
    fn failure(&mut self, kind: ErrorKind) -> io::Error {
        self.room = usize::MAX;
        io::Error::from(kind)
    }
}

impl io::Write for Stops {
    fn write(&mut self, bytes: &[u8]) -> io::Result<usize> {
        self.calls = self.calls.saturating_add(1);
        let Some(byte) = bytes.first() else {
            return Ok(0);
        };
        if self.held.len() < self.room && self.held.push(*byte).is_ok() {
            return Ok(1);
        }
        match self.full {
            Full::TakesNone => Ok(0),
            Full::Fails(kind) => Err(self.failure(kind)),
        }
    }

    fn flush(&mut self) -> io::Result<()> {
        Ok(())
    }
}

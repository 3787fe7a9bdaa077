//! Opening a session, and freeing it.
ghost use Rattle.std.specs.Prelude.{◌≡◌, [], None, IfOk, OnOk};
ghost use Rattle.gl_event.specs.Bounds.{of_session};
ghost use Rattle.gl_std.specs.Names.{with_new};
ghost use Rattle.gl_c.specs.Opening.{thread_name, thread_names, IsNewSession, IsOpening};

use crate::codes::{MEMORY, MISUSE, OK, RANGE};
use crate::session::Session;
use crate::session_state::{Running, SessionState, Stage};
use gl_engine::open;
use gl_event::{Limits, MAX_EVENTS, MAX_NAMES, Memory};
use gl_std::{Names, Seed};
use itoa::Buffer;
use std::alloc::{AllocError, Global};

// Gives the thread with the next number its name: `T`, and the number.
fn name_thread(names: &mut Names, alloc: Global, thread: u32) -> Result<(), Memory>
    ensures named { OnOk result
        (names.new.threads ≡ with_new names.old.threads (thread_name thread)) }
    ensures locks { names.new.locks ≡ names.old.locks }
    ensures places { names.new.locs ≡ names.old.locs }
{
    let mut name = Vec::new(alloc);
    let mut digits = Buffer::new();
    name.push(b'T')?;
    name.extend_from_slice(digits.format(thread).as_bytes())?;
    let Ok(_) = names.number_thread(alloc, &name) else {
        return Err(AllocError);
    };
    Ok(())
}

// The names of so many threads, and no others.
fn thread_names(alloc: Global, threads: u32) -> Result<Names, Memory>
    ensures { IfOk result (λ names. (names.threads ≡ thread_names threads)
        × (names.locks ≡ []) × (names.locs ≡ [])) }
{
    let mut names = Names::new(alloc, Seed::fixed());
    for thread in 0..threads {
        name_thread(&mut names, alloc, thread)?;
    }
    Ok(names)
}

// A new session of this number.
fn open_session(alloc: Global, number: u64, limits: &Limits) -> Result<SessionState, Memory>
    ensures { IfOk result (λ state. IsNewSession number limits.now state) }
{
    let names = thread_names(alloc, limits.threads())?;
    let (mut recorders, collector) = open(alloc, number, limits)?;
    recorders.reverse();
    Ok(SessionState {
        number,
        names,
        recorders,
        receipts: Vec::new(alloc),
        stage: Stage::Running(Running {
            limits: *limits,
            collector,
        }),
    })
}

/// Opens a session.
#[unsafe(no_mangle)]
pub extern "C" fn goodlock_open(
    alloc: Global,
    number: u64,
    threads: u32,
    ring: u32,
    session: &mut Session,
) -> u32
    ensures { IsOpening number (of_session threads ring)
        session.old.value result session.new.value }
{
    if let Some(state) = session.take(alloc) {
        session.put(state);
        return MISUSE;
    }
    let Ok(limits) = Limits::new(threads, ring, MAX_EVENTS, MAX_NAMES) else {
        return RANGE;
    };
    let Ok(state) = open_session(alloc, number, &limits) else {
        return MEMORY;
    };
    let Ok(state) = Box::new(alloc, state) else {
        return MEMORY;
    };
    session.put(state);
    OK
}

/// Frees the session.
#[unsafe(no_mangle)]
pub extern "C" fn goodlock_session_free(alloc: Global, session: &mut Session)
    ensures { session.new.value ≡ None }
{
    drop(session.take(alloc));
}

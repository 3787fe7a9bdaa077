//! The lists of events of a trace.
ghost use Rattle.std.specs.Prelude.{◌≡◌, ◌<◌, ◌-◌, [], ◌++◌, OnOk, map, replicate, vec_len};

use crate::judge::Judged;
use crate::names::Names;
use gl_event::{Event, ThreadId};
use std::alloc::{AllocError, Global};
use std::marker::Model;

/// The events of each thread, by the thread's number. Contracts see a list of lists.
#[derive(Drop)]
pub struct Lists {
    lists: Vec<Vec<Event>>,
}

impl Model for Lists {
    ghost use Rattle.std.specs.Prelude.{List, map};
    ghost use Rattle.gl_event.specs.declared.events.Event.{Event};

    ghost Value = { List (List Event) };

    ghost view = { λ l. map (λ es. es.items) l.lists.items };
}

impl Lists {
    ghost use Rattle.std.specs.Prelude.{length};
    ghost use Rattle.gl_std.specs.Listed.{listed};
    ghost use Rattle.gl_std.specs.bodies.Telling.{with_judged, IsKnown};
    ghost use Rattle.gl_std.specs.declared.trace.Trace.{Trace};

    /// The lists of this `Vec`. Takes no memory.
    pub fn new(lists: Vec<Vec<Event>>) -> Lists
        ensures { result ≡ map (λ es. es.items) lists.items }
    {
        Lists { lists }
    }

    /// The lists, by the thread's number.
    pub fn as_slice(&self) -> &[Vec<Event>]
        ensures { map (λ es. es.items) result.now ≡ self.now }
    {
        self.lists.as_slice()
    }

    /// The `Vec` that holds the lists. Takes no memory.
    pub fn into_vec(self) -> Vec<Vec<Event>>
        ensures { map (λ es. es.items) result.items ≡ self }
    {
        let Lists { lists } = self;
        lists
    }

    /// Puts what a line is at the end of its thread's list, where it tells an event. These are the names
    /// after the line.
    pub(crate) fn add(
        &mut self,
        alloc: Global,
        names: &Names,
        judged: Judged,
    ) -> Result<(), AllocError>
        requires known { IsKnown judged (length names.now.threads) }
        ensures { OnOk result
            ((told : Trace) → told.lists ≡ self.old
            → self.new ≡ (with_judged judged names.now told).lists) }
    {
        match judged {
            Judged::Blank => Ok(()),
            Judged::Skipped => Ok(()),
            Judged::Stray => Ok(()),
            Judged::Event { thread, event } => {
                self.put(alloc, names.threads() as usize, thread, event)
            }
        }
    }

    // Puts the event at the end of its thread's list, where so many threads have a list.
    fn put(
        &mut self,
        alloc: Global,
        threads: usize,
        thread: ThreadId,
        event: Event,
    ) -> Result<(), AllocError>
        requires { thread < threads }
        ensures { OnOk result (self.new ≡ listed threads self.old thread event) }
    {
        grow(&mut self.lists, alloc, threads)?;
        self.lists[thread.number() as usize].push(event)?;
        Ok(())
    }
}

// Gives each of so many threads a list.
fn grow(lists: &mut Vec<Vec<Event>>, alloc: Global, threads: usize) -> Result<(), AllocError>
    ensures { OnOk result
        (map (λ es. es.items) lists.new.items
        ≡ map (λ es. es.items) lists.old.items ++ replicate (threads - vec_len lists.old) []) }
{
    while lists.len() < threads {
        lists.push(Vec::new(alloc))?;
    }
    Ok(())
}

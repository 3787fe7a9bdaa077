//! What a text says.
use crate::judge::Judge;
use crate::lists::Lists;
use crate::names::Names;

/// The events that a text tells, thread by thread, with the names of what they speak of.
#[derive(Drop)]
pub struct Trace {
    /// The names of threads, locks and locations.
    pub names: Names,
    /// Each thread's events, by the thread's number.
    pub lists: Lists,
    /// How many lines were skipped, since their operation is none that is watched.
    pub skipped: u64,
    /// How many releases were dropped, since their thread didn't hold the lock.
    pub stray: u64,
}

impl Trace {
    ghost use Rattle.std.specs.Prelude.{◌≡◌};
    ghost use Rattle.gl_std.specs.bodies.States.{HasJudged};
    ghost use Rattle.gl_std.specs.declared.trace.Trace.{Trace};

    /// What was judged, with the lists of its events.
    pub(crate) fn of(judge: Judge, lists: Lists) -> Trace
        ensures { (told : Trace) → HasJudged judge told
            → lists ≡ told.lists → result ≡ told }
    {
        let (names, skipped, stray) = judge.into_parts();
        Trace {
            names,
            lists,
            skipped,
            stray,
        }
    }
}

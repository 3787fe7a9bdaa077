//! The names of the threads, which keep their numbers.
ghost use Rattle.std.specs.Prelude.{◌≡◌, ◌≢◌, ◌+◌, ◌^◌, ◌<◌, [], ◌∷◌, ◌++◌, None, length, position, IfOk, OnErr, OnOk};
ghost use Rattle.std.specs.Str.{bytes_eq};

use gl_event::{Memory, ThreadId};
use gl_std::{Names, NamesFault, Seed};
use std::alloc::{AllocError, Global};

// Gives the next number to a new name of a thread.
fn add_thread(alloc: Global, names: &mut Names, name: &[u8]) -> Result<(), Memory>
    requires absent { position (bytes_eq name.now) names.old.threads ≡ None }
    requires room { length names.old.threads + 1 < 2 ^ 32 }
    ensures { OnOk result
        (names.new ≡ record names.old { threads = names.old.threads ++ name.now ∷ [] }) }
{
    match names.number_thread(alloc, name) {
        Ok(_) => Ok(()),
        Err(NamesFault::Memory) => Err(AllocError),
        // there is room for one more
        Err(NamesFault::Full) => unreachable!(),
    }
}

/// The names of the threads alone. One look-up by hash for each.
pub(crate) fn names_of_threads(alloc: Global, names: &Names) -> Result<Names, Memory>
    ensures names { IfOk result (λ alone. alone ≡ record names.now { locks = []; locs = [] }) }
    ensures memory { OnErr result (names.now.threads ≢ []) }
{
    let mut alone = Names::new(alloc, Seed::fixed());
    for number in 0..names.threads() {
        add_thread(alloc, &mut alone, names.thread(ThreadId::new(number)))?;
    }
    Ok(alone)
}

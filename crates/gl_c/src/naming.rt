//! The numbers of locks and of places.
ghost use Rattle.std.specs.Prelude.{◌≡◌};
ghost use Rattle.gl_c.specs.Calls.{IsCall};
ghost use Rattle.gl_c.specs.Naming.{names_code, IsNumbering, IsNumberingLock, IsNumberingPlace};
ghost use Rattle.gl_c.specs.declared.codes.TheConstants.{MISUSE};

use crate::codes::{MEMORY, MISUSE, NAMES, OK};
use crate::session::Session;
use gl_std::{Names, NamesFault};
use std::alloc::Global;

// What is answered where a name got no number.
fn names_code(fault: NamesFault) -> u32
    ensures { result ≡ names_code fault }
{
    match fault {
        NamesFault::Full => NAMES,
        NamesFault::Memory => MEMORY,
    }
}

// The number of the lock with this name.
fn number_lock(alloc: Global, names: &mut Names, name: &[u8], lock: &mut u32) -> u32
    ensures numbered { IsNumbering names.old.locks name.now lock.old result
        lock.new names.new.locks }
    ensures rest { names.new ≡ record names.old { locks = names.new.locks } }
{
    match names.number_lock(alloc, name) {
        Ok(number) => {
            *lock = number.number();
            OK
        }
        Err(fault) => names_code(fault),
    }
}

/// The number of the lock with this name.
#[unsafe(no_mangle)]
pub extern "C" fn goodlock_lock(
    alloc: Global,
    session: &mut Session,
    name: &[u8],
    lock: &mut u32,
) -> u32
    ensures { IsCall (λ old new. IsNumberingLock old name.now lock.old result lock.new new)
        ((result ≡ MISUSE) × (lock.new ≡ lock.old)) session.old.value session.new.value }
{
    let Some(mut state) = session.take(alloc) else {
        return MISUSE;
    };
    let answer = number_lock(alloc, &mut state.names, name, lock);
    session.put(state);
    answer
}

// The number of the place with this name.
fn number_place(alloc: Global, names: &mut Names, name: &[u8], place: &mut u32) -> u32
    ensures numbered { IsNumbering names.old.locs name.now place.old result
        place.new names.new.locs }
    ensures rest { names.new ≡ record names.old { locs = names.new.locs } }
{
    match names.number_loc(alloc, name) {
        Ok(number) => {
            *place = number.number();
            OK
        }
        Err(fault) => names_code(fault),
    }
}

/// The number of the place with this name.
#[unsafe(no_mangle)]
pub extern "C" fn goodlock_place(
    alloc: Global,
    session: &mut Session,
    name: &[u8],
    place: &mut u32,
) -> u32
    ensures { IsCall (λ old new. IsNumberingPlace old name.now place.old result place.new new)
        ((result ≡ MISUSE) × (place.new ≡ place.old)) session.old.value session.new.value }
{
    let Some(mut state) = session.take(alloc) else {
        return MISUSE;
    };
    let answer = number_place(alloc, &mut state.names, name, place);
    session.put(state);
    answer
}

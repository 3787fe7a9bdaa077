//! Whether what events speak of has names.
ghost use Rattle.std.specs.Prelude.{◌≡◌, ◌<◌, length, map};
ghost use Rattle.std.specs.List.{list_all};
ghost use Rattle.gl_renumbering.specs.Tales.{has_names, have_names, is_named};

use gl_event::{Event, LocId, LockId};
use gl_std::Names;

// Whether the lock has a name.
fn is_lock_named(names: &Names, lock: LockId) -> bool
    ensures { result ≡ is_named names.now.locks lock }
{
    lock.number() < names.locks()
}

// Whether the location has a name.
fn is_location_named(names: &Names, location: LocId) -> bool
    ensures { result ≡ is_named names.now.locs location }
{
    location.number() < names.locs()
}

// Whether the event's lock and location have names.
fn has_names(names: &Names, event: &Event) -> bool
    ensures { result ≡ has_names names.now event.now }
{
    match *event {
        Event::Acquire { lock, loc, .. } => is_lock_named(names, lock)
            && is_location_named(names, loc),
        Event::Release { lock, loc, .. } => is_lock_named(names, lock)
            && is_location_named(names, loc),
        Event::TryAcquire { lock, loc, .. } => {
            is_lock_named(names, lock) && is_location_named(names, loc)
        }
        Event::Fork { loc, .. } => is_location_named(names, loc),
        Event::Join { loc, .. } => is_location_named(names, loc),
    }
}

// Whether those of all events of the list have.
fn list_has_names(names: &Names, events: &[Event]) -> bool
    ensures { result ≡ list_all (has_names names.now) events.now }
{
    for event in events {
        if !has_names(names, event) {
            return false;
        }
    }
    true
}

/// Whether the locks and locations of all events have names. A step for each event.
pub(crate) fn have_names(names: &Names, lists: &[Vec<Event>]) -> bool
    ensures { result ≡ have_names names.now (map (λ list. list.items) lists.now) }
{
    for list in lists {
        if !list_has_names(names, list) {
            return false;
        }
    }
    true
}

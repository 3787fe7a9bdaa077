//! Lists of events with locks and locations numbered by first mention.
ghost use Rattle.std.specs.Prelude.{◌≡◌, ◌↔◌, true, false, Err, map, IfOk, OnErr, OnOk};
ghost use Rattle.std.specs.List.{list_all};
ghost use Rattle.gl_renumbering.specs.Tales.{has_names, have_names, lists_by_mention, mentioned, names_by_mention, told, IsThereToNumber, StayLawful};
ghost use Rattle.gl_renumbering.specs.bodies.Tables.{AllStayToldBy, StandsFor, StayToldBy};
ghost use Rattle.gl_renumbering.specs.declared.renumbering.RenumberingFault.TheVariants.{Memory as OutOfMemory, Unnamed};

use crate::numbers::Numbers;
use crate::unnamed::have_names;
use gl_event::{Event, Memory, append};
use gl_std::Names;
use std::alloc::Global;

/// Lists of events, by thread, whose locks and locations are numbered by first mention, and the names by these
/// numbers.
#[derive(Drop)]
pub struct ByMention {
    /// The events of each thread, in the order of thread numbers.
    pub lists: Vec<Vec<Event>>,
    /// The names of threads, which have the numbers that they had, and of locks and of locations.
    pub names: Names,
}

/// Why lists weren't numbered by first mention.
#[derive(Clone, Copy, Debug, PartialEq, Eq)]
pub enum RenumberingFault {
    /// A lock or a location of an event has no name.
    Unnamed,
    /// Memory was refused.
    Memory,
}

// The events of a list by the new numbers.
fn list_by_mention(
    alloc: Global,
    numbers: &mut Numbers,
    old: &Names,
    events: &[Event],
) -> Result<Vec<Event>, Memory>
    requires stands { StandsFor old.now numbers.old.names
        numbers.old.locks.items numbers.old.locations.items }
    requires named { list_all (has_names old.now) events.now ≡ true }
    ensures stands { OnOk result (StandsFor old.now numbers.new.names
        numbers.new.locks.items numbers.new.locations.items) }
    ensures names { OnOk result (numbers.new.names
        ≡ mentioned numbers.old.names (map (told old.now) events.now)) }
    ensures events { IfOk result
        (λ list. StayToldBy numbers.new.names (map (told old.now) events.now) list.items) }
{
    let mut list = Vec::new(alloc);
    for event in events {
        let event = numbers.event(alloc, old, event)?;
        append(&mut list, event)?;
    }
    Ok(list)
}

// All lists and the names, by the new numbers.
fn all_by_mention(alloc: Global, old: &Names, lists: &[Vec<Event>]) -> Result<ByMention, Memory>
    requires named { have_names old.now (map (λ list. list.items) lists.now) ≡ true }
    ensures names { IfOk result (λ told. told.names
        ≡ names_by_mention old.now (map (λ list. list.items) lists.now)) }
    ensures lists { IfOk result (λ told. map (λ list. list.items) told.lists.items
        ≡ lists_by_mention old.now (map (λ list. list.items) lists.now)) }
    ensures lawful { IfOk result (λ told.
        StayLawful (map (λ list. list.items) lists.now)
        (map (λ list. list.items) told.lists.items)) }
    ensures memory { OnErr result
        (IsThereToNumber old.now (map (λ list. list.items) lists.now)) }
{
    let mut numbers = Numbers::new(alloc, old)?;
    let mut by_mention = Vec::new(alloc);
    for list in lists {
        let list = list_by_mention(alloc, &mut numbers, old, list)?;
        by_mention.push(list)?;
    }
    let Numbers { names, .. } = numbers;
    Ok(ByMention {
        lists: by_mention,
        names,
    })
}

/// The same lists, with locks and locations numbered by first mention: thread 0's list first, event by event,
/// then thread 1's, and so on; of an event its lock is mentioned first, then its location. Each new name gets the
/// next number. Threads keep their numbers.
///
/// Where a list is lawful, so is the one by mention.
///
/// Err `Unnamed` where a lock or a location of an event has no name, whether or not there is memory. Err `Memory`
/// where memory was refused, and never where there is no name and no list.
///
/// Takes memory for the lists and the names. Time grows with the events and the names; a name is looked up by
/// hash at its first mention alone.
pub fn by_mention(
    alloc: Global,
    names: &Names,
    lists: &[Vec<Event>],
) -> Result<ByMention, RenumberingFault>
    ensures names { IfOk result (λ told. told.names
        ≡ names_by_mention names.now (map (λ list. list.items) lists.now)) }
    ensures lists { IfOk result (λ told. map (λ list. list.items) told.lists.items
        ≡ lists_by_mention names.now (map (λ list. list.items) lists.now)) }
    ensures unnamed { (result ≡ Err Unnamed)
        ↔ (have_names names.now (map (λ list. list.items) lists.now) ≡ false) }
    ensures lawful { IfOk result (λ told.
        StayLawful (map (λ list. list.items) lists.now)
        (map (λ list. list.items) told.lists.items)) }
    ensures memory { result ≡ Err OutOfMemory
        → IsThereToNumber names.now (map (λ list. list.items) lists.now) }
{
    if !have_names(names, lists) {
        return Err(RenumberingFault::Unnamed);
    }
    match all_by_mention(alloc, names, lists) {
        Ok(told) => Ok(told),
        Err(_) => Err(RenumberingFault::Memory),
    }
}

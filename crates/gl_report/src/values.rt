//! Names, modes and positions as JSON values.
ghost use Rattle.std.specs.Prelude.{◌≡◌, [], ◌∷◌, ◌++◌, map, IfOk, OnOk};
ghost use Rattle.serde_json.specs.Data.{number, string, unsigned};
ghost use Rattle.serde_json.specs.View.{view};
ghost use Rattle.gl_filters.specs.Asked.{mode_name};
ghost use Rattle.gl_report.specs.Tree.{guard_modes_tree, guards_tree, lock_mode_letter, lock_mode_tree, name_tree, positions_tree};

use crate::escapes::escaped_name;
use crate::printing::{loc_name, lock_name, thread_name};
use gl_edges::{Guard, Guards};
use gl_event::{LocId, LockId, LockMode, Memory, ThreadId};
use gl_filters::Mode;
use gl_std::Names;
use serde_json::Value;
use std::alloc::Global;

/// The name of a thread.
pub(crate) fn thread_value(alloc: Global, names: &Names, thread: ThreadId) -> Result<Value, Memory>
    ensures { IfOk result (λ v. view v ≡ name_tree names.now.threads thread) }
{
    let name = escaped_name(alloc, thread_name(names, thread))?;
    Ok(Value::from(name))
}

/// The name of a lock.
pub(crate) fn lock_value(alloc: Global, names: &Names, lock: LockId) -> Result<Value, Memory>
    ensures { IfOk result (λ v. view v ≡ name_tree names.now.locks lock) }
{
    let name = escaped_name(alloc, lock_name(names, lock))?;
    Ok(Value::from(name))
}

/// The name of a location.
pub(crate) fn loc_value(alloc: Global, names: &Names, loc: LocId) -> Result<Value, Memory>
    ensures { IfOk result (λ v. view v ≡ name_tree names.now.locs loc) }
{
    let name = escaped_name(alloc, loc_name(names, loc))?;
    Ok(Value::from(name))
}

// Adds the name of a lock.
fn push_lock(
    alloc: Global,
    values: &mut Vec<Value>,
    names: &Names,
    lock: LockId,
) -> Result<(), Memory>
    ensures { OnOk result
        (map view values.new.items
        ≡ map view values.old.items ++ name_tree names.now.locks lock ∷ []) }
{
    let value = lock_value(alloc, names, lock)?;
    values.push(value)?;
    Ok(())
}

// The names of guard locks.
fn guard_values(alloc: Global, names: &Names, guards: &[Guard]) -> Result<Vec<Value>, Memory>
    ensures { IfOk result
        (λ vs. map view vs.items
        ≡ map (λ guard. name_tree names.now.locks guard.lock) guards.now) }
{
    let mut values = Vec::new(alloc);
    for guard in guards {
        push_lock(alloc, &mut values, names, guard.lock)?;
    }
    Ok(values)
}

/// The array of the names of guard locks.
pub(crate) fn guards_value(alloc: Global, names: &Names, guards: &Guards) -> Result<Value, Memory>
    ensures { IfOk result (λ v. view v ≡ guards_tree names.now guards.now) }
{
    let values = guard_values(alloc, names, guards.as_slice())?;
    Ok(Value::from(values))
}

// The letter for the mode of a lock.
fn lock_mode_letter(mode: LockMode) -> &'static str
    ensures { result.now ≡ lock_mode_letter mode }
{
    match mode {
        LockMode::Exclusive => "x",
        LockMode::Shared => "s",
    }
}

/// The mode of a lock.
pub(crate) fn lock_mode_value(alloc: Global, mode: LockMode) -> Result<Value, Memory>
    ensures { IfOk result (λ v. view v ≡ lock_mode_tree mode) }
{
    let letter = String::from_str(alloc, lock_mode_letter(mode))?;
    Ok(Value::from(letter))
}

// Adds the mode of a lock.
fn push_lock_mode(alloc: Global, values: &mut Vec<Value>, mode: LockMode) -> Result<(), Memory>
    ensures { OnOk result
        (map view values.new.items ≡ map view values.old.items ++ lock_mode_tree mode ∷ []) }
{
    let value = lock_mode_value(alloc, mode)?;
    values.push(value)?;
    Ok(())
}

// The modes in which guard locks are held.
fn guard_mode_values(alloc: Global, guards: &[Guard]) -> Result<Vec<Value>, Memory>
    ensures { IfOk result
        (λ vs. map view vs.items ≡ map (λ guard. lock_mode_tree guard.mode) guards.now) }
{
    let mut values = Vec::new(alloc);
    for guard in guards {
        push_lock_mode(alloc, &mut values, guard.mode)?;
    }
    Ok(values)
}

/// The array of the modes in which guard locks are held.
pub(crate) fn guard_modes_value(alloc: Global, guards: &Guards) -> Result<Value, Memory>
    ensures { IfOk result (λ v. view v ≡ guard_modes_tree guards.now) }
{
    let values = guard_mode_values(alloc, guards.as_slice())?;
    Ok(Value::from(values))
}

// Adds a position.
fn push_position(values: &mut Vec<Value>, position: usize) -> Result<(), Memory>
    ensures { OnOk result
        (map view values.new.items
        ≡ map view values.old.items ++ number (unsigned position) ∷ []) }
{
    values.push(Value::from(position))?;
    Ok(())
}

// Positions.
fn position_values(alloc: Global, positions: &[usize]) -> Result<Vec<Value>, Memory>
    ensures { IfOk result
        (λ vs. map view vs.items ≡ map (λ position. number (unsigned position)) positions.now) }
{
    let mut values = Vec::new(alloc);
    for &position in positions {
        push_position(&mut values, position)?;
    }
    Ok(values)
}

/// The array of positions.
#[tactic(auto, unfolding(crate::specs::Tree::positions_tree))]
pub(crate) fn positions_value(alloc: Global, positions: &[usize]) -> Result<Value, Memory>
    ensures { IfOk result (λ v. view v ≡ positions_tree positions.now) }
{
    let values = position_values(alloc, positions)?;
    Ok(Value::from(values))
}

/// The mode of a query.
pub(crate) fn mode_value(alloc: Global, mode: Mode) -> Result<Value, Memory>
    ensures { IfOk result (λ v. view v ≡ string (mode_name mode)) }
{
    let word = String::from_str(alloc, mode.name())?;
    Ok(Value::from(word))
}

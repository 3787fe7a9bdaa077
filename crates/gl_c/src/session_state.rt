//! What a session's handle is of.
ghost use Rattle.std.specs.Prelude.{◌≡◌, length};

use gl_engine::{Collector, Receipt, Recorder, Settled};
use gl_event::Limits;
use gl_std::Names;

/// A session that runs: its limits, and what collects its events.
#[derive(Drop)]
pub struct Running {
    /// The limits.
    pub limits: Limits,
    /// What collects the events.
    pub collector: Collector,
    /// The limits are those of what collects.
    pub ghost same: { collector.limits ≡ limits },
    /// It collects from a lane of each thread.
    pub ghost inputs: { length collector.inputs ≡ limits.threads },
}

/// How far a session has come.
#[derive(Drop)]
pub enum Stage {
    /// It runs.
    Running(Running),
    /// It was settled.
    Settled(Settled),
    /// It is being settled. No call leaves a session so.
    Gone,
}

/// A session: its number, the names, the recorders that are not given out yet, the last thread's
/// first, and the receipts that were handed in.
#[derive(Drop)]
pub struct SessionState {
    /// What tells sessions apart.
    pub number: u64,
    /// The names of threads, locks and places.
    pub names: Names,
    /// The recorders that are not given out yet. That of the next thread is the last.
    pub recorders: Vec<Recorder>,
    /// The receipts that were handed in.
    pub receipts: Vec<Receipt>,
    /// How far it has come.
    pub stage: Stage,
}

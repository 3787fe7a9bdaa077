//! Ranks of those who hold locks, by which edges are seen to lie on no loop.
//!
//! From an edge to one that it leads on to the rank should never fall: then it stays the same on the way round a
//! loop. Who holds a lock exclusively keeps out all others, and who holds it as a reader only those who want it
//! exclusively. So each lock has two ranks, one for each mode in which it is held. They number the strongly
//! connected components of the graph of holders, so that along all other edges they rise. But only what a check
//! finds counts.
//!
//! Where a run has epochs, locks have ranks of their own in each.
ghost use Rattle.std.specs.Prelude.{◌≡◌};
ghost use Rattle.gl_loops.specs.bodies.Loops.{least, held_rank, wanted_rank};
ghost use Rattle.gl_loops.specs.bodies.Ranks.{rank_in, shared_rank_in, rank_of_epoch};

use crate::epochs::Epochs;
use gl_edges::{Edge, Sample};
use gl_event::{LockId, LockMode, Memory};
use gl_index::ByLock;
use gl_sought::{Numbers, Step, components_of};
use std::alloc::Global;

/// Ranks of those who hold locks.
#[derive(Drop)]
pub(crate) struct Ranks {
    // of those who hold a lock exclusively
    pub(crate) exclusive: Numbers,
    // of those who hold it as readers; none, where there are no readers: then they are the same
    pub(crate) shared: Option<Numbers>,
}

impl Ranks {
    // No lock of so many edges has a rank.
    fn none(alloc: Global, edges: usize, has_readers: bool) -> Ranks {
        Ranks {
            exclusive: Numbers::none(alloc, edges),
            shared: has_readers.then(|| Numbers::none(alloc, edges)),
        }
    }

    // Gives the lock with this number in the graph the ranks that were found for those who hold it.
    fn give(&mut self, lock: LockId, number: usize, found: &[Option<usize>]) -> Result<(), Memory> {
        self.exclusive
            .give(lock, rank_at(found, number, LockMode::Exclusive))?;
        let Some(shared) = &mut self.shared else {
            return Ok(());
        };
        shared.give(lock, rank_at(found, number, LockMode::Shared))
    }

    // The rank of those who hold the lock as readers.
    fn shared_rank(&self, lock: LockId) -> usize
        ensures { result ≡ shared_rank_in self.now lock }
    {
        match &self.shared {
            Some(numbers) => numbers.number(lock),
            None => self.exclusive.number(lock),
        }
    }

    /// The rank of those who hold the lock in this mode.
    pub(crate) fn rank(&self, lock: LockId, mode: LockMode) -> usize
        ensures { result ≡ rank_in self.now lock mode }
    {
        match mode {
            LockMode::Exclusive => self.exclusive.number(lock),
            LockMode::Shared => self.shared_rank(lock),
        }
    }

    /// The least rank of those who hold the lock and keep out who wants it in this mode.
    pub(crate) fn least(&self, lock: LockId, wanted: LockMode) -> usize
        ensures { result ≡ least (rank_in self.now) lock wanted }
    {
        let exclusive = self.exclusive.number(lock);
        match wanted {
            LockMode::Exclusive if self.shared.is_some() => exclusive.min(self.shared_rank(lock)),
            _ => exclusive,
        }
    }
}

/// By the ranks of its epoch, the rank of the edge's thread.
pub(crate) fn held_rank(ranks: &[Ranks], epoch: usize, edge: &Edge) -> usize
    ensures { result ≡ held_rank (rank_of_epoch ranks.now epoch) edge.now }
{
    match ranks.get(epoch) {
        Some(ranks) => ranks.rank(edge.held, edge.held_mode),
        None => 0,
    }
}

/// By the ranks of its epoch, the least of those for whom the edge's thread waits.
pub(crate) fn wanted_rank(ranks: &[Ranks], epoch: usize, edge: &Edge) -> usize
    ensures { result ≡ wanted_rank (rank_of_epoch ranks.now epoch) edge.now }
{
    match ranks.get(epoch) {
        Some(ranks) => ranks.least(edge.wanted, edge.wanted_mode),
        None => 0,
    }
}

/// The ranks for all edges of a table, whichever epochs they are of.
pub(crate) fn ranks_of(alloc: Global, table: &[(Edge, Sample)]) -> Result<Ranks, Memory> {
    let mut ranks = ranks_of_epochs(alloc, table, &[], &Epochs::one(alloc))?;
    match ranks.pop() {
        Some(ranks) => Ok(ranks),
        None => Ok(Ranks::none(alloc, 0, false)),
    }
}

/// For each epoch the ranks for its edges that are kept: those that have no flag, or whose flag is set. Two look-ups by
/// lock for each edge, two for each lock of an epoch, and one step of two walks for each edge, or two where there are readers.
pub(crate) fn ranks_of_epochs(
    alloc: Global,
    table: &[(Edge, Sample)],
    kept: &[bool],
    epochs: &Epochs,
) -> Result<Vec<Ranks>, Memory> {
    let sizes = sizes_of(alloc, table.len(), kept, epochs)?;
    let mut numbering = Numbering::of(alloc, &sizes)?;
    let mut steps = number_locks(alloc, table, kept, epochs, &mut numbering)?;
    let has_readers = numbering.has_readers;
    if has_readers {
        add_steps_to_readers(table, kept, epochs, &mut numbering, &mut steps)?;
    }
    let places = place_of(numbering.locks.len(), LockMode::Exclusive);
    let found = components_of(alloc, places, &steps)?;
    let mut ranks = no_ranks(alloc, &sizes, has_readers)?;
    give_ranks(&mut ranks, &numbering.locks, &found)?;
    Ok(ranks)
}

// How many edges that are kept each epoch has, or may have where there is one.
fn sizes_of(
    alloc: Global,
    edges: usize,
    kept: &[bool],
    epochs: &Epochs,
) -> Result<Vec<usize>, Memory> {
    if epochs.count == 1 {
        let sizes = vec![in alloc; edges; 1]?;
        return Ok(sizes);
    }
    let mut sizes = vec![in alloc; 0usize; epochs.count]?;
    for i in 0..edges {
        if kept.get(i) == Some(&false) {
            continue;
        }
        if let Some(size) = sizes.get_mut(epochs.epoch(i)) {
            *size = size.saturating_add(1);
        }
    }
    Ok(sizes)
}

// No lock has a rank, in epochs of so many edges.
fn no_ranks(alloc: Global, sizes: &[usize], has_readers: bool) -> Result<Vec<Ranks>, Memory> {
    let mut ranks = Vec::with_capacity(alloc, sizes.len())?;
    for &size in sizes {
        ranks.push(Ranks::none(alloc, size, has_readers))?;
    }
    Ok(ranks)
}

// Gives each lock of each epoch the ranks that were found for it.
fn give_ranks(
    ranks: &mut [Ranks],
    locks: &[(usize, LockId)],
    found: &[Option<usize>],
) -> Result<(), Memory> {
    for (number, &(epoch, lock)) in locks.iter().enumerate() {
        if let Some(ranks) = ranks.get_mut(epoch) {
            ranks.give(lock, number, found)?;
        }
    }
    Ok(())
}

// The rank that was found for those who hold the lock with this number in this mode.
fn rank_at(found: &[Option<usize>], number: usize, mode: LockMode) -> usize {
    found
        .get(place_of(number, mode))
        .copied()
        .flatten()
        .unwrap_or(0)
}

// Numbers of the locks of each epoch, from 0 through all epochs.
#[derive(Drop)]
struct Numbering {
    by_epoch: Vec<ByLock<usize>>,
    // of which epoch and lock each number is
    locks: Vec<(usize, LockId)>,
    // whether one of them is held or wanted by a reader
    has_readers: bool,
}

impl Numbering {
    // No lock has a number yet, of epochs of so many edges.
    fn of(alloc: Global, sizes: &[usize]) -> Result<Numbering, Memory> {
        let mut by_epoch = Vec::with_capacity(alloc, sizes.len())?;
        for &size in sizes {
            by_epoch.push(ByLock::for_edges(alloc, size))?;
        }
        Ok(Numbering {
            by_epoch,
            locks: Vec::new(alloc),
            has_readers: false,
        })
    }

    // The number of a lock in an epoch, which is the next one where it had none.
    fn number(&mut self, epoch: usize, lock: LockId) -> Result<usize, Memory> {
        let Some(numbers) = self.by_epoch.get_mut(epoch) else {
            return Ok(0);
        };
        if let Some(number) = numbers.get(lock) {
            return Ok(number);
        }
        let number = self.locks.len();
        numbers.insert(lock, number)?;
        self.locks.push((epoch, lock))?;
        Ok(number)
    }

    // The step from who holds the edge's lock to those who hold the one that it wants, in this mode.
    fn step(&mut self, epoch: usize, edge: &Edge, mode: LockMode) -> Result<Step, Memory> {
        let held = self.number(epoch, edge.held)?;
        let wanted = self.number(epoch, edge.wanted)?;
        Ok(Step {
            from: place_of(held, edge.held_mode),
            to: place_of(wanted, mode),
        })
    }
}

// Whether an edge holds or wants a lock as a reader.
fn has_reader(edge: &Edge) -> bool {
    edge.held_mode == LockMode::Shared || edge.wanted_mode == LockMode::Shared
}

// The place in the graph of those who hold the lock with this number in this mode.
fn place_of(number: usize, mode: LockMode) -> usize {
    let place = number.saturating_mul(2);
    match mode {
        LockMode::Exclusive => place,
        LockMode::Shared => place.saturating_add(1),
    }
}

// Numbers the locks of the edges that are kept, in each epoch, and gives the steps from holders to those for whom they wait who hold
// a lock exclusively.
fn number_locks(
    alloc: Global,
    table: &[(Edge, Sample)],
    kept: &[bool],
    epochs: &Epochs,
    numbering: &mut Numbering,
) -> Result<Vec<Step>, Memory> {
    let mut steps = Vec::new(alloc);
    for (i, (edge, _)) in table.iter().enumerate() {
        if kept.get(i) == Some(&false) {
            continue;
        }
        numbering.has_readers |= has_reader(edge);
        let step = numbering.step(epochs.epoch(i), edge, LockMode::Exclusive)?;
        add_step(&mut steps, step)?;
    }
    Ok(steps)
}

// Adds the steps to those who hold a lock as readers, for whom waits who wants it exclusively.
fn add_steps_to_readers(
    table: &[(Edge, Sample)],
    kept: &[bool],
    epochs: &Epochs,
    numbering: &mut Numbering,
    steps: &mut Vec<Step>,
) -> Result<(), Memory> {
    for (i, (edge, _)) in table.iter().enumerate() {
        if kept.get(i) == Some(&false) || edge.wanted_mode == LockMode::Shared {
            continue;
        }
        let step = numbering.step(epochs.epoch(i), edge, LockMode::Shared)?;
        add_step(steps, step)?;
    }
    Ok(())
}

// Adds a step, unless it only repeats the one before.
fn add_step(steps: &mut Vec<Step>, step: Step) -> Result<(), Memory> {
    if steps.last() != Some(&step) {
        steps.push(step)?;
    }
    Ok(())
}

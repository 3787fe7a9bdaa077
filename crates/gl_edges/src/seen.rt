//! Acquires that a thread made before, with the same locks held.
//!
//! A program runs the same code over and over. An acquire that a thread made before, of the same lock,
//! with the same locks held, in the same modes and segments, makes the same edges, and these have earlier
//! samples already. So one look-up of the whole acquire is enough, where there would be one for each
//! held lock.
//!
//! The locks that a thread holds, in the order in which it took them, lead from the root of a tree to a
//! node: each node is a lock inside those of its parent. Where the nodes of the held locks are known, a
//! step for each of them finds the last one, without their guards. Most of the held locks were held at
//! the acquire before, too: so the latest node with so many locks around it is tried first.
//!
//! Places grow within a list, and with them the segments in which the held locks were opened. So an
//! acquire with other locks held than before has an edge that is new. The same locks can be taken in
//! very many orders, though, which are as many nodes: so there are never more of them than the caller
//! has room for, and an acquire that isn't noted has its edges made again. What is noted isn't always
//! found again, since a node's number is only guessed: that costs the same.
ghost use Rattle.std.specs.Prelude.{◌≡◌, ◌≢◌, ◌⊎◌, ◌+◌, ℕ, List, [], ◌∷◌, ◌++◌, map, length, Contains, IsTrue, IfOk, IfSome, OnOk, OnErr};
ghost use Rattle.gl_edges.specs.bodies.Seen.{edges_inside, edges_now, noted, opened_of, with_node, HasNotedAlike, IsEndOf, IsNode, LeadsTo};
ghost use Rattle.gl_edges.specs.declared.edge.Edge.{Edge};
ghost use Rattle.gl_edges.specs.declared.seen.Opened.{Opened};

use gl_event::{HeldEntry, LockId, LockMode, MAX_HELD, Memory, ThreadId, ThreadState};
use std::alloc::Global;
use std::marker::Model;

// So many slots there are for guesses at first: a power of two.
const SLOTS: usize = 256;

// The number of a branch's node is guessed at so many slots in a row.
const ROW: usize = 8;

// Odd multipliers: factors that differ have products that differ, if not always in the upper bits. A bit of a
// factor changes no bit of the product below its own place, so that slots go by the uppermost bits.
const OF_PARENT: usize = 0xbf58_476d_1ce4_e5b9;

const OF_FIRST: usize = 0x94d0_49bb_1331_11eb;

const OF_ALL: usize = 0x9e37_79b9_7f4a_7c15;

/// A lock that was taken, its mode, and the segment in which that was.
#[derive(Clone, Copy)]
struct Opened {
    lock: LockId,
    mode: LockMode,
    first: u32,
}

/// A lock that was taken inside those of the node of this number: 0 is the root, where none is held.
#[derive(Clone, Copy)]
struct Branch {
    parent: usize,
    opened: Opened,
}

impl Branch {
    // Whether the two are the same.
    fn is(&self, other: &Branch) -> bool
        ensures { IsTrue result → self.now ≡ other.now }
    {
        self.parent == other.parent
            && self.opened.lock == other.opened.lock
            && self.opened.mode == other.opened.mode
            && self.opened.first == other.opened.first
    }
}

/// A node of the tree, and whether it stands for an acquire whose edges were noted.
#[derive(Clone, Copy)]
struct Node {
    branch: Branch,
    is_noted: bool,
}

/// The nodes, each known by its number: one more than its place in the list that contracts see. The
/// root has number 0, and isn't in it.
#[derive(Drop)]
struct Tree {
    nodes: Vec<Node>,
    // Numbers of nodes, each in the row of slots of its branch, if it finds room there; 0 is none. What is
    // taken from here is compared. A node whose number isn't here is made a second time.
    guesses: Vec<u32>,
    // The number of the node that was come to last with so many locks around it, at an acquire or as a held
    // lock. It is compared too.
    latest: [usize; MAX_HELD],
}

impl Model for Tree {
    ghost use Rattle.std.specs.Prelude.{List};
    ghost use Rattle.gl_edges.specs.declared.seen.Node.{Node};

    ghost Value = { List Node };

    ghost view = { λ t. t.nodes.items };
}

impl Tree {
    // No nodes.
    fn new(alloc: Global) -> Tree
        ensures { result ≡ [] }
    {
        Tree {
            nodes: Vec::new(alloc),
            guesses: Vec::new(alloc),
            latest: [0; MAX_HELD],
        }
    }

    // Forgets all nodes.
    fn clear(&mut self)
        ensures { self.new ≡ [] }
    {
        self.nodes.clear();
        self.guesses.clear();
    }

    // Whether the node of this number ends this branch: then, whether it was noted.
    fn look(&self, number: usize, branch: &Branch) -> Option<bool>
        ensures { IfSome result (λ is_noted. IsNode self.now branch.now is_noted number) }
    {
        if number <= branch.parent {
            return None;
        }
        let node = self.nodes.get(number - 1)?;
        if !node.branch.is(branch) {
            return None;
        }
        Some(node.is_noted)
    }

    // The first slot of a branch's row.
    fn slot(&self, branch: &Branch) -> usize {
        let opened = &branch.opened;
        let lock = opened.lock.number() as usize;
        let is_shared = opened.mode == LockMode::Shared;
        let mixed = branch
            .parent
            .wrapping_mul(OF_PARENT)
            .wrapping_add((opened.first as usize).wrapping_mul(OF_FIRST))
            .wrapping_add(lock.wrapping_mul(2).wrapping_add(is_shared as usize))
            .wrapping_mul(OF_ALL);
        // the upper bits, as many as a slot's number has
        mixed.wrapping_shr(self.last_slot().leading_zeros())
    }

    // The number of the last slot: all its bits are set.
    fn last_slot(&self) -> usize {
        self.guesses.len().wrapping_sub(1)
    }

    // The number of a node that ends this branch, where it is found, and whether it was noted.
    fn find(&self, branch: &Branch) -> Option<(usize, bool)>
        ensures { IfSome result (λ r. IsNode self.now branch.now r.1 r.0) }
    {
        let slot = self.slot(branch);
        for offset in 0..ROW {
            let guess = *self
                .guesses
                .get(slot.wrapping_add(offset) & self.last_slot())?;
            if guess == 0 {
                return None;
            }
            if let Some(is_noted) = self.look(guess as usize, branch) {
                return Some((guess as usize, is_noted));
            }
        }
        None
    }

    // The slot for the number of a node that ends this branch: the first in its row with none, or with that of
    // another node there, and else the first of all.
    fn slot_for(&self, branch: &Branch) -> usize {
        let slot = self.slot(branch);
        for offset in 0..ROW {
            let next = slot.wrapping_add(offset) & self.last_slot();
            let Some(guess) = self.guesses.get(next) else {
                return slot;
            };
            if *guess == 0 || self.look(*guess as usize, branch).is_some() {
                return next;
            }
        }
        slot
    }

    // Guesses this number for the branch from now on, if there is a slot for it.
    fn guess(&mut self, branch: &Branch, number: usize)
        ensures { self.new ≡ self.old }
    {
        let Ok(number) = u32::try_from(number) else {
            return;
        };
        let slot = self.slot_for(branch);
        if let Some(guess) = self.guesses.get_mut(slot) {
            *guess = number;
        }
    }

    // Guesses the numbers of all nodes, where none was guessed.
    fn guess_all(&mut self)
        ensures { self.new ≡ self.old }
    {
        for at in 0..self.nodes.len() {
            let branch = self.nodes[at].branch;
            self.guess(&branch, at + 1);
        }
    }

    // Makes more slots, where they are fewer than four times the nodes: most rows then have room.
    fn widen(&mut self) -> Result<(), Memory>
        ensures { self.new ≡ self.old }
    {
        let count = self.guesses.len();
        if count / 4 > self.nodes.len() {
            return Ok(());
        }
        let more = if count == 0 { SLOTS } else { count };
        self.guesses.clear();
        self.guesses.resize(count.saturating_add(more), 0)?;
        self.guess_all();
        Ok(())
    }

    // Adds a node that ends this branch, and answers its number.
    fn add(&mut self, branch: &Branch, is_noted: bool) -> Result<usize, Memory>
        ensures added { OnOk result
            (self.new ≡ self.old ++ with_node branch.now is_noted ∷ []) }
        ensures number { IfOk result (λ number. number ≡ length self.old + 1) }
    {
        self.widen()?;
        self.nodes.push(Node {
            branch: *branch,
            is_noted,
        })?;
        let number = self.nodes.len();
        self.guess(branch, number);
        Ok(number)
    }

    // The number of the node that ends this branch, which is made where it isn't there, if there is room.
    fn node_at(&mut self, branch: Branch, room: usize) -> Result<Option<usize>, Memory>
        ensures leads { IfOk result (λ found. IfSome found (IsEndOf branch self.old self.new)) }
        ensures noted { OnOk result (HasNotedAlike self.old self.new) }
    {
        if let Some((number, _)) = self.find(&branch) {
            return Ok(Some(number));
        }
        if self.nodes.len() >= room {
            return Ok(None);
        }
        let number = self.add(&branch, false)?;
        Ok(Some(number))
    }

    // The same, for a branch with so many locks around it: most often the node is the latest there.
    fn step(&mut self, depth: usize, branch: Branch, room: usize) -> Result<Option<usize>, Memory>
        ensures leads { IfOk result (λ found. IfSome found (IsEndOf branch self.old self.new)) }
        ensures noted { OnOk result (HasNotedAlike self.old self.new) }
    {
        let latest = *self.latest.get(depth).unwrap_or(&0);
        if let Some(_) = self.look(latest, &branch) {
            return Ok(Some(latest));
        }
        let Some(number) = self.node_at(branch, room)? else {
            return Ok(None);
        };
        self.come_to(depth, number);
        Ok(Some(number))
    }

    // The node of this number is the latest with so many locks around it.
    fn come_to(&mut self, depth: usize, number: usize)
        ensures { self.new ≡ self.old }
    {
        if let Some(latest) = self.latest.get_mut(depth) {
            *latest = number;
        }
    }

    // The number of the node that these held locks lead to, if there is room for it.
    fn node_of(&mut self, entries: &[HeldEntry], room: usize) -> Result<Option<usize>, Memory>
        ensures leads { IfOk result
            (λ found. IfSome found
            (λ number. LeadsTo self.new number (map opened_of entries.now))) }
        ensures noted { OnOk result (HasNotedAlike self.old self.new) }
    {
        let mut parent = 0;
        for (depth, entry) in entries.iter().enumerate() {
            let opened = Opened {
                lock: entry.lock,
                mode: entry.mode,
                first: entry.seg,
            };
            let Some(number) = self.step(depth, Branch { parent, opened }, room)? else {
                return Ok(None);
            };
            parent = number;
        }
        Ok(Some(parent))
    }

    // Notes an acquire that is this branch, with so many locks around it, if there is room. The answer is
    // `true` only where it was noted before.
    fn note(&mut self, depth: usize, branch: Branch, room: usize) -> Result<bool, Memory>
        ensures known { IfOk result
            (λ known. IsTrue known → (thread : ℕ) (held : List Opened)
            → LeadsTo self.old branch.parent held → (edge : Edge)
            → Contains (edges_inside thread held branch.opened) edge
            → Contains (noted thread self.old) edge) }
        ensures noted { OnOk result
            ((thread : ℕ) (held : List Opened) → LeadsTo self.old branch.parent held
            → (edge : Edge) → Contains (noted thread self.new) edge
            → Contains (noted thread self.old) edge
            ⊎ Contains (edges_inside thread held branch.opened) edge) }
    {
        if let Some((number, true)) = self.find(&branch) {
            self.come_to(depth, number);
            return Ok(true);
        }
        if self.nodes.len() >= room {
            return Ok(false);
        }
        let number = self.add(&branch, true)?;
        self.come_to(depth, number);
        Ok(false)
    }
}

/// The acquires that a thread made with locks held. Contracts see their edges.
#[derive(Drop)]
pub(crate) struct Seen {
    thread: ThreadId,
    tree: Tree,
}

impl Model for Seen {
    ghost use Rattle.std.specs.Prelude.{List};
    ghost use Rattle.gl_edges.specs.bodies.Seen.{noted};
    ghost use Rattle.gl_edges.specs.declared.edge.Edge.{Edge};

    ghost Value = { List Edge };

    ghost view = { λ s. noted s.thread s.tree };
}

impl Seen {
    /// No acquires.
    pub(crate) fn new(alloc: Global) -> Seen
        ensures { result ≡ [] }
    {
        Seen {
            thread: ThreadId::new(0),
            tree: Tree::new(alloc),
        }
    }

    /// Forgets all acquires: those of this thread come.
    pub(crate) fn begin(&mut self, thread: ThreadId)
        ensures { self.new ≡ [] }
    {
        self.thread = thread;
        self.forget();
    }

    /// Forgets all acquires.
    pub(crate) fn forget(&mut self)
        ensures { self.new ≡ [] }
    {
        self.tree.clear();
    }

    /// Notes that the thread of which this is known acquires a lock that it doesn't hold. The answer is
    /// `true` only where all edges of the acquire were noted before.
    ///
    /// It takes a step for each held lock. There are no more nodes than the room says. An acquire that
    /// is found again takes no memory, nor does one with no lock held, which isn't noted.
    pub(crate) fn note(
        &mut self,
        thread: ThreadId,
        state: &ThreadState,
        wanted: LockId,
        mode: LockMode,
        room: usize,
    ) -> Result<bool, Memory>
        ensures known { IfOk result
            (λ known. IsTrue known → (edge : Edge)
            → Contains (edges_now thread state.now wanted mode) edge → Contains self.old edge) }
        ensures noted { OnOk result
            ((edge : Edge) → Contains self.new edge
            → Contains self.old edge ⊎ Contains (edges_now thread state.now wanted mode) edge) }
        ensures some { OnErr result (state.now.held ≢ []) }
    {
        if thread.number() != self.thread.number() {
            return Ok(false);
        }
        let entries = state.entries();
        if entries.is_empty() {
            return Ok(false);
        }
        let Some(parent) = self.tree.node_of(entries, room)? else {
            return Ok(false);
        };
        let opened = Opened {
            lock: wanted,
            mode,
            first: state.segment(),
        };
        self.tree
            .note(entries.len(), Branch { parent, opened }, room)
    }
}

//! What walks are looked for.

/// What a walk is looked for as.
#[derive(Clone, Copy, Debug, PartialEq, Eq)]
pub enum Purpose {
    /// A cycle of the mode, which begins with its least thread.
    Cycle,
    /// A front of a round, as far as the kinds of its edges tell: each edge leads on to the next one, their held
    /// locks differ, and from Guarded on no two have a gate lock. Threads and segments aren't looked at.
    Front,
    /// A whole round of such a front: its last edge leads back to its first.
    Round,
    /// A cycle of the mode, told from any of its edges.
    Turned,
}

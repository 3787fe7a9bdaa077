//! How finely edges are told apart.

/// What tells edges apart, beside their locks, modes and guards.
#[derive(Clone, Copy, Debug)]
pub enum Grain {
    /// Nothing: edges of one kind are alike.
    ByKind,
    /// Their threads.
    ByThread,
    /// Their threads and segments: no two edges are alike.
    BySegment,
}

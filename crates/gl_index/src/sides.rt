//! The two sides of an edge.
ghost use Rattle.std.specs.Prelude.{◌≡◌};
ghost use Rattle.gl_index.specs.Sides.{lock_towards, opposite};

use gl_edges::Edge;
use gl_event::LockId;

/// On which side of an edge another one stands.
#[derive(Clone, Copy, Debug)]
pub enum Side {
    /// It follows: it holds the lock that this edge wants.
    Follower,
    /// It leads: it wants the lock that this edge holds.
    Leader,
}

impl Side {
    /// The side on which the edge stands of those on this side of it.
    pub fn opposite(self) -> Side
        ensures { result ≡ opposite self }
    {
        match self {
            Side::Follower => Side::Leader,
            Side::Leader => Side::Follower,
        }
    }

    /// The lock that an edge shares with those on this side.
    pub fn lock_of(self, edge: &Edge) -> LockId
        ensures { result ≡ lock_towards self edge.now }
    {
        match self {
            Side::Follower => edge.wanted,
            Side::Leader => edge.held,
        }
    }
}

//! Lists of segments in one block of memory.
ghost use Rattle.std.specs.Prelude.{◌≡◌, ◌<◌, ◌≤◌, [], ◌∷◌, ◌++◌, length, slice_index_or, IfOk, OnOk};
ghost use Rattle.gl_segments.specs.bodies.Packing.{between};

use gl_event::Segment;
use std::alloc::{AllocError, Global};
use std::marker::Model;

/// Lists of segments, kept one after the other.
pub struct Packed {
    /// 0, and then where each list ends, which is where the next one begins.
    bounds: Vec<usize>,
    segments: Vec<Segment>,
}

// Written out, so that it is proved once: a derived drop is proved again wherever one is let go.
impl Drop for Packed {
    fn drop(self) {
        let Packed { bounds, segments } = self;
    }
}

impl Model for Packed {
    ghost use Rattle.std.specs.Prelude.{List, length};
    ghost use Rattle.gl_event.specs.declared.events.Segment.{Segment};
    ghost use Rattle.gl_segments.specs.bodies.Packing.{lists_between, AreBounds};

    ghost Value = { List (List Segment) };

    ghost view = { λ p. lists_between p.bounds.items p.segments.items };

    ghost invariant = { λ p. AreBounds p.bounds.items (length p.segments.items) };
}

impl Packed {
    /// No lists.
    pub fn new(alloc: Global) -> Result<Packed, AllocError>
        ensures { IfOk result (λ p. p ≡ []) }
    {
        Ok(Packed {
            bounds: vec![in alloc; 0]?,
            segments: Vec::new(alloc),
        })
    }

    /// How many lists there are.
    pub fn len(&self) -> usize
        ensures { result ≡ length self.now }
    {
        self.bounds.len() - 1
    }

    /// Adds a list.
    pub fn push(&mut self, list: &[Segment]) -> Result<(), AllocError>
        ensures { OnOk result (self.new ≡ self.old ++ list.now ∷ []) }
    {
        let start = self.bounds[self.bounds.len() - 1];
        // a push that was refused halfway may have left some
        self.segments.truncate(start);
        self.segments.extend_from_slice(list)?;
        self.bounds.push(self.segments.len())?;
        Ok(())
    }

    /// Lets go the memory that was taken for more lists.
    pub fn shrink(&mut self)
        ensures { self.new ≡ self.old }
    {
        self.bounds.shrink_to_fit();
        self.segments.shrink_to_fit();
    }

    /// The list at a position.
    pub fn get(&self, at: usize) -> &[Segment]
        requires { at < length self.now }
        ensures { result.now ≡ slice_index_or self.now at [] }
    {
        part(&self.segments, self.bounds[at], self.bounds[at + 1])
    }
}

// The segments from one place to before another.
fn part(segments: &[Segment], start: usize, end: usize) -> &[Segment]
    requires rising { start ≤ end }
    requires within { end ≤ length segments.now }
    ensures { result.now ≡ between start end segments.now }
{
    &segments[start..end]
}

//! Edges that are alike.
ghost use Rattle.std.specs.Prelude.{◌↔◌, IsTrue};
ghost use Rattle.gl_kinds.specs.Kinds.{AreOfOneKind};
ghost use Rattle.gl_kinds.specs.bodies.Kinds.{AreAlike, AreMadeAlike};

use crate::grains::Grain;
use gl_edges::Edge;

/// Whether two edges are of one kind: they hold and want the same locks, in the same modes, under the same
/// guards.
pub fn are_of_one_kind(e: &Edge, f: &Edge) -> bool
    ensures { IsTrue result ↔ AreOfOneKind e.now f.now }
{
    if e.held != f.held {
        return false;
    }
    if e.held_mode != f.held_mode {
        return false;
    }
    if e.wanted != f.wanted {
        return false;
    }
    if e.wanted_mode != f.wanted_mode {
        return false;
    }
    e.guards == f.guards
}

// Whether two edges have the same threads and segments, as far as the grain tells them apart.
fn are_made_alike(grain: Grain, e: &Edge, f: &Edge) -> bool
    ensures { IsTrue result ↔ AreMadeAlike grain e.now f.now }
{
    match grain {
        Grain::ByKind => true,
        Grain::ByThread => e.thread == f.thread,
        Grain::BySegment => e.thread == f.thread && e.first == f.first && e.second == f.second,
    }
}

/// Whether two edges are alike.
pub(crate) fn are_alike(grain: Grain, e: &Edge, f: &Edge) -> bool
    ensures { IsTrue result ↔ AreAlike grain e.now f.now }
{
    if !are_made_alike(grain, e, f) {
        return false;
    }
    are_of_one_kind(e, f)
}

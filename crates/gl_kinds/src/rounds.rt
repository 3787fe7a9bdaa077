//! Rounds of models: paths of them that come back to where they began.
ghost use Rattle.std.specs.Prelude.{◌≡◌, ◌-◌, ◌<◌, ◌≤◌, ◌∷◌, ◌++◌, [], ℕ, Some, false, length, slice_get};
ghost use Rattle.gl_segments.specs.Clocks.{is_before};
ghost use Rattle.gl_filters.specs.Picked.{edges_of_table};
ghost use Rattle.gl_filters.specs.declared.lengths.TheConstants.{LONGEST};
ghost use Rattle.gl_kinds.specs.bodies.Kinds.{may_meet, HasModels, LastLeadsTo, MayMeetAll, AreWithin, NoneThrough};
ghost use Rattle.gl_edges.specs.declared.edge.Edge.{Edge};

use crate::grains::Grain;
use gl_edges::Edge;
use gl_filters::{LONGEST, goes_with, kinds_go_together, leads_on, longer_path};
use gl_index::Followers;
use gl_sought::Sought;

/// A search for rounds of models: each one leads on to the next, and the last one to the first, and
/// no two of them are kept apart by what the grain tells of them.
#[derive(Drop)]
pub(crate) struct Rounds<'a> {
    pub(crate) sought: Sought<'a>,
    // what tells edges apart
    pub(crate) grain: Grain,
    // which edges are models
    pub(crate) flags: Vec<bool>,
    // leads through the models
    pub(crate) index: Followers,
}

impl Rounds<'_> {
    // Whether the last edge of a path of two or more leads back to its first.
    fn is_closed(&self, path: &[usize]) -> bool
        requires some { 0 < length path.now }
        requires within { AreWithin self.now path.now }
        ensures { result ≡ false → 2 ≤ length path.now → (i : ℕ) (f : Edge)
            → slice_get path.now 0 ≡ Some i
            → slice_get (edges_of_table self.now.sought.table.now) i ≡ Some f
            → ¬ LastLeadsTo (edges_of_table self.now.sought.table.now) path.now f }
    {
        if path.len() < 2 {
            return false;
        }
        let first = path[0];
        let last = path[path.len() - 1];
        leads_on(&self.sought.table[last].0, &self.sought.table[first].0)
    }

    /// Whether edges that are alike to these two may stand in one cycle.
    pub(crate) fn may_meet(&self, e: &Edge, f: &Edge) -> bool
        ensures { result ≡ may_meet
            (is_before self.now.sought.order.now) self.now.sought.mode self.now.grain e.now f.now }
    {
        match self.grain {
            Grain::ByKind => kinds_go_together(self.sought.mode, e, f),
            Grain::ByThread => { e.thread != f.thread && kinds_go_together(self.sought.mode, e, f) }
            Grain::BySegment => goes_with(self.sought.mode, self.sought.order, e, f),
        }
    }

    // Whether edges alike to those of the path may stand in one cycle with some alike to this one.
    fn goes_with_all(&self, path: &[usize], edge: &Edge) -> bool
        requires within { AreWithin self.now path.now }
        ensures { result ≡ false
            → ¬ MayMeetAll (is_before self.now.sought.order.now) self.now.sought.mode
            self.now.grain (edges_of_table self.now.sought.table.now) path.now edge.now }
    {
        for place in 0..path.len() {
            let i = path[place];
            if !self.may_meet(&self.sought.table[i].0, edge) {
                return false;
            }
        }
        true
    }

    // Whether the model at a position may come next in a path.
    fn can_join(&self, path: &[usize], next: usize) -> bool
        requires some { 0 < length path.now }
        requires within { AreWithin self.now path.now }
        requires there { next < length self.now.sought.table.now }
        ensures { result ≡ false → (f : Edge)
            → slice_get (edges_of_table self.now.sought.table.now) next ≡ Some f
            → LastLeadsTo (edges_of_table self.now.sought.table.now) path.now f
            → ¬ MayMeetAll (is_before self.now.sought.order.now) self.now.sought.mode
            self.now.grain (edges_of_table self.now.sought.table.now) path.now f }
    {
        let edge = &self.sought.table[next].0;
        let last = path[path.len() - 1];
        if !leads_on(&self.sought.table[last].0, edge) {
            return false;
        }
        self.goes_with_all(path, edge)
    }

    /// Whether a cycle may go through edges alike to those on the path. Yes where that isn't known.
    #[cycle(rounds)]
    pub(crate) fn may_close(&self, path: &[usize], tries: &mut usize) -> bool
        requires some { 0 < length path.now }
        requires within { AreWithin self.now path.now }
        requires models { HasModels self.now }
        ensures none { result ≡ false → NoneThrough self.now path.now }
        ensures spent { tries.new ≤ tries.old }
    {
        if self.is_closed(path) {
            return true;
        }
        if path.len() >= self.sought.len {
            return false;
        }
        if path.len() >= LONGEST {
            return true;
        }
        let last = path[path.len() - 1];
        let mut next = self.index.begin(last);
        while let Some(i) = next {
            if self.may_close_by(path, i, tries) {
                return true;
            }
            next = self.index.after(i);
        }
        false
    }

    // Whether a cycle may go through edges alike to those on the path and then to this model.
    #[cycle(rounds)]
    fn may_close_by(&self, path: &[usize], next: usize, tries: &mut usize) -> bool
        requires some { 0 < length path.now }
        requires short { length path.now < LONGEST }
        requires within { AreWithin self.now path.now }
        requires there { next < length self.now.sought.table.now }
        requires models { HasModels self.now }
        ensures none { result ≡ false → NoneThrough self.now (path.now ++ next ∷ []) }
        ensures spent { tries.new ≤ tries.old - 1 }
    {
        if *tries == 0 {
            return true;
        }
        *tries -= 1;
        if !self.can_join(path, next) {
            return false;
        }
        let longer = longer_path(path, next);
        self.may_close(longer.as_slice(), tries)
    }
}

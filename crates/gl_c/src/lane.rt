//! The handle of one thread's lane.
ghost use Rattle.std.specs.Prelude.{◌≡◌, Some, None, Option};
ghost use Rattle.std.specs.Option.{option_map};
ghost use Rattle.gl_c.specs.LaneOwns.{lane_owns};
ghost use Rattle.gl_c.specs.declared.lane_state.LaneState.{LaneState};

use crate::lane_state::LaneState;
use crate::loose::Loose;
use std::alloc::Global;
use std::marker::Model;
use std::mem;
use std::ptr::null_mut;

/// The handle of one thread's lane: one pointer, which is null where there is none.
#[repr(C)]
pub struct Lane {
    at: *mut u8,
    alloc: Global,
    /// What the handle is of.
    pub ghost value: { Option LaneState },
}

impl Model for Lane {
    ghost also_owns = { λ h. lane_owns h.alloc h.at h.value };
}

unsafe impl Send for Lane {}

impl Lane {
    // The handle of nothing.
    fn empty(alloc: Global) -> Lane
        ensures { result.value ≡ None }
    {
        Lane {
            at: null_mut(),
            alloc,
        }
    }

    // The handle of what is in this box.
    fn of_loose(loose: Loose<LaneState, Global>) -> Lane
        ensures { result.value ≡ Some loose.value }
    {
        let Loose { at, alloc } = loose;
        Lane {
            at: at as *mut u8,
            alloc,
        }
    }

    // The box, if the handle is of something.
    fn into_loose(self) -> Option<Loose<LaneState, Global>>
        ensures { option_map (λ l. l.value) result ≡ self.value }
    {
        let Lane { at, alloc } = self;
        if at.is_null() {
            None
        } else {
            Some(Loose {
                at: at as *mut LaneState,
                alloc,
            })
        }
    }

    // What the handle is of, if it is of something.
    fn into_box(self) -> Option<Box<LaneState>>
        ensures { option_map (λ b. b.value) result ≡ self.value }
    {
        match self.into_loose() {
            Some(loose) => Some(loose.into_box()),
            None => None,
        }
    }

    /// Takes what the handle is of, which leaves it the handle of nothing.
    pub fn take(&mut self, alloc: Global) -> Option<Box<LaneState>>
        ensures taken { option_map (λ b. b.value) result ≡ self.old.value }
        ensures left { self.new.value ≡ None }
    {
        mem::replace(self, Lane::empty(alloc)).into_box()
    }

    /// Makes it the handle of this.
    pub fn put(&mut self, value: Box<LaneState>)
        ensures { self.new.value ≡ Some value.value }
    {
        drop(mem::replace(self, Lane::of_loose(Loose::of(value))));
    }
}

impl Drop for Lane {
    fn drop(self) {
        if let Some(state) = self.into_box() {
            let_go(state);
        }
    }
}

// Lets go of what a handle was of. It isn't inlined, so that a call that puts back what it took is short: there is nothing to let
// go of then.
#[inline(never)]
fn let_go(state: Box<LaneState>) {
    drop(state);
}

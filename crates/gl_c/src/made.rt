//! The handle of a report that was made.
ghost use Rattle.std.specs.Prelude.{◌≡◌, Some, None, Option};
ghost use Rattle.std.specs.Option.{option_map};
ghost use Rattle.gl_c.specs.MadeOwns.{made_owns};
ghost use Rattle.gl_c.specs.declared.made_state.MadeState.{MadeState};

use crate::loose::Loose;
use crate::made_state::MadeState;
use std::alloc::Global;
use std::marker::Model;
use std::mem;
use std::ptr::null_mut;

/// The handle of a report that was made: one pointer, which is null where there is none.
#[repr(C)]
pub struct Made {
    at: *mut u8,
    alloc: Global,
    /// What the handle is of.
    pub ghost value: { Option MadeState },
}

impl Model for Made {
    ghost also_owns = { λ h. made_owns h.alloc h.at h.value };
}

unsafe impl Send for Made {}

impl Made {
    // The handle of nothing.
    fn empty(alloc: Global) -> Made
        ensures { result.value ≡ None }
    {
        Made {
            at: null_mut(),
            alloc,
        }
    }

    // The handle of what is in this box.
    fn of_loose(loose: Loose<MadeState, Global>) -> Made
        ensures { result.value ≡ Some loose.value }
    {
        let Loose { at, alloc } = loose;
        Made {
            at: at as *mut u8,
            alloc,
        }
    }

    // The box, if the handle is of something.
    fn into_loose(self) -> Option<Loose<MadeState, Global>>
        ensures { option_map (λ l. l.value) result ≡ self.value }
    {
        let Made { at, alloc } = self;
        if at.is_null() {
            None
        } else {
            Some(Loose {
                at: at as *mut MadeState,
                alloc,
            })
        }
    }

    // What the handle is of, if it is of something.
    fn into_box(self) -> Option<Box<MadeState>>
        ensures { option_map (λ b. b.value) result ≡ self.value }
    {
        match self.into_loose() {
            Some(loose) => Some(loose.into_box()),
            None => None,
        }
    }

    /// Takes what the handle is of, which leaves it the handle of nothing.
    pub fn take(&mut self, alloc: Global) -> Option<Box<MadeState>>
        ensures taken { option_map (λ b. b.value) result ≡ self.old.value }
        ensures left { self.new.value ≡ None }
    {
        mem::replace(self, Made::empty(alloc)).into_box()
    }

    /// Makes it the handle of this.
    pub fn put(&mut self, value: Box<MadeState>)
        ensures { self.new.value ≡ Some value.value }
    {
        drop(mem::replace(self, Made::of_loose(Loose::of(value))));
    }
}

impl Drop for Made {
    fn drop(self) {
        drop(self.into_box());
    }
}

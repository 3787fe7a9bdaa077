//! The handle of a session.
ghost use Rattle.std.specs.Prelude.{◌≡◌, Some, None, Option};
ghost use Rattle.std.specs.Option.{option_map};
ghost use Rattle.gl_c.specs.SessionOwns.{session_owns};
ghost use Rattle.gl_c.specs.declared.session_state.SessionState.{SessionState};

use crate::loose::Loose;
use crate::session_state::SessionState;
use std::alloc::Global;
use std::marker::Model;
use std::mem;
use std::ptr::null_mut;

/// The handle of a session: one pointer, which is null where there is none.
#[repr(C)]
pub struct Session {
    at: *mut u8,
    alloc: Global,
    /// What the handle is of.
    pub ghost value: { Option SessionState },
}

impl Model for Session {
    ghost also_owns = { λ h. session_owns h.alloc h.at h.value };
}

unsafe impl Send for Session {}

impl Session {
    // The handle of nothing.
    fn empty(alloc: Global) -> Session
        ensures { result.value ≡ None }
    {
        Session {
            at: null_mut(),
            alloc,
        }
    }

    // The handle of what is in this box.
    fn of_loose(loose: Loose<SessionState, Global>) -> Session
        ensures { result.value ≡ Some loose.value }
    {
        let Loose { at, alloc } = loose;
        Session {
            at: at as *mut u8,
            alloc,
        }
    }

    // The box, if the handle is of something.
    fn into_loose(self) -> Option<Loose<SessionState, Global>>
        ensures { option_map (λ l. l.value) result ≡ self.value }
    {
        let Session { at, alloc } = self;
        if at.is_null() {
            None
        } else {
            Some(Loose {
                at: at as *mut SessionState,
                alloc,
            })
        }
    }

    // What the handle is of, if it is of something.
    fn into_box(self) -> Option<Box<SessionState>>
        ensures { option_map (λ b. b.value) result ≡ self.value }
    {
        match self.into_loose() {
            Some(loose) => Some(loose.into_box()),
            None => None,
        }
    }

    /// Takes what the handle is of, which leaves it the handle of nothing.
    pub fn take(&mut self, alloc: Global) -> Option<Box<SessionState>>
        ensures taken { option_map (λ b. b.value) result ≡ self.old.value }
        ensures left { self.new.value ≡ None }
    {
        mem::replace(self, Session::empty(alloc)).into_box()
    }

    /// Makes it the handle of this.
    pub fn put(&mut self, value: Box<SessionState>)
        ensures { self.new.value ≡ Some value.value }
    {
        drop(mem::replace(self, Session::of_loose(Loose::of(value))));
    }
}

impl Drop for Session {
    fn drop(self) {
        drop(self.into_box());
    }
}

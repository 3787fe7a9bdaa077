//! Texts that a session is to record.
ghost use Rattle.std.specs.Prelude.{◌≤◌, false, IfSome};
ghost use Rattle.gl_event.specs.declared.limits.TheConstants.{MAX_THREADS};
ghost use Rattle.gl_io.specs.Positions.{Position};
ghost use Rattle.gl_std.specs.Streaming.{CanBeAsked};
ghost use Rattle.gl_live.specs.Streamed.{IsUnread};

use gl_event::Limits;
use gl_std::{Items, Seed};
use std::alloc::Global;

/// The items of a text, of which none was asked for yet, of so many threads at most. None where memory is refused.
pub fn unread_items(alloc: Global, threads: u32) -> Option<Items>
    requires some_thread { 1 ≤ threads }
    requires threads_fit { threads ≤ MAX_THREADS }
    ensures usable { IfSome result (λ i. CanBeAsked i false) }
    ensures unread { IfSome result (λ i. (now : Position) → IsUnread threads now false i) }
{
    let Ok(limits) = Limits::new(threads, 65_536, 4_000_000_000, 4_000_000_000) else {
        return None;
    };
    let Ok(items) = Items::new(alloc, &limits, 1_000, Seed::fixed()) else {
        return None;
    };
    Some(items)
}

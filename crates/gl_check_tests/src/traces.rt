//! Traces of given texts.
ghost use Rattle.std.specs.Prelude.{IfSome};
ghost use Rattle.gl_event.specs.Bounds.{greatest};
ghost use Rattle.gl_std.specs.Trace.{IsTraceOver};

use gl_event::Limits;
use gl_std::{Trace, read_trace};
use std::alloc::Global;

/// The trace of a text, under the greatest limits. None where the text has a fault, or memory is refused.
pub fn trace_of(alloc: Global, lines: &[u8]) -> Option<Trace>
    ensures { IfSome result (IsTraceOver greatest) }
{
    read_trace(alloc, lines, &Limits::greatest()).ok()
}

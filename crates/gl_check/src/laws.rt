//! What holds of accepted reports. Each function here does nothing: its contract is a law.
ghost use Rattle.std.specs.Prelude.{Bool};
ghost use Rattle.gl_event.specs.declared.events.Segment.{Segment};
ghost use Rattle.gl_std.specs.declared.trace.Trace.{Trace};
ghost use Rattle.gl_cycles.specs.declared.found.Report.{Report};
ghost use Rattle.gl_check.specs.Laws.{NoneIsToldTwice};

/// No finding is listed twice in a true report of findings, whichever cycles show it.
pub fn listed_findings_differ()
    ensures { (trace : Trace) (before : Segment → Segment → Bool) (report : Report)
        → NoneIsToldTwice trace before report }
{}

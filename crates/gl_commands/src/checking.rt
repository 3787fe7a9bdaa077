//! What `check` answers.
ghost use Rattle.std.specs.Prelude.{◌≡◌, ◌≢◌, ◌++◌, ℕ, codes, Ok, Err, IfOk, IfErr};
ghost use Rattle.gl_event.specs.Bounds.{greatest};
ghost use Rattle.gl_std.specs.Trace.{IsTraceOver, trace_of};
ghost use Rattle.gl_std.specs.declared.faults.StdKind.{StdKind};
ghost use Rattle.gl_std.specs.declared.faults.ReadFault.TheVariants.{Line};
ghost use Rattle.gl_check.specs.Faults.{checked_text};
ghost use Rattle.gl_commands.specs.Answer.Answer.{Prints, Refusal};
ghost use Rattle.gl_commands.specs.Checking.{IsCheckAnswer, said_line, trace_in};
ghost use Rattle.gl_commands.specs.Ending.{EndsEarlyAs};
ghost use Rattle.gl_commands.specs.bodies.Opinions.{SaysAccepted, SaysRefused};
ghost use Rattle.gl_commands.specs.bodies.Stops.{IfRefused, IsFaultIn};

use crate::answer::{Printed, trace_or_line};
use crate::ended::{Ended, Outcome};
use crate::reading::{Reading, TURNS};
use crate::refusal_lines::inconsistent_line;
use gl_check::{CheckFault, Checked, check, split_input};
use gl_event::{Limits, Memory};
use gl_io::FromStd;
use gl_std::{Names, ReadFault, Trace, ended_lines, read_seeded, read_source_parallel};
use std::alloc::Global;
use std::thread::Threads;

// Why a report isn't accepted.
fn refusal(alloc: Global, names: &Names, fault: &CheckFault) -> Result<Vec<u8>, Memory>
    ensures { IfOk result (λ line. line.items ≡ said_line names.now fault.now) }
{
    if let CheckFault::Inconsistent { at, .. } = fault {
        return inconsistent_line(alloc, names, *at);
    }
    let line = format!(in alloc; "goodlock: {fault}\n")?;
    Ok(line.into_bytes())
}

// What is printed of a report that is accepted.
fn acceptance(alloc: Global, checked: &Checked) -> Result<Printed, Memory>
    ensures text { IfOk result (λ p. p.text.items ≡ checked_text checked.now ++ codes "\n") }
    ensures outcome { IfOk result (λ p. p.outcome ≡ Outcome.Done) }
{
    let text = format!(in alloc; "{checked}\n")?.into_bytes();
    Ok(Printed {
        text,
        outcome: Outcome::Done,
    })
}

// The trace of a text or its first fault, by as many threads as are asked for. Reading bytes that are in memory
// doesn't fail and isn't cut short, which no clause says: where it were, the calling thread would begin anew.
fn read_text(
    rt: &(impl Threads + Sync),
    alloc: Global,
    text: &[u8],
    reading: &Reading,
) -> Result<Trace, ReadFault>
    ensures trace { IfOk result (λ t. trace_of greatest text.now ≡ Ok t) }
    ensures over { IfOk result (IsTraceOver greatest) }
    ensures fault { (line : ℕ) (kind : StdKind) → result ≡ Err (Line line kind)
        → trace_of greatest text.now ≡ Err (Line line kind) }
{
    let seed = reading.seed;
    let limits = Limits::greatest();
    let mut input = FromStd::new(text);
    let jobs = reading.threads(rt);
    let heard = read_source_parallel(rt, alloc, &mut input, TURNS, &limits, seed, jobs)?;
    if heard.is_whole {
        return heard.trace;
    }
    read_seeded(alloc, text, &limits, seed)
}

// The trace of a text, or the line that says its first fault.
fn text_trace(
    rt: &(impl Threads + Sync),
    alloc: Global,
    text: &[u8],
    reading: &Reading,
) -> Result<Trace, Ended>
    ensures trace { IfOk result (λ t. trace_of greatest text.now ≡ Ok t) }
    ensures over { IfOk result (IsTraceOver greatest) }
    ensures refused { IfErr result
        (λ ended. IfRefused ended (IsFaultIn (trace_of greatest text.now))) }
{
    let read = read_text(rt, alloc, text, reading);
    trace_or_line(alloc, read)
}

// What is answered of a report of this trace.
fn answer_of(alloc: Global, trace: &Trace, report: &[u8]) -> Result<Printed, Ended>
    requires { IsTraceOver greatest trace.now }
    ensures printed { IfOk result (λ p. SaysAccepted trace.now report.now p.text.items p.outcome) }
    ensures refused { IfErr result (λ ended. IfRefused ended (SaysRefused trace.now report.now)) }
{
    match check(alloc, trace, report) {
        Ok(checked) => {
            let printed = acceptance(alloc, &checked)?;
            Ok(printed)
        }
        Err(fault) => {
            if matches!(fault, CheckFault::Memory) {
                return Err(Ended::Memory);
            }
            let line = refusal(alloc, &trace.names, &fault)?;
            Err(Ended::Refused(line))
        }
    }
}

/// What is answered to an input that was read whole: a report, and after its line the text of a trace.
/// A fault of the trace comes first.
pub(crate) fn checked(
    rt: &(impl Threads + Sync),
    alloc: Global,
    input: &[u8],
    reading: &Reading,
) -> Result<Printed, Ended>
    ensures printed { IfOk result (λ p. IsCheckAnswer input.now (Prints p.text.items p.outcome)) }
    ensures refused { IfErr result
        (λ ended. IfRefused ended (λ line. IsCheckAnswer input.now (Refusal line))) }
{
    let (report, text) = split_input(input);
    let trace = text_trace(rt, alloc, text, reading)?;
    let answer = answer_of(alloc, &trace, report);
    drop(trace);
    answer
}

/// How `check` ends over an input that wasn't read whole: with the first fault in the lines of the
/// trace that were ended, if one has a fault.
pub(crate) fn end_cut(
    rt: &(impl Threads + Sync),
    alloc: Global,
    input: &[u8],
    reading: &Reading,
) -> Ended
    ensures { EndsEarlyAs greatest (trace_in input.now) result }
{
    let (_report, text) = split_input(input);
    match text_trace(rt, alloc, ended_lines(text), reading) {
        Ok(trace) => {
            drop(trace);
            Ended::ReadFailed
        }
        Err(ended) => ended,
    }
}

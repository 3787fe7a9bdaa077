//! Reading a text that is there as a whole.
ghost use Rattle.std.specs.Prelude.{◌≡◌, ℕ, Ok, Err, IfOk};
ghost use Rattle.gl_std.specs.Trace.{trace_of, IsTraceOver};
ghost use Rattle.gl_std.specs.declared.faults.StdKind.{StdKind};
ghost use Rattle.gl_std.specs.declared.faults.ReadFault.TheVariants.{Line};

use crate::faults::ReadFault;
use crate::judge::Judge;
use crate::line_ends::next_line;
use crate::lists::Lists;
use crate::seed::Seed;
use crate::trace::Trace;
use gl_event::Limits;
use std::alloc::Global;

/// The trace of a text, or the fault of its first line that is no event.
///
/// `Memory` comes only where a growth was refused. Time grows with the length of the text: each line
/// is cut once, and each of its names is looked up once by hash. The hash has a fixed seed, so that names
/// can be chosen to make this slow.
pub fn read_trace(alloc: Global, bytes: &[u8], limits: &Limits) -> Result<Trace, ReadFault>
    ensures trace { IfOk result (λ t. trace_of limits.now bytes.now ≡ Ok t) }
    ensures fault { (line : ℕ) (kind : StdKind) → result ≡ Err (Line line kind)
        → trace_of limits.now bytes.now ≡ Err (Line line kind) }
    ensures over { IfOk result (IsTraceOver limits.now) }
{
    read_seeded(alloc, bytes, limits, Seed::fixed())
}

/// As [`read_trace`], with this seed for the hash of names. For texts of others it is one that was
/// drawn at random.
pub fn read_seeded(
    alloc: Global,
    bytes: &[u8],
    limits: &Limits,
    seed: Seed,
) -> Result<Trace, ReadFault>
    ensures trace { IfOk result (λ t. trace_of limits.now bytes.now ≡ Ok t) }
    ensures fault { (line : ℕ) (kind : StdKind) → result ≡ Err (Line line kind)
        → trace_of limits.now bytes.now ≡ Err (Line line kind) }
    ensures over { IfOk result (IsTraceOver limits.now) }
{
    let mut judge = Judge::new(alloc, *limits, seed);
    let mut lists = Lists::new(Vec::new(alloc));
    let mut rest = bytes;
    while let Some((line, after)) = next_line(rest) {
        let judged = judge.take(line)?;
        lists.add(alloc, judge.names(), judged)?;
        rest = after;
    }
    Ok(Trace::of(judge, lists))
}

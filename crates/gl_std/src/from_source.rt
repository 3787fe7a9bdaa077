//! Reading the text that a source gives.
ghost use Rattle.std.specs.Prelude.{◌≡◌, ◌^◌, ◌<◌, ◌≤◌, Bool, false, Ok, Err, IfOk, vec_len};
ghost use Rattle.gl_io.specs.Positions.{Position};
ghost use Rattle.gl_io.specs.declared.source.TheConstants.{CHUNK};
ghost use Rattle.gl_std.specs.bodies.Judgements.{CanJudgeLine};
ghost use Rattle.gl_std.specs.bodies.Stepping.{CanReadOn, StepLeaves};
ghost use Rattle.gl_std.specs.Heard.{HasHeard};
ghost use Rattle.gl_std.specs.bodies.Hearing.{Hears, HearsOn};
ghost use Rattle.gl_std.specs.Trace.{IsTraceOver};
ghost use Rattle.gl_std.specs.declared.line_reader.Step.TheVariants.{End};

use crate::faults::{LinesFault, ReadFault};
use crate::line_reader::{LineReader, Step};
use crate::lists::Lists;
use crate::seed::Seed;
use crate::trace::Trace;
use gl_event::Limits;
use gl_io::Source;
use std::alloc::{AllocError, Global};

mod parallel;

pub use parallel::read_source_parallel;

/// What was heard of a source.
#[derive(Drop)]
pub struct Heard {
    /// The trace of the text, or its first fault: of all of it where it is whole, else of the lines
    /// that LF has ended.
    pub trace: Result<Trace, ReadFault>,
    /// Whether the text is all that the source had.
    pub is_whole: bool,
}

// What was heard, where the source has ended. It is done once, so it stays out of the loop over lines.
#[inline(never)]
fn finish(alloc: Global, mut reader: LineReader, mut lists: Lists) -> Result<Heard, AllocError>
    requires { CanJudgeLine reader.judge }
    ensures heard { (now : Position) (failed : Bool)
        → IfOk result (Hears now failed reader lists (Ok End) now failed) }
{
    match reader.last() {
        Ok(judged) => {
            lists.add(alloc, reader.names(), judged)?;
            Ok(Heard {
                trace: Ok(Trace::of(reader.into_judge(), lists)),
                is_whole: true,
            })
        }
        Err(ReadFault::Line { line, kind }) => Ok(Heard {
            trace: Err(ReadFault::Line { line, kind }),
            is_whole: true,
        }),
        Err(ReadFault::Memory) => Err(AllocError),
    }
}

// What was heard, where there is no next line for this reason. After a line at fault the source is still
// read to its end. It is done once, too.
#[inline(never)]
fn stop<R: Source>(
    mut reader: LineReader,
    lists: Lists,
    input: &mut R,
    fault: LinesFault,
) -> Result<Heard, AllocError>
    requires left { StepLeaves (Err fault) (R.failed input.old) reader }
    requires room { vec_len reader.buffer ≡ CHUNK }
    ensures heard { IfOk result
        (Hears (R.position input.old) (R.failed input.old) reader lists (Err fault)
        (R.position input.new) (R.failed input.new)) }
{
    match fault {
        LinesFault::Line { line, kind } => {
            let is_whole = reader.drain(input);
            Ok(Heard {
                trace: Err(ReadFault::Line { line, kind }),
                is_whole,
            })
        }
        LinesFault::Read => Ok(Heard {
            trace: Ok(Trace::of(reader.into_judge(), lists)),
            is_whole: false,
        }),
        LinesFault::Memory => Err(AllocError),
    }
}

// What is heard where reading goes on to the end of the source.
fn read_on<R: Source>(
    alloc: Global,
    mut reader: LineReader,
    mut lists: Lists,
    input: &mut R,
) -> Result<Heard, AllocError>
    requires { CanReadOn reader (R.failed input.old) }
    ensures { IfOk result
        (HearsOn (R.position input.old) reader lists (R.position input.new)
        (R.failed input.new)) }
{
    'lines: loop {
        match reader.step(input) {
            Ok(Step::More) => {}
            Ok(Step::Told(judged)) => lists.add(alloc, reader.names(), judged)?,
            Ok(Step::End) => return finish(alloc, reader, lists),
            Err(fault) => return stop(reader, lists, input, fault),
        }
    }
}

/// The trace of the text that a source gives, read to its end in at most `turns` reads. The text is
/// whole where one of them answered 0 bytes; it isn't where a read failed or the turns were used up
/// before. Then only the lines that LF has ended are judged. After a fault the source is still read
/// to its end.
///
/// Err where memory was refused. Only names, events and what was read last are kept in memory, and of
/// a line that isn't ended so much as tells that it is too long. Time grows with the length of the
/// text: each line is cut once, and each of its names is looked up once by hash. For texts of others
/// the seed is one that was drawn at random.
pub fn read_source<R: Source>(
    alloc: Global,
    input: &mut R,
    turns: u64,
    limits: &Limits,
    seed: Seed,
) -> Result<Heard, AllocError>
    requires not_failed { R.failed input.old ≡ false }
    requires few_turns { turns ≤ 2 ^ 40 }
    ensures heard { IfOk result
        (HasHeard limits.now turns (R.position input.old) (R.position input.new)
        (R.failed input.new)) }
    ensures over { IfOk result (λ h. IfOk h.trace (IsTraceOver limits.now)) }
{
    let reader = LineReader::new(alloc, limits, turns, seed)?;
    let lists = Lists::new(Vec::new(alloc));
    read_on(alloc, reader, lists, input)
}

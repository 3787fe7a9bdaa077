//! The lines of what a source gives, judged one after another as they come.
ghost use Rattle.std.specs.Prelude.{◌≡◌, ◌+◌, ◌^◌, ◌<◌, ◌≤◌, false, ◌++◌, Contains, IfOk, OnOk, length, take};
ghost use Rattle.gl_std.specs.bodies.Blocks.{GoOn};
ghost use Rattle.gl_std.specs.bodies.Judgements.{CanJudgeLine};
ghost use Rattle.gl_std.specs.bodies.States.{HasBegun, IsFit};
ghost use Rattle.gl_std.specs.Lines.{LF};
ghost use Rattle.gl_std.specs.bodies.Stepping.{fuel, is_idle, CanRead, CanReadOn, DrainsOn, IsRead, IsStep, OnlyReads};
ghost use Rattle.gl_std.specs.bodies.Taking.{CanTakeLines, EndsLine, OnlyTakes, TakesLast, TakesLine};

use crate::faults::{LinesFault, ReadFault};
use crate::judge::{Judge, Judged};
use crate::line::{MAX_LINE, cut};
use crate::line_ends::{LF, without_cr};
use crate::names::Names;
use crate::seed::Seed;
use gl_event::Limits;
use gl_io::{CHUNK, Failed, Source};
use std::alloc::{AllocError, Global};

pub(crate) mod pieces;
pub(crate) mod read_text;

/// So many bytes of a line that isn't ended are kept: enough to tell that it is too long.
pub(crate) const KEPT: usize = MAX_LINE + 2;

/// What a step of reading brings.
#[derive(Clone, Copy)]
pub(crate) enum Step {
    /// No line yet.
    More,
    /// What the next line is, which LF ended.
    Told(Judged),
    /// The end of the text.
    End,
}

impl Step {
    // It tells neither a line that isn't blank nor the end.
    fn is_idle(&self) -> bool
        ensures { result ≡ is_idle self.now }
    {
        match self {
            Step::More => true,
            Step::Told(Judged::Blank) => true,
            Step::Told(_) => false,
            Step::End => false,
        }
    }
}

/// The lines that came, and what was read beyond them.
pub(crate) struct LineReader {
    judge: Judge,
    // The first bytes of the line that the latest read goes on with.
    unfinished: Vec<u8>,
    // What the latest read gave ends before `end`, and what is left of it begins at `start`.
    buffer: Vec<u8>,
    start: usize,
    end: usize,
    // So many reads may still be made.
    turns: u64,
}

// Written out, so that it is proved once: a derived drop is proved again wherever a reader is let go.
impl Drop for LineReader {
    fn drop(self) {
        let LineReader {
            judge,
            unfinished,
            buffer,
            start: _,
            end: _,
            turns: _,
        } = self;
    }
}

impl LineReader {
    /// Nothing was read, and so many reads may be made.
    pub(crate) fn new(
        alloc: Global,
        limits: &Limits,
        turns: u64,
        seed: Seed,
    ) -> Result<LineReader, AllocError>
        requires few_turns { turns ≤ 2 ^ 40 }
        ensures fit { IfOk result IsFit }
        ensures begun { IfOk result (HasBegun limits.now turns) }
    {
        Ok(LineReader {
            judge: Judge::new(alloc, *limits, seed),
            unfinished: Vec::new(alloc),
            buffer: vec![in alloc; 0u8; CHUNK]?,
            start: 0,
            end: 0,
            turns,
        })
    }

    /// What the next line is that isn't blank, or the end of the text. It reads only where no whole
    /// line is left.
    pub(crate) fn next<R: Source>(&mut self, input: &mut R) -> Result<Step, LinesFault>
        requires { CanReadOn self.old (R.failed input.old) }
        ensures steps { IsStep (R.position input.old) self.old
            (R.position input.new) (R.failed input.new) self.new result }
        ensures found { IfOk result (λ step. is_idle step ≡ false) }
    {
        let mut step = Step::More;
        while step.is_idle() {
            match self.step(input) {
                Ok(next) => step = next,
                Err(fault) => return Err(fault),
            }
        }
        Ok(step)
    }

    /// What one step brings, a line or a read. It reads only where no whole line is left.
    #[inline(always)]
    pub(crate) fn step<R: Source>(&mut self, input: &mut R) -> Result<Step, LinesFault>
        requires { CanReadOn self.old (R.failed input.old) }
        ensures steps { IsStep (R.position input.old) self.old
            (R.position input.new) (R.failed input.new) self.new result }
        ensures smaller { OnOk result (fuel self.new < fuel self.old) }
    {
        match self.take_line() {
            Ok(Some(judged)) => Ok(Step::Told(judged)),
            Ok(None) => self.read_on(input),
            Err(fault) => Err(LinesFault::from(fault)),
        }
    }

    // `step`, where nothing is left of the latest read.
    fn read_on<R: Source>(&mut self, input: &mut R) -> Result<Step, LinesFault>
        requires can { CanReadOn self.old (R.failed input.old) }
        requires spent { self.old.start ≡ self.old.end }
        ensures steps { IsStep (R.position input.old) self.old
            (R.position input.new) (R.failed input.new) self.new result }
        ensures smaller { OnOk result (fuel self.new < fuel self.old) }
    {
        if self.turns == 0 {
            return Err(LinesFault::Read);
        }
        match self.fill(input) {
            Ok(true) => Ok(Step::More),
            Ok(false) => Ok(Step::End),
            Err(Failed) => Err(LinesFault::Read),
        }
    }

    /// What the last line is, where the source has ended: blank where LF ended it.
    pub(crate) fn last(&mut self) -> Result<Judged, ReadFault>
        requires { CanJudgeLine self.old.judge }
        ensures takes { TakesLast self.old self.new result }
    {
        if self.unfinished.is_empty() {
            return Ok(Judged::Blank);
        }
        self.judge.take(self.unfinished.as_slice())
    }

    /// Reads to the end of the source, and judges nothing. Whether the end was met.
    pub(crate) fn drain<R: Source>(&mut self, input: &mut R) -> bool
        requires { CanRead self.old (R.failed input.old) }
        ensures { DrainsOn (R.position input.old) self.old
            (R.position input.new) (R.failed input.new) result }
    {
        while self.turns > 0 {
            match self.fill(input) {
                Ok(true) => {}
                Ok(false) => return true,
                Err(Failed) => return false,
            }
        }
        false
    }

    /// The names of the lines so far.
    pub(crate) fn names(&self) -> &Names
        ensures { result.now ≡ self.now.judge.names }
    {
        self.judge.names()
    }

    /// The names, how many lines were skipped, and how many were strays.
    pub(crate) fn into_parts(self) -> (Names, u64, u64)
        ensures { result ≡ (self.judge.names, self.judge.skipped, self.judge.stray) }
    {
        self.into_judge().into_parts()
    }

    /// What was judged.
    pub(crate) fn into_judge(self) -> Judge
        ensures { result ≡ self.judge }
    {
        let LineReader {
            judge,
            unfinished,
            buffer,
            start: _,
            end: _,
            turns: _,
        } = self;
        judge
    }

    // One read, where nothing is left of the one before. Whether it gave any bytes.
    fn fill<R: Source>(&mut self, input: &mut R) -> Result<bool, Failed>
        requires left { 0 < self.old.turns }
        requires can { CanRead self.old (R.failed input.old) }
        ensures read { IsRead (R.position input.old) self.old
            (R.position input.new) (R.failed input.new) self.new result }
        ensures same { OnlyReads self.old self.new }
    {
        let count = input.read(self.buffer.as_mut_slice())?;
        self.turns -= 1;
        self.start = 0;
        self.end = count;
        Ok(count > 0)
    }

    // What the next line is that LF ends in what is left of the latest read. None where there is
    // none: then what is left is kept as the beginning of a line.
    #[inline(always)]
    fn take_line(&mut self) -> Result<Option<Judged>, ReadFault>
        requires ready { CanTakeLines self.old }
        requires countable { self.old.judge.line + 1 < 2 ^ 64 }
        ensures takes { TakesLine self.old self.new result }
        ensures same { OnlyTakes self.old self.new }
    {
        match cut(&self.buffer[..self.end][self.start..], LF) {
            Some((end, _)) => {
                let length = end.len() + 1;
                let judged = end_line(&mut self.judge, &mut self.unfinished, end)?;
                self.start += length;
                Ok(Some(judged))
            }
            None => {
                keep(&mut self.unfinished, &self.buffer[..self.end][self.start..])?;
                self.start = self.end;
                Ok(None)
            }
        }
    }
}

// Judges the line that ends here, where LF follows.
#[inline(always)]
fn end_line(judge: &mut Judge, unfinished: &mut Vec<u8>, end: &[u8]) -> Result<Judged, ReadFault>
    requires one_line { ¬ Contains end.now LF }
    requires can { CanJudgeLine judge.old }
    requires few { length unfinished.old.items ≤ KEPT }
    ensures ends { EndsLine judge.old unfinished.old.items end.now
        judge.new unfinished.new.items result }
    ensures limits { judge.new.limits ≡ judge.old.limits }
    ensures grows { OnOk result (GoOn judge.old.names judge.new.names) }
{
    if unfinished.is_empty() {
        return judge.take(without_cr(end));
    }
    keep(unfinished, end)?;
    let judged = judge.take(without_cr(unfinished.as_slice()))?;
    unfinished.clear();
    Ok(judged)
}

// Adds what follows to the beginning of a line, as far as that is kept.
fn keep(unfinished: &mut Vec<u8>, more: &[u8]) -> Result<(), AllocError>
    requires few { length unfinished.old.items ≤ KEPT }
    ensures kept { OnOk result
        (unfinished.new.items ≡ take KEPT (unfinished.old.items ++ more.now)) }
{
    let room = KEPT - unfinished.len();
    if more.len() <= room {
        unfinished.extend_from_slice(more)?;
        return Ok(());
    }
    unfinished.extend_from_slice(&more[..room])?;
    Ok(())
}

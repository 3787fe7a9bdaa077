//! Judging a text line by line. The judge keeps names and what each thread holds, and no events.
ghost use Rattle.std.specs.Prelude.{◌≡◌, ℕ, ◌+◌, ◌^◌, ◌<◌, List, Some, None, OnOk, IfSome, length, nat_le, if◌then◌else◌};
ghost use Rattle.gl_std.specs.Trace.{event_of};
ghost use Rattle.gl_std.specs.bodies.Shown.{shown_operation};

use crate::faults::{ReadFault, StdKind};
use crate::line::{Operation, Shape, shape_of};
use crate::names::{Found, Names};
use crate::ruling::Ruling;
use crate::seed::Seed;
use gl_event::{Event, Limits, LocId, LockId, ThreadId, ThreadState};
use std::alloc::Global;

mod blocks;
mod standings;

use standings::stand;

/// What a line is that isn't at fault.
#[derive(Clone, Copy)]
pub(crate) enum Judged {
    /// It is empty.
    Blank,
    /// Its operation is none that is watched.
    Skipped,
    /// It releases a lock that its thread doesn't hold.
    Stray,
    /// It tells an event of a thread.
    Event { thread: ThreadId, event: Event },
}

/// What is known of the trace of the lines so far, but for the events. It stands for every trace
/// with these names and counts whose threads hold what it says.
#[derive(Drop)]
pub(crate) struct Judge {
    alloc: Global,
    limits: Limits,
    names: Names,
    standings: Vec<ThreadState>,
    // The thread of the latest event, which is likely to be that of the next one.
    latest: Option<ThreadId>,
    skipped: u64,
    stray: u64,
    line: u64,
}

impl Judge {
    ghost use Rattle.gl_event.specs.Bounds.{AreWithinRange};
    ghost use Rattle.std.specs.Prelude.{false};
    ghost use Rattle.gl_std.specs.Line.{is_on_itself};
    ghost use Rattle.gl_std.specs.bodies.Blocks.{GoOn};
    ghost use Rattle.gl_std.specs.bodies.Counting.{count_of};
    ghost use Rattle.gl_std.specs.bodies.States.{HasJudged, IsSound};
    ghost use Rattle.gl_std.specs.bodies.Judgements.{AreApart, CanJudgeLine, HasCountedEvent, HasCountedLine, JudgesCall, JudgesLine, JudgesShape};
    ghost use Rattle.gl_std.specs.bodies.Rulings.{if_stray, judged_by};
    ghost use Rattle.gl_std.specs.bodies.Finding.{found_in, limit_found, AreFoundAt};
    ghost use Rattle.gl_std.specs.bodies.Shown.{shown};
    ghost use Rattle.gl_std.specs.Trace.{after_line, nothing};
    ghost use Rattle.gl_std.specs.declared.faults.StdKind.{StdKind};
    ghost use Rattle.gl_std.specs.declared.faults.StdKind.TheVariants.{TooManyEvents};

    /// No line was judged.
    pub(crate) fn new(alloc: Global, limits: Limits, seed: Seed) -> Judge
        ensures judged { HasJudged result nothing }
        ensures sound { IsSound result }
        ensures limits { result.limits ≡ limits }
        ensures line { result.line ≡ 1 }
    {
        // its contract says that the limits are in range
        let _ = limits.threads();
        Judge {
            alloc,
            limits,
            names: Names::new(alloc, seed),
            standings: Vec::new(alloc),
            latest: None,
            skipped: 0,
            stray: 0,
            line: 1,
        }
    }

    /// What the next line is. After a fault the judge is of no use.
    pub(crate) fn take(&mut self, line: &[u8]) -> Result<Judged, ReadFault>
        requires { CanJudgeLine self.old }
        ensures judges { JudgesLine self.old self.new
            (λ told. after_line self.old.limits self.old.line told line.now) result }
        ensures sound { OnOk result (IsSound self.new) }
        ensures line { OnOk result (self.new.line ≡ self.old.line + 1) }
        ensures grows { OnOk result (GoOn self.old.names self.new.names) }
    {
        let judged = self.take_shape(shape_of(line))?;
        self.line += 1;
        Ok(judged)
    }

    // `take`, for a line that says this.
    fn take_shape(&mut self, shape: Shape<'_>) -> Result<Judged, ReadFault>
        requires can { CanJudgeLine self.old }
        requires apart { AreApart (shown shape) }
        ensures judges { JudgesShape self.old (shown shape.entry) self.new result }
        ensures counts { HasCountedLine self.old self.new }
    {
        match shape {
            Shape::Blank => Ok(Judged::Blank),
            Shape::Bad(kind) => Err(ReadFault::Line {
                line: self.line,
                kind,
            }),
            Shape::Other => {
                self.skipped += 1;
                Ok(Judged::Skipped)
            }
            Shape::Call {
                operation,
                thread,
                operand,
                location,
            } => self.take_call(operation, thread, operand, location),
        }
    }

    // `take`, for a line that tells an event.
    fn take_call(
        &mut self,
        operation: Operation,
        thread: &[u8],
        operand: &[u8],
        location: &[u8],
    ) -> Result<Judged, ReadFault>
        requires can { CanJudgeLine self.old }
        requires apart { is_on_itself (shown_operation operation) thread.now operand.now ≡ false }
        ensures judges { JudgesCall self.old
            (shown_operation operation) thread.now operand.now location.now self.new result }
        ensures counts { HasCountedEvent self.old self.new }
    {
        let found = self.find(operation, thread, operand, location);
        if let (Some(own), Some(number), Some(loc)) = (found.thread, found.operand, found.loc) {
            return self.take_known(operation, own, number, loc);
        }
        self.take_found(operation, thread, operand, location, &found)
    }

    // `take_call`, where its names have these numbers: none is added.
    #[inline(always)]
    fn take_known(
        &mut self,
        operation: Operation,
        thread: ThreadId,
        operand: u32,
        loc: LocId,
    ) -> Result<Judged, ReadFault>
        requires can { CanJudgeLine self.old }
        requires there { thread < length self.old.names.threads }
        ensures judges { (t o l : List ℕ)
            → AreFoundAt self.old.names (shown_operation operation) t o l thread operand loc
            → JudgesCall self.old (shown_operation operation) t o l self.new result }
        ensures counts { HasCountedEvent self.old self.new }
    {
        self.latest = Some(thread);
        let found = Found {
            thread: Some(thread),
            operand: Some(operand),
            loc: Some(loc),
        };
        let limit = self.events_reached(thread);
        let event = event_of(operation, operand, loc);
        let ruling = stand(&mut self.standings, operation, &found, event, limit)?;
        self.judged_by(ruling, &thread, &event)
    }

    // The limit that doesn't allow another event of the thread, where no name is added.
    #[inline(always)]
    fn events_reached(&self, thread: ThreadId) -> Option<StdKind>
        requires { thread < length self.now.standings.items }
        ensures { result
            ≡ (if nat_le self.now.limits.events
            (count_of self.now.standings.items (Some thread)) then Some TooManyEvents else None) }
    {
        if self.standings[thread.number() as usize].events() >= self.limits.events() {
            return Some(StdKind::TooManyEvents);
        }
        None
    }

    // `take_call`, where some name may have no number yet.
    fn take_found(
        &mut self,
        operation: Operation,
        thread: &[u8],
        operand: &[u8],
        location: &[u8],
        found: &Found,
    ) -> Result<Judged, ReadFault>
        requires can { CanJudgeLine self.old }
        requires found { found.now
            ≡ found_in self.old.names
            (shown_operation operation) thread.now operand.now location.now }
        ensures judges { JudgesCall self.old
            (shown_operation operation) thread.now operand.now location.now self.new result }
        ensures counts { HasCountedEvent self.old self.new }
    {
        let alloc = self.alloc;
        self.latest = found.thread;
        let limit = self.limit_reached(operation, found);
        let number = self.names.operand_or_next(operation, found);
        let loc = self.names.loc_or_next(found);
        let own = self.names.thread_or_next(found);
        let event = event_of(operation, number, loc);
        let ruling = stand(&mut self.standings, operation, found, event, limit)?;
        if let Ruling::Kept = ruling {
            self.names
                .tell(alloc, operation, found, thread, operand, location)?;
        }
        self.judged_by(ruling, &own, &event)
    }

    // What a line is by the ruling on the event that it tells. A stray is counted.
    #[inline(always)]
    fn judged_by(
        &mut self,
        ruling: Ruling,
        thread: &ThreadId,
        event: &Event,
    ) -> Result<Judged, ReadFault>
        requires countable { self.old.stray + 1 < 2 ^ 64 }
        ensures judged { result ≡ judged_by ruling self.old.line thread.now event.now }
        ensures counted { self.new
            ≡ record self.old { stray = self.old.stray + if_stray ruling } }
    {
        match ruling {
            Ruling::Kept => Ok(Judged::Event {
                thread: *thread,
                event: *event,
            }),
            Ruling::Stray => {
                self.stray += 1;
                Ok(Judged::Stray)
            }
            Ruling::Fault(kind) => Err(ReadFault::Line {
                line: self.line,
                kind,
            }),
        }
    }

    // The numbers of the names in a line. One look-up by hash for each, but none for the thread of the
    // latest event, none for the lock that a release is likely to be of, and none for what is as guessed.
    fn find(
        &mut self,
        operation: Operation,
        thread: &[u8],
        operand: &[u8],
        location: &[u8],
    ) -> Found
        requires { is_on_itself (shown_operation operation) thread.now operand.now ≡ false }
        ensures found { result ≡ found_in self.old.names
            (shown_operation operation) thread.now operand.now location.now }
        ensures same { self.new ≡ self.old }
    {
        let acting = self.names.find_thread_near(thread, self.latest);
        let likely = self.likely_released(operation, &acting);
        let operand = if operation.is_on_thread() {
            self.names
                .find_thread_near(operand, None)
                .map(ThreadId::number)
        } else {
            self.names
                .find_lock_near(operand, likely)
                .map(LockId::number)
        };
        Found {
            thread: acting,
            operand,
            loc: self.names.find_loc_again(location),
        }
    }

    // The lock that a release by this thread is likely to be of: the innermost one that it holds.
    fn likely_released(&self, operation: Operation, thread: &Option<ThreadId>) -> Option<LockId> {
        match operation {
            Operation::Release(_) => {
                let thread = thread.as_ref()?;
                let standing = self.standings.get(thread.number() as usize)?;
                let entry = standing.entries().last()?;
                Some(entry.lock)
            }
            _ => None,
        }
    }

    // The first limit that doesn't allow an event of these names.
    fn limit_reached(&self, operation: Operation, found: &Found) -> Option<StdKind>
        requires { IfSome found.now.thread (λ i. i < length self.now.standings.items) }
        ensures fault { result ≡ limit_found self.now.limits self.now.names
            (count_of self.now.standings.items found.now.thread)
            (shown_operation operation) found.now }
        ensures within { AreWithinRange self.now.limits }
    {
        let threads = u64::from(self.names.threads()) + found.new_threads(operation);
        if threads > u64::from(self.limits.threads()) {
            return Some(StdKind::TooManyThreads);
        }
        if self.events(found.thread) >= self.limits.events() {
            return Some(StdKind::TooManyEvents);
        }
        let locks = u64::from(self.names.locks()) + found.new_locks(operation);
        if locks > u64::from(self.limits.names()) {
            return Some(StdKind::TooManyNames);
        }
        let locs = u64::from(self.names.locs()) + u64::from(found.loc.is_none());
        if locs > u64::from(self.limits.names()) {
            return Some(StdKind::TooManyNames);
        }
        None
    }

    // How many events the thread has.
    fn events(&self, thread: Option<ThreadId>) -> u32
        requires { IfSome thread (λ i. i < length self.now.standings.items) }
        ensures { result ≡ count_of self.now.standings.items thread }
    {
        match thread {
            Some(number) => self.standings[number.number() as usize].events(),
            None => 0,
        }
    }

    /// The names, how many lines were skipped, and how many were strays.
    pub(crate) fn into_parts(self) -> (Names, u64, u64)
        ensures { result ≡ (self.names, self.skipped, self.stray) }
    {
        (self.names, self.skipped, self.stray)
    }

    /// The names of the lines so far.
    pub(crate) fn names(&self) -> &Names
        ensures { result.now ≡ self.now.names }
    {
        &self.names
    }
}

// The event of an operation on the lock or thread with this number.
fn event_of(operation: Operation, operand: u32, loc: LocId) -> Event
    ensures { result ≡ event_of (shown_operation operation) operand loc }
{
    match operation {
        Operation::Acquire(mode) => Event::Acquire {
            lock: LockId::new(operand),
            mode,
            loc,
        },
        Operation::Release(mode) => Event::Release {
            lock: LockId::new(operand),
            mode,
            loc,
        },
        Operation::TryAcquire(mode) => Event::TryAcquire {
            lock: LockId::new(operand),
            mode,
            loc,
        },
        Operation::Fork => Event::Fork {
            thread: ThreadId::new(operand),
            loc,
        },
        Operation::Join => Event::Join {
            thread: ThreadId::new(operand),
            loc,
        },
    }
}

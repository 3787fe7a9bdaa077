//! The recorder of a running thread.
ghost use Rattle.std.specs.Prelude.{◌≡◌, ◌<◌, ◌≤◌, ◌+◌, ◌∷◌, ◌++◌, ◌↔◌, false, None, [], length, IfOk, IfErr, IsTrue};
ghost use Rattle.gl_event.specs.Lawful.{IsLawful};
ghost use Rattle.gl_intake.specs.Stream.{has_ended};
ghost use Rattle.gl_engine.specs.Recording.{recorded, refusal_of, next_note, closed_of, HasTaken};
ghost use Rattle.gl_engine.specs.declared.recorder.RecordFault.TheVariants.{Refused};
ghost use Rattle.gl_engine.specs.Faults.{HasTried, IsNotRecorded, IsNotClosed, IsUnconfirmed};

use crate::receipt::Receipt;
use gl_event::{Event, Limits, Note, Refusal, ThreadId};
use gl_lane::OwnLaneIn;
use gl_recorder::Taker;
use gl_shards::{pause, pause_without_yielding};
use std::marker::Model;
use std::sync::Wait;

// A lane of so many notes or more is long: once its recorder has slept, there is room for many notes, so that it seldom sleeps.
const LONG: u32 = 128;

/// Why an event wasn't recorded.
#[derive(Clone, Copy, Debug, PartialEq, Eq)]
pub enum RecordFault {
    /// The event may not come next in the thread's list.
    Refused(Refusal),
    /// The lane is full. The event is handed back.
    Full(Event),
}

/// Why a recorder gave no receipt.
#[derive(Drop)]
pub enum CloseFault {
    /// The lane is full. The recorder is handed back as it was.
    Full(Recorder),
    /// The end mark was pushed, but the collector's end of the lane was dropped before. The thread
    /// had recorded so many events.
    Unconfirmed { thread: ThreadId, taken: u32 },
}

/// The recorder of one thread of a session, which moves to the thread.
///
/// Contracts see the session, thread and limits, which lane it is of, the notes that were pushed into
/// it, and for how many more there is certainly room.
pub struct Recorder {
    pub(crate) session: u64,
    pub(crate) limits: Limits,
    pub(crate) taker: Taker,
    pub(crate) lane: OwnLaneIn,
}

// Written out, so that it is proved once: a derived drop is proved again wherever one is let go.
impl Drop for Recorder {
    fn drop(self) {
        let Recorder {
            session: _,
            limits,
            taker,
            lane,
        } = self;
    }
}

impl Model for Recorder {
    ghost use Rattle.gl_engine.specs.Recording.{Recording};
    ghost use Rattle.gl_engine.specs.Keeping.{IsRecorder};

    ghost Value = { Recording };

    ghost view = { λ r. record {
      session = r.session;
      thread = r.taker.thread;
      limits = r.limits;
      lane = r.lane.lane;
      pushed = r.lane.pushed;
      room = r.lane.room;
    } };

    ghost invariant = { λ r.
        IsRecorder r.limits r.taker.thread r.lane.lane r.lane.pushed r.taker };
}

impl Recorder {
    // The recorder of the thread, which has taken nothing yet, with the recorder's end of its lane.
    pub(crate) fn new(session: u64, thread: ThreadId, limits: &Limits, lane: OwnLaneIn) -> Recorder
        requires known { thread < limits.now.threads }
        requires own { lane.lane.thread ≡ thread }
        requires empty { lane.pushed ≡ [] }
        ensures fresh { result ≡ record {
          session = session;
          thread = thread;
          limits = limits.now;
          lane = lane.lane;
          pushed =
              [];
          room = lane.room;
        } }
    {
        Recorder {
            session,
            limits: *limits,
            taker: Taker::new(thread, limits),
            lane,
        }
    }

    /// The thread whose events are recorded.
    pub fn thread(&self) -> ThreadId
        ensures { result ≡ self.now.thread }
    {
        self.taker.thread()
    }

    /// How many events were recorded.
    pub fn taken(&self) -> u32
        ensures value { result ≡ length (recorded self.now) }
        ensures lawful { IsLawful self.now.limits self.now.thread (recorded self.now) }
        ensures running { has_ended self.now.thread self.now.pushed ≡ false }
    {
        self.taker.taken()
    }

    /// Whether the collector's end of the lane was dropped, so that a lane that is full stays so. It takes one
    /// step, and no clause says when.
    pub fn is_abandoned(&mut self) -> bool
        ensures same { self.new ≡ record self.old { room = self.new.room } }
        ensures room { self.old.room ≤ self.new.room }
    {
        self.lane.is_abandoned()
    }

    /// Records the thread's next event, and answers its place in the thread's list. Err where the event
    /// may not come next, and where the lane is full, in this order: the recorder is as it was then.
    ///
    /// It waits for nobody and takes no memory. It looks through the at most 64 locks that the thread
    /// holds.
    pub fn record(&mut self, event: Event) -> Result<u32, RecordFault>
        ensures { HasTried self.old event result self.new }
    {
        self.try_record(&event)
    }

    /// Whether there is certainly room for an event. Where there isn't, the collector may have made some since, and
    /// `record` looks. It takes one step.
    #[inline(always)]
    pub fn has_room(&self) -> bool
        ensures { IsTrue result ↔ (0 < self.now.room) }
    {
        self.lane.has_room()
    }

    /// Records the thread's next event, for which there is certainly room (`has_room`), and answers its place in the
    /// thread's list. Err where the event may not come next: the recorder is as it was then.
    ///
    /// It takes no memory, and looks once through the at most 64 locks that the thread holds.
    #[inline(always)]
    pub fn record_known(&mut self, event: Event) -> Result<u32, Refusal>
        requires known { 0 < self.old.room }
        ensures taken { IfOk result (λ place. HasTaken self.old event place self.new) }
        ensures refused { IfErr result
            (λ why. IsNotRecorded self.old event (Refused why) self.new) }
    {
        match self.taker.take(event) {
            Ok(note) => {
                let place = note.place;
                self.lane.push_known(note);
                Ok(place)
            }
            Err(refusal) => Err(refusal),
        }
    }

    /// Records the thread's next event as soon as there is room for it, and answers its place in the
    /// thread's list. Err where the event may not come next: the recorder is as it was then.
    ///
    /// While the lane is full it spins or sleeps for a moment and tries again, so that it returns only if the
    /// collector pulls. It takes no memory.
    pub fn record_wait<R: Wait>(&mut self, rt: &R, event: Event) -> Result<u32, Refusal>
        ensures taken { IfOk result (λ place. HasTaken self.old event place self.new) }
        ensures refused { IfErr result
            (λ why. IsNotRecorded self.old event (Refused why) self.new) }
    {
        let mut looks: u32 = 0;
        for _ in rt.forever() {
            match self.try_record(&event) {
                Ok(place) => return Ok(place),
                Err(RecordFault::Refused(refusal)) => return Err(refusal),
                Err(RecordFault::Full(_)) => self.wait_for_room(rt, looks),
            }
            looks = looks.saturating_add(1);
        }
        unreachable!()
    }

    /// Waits a little, after so many looks for room in the lane in vain. It takes no memory.
    ///
    /// It spins at first. Then it sleeps for as short as the system can where the lane is long, so that the
    /// collector empties it meanwhile, and else lets others run and sleeps later on.
    pub fn wait_for_room<R: Wait>(&self, rt: &R, looks: u32) {
        if self.limits.ring() < LONG {
            pause(rt, looks);
            return;
        }
        pause_without_yielding(rt, looks);
    }

    /// Ends the recording: pushes the thread's end mark and answers the receipt. Err where the lane is
    /// full, with the recorder as it was, and where the collector's end was dropped.
    ///
    /// It waits for nobody and takes no memory.
    pub fn close(self) -> Result<Receipt, CloseFault>
        ensures closed { IfOk result (λ receipt. receipt ≡ closed_of self) }
        ensures fault { IfErr result (λ fault. IsNotClosed self fault) }
        ensures succeeds { 0 < self.room → IfErr result (λ fault. IsUnconfirmed fault) }
    {
        let Recorder {
            session,
            limits,
            taker,
            mut lane,
        } = self;
        let Ok(()) = lane.push(taker.end()) else {
            return Err(CloseFault::Full(Recorder {
                session,
                limits,
                taker,
                lane,
            }));
        };
        let (thread, taken) = (taker.thread(), taker.taken());
        match lane.finish() {
            Some(finished) => Ok(Receipt {
                session,
                thread,
                limits,
                taken,
                finished,
            }),
            None => Err(CloseFault::Unconfirmed { thread, taken }),
        }
    }

    // Records the event, where it may come next and there is room for it.
    fn try_record(&mut self, event: &Event) -> Result<u32, RecordFault>
        ensures { HasTried self.old event.now result self.new }
    {
        if self.has_room() {
            return match self.record_known(*event) {
                Ok(place) => Ok(place),
                Err(refusal) => Err(RecordFault::Refused(refusal)),
            };
        }
        match self.taker.check(*event) {
            Ok(note) => self.push(event, &note),
            Err(refusal) => Err(RecordFault::Refused(refusal)),
        }
    }

    // Pushes the event's note, where there is room for it. The event may come next.
    fn push(&mut self, event: &Event, note: &Note) -> Result<u32, RecordFault>
        requires lawful { refusal_of self.old event.now ≡ None }
        requires its_note { note.now ≡ next_note self.old event.now }
        ensures { HasTried self.old event.now result self.new }
    {
        let Ok(()) = self.lane.push(*note) else {
            return Err(RecordFault::Full(*event));
        };
        self.taker.advance(*event);
        Ok(note.place)
    }
}

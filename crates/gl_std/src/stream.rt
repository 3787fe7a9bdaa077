//! Reading a trace item by item, as its text comes.
ghost use Rattle.std.specs.Prelude.{◌≡◌, ◌^◌, ◌≤◌, Bool, false, [], IfOk, OnOk};
ghost use Rattle.gl_io.specs.Positions.{Position};
ghost use Rattle.gl_io.specs.Uses.{used};
ghost use Rattle.gl_std.specs.LineReading.{IsFit};
ghost use Rattle.gl_std.specs.bodies.Lasts.{IsLastAnswer};
ghost use Rattle.gl_std.specs.Sourced.{items_of, source_of};
ghost use Rattle.gl_std.specs.Streaming.{event_in, ArePartsOf, CanBeAsked, HasTold, IsDone, IsNextAnswer};
ghost use Rattle.gl_std.specs.Streaming.Stage.{Reading};
ghost use Rattle.gl_std.specs.Trace.{nothing};
ghost use Rattle.gl_std.specs.bodies.Telling.{item_in};

use crate::faults::LinesFault;
use crate::judge::Judged;
use crate::line_reader::{LineReader, Step};
use crate::names::Names;
use crate::seed::Seed;
use gl_event::{Event, Limits, ThreadId};
use gl_io::Source;
use std::alloc::{AllocError, Global};
use std::marker::Model;

/// What the next line of a text is, where it is neither empty nor at fault, or that there is none.
#[derive(Clone, Copy, Debug, PartialEq, Eq)]
pub enum Item {
    /// It tells an event of a thread.
    Event { thread: ThreadId, event: Event },
    /// Its operation is none that is watched.
    Skipped,
    /// It releases a lock that its thread doesn't hold.
    Stray,
    /// The text has ended.
    End,
}

impl Item {
    /// The number of the thread and its event, where the item tells one.
    pub fn event(self) -> Option<(u32, Event)>
        ensures { result ≡ event_in self }
    {
        match self {
            Item::Event { thread, event } => Some((thread.number(), event)),
            Item::Skipped | Item::Stray | Item::End => None,
        }
    }
}

// What the next answer comes from.
#[derive(Clone, Copy)]
enum Stage {
    Reading,
    Done,
    Faulty(LinesFault),
}

/// The items of a text, one after the other, where the source is lent to each call. No more is kept of
/// the text than what was read last, the names, what each thread holds, and so much of a line that isn't
/// ended as tells that it is too long.
///
/// Contracts see what the next item comes from, and what is known of the text.
#[derive(Drop)]
pub struct Items {
    reader: LineReader,
    stage: Stage,
}

impl Model for Items {
    ghost use Rattle.gl_std.specs.Streaming.{Stream};
    ghost use Rattle.gl_std.specs.bodies.States.{stream_of, IsHeld};

    ghost Value = { Stream };

    ghost view = { λ i. stream_of i.stage i.reader };

    ghost invariant = { λ i. IsHeld i.stage i.reader };
}

impl Items {
    /// The items of what a source gives in at most `turns` reads. For texts of others the seed is one
    /// that was drawn at random.
    pub fn new(alloc: Global, limits: &Limits, turns: u64, seed: Seed) -> Result<Items, AllocError>
        requires few_turns { turns ≤ 2 ^ 40 }
        ensures tells { IfOk result
            (λ i. (start : Position)
            → HasTold limits.now turns (used start start false) i [] nothing) }
        ensures usable { IfOk result (λ i. CanBeAsked i false) }
    {
        let reader = LineReader::new(alloc, limits, turns, seed)?;
        Ok(Items {
            reader,
            stage: Stage::Reading,
        })
    }

    /// The next item. It reads only where no whole line is left of what was read before.
    ///
    /// After [`Item::End`] each answer is that, and after a fault each answer is that fault.
    /// [`LinesFault::Read`] comes where a read failed or the turns were used up, once each line that
    /// LF has ended was answered; the first line at fault comes before that. Each line is cut once, and
    /// each of its names looked up at most once by hash.
    pub fn next<R: Source>(&mut self, input: &mut R) -> Result<Item, LinesFault>
        requires usable { CanBeAsked self.old (R.failed input.old) }
        ensures next { IsNextAnswer (R.position input.old) (R.failed input.old) self.old
            (R.position input.new) (R.failed input.new) self.new result }
        ensures usable { CanBeAsked self.new (R.failed input.new) }
    {
        match self.stage {
            Stage::Reading => self.read_on(input),
            Stage::Done => Ok(Item::End),
            Stage::Faulty(fault) => Err(fault),
        }
    }

    // `next`, while reading goes on.
    fn read_on<R: Source>(&mut self, input: &mut R) -> Result<Item, LinesFault>
        requires reading { self.old.stage ≡ Reading }
        requires fit { IsFit self.old.reader }
        requires not_failed { R.failed input.old ≡ false }
        ensures next { IsNextAnswer (R.position input.old) (R.failed input.old) self.old
            (R.position input.new) (R.failed input.new) self.new result }
        ensures usable { CanBeAsked self.new (R.failed input.new) }
    {
        match self.reader.next(input) {
            Ok(Step::Told(judged)) => Ok(item_of(judged)),
            Ok(Step::End) => self.finish(),
            Ok(Step::More) => unreachable!(),
            Err(fault) => {
                self.stage = Stage::Faulty(fault);
                Err(fault)
            }
        }
    }

    // `next`, where the source has ended.
    fn finish(&mut self) -> Result<Item, LinesFault>
        requires fit { IsFit self.old.reader }
        ensures last { IsLastAnswer self.old self.new result }
        ensures usable { (failed : Bool) → CanBeAsked self.new failed }
        ensures end { OnOk result (IsDone self.new) }
    {
        match self.reader.last() {
            Ok(judged) => {
                self.stage = Stage::Done;
                Ok(item_of(judged))
            }
            Err(fault) => {
                let fault = LinesFault::from(fault);
                self.stage = Stage::Faulty(fault);
                Err(fault)
            }
        }
    }

    /// The names so far, how many lines were skipped, and how many were strays. After a line at fault,
    /// or where memory was refused, they say nothing.
    pub fn parts(self) -> (Names, u64, u64)
        ensures parts { ArePartsOf self result.0 result.1 result.2 }
    {
        self.reader.into_parts()
    }
}

/// The lines of the text that a source gives, one after the other: its [`Items`], with the source.
#[derive(Drop)]
pub struct Lines<R> {
    input: R,
    items: Items,
}

impl<R: Source + Drop> Lines<R> {
    /// The lines of what the source gives in at most `turns` reads. For texts of others the seed is
    /// one that was drawn at random.
    pub fn new(
        alloc: Global,
        input: R,
        limits: &Limits,
        turns: u64,
        seed: Seed,
    ) -> Result<Lines<R>, AllocError>
        requires not_failed { R.failed input ≡ false }
        requires few_turns { turns ≤ 2 ^ 40 }
        ensures tells { IfOk result
            (λ l. HasTold limits.now turns
            (used (R.position input) (R.position (source_of l)) (R.failed (source_of l)))
            (items_of l) [] nothing) }
        ensures usable { IfOk result (λ l. CanBeAsked (items_of l) (R.failed (source_of l))) }
    {
        let items = Items::new(alloc, limits, turns, seed)?;
        Ok(Lines { input, items })
    }

    /// The next item, as [`Items::next`] answers it.
    pub fn next(&mut self) -> Result<Item, LinesFault>
        requires usable { CanBeAsked (items_of self.old) (R.failed (source_of self.old)) }
        ensures next { IsNextAnswer
            (R.position (source_of self.old)) (R.failed (source_of self.old)) (items_of self.old)
            (R.position (source_of self.new)) (R.failed (source_of self.new))
            (items_of self.new) result }
        ensures usable { CanBeAsked (items_of self.new) (R.failed (source_of self.new)) }
    {
        self.items.next(&mut self.input)
    }

    /// The names so far, how many lines were skipped, how many were strays, and the source. After a
    /// line at fault, or where memory was refused, the first three say nothing.
    pub fn parts(self) -> (Names, u64, u64, R)
        ensures parts { ArePartsOf (items_of self) result.0 result.1 result.2 }
        ensures source { result.3 ≡ source_of self }
    {
        let (names, skipped, stray) = self.items.parts();
        (names, skipped, stray, self.input)
    }
}

// The line as an item; a blank one stands for the end.
fn item_of(judged: Judged) -> Item
    ensures { result ≡ item_in judged }
{
    match judged {
        Judged::Blank => Item::End,
        Judged::Skipped => Item::Skipped,
        Judged::Stray => Item::Stray,
        Judged::Event { thread, event } => Item::Event { thread, event },
    }
}

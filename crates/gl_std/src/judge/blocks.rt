//! Judging the lines of a block, whose names have numbers of its own.
ghost use Rattle.std.specs.Prelude.{◌≡◌, ◌+◌, ◌^◌, ◌<◌, false, [], ◌∷◌, All, length, map, vec_len, IfSome, OnOk};
ghost use Rattle.gl_std.specs.Line.{is_on_itself};
ghost use Rattle.gl_std.specs.Trace.{operands};
ghost use Rattle.gl_std.specs.bodies.Blocks.{named, shape_in, shapes_of, AreNumbered, CanJudgeNumbered, FailsShapes, GoOn, IsKnownOf, IsNumbered, IsRight, TakesShapes};
ghost use Rattle.gl_std.specs.bodies.Finding.{found_in, AreFoundAt};
ghost use Rattle.gl_std.specs.bodies.Judgements.{AreApart, HasCountedEvent, HasCountedLine, JudgesShape};
ghost use Rattle.gl_std.specs.bodies.Shown.{shown_operation};
ghost use Rattle.gl_std.specs.bodies.States.{IsSound};
ghost use Rattle.gl_std.specs.declared.numbered_line.NumberedLine.TheVariants.{Call as NumberedCall};

use super::{Judge, Judged};
use crate::block::Block;
use crate::faults::ReadFault;
use crate::line::Operation;
use crate::lists::Lists;
use crate::names::{Found, Known, Names};
use crate::numbered_line::NumberedLine;
use gl_event::{LocId, ThreadId};
use std::alloc::Global;

impl Judge {
    /// Takes what the lines of a block say, and puts the events that they tell into the lists. After a fault
    /// both are of no use.
    pub(crate) fn take_block(
        &mut self,
        alloc: Global,
        lists: &mut Lists,
        block: &mut Block,
    ) -> Result<(), ReadFault>
        requires sound { IsSound self.old }
        requires numbered { AreNumbered block.old }
        requires apart { All AreApart (shapes_of block.old) }
        requires countable { self.old.line + vec_len block.old.lines + 1 < 2 ^ 64 }
        requires right { IsRight self.old.names block.old }
        ensures tells { OnOk result
            (TakesShapes self.old lists.old (shapes_of block.old) self.new lists.new) }
        ensures fault { FailsShapes self.old lists.old (shapes_of block.old) result }
        ensures sound { OnOk result (IsSound self.new) }
        ensures limits { self.new.limits ≡ self.old.limits }
        ensures line { OnOk result (self.new.line ≡ self.old.line + vec_len block.old.lines) }
        ensures right { OnOk result (IsRight self.new.names block.new) }
        ensures grows { OnOk result (GoOn self.old.names self.new.names) }
    {
        block.known.make_room(&block.names)?;
        self.take_lines(
            alloc,
            lists,
            &block.names,
            &mut block.known,
            block.lines.as_slice(),
        )
    }

    // Takes what these lines say, in the numbers of these names.
    fn take_lines(
        &mut self,
        alloc: Global,
        lists: &mut Lists,
        names: &Names,
        known: &mut Known,
        lines: &[NumberedLine],
    ) -> Result<(), ReadFault>
        requires sound { IsSound self.old }
        requires numbered { All (IsNumbered names.now) lines.now }
        requires apart { All AreApart (map (shape_in names.now) lines.now) }
        requires countable { self.old.line + length lines.now + 1 < 2 ^ 64 }
        requires known { IsKnownOf names.now self.old.names known.old }
        ensures tells { OnOk result
            (TakesShapes self.old lists.old (map (shape_in names.now) lines.now)
            self.new lists.new) }
        ensures fault { FailsShapes self.old lists.old (map (shape_in names.now) lines.now) result }
        ensures sound { OnOk result (IsSound self.new) }
        ensures limits { self.new.limits ≡ self.old.limits }
        ensures line { OnOk result (self.new.line ≡ self.old.line + length lines.now) }
        ensures known { OnOk result (IsKnownOf names.now self.new.names known.new) }
        ensures grows { OnOk result (GoOn self.old.names self.new.names) }
    {
        for i in 0..lines.len() {
            self.take_numbered(alloc, lists, names, known, lines[i])?;
        }
        Ok(())
    }

    // Takes what a line says.
    #[inline(always)]
    fn take_numbered(
        &mut self,
        alloc: Global,
        lists: &mut Lists,
        names: &Names,
        known: &mut Known,
        line: NumberedLine,
    ) -> Result<(), ReadFault>
        requires { CanJudgeNumbered self.old names.now known.old line }
        ensures tells { OnOk result
            (TakesShapes self.old lists.old (shape_in names.now line ∷ []) self.new lists.new) }
        ensures fault { FailsShapes self.old lists.old (shape_in names.now line ∷ []) result }
        ensures known { OnOk result (IsKnownOf names.now self.new.names known.new) }
        ensures grows { OnOk result (GoOn self.old.names self.new.names) }
        ensures sound { OnOk result (IsSound self.new) }
        ensures limits { self.new.limits ≡ self.old.limits }
        ensures line { OnOk result (self.new.line ≡ self.old.line + 1) }
    {
        let judged = self.judge_numbered(names, known, line)?;
        self.line += 1;
        lists.add(alloc, &self.names, judged)?;
        Ok(())
    }

    // What a line is that says this.
    #[inline(always)]
    fn judge_numbered(
        &mut self,
        names: &Names,
        known: &mut Known,
        line: NumberedLine,
    ) -> Result<Judged, ReadFault>
        requires { CanJudgeNumbered self.old names.now known.old line }
        ensures judges { JudgesShape self.old (shape_in names.now line) self.new result }
        ensures known { IsKnownOf names.now self.old.names known.new }
        ensures counts { HasCountedLine self.old self.new }
    {
        match line {
            NumberedLine::Blank => Ok(Judged::Blank),
            NumberedLine::Bad(kind) => Err(ReadFault::Line {
                line: self.line,
                kind,
            }),
            NumberedLine::Other => {
                self.skipped += 1;
                Ok(Judged::Skipped)
            }
            NumberedLine::Call {
                operation,
                thread,
                operand,
                location,
            } => self.judge_call(names, known, operation, thread, operand, location),
        }
    }

    // `judge_numbered`, for a line that tells an event. Where the numbers of its names are known, nothing is looked up.
    #[inline(always)]
    fn judge_call(
        &mut self,
        names: &Names,
        known: &mut Known,
        operation: Operation,
        thread: ThreadId,
        operand: u32,
        location: LocId,
    ) -> Result<Judged, ReadFault>
        requires { CanJudgeNumbered self.old names.now known.old
            (NumberedCall operation thread operand location) }
        ensures judges { JudgesShape self.old
            (shape_in names.now (NumberedCall operation thread operand location))
            self.new result }
        ensures known { IsKnownOf names.now self.old.names known.new }
        ensures counts { HasCountedEvent self.old self.new }
    {
        match self.known_numbers(names, known, operation, thread, operand, location) {
            Some((own, number, loc)) => self.take_known(operation, own, number, loc),
            None => self.look_up_call(names, known, operation, thread, operand, location),
        }
    }

    // The numbers here of the names that have these in a block, where all of them are known.
    #[inline(always)]
    fn known_numbers(
        &self,
        names: &Names,
        known: &Known,
        operation: Operation,
        thread: ThreadId,
        operand: u32,
        location: LocId,
    ) -> Option<(ThreadId, u32, LocId)>
        requires { CanJudgeNumbered self.now names.now known.now
            (NumberedCall operation thread operand location) }
        ensures { IfSome result
            (λ n. AreFoundAt self.now.names (shown_operation operation)
            (named names.now.threads thread)
            (named (operands (shown_operation operation) names.now) operand)
            (named names.now.locs location) n.0 n.1 n.2) }
    {
        let own = known.threads[thread.number() as usize]?;
        let number = known.operand(operation, operand)?;
        let loc = known.locs[location.number() as usize]?;
        Some((ThreadId::new(own), number, LocId::new(loc)))
    }

    // `judge_call`, for names of which some may not be known. It isn't inlined, since few lines have one.
    #[inline(never)]
    fn look_up_call(
        &mut self,
        names: &Names,
        known: &mut Known,
        operation: Operation,
        thread: ThreadId,
        operand: u32,
        location: LocId,
    ) -> Result<Judged, ReadFault>
        requires { CanJudgeNumbered self.old names.now known.old
            (NumberedCall operation thread operand location) }
        ensures judges { JudgesShape self.old
            (shape_in names.now (NumberedCall operation thread operand location))
            self.new result }
        ensures known { IsKnownOf names.now self.old.names known.new }
        ensures counts { HasCountedEvent self.old self.new }
    {
        let found = self.find_numbered(names, known, operation, thread, operand, location);
        if let (Some(own), Some(number), Some(loc)) = (found.thread, found.operand, found.loc) {
            return self.take_known(operation, own, number, loc);
        }
        self.take_found(
            operation,
            names.thread(thread),
            names.operand(operation, operand),
            names.loc(location),
            &found,
        )
    }

    // The numbers here of the names that have these in a block. None is looked up that was known before.
    #[inline(always)]
    fn find_numbered(
        &mut self,
        names: &Names,
        known: &mut Known,
        operation: Operation,
        thread: ThreadId,
        operand: u32,
        location: LocId,
    ) -> Found
        requires numbered { IsNumbered names.now (NumberedCall operation thread operand location) }
        requires apart { is_on_itself (shown_operation operation) (named names.now.threads thread)
            (named (operands (shown_operation operation) names.now) operand) ≡ false }
        requires known { IsKnownOf names.now self.old.names known.old }
        ensures found { result ≡ found_in self.old.names (shown_operation operation)
            (named names.now.threads thread)
            (named (operands (shown_operation operation) names.now) operand)
            (named names.now.locs location) }
        ensures known { IsKnownOf names.now self.old.names known.new }
        ensures same { self.new ≡ self.old }
    {
        Found {
            thread: self.names.find_known_thread(names, known, thread),
            operand: self
                .names
                .find_known_operand(names, known, operation, operand),
            loc: self.names.find_known_loc(names, known, location),
        }
    }
}

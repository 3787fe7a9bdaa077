//! Names that get their numbers line by line, each line taken alone.
ghost use Rattle.std.specs.Prelude.{◌≡◌, ◌+◌, ◌^◌, ◌<◌, ◌≤◌, Some, length, slice_get, IfOk, OnOk};
ghost use Rattle.gl_std.specs.Laws.{IsFront};
ghost use Rattle.gl_std.specs.Line.{Shape};
ghost use Rattle.gl_std.specs.Line.Shape.{Call};
ghost use Rattle.gl_std.specs.Trace.{operands};
ghost use Rattle.gl_std.specs.bodies.Blocks.{shape_in, AddsFew, GoOn, IsNumbered};
ghost use Rattle.gl_std.specs.bodies.Shown.{shown, shown_operation};

use super::{NameList, Names};
use crate::line::{Operation, Shape};
use crate::numbered_line::NumberedLine;
use gl_event::{LocId, ThreadId};
use std::alloc::{AllocError, Global};

impl NameList {
    // The name's number. A new name gets the next one. Where it is as guessed, that takes no look-up by hash.
    #[inline(always)]
    fn number_again(&mut self, alloc: Global, name: &[u8]) -> Result<u32, AllocError>
        requires room { length self.old + 1 < 2 ^ 32 }
        ensures stands { IfOk result (λ number. slice_get self.new number ≡ Some name.now) }
        ensures front { OnOk result (IsFront self.old self.new) }
        ensures few { OnOk result (length self.new ≤ length self.old + 1) }
    {
        if let Some(number) = self.find_again(name) {
            return Ok(number);
        }
        let number = self.len();
        self.add(alloc, name)?;
        Ok(number)
    }
}

impl Names {
    /// What a line says, by the numbers of its names. A new name gets the next number.
    #[inline(always)]
    pub(crate) fn number_shape(
        &mut self,
        alloc: Global,
        shape: Shape<'_>,
    ) -> Result<NumberedLine, AllocError>
        requires threads { length self.old.threads + 2 < 2 ^ 32 }
        requires locks { length self.old.locks + 1 < 2 ^ 32 }
        requires locs { length self.old.locs + 1 < 2 ^ 32 }
        ensures numbered { IfOk result (IsNumbered self.new) }
        ensures says { IfOk result (λ line. shape_in self.new line ≡ shown shape.entry) }
        ensures go_on { OnOk result (GoOn self.old self.new) }
        ensures few { OnOk result (AddsFew self.old self.new) }
    {
        match shape {
            Shape::Blank => Ok(NumberedLine::Blank),
            Shape::Bad(kind) => Ok(NumberedLine::Bad(kind)),
            Shape::Other => Ok(NumberedLine::Other),
            Shape::Call {
                operation,
                thread,
                operand,
                location,
            } => self.number_call(alloc, operation, thread, operand, location),
        }
    }

    // `number_shape`, for a line that tells an event.
    #[inline(always)]
    fn number_call(
        &mut self,
        alloc: Global,
        operation: Operation,
        thread: &[u8],
        operand: &[u8],
        location: &[u8],
    ) -> Result<NumberedLine, AllocError>
        requires threads { length self.old.threads + 2 < 2 ^ 32 }
        requires locks { length self.old.locks + 1 < 2 ^ 32 }
        requires locs { length self.old.locs + 1 < 2 ^ 32 }
        ensures numbered { IfOk result (IsNumbered self.new) }
        ensures says { IfOk result
            (λ line. shape_in self.new line
            ≡ Call (shown_operation operation) thread.now operand.now location.now) }
        ensures go_on { OnOk result (GoOn self.old self.new) }
        ensures few { OnOk result (AddsFew self.old self.new) }
    {
        let thread = self.threads.number_again(alloc, thread)?;
        let location = self.locs.number_again(alloc, location)?;
        let operand = self.number_operand(alloc, operation, operand)?;
        Ok(NumberedLine::Call {
            operation,
            thread: ThreadId::new(thread),
            operand,
            location: LocId::new(location),
        })
    }

    // The number of the operand. A new name gets the next one.
    #[inline(always)]
    fn number_operand(
        &mut self,
        alloc: Global,
        operation: Operation,
        name: &[u8],
    ) -> Result<u32, AllocError>
        requires threads { length self.old.threads + 1 < 2 ^ 32 }
        requires locks { length self.old.locks + 1 < 2 ^ 32 }
        ensures stands { IfOk result (λ number. slice_get
            (operands (shown_operation operation) self.new) number ≡ Some name.now) }
        ensures threads { OnOk result (IsFront self.old.threads self.new.threads) }
        ensures locks { OnOk result (IsFront self.old.locks self.new.locks) }
        ensures same { self.new.locs ≡ self.old.locs }
        ensures few_threads { OnOk result
            (length self.new.threads ≤ length self.old.threads + 1) }
        ensures few_locks { OnOk result (length self.new.locks ≤ length self.old.locks + 1) }
    {
        if operation.is_on_thread() {
            return self.threads.number_again(alloc, name);
        }
        self.locks.number_again(alloc, name)
    }
}

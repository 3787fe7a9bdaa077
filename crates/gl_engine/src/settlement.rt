//! How what was collected is settled, after a run or without one.
ghost use Rattle.std.specs.Prelude.{◌≡◌, IfOk, IfErr, IfNone, IfSome, IsOk};
ghost use Rattle.gl_engine.specs.Collecting.{lanes_of};
ghost use Rattle.gl_engine.specs.Gathering.{AreOurs};
ghost use Rattle.gl_engine.specs.Receipts.{AreComplete, AreOfRecorders};
ghost use Rattle.gl_engine.specs.Settling.{fault_for, HaveEndedBelow, IsFirstUnended, IsMemoryOrGone, IsSettleFault, IsSettledAlone, IsSettledFrom, IsUnsettledFault};

use crate::collector::Collector;
use crate::faults::{SettleFault, UnsettledFault};
use crate::gathered::{Gathered, RunFault};
use crate::receipt::Receipt;
use crate::receipts::{confirm_all, first_missing, first_strange};
use crate::settled::Settled;
use gl_event::ThreadId;
use gl_intake::Intake;
use gl_shards::Sent;

// The first of so many threads whose end mark wasn't collected.
fn first_unended(threads: u32, intake: &Intake) -> Option<ThreadId>
    ensures some { IfSome result (λ thread. IsFirstUnended threads intake.now.stream thread) }
    ensures none { IfNone result (HaveEndedBelow intake.now.stream threads) }
{
    for number in 0..threads {
        let thread = ThreadId::new(number);
        if !intake.ended(thread) {
            return Some(thread);
        }
    }
    None
}

// What settling answers for what went wrong in the run.
fn settle_fault(fault: RunFault) -> SettleFault
    ensures { result ≡ fault_for fault }
{
    match fault {
        RunFault::Memory => SettleFault::Memory,
        RunFault::Gone { shard } => SettleFault::Gone { shard },
        RunFault::Broken { thread, refused } => SettleFault::Broken { thread, refused },
    }
}

impl Gathered {
    /// Settles what was gathered with the receipts of all threads, in whatever order: every event that a
    /// thread recorded was collected, once and in its place. The receipts stay as they were, and for
    /// each outlet there is a [`Sent`], by which its worker is settled.
    ///
    /// It takes no memory. Of each receipt it looks at those before it, and of each thread at all.
    ///
    /// # Errors
    ///
    /// In this order: [`SettleFault::Strange`], [`SettleFault::Missing`], both with what was gathered as it
    /// was; then what went wrong in the run.
    ///
    /// **Where there is one receipt of each thread and no other, only want of memory in the run and a worker
    /// that is gone stand in the way.** No lane is broken then: what came off it are the first of the
    /// notes that its recorder pushed, and each of those is the thread's next one.
    pub fn settle(self, receipts: &mut [Receipt]) -> Result<(Settled, Vec<Sent>), SettleFault>
        requires ours { AreOurs self receipts.old }
        ensures receipts { receipts.new ≡ receipts.old }
        ensures settled { IfOk result
            (λ settled. IsSettledFrom self receipts.old settled.0 settled.1.items) }
        ensures fault { IfErr result (λ fault. IsSettleFault self receipts.old fault) }
        ensures complete { AreComplete self.session self.limits.threads receipts.old
            → IfErr result IsMemoryOrGone }
    {
        let threads = self.limits.threads();
        if let Some(at) = first_strange(self.session, threads, receipts) {
            return Err(SettleFault::Strange { at, gathered: self });
        }
        if let Some(thread) = first_missing(threads, receipts) {
            return Err(SettleFault::Missing {
                thread,
                gathered: self,
            });
        }
        match self.settle_all(receipts) {
            Ok(settled) => Ok(settled),
            Err(fault) => Err(settle_fault(fault)),
        }
    }
}

impl Collector {
    /// Settles what was collected with the receipts of all threads, in whatever order, once every
    /// thread's end mark was pulled: every event that a thread recorded was collected, once and in its
    /// place. The receipts stay as they were.
    ///
    /// It needs no feed and no other thread. It takes no memory. Of each receipt it looks at those before
    /// it, and of each thread at all.
    ///
    /// # Errors
    ///
    /// In this order: [`UnsettledFault::Strange`], [`UnsettledFault::Missing`],
    /// [`UnsettledFault::Unended`], each with the collector as it was.
    ///
    /// **Where there is one receipt of each thread and no other, and every end mark was pulled, it is
    /// settled.**
    pub fn settle(self, receipts: &mut [Receipt]) -> Result<Settled, UnsettledFault>
        requires ours { AreOfRecorders self.session self.limits (lanes_of self) receipts.old }
        ensures receipts { receipts.new ≡ receipts.old }
        ensures settled { IfOk result (λ settled. IsSettledAlone self receipts.old settled) }
        ensures fault { IfErr result (λ fault. IsUnsettledFault self receipts.old fault) }
        ensures complete { AreComplete self.session self.limits.threads receipts.old
            → HaveEndedBelow self.stream self.limits.threads → IsOk result }
    {
        let threads = self.limits.threads();
        if let Some(at) = first_strange(self.session, threads, receipts) {
            return Err(UnsettledFault::Strange {
                at,
                collector: self,
            });
        }
        if let Some(thread) = first_missing(threads, receipts) {
            return Err(UnsettledFault::Missing {
                thread,
                collector: self,
            });
        }
        if let Some(thread) = first_unended(threads, &self.intake) {
            return Err(UnsettledFault::Unended {
                thread,
                collector: self,
            });
        }
        Ok(self.settle_all(receipts))
    }

    // Settles what was collected, where all was: there is one receipt of each thread and no other.
    fn settle_all(self, receipts: &mut [Receipt]) -> Settled
        requires ours { AreOfRecorders self.session self.limits (lanes_of self) receipts.old }
        requires complete { AreComplete self.session self.limits.threads receipts.old }
        requires ended { HaveEndedBelow self.stream self.limits.threads }
        ensures receipts { receipts.new ≡ receipts.old }
        ensures settled { IsSettledAlone self receipts.old result }
    {
        let Collector {
            alloc,
            intake,
            mut inputs,
            ..
        } = self;
        confirm_all(&mut inputs, receipts);
        Settled { alloc, intake }
    }
}

//! The two ends of a feed, and what its sender leaves behind.
ghost use Rattle.std.specs.Prelude.{◌≡◌, ◌≤◌, true, [], ◌∷◌, ◌++◌, OnOk, IfOk, IfErr, MatchResult};
ghost use Rattle.crossbeam_channel.specs.Claims.{view, IsSeatAt};
ghost use Rattle.crossbeam_channel.specs.Ends.{sends_on};
ghost use Rattle.gl_event.specs.declared.limits.TheConstants.{MAX_RING};
ghost use Rattle.gl_shards.specs.Rule.{and_sent, HasEndMark};

use crate::rule::{InOrder, Message, Roles, Sends, Traffic};
use crate::waiting::{LOOKS, pause};
use crossbeam_channel::{Pass, RuledReceiver, RuledSender, TrySendError, bounded_with};
use gl_edges::{Edge, Sample};
use gl_event::Memory;
use std::alloc::Global;
use std::marker::Model;
use std::sync::Wait;

pub(crate) type Sender = RuledSender<Message, Traffic, InOrder, Global>;

pub(crate) type Receiver = RuledReceiver<Message, Traffic, InOrder, Global>;

/// The collector's end of a feed.
///
/// Contracts see which feed it is, how many messages the feed has room for, and the edges that were
/// sent.
#[derive(Drop)]
pub struct Outlet {
    sender: Sender,
    pass: Pass<Message, Traffic>,
}

impl Model for Outlet {
    ghost use Rattle.crossbeam_channel.specs.Ends.{ruled_capacity, sends_on};
    ghost use Rattle.gl_shards.specs.Feeds.{Sending, feed_of, sent_by};
    ghost use Rattle.gl_shards.specs.Ends.{IsOpen};

    ghost Value = { Sending };

    ghost view = { λ o. record {
      feed = feed_of o.pass;
      capacity = ruled_capacity (sends_on o.sender);
      sent = sent_by o.pass;
    } };

    ghost invariant = { λ o. IsOpen o.sender o.pass };
}

/// The worker's end of a feed.
///
/// Contracts see which feed it is.
#[derive(Drop)]
pub struct Inlet {
    pub(crate) receiver: Receiver,
    pub(crate) pass: Pass<Message, Traffic>,
}

impl Model for Inlet {
    ghost use Rattle.gl_shards.specs.Feeds.{Receiving, feed_of};
    ghost use Rattle.gl_shards.specs.Ends.{IsFresh};

    ghost Value = { Receiving };

    ghost view = { λ i. record { feed = feed_of i.pass } };

    ghost invariant = { λ i. IsFresh i.receiver i.pass };
}

/// What a collector leaves behind that has sent the end mark. No call but [`Outlet::end`] makes one.
/// It keeps the feed's memory.
///
/// Contracts see which feed it is of, and all edges that were sent.
#[derive(Drop)]
pub struct Sent {
    pub(crate) sender: Sender,
    pub(crate) pass: Pass<Message, Traffic>,
}

impl Model for Sent {
    ghost use Rattle.gl_shards.specs.Feeds.{AllSent, feed_of, sent_by};
    ghost use Rattle.gl_shards.specs.Ends.{HasSent};

    ghost Value = { AllSent };

    ghost view = { λ s. record { feed = feed_of s.pass; sent = sent_by s.pass } };

    ghost invariant = { λ s. HasSent s.sender s.pass };
}

/// The worker's end of the feed was dropped.
#[derive(Clone, Copy, Debug, PartialEq, Eq)]
pub struct Gone;

/// The two ends of a new feed with room for so many messages, from 1 to 65,536, or that there is no
/// memory for it. An edge is a message, and so is the end mark. The memory is given back once both
/// ends, or what they became, are dropped.
pub fn feed(alloc: Global, capacity: u32) -> Result<(Outlet, Inlet), Memory>
    requires some { 1 ≤ capacity }
    requires fit { capacity ≤ MAX_RING }
    ensures one_feed { IfOk result (λ ends. ends.1.feed ≡ ends.0.feed) }
    ensures room { IfOk result (λ ends. ends.0.capacity ≡ capacity) }
    ensures empty { IfOk result (λ ends. ends.0.sent ≡ []) }
{
    let (sender, receiver, mut pass) = bounded_with::<Message, Traffic, InOrder, Global>(
        alloc,
        capacity as usize,
    )?;
    let receiving = sender.another::<Roles>(&mut pass);
    Ok((
        Outlet { sender, pass },
        Inlet {
            receiver,
            pass: receiving,
        },
    ))
}

// Sends the message, or hands it back where the receiver is gone. It looks many times for room before it
// asks to be woken.
fn send_message<R: Wait>(
    rt: &R,
    sender: &Sender,
    pass: &mut Pass<Message, Traffic>,
    message: Message,
) -> Result<(), Message>
    requires seat { IsSeatAt (sends_on sender.now) pass.old }
    requires sends { (view pass.old).sends ≡ true }
    requires not_ended { ¬ HasEndMark (view pass.old).sent }
    ensures seat { IsSeatAt (sends_on sender.now) pass.new }
    ensures sent { MatchResult result (λ _. view pass.new ≡ and_sent (view pass.old) message)
        (λ back. (back ≡ message) × (view pass.new ≡ view pass.old)) }
{
    let mut message = message;
    for looks in 0..LOOKS {
        match sender.try_send_as::<Sends, R>(rt, pass, message) {
            Ok(()) => return Ok(()),
            Err(TrySendError::Full(back)) => message = back,
            Err(error) => return Err(error.into_inner()),
        }
        pause(rt, looks);
    }
    match sender.send_as::<Sends, R>(rt, pass, message) {
        Ok(()) => Ok(()),
        Err(error) => Err(error.into_inner()),
    }
}

impl Outlet {
    /// Sends an edge with its sample, and waits as long as the feed is full. Both are handed back
    /// where the worker's end was dropped. The edge is moved and not copied. It takes no memory.
    pub fn send<R: Wait>(
        &mut self,
        rt: &R,
        edge: Edge,
        sample: Sample,
    ) -> Result<(), (Edge, Sample)>
        ensures feed { (self.new.feed ≡ self.old.feed)
            × (self.new.capacity ≡ self.old.capacity) }
        ensures sent { OnOk result (self.new.sent ≡ self.old.sent ++ (edge, sample) ∷ []) }
        ensures gone { IfErr result
            (λ back. (back ≡ (edge, sample)) × (self.new.sent ≡ self.old.sent)) }
    {
        let message = Message::Pair((edge, sample));
        match send_message(rt, &self.sender, &mut self.pass, message) {
            Ok(()) => Ok(()),
            Err(Message::Pair(pair)) => Err(pair),
            Err(Message::Ended) => unreachable!(),
        }
    }

    /// Sends the end mark, and waits as long as the feed is full. It answers what stands for all
    /// edges that were sent, or that the worker's end was dropped. It takes no memory.
    pub fn end<R: Wait>(self, rt: &R) -> Result<Sent, Gone>
        ensures feed { IfOk result (λ sent. sent.feed ≡ self.feed) }
        ensures sent { IfOk result (λ sent. sent.sent ≡ self.sent) }
    {
        let Outlet { sender, mut pass } = self;
        match send_message(rt, &sender, &mut pass, Message::Ended) {
            Ok(()) => Ok(Sent { sender, pass }),
            Err(_) => Err(Gone),
        }
    }
}

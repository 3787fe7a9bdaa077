//! The messages of a feed, and the rule that they keep.
ghost use Rattle.gl_shards.specs.Rule.{traffic};

use crossbeam_channel::protocol::{Join, Lesson, Outcome, Protocol, Split};
use gl_edges::{Edge, Sample};
use std::collections::LinkedList;

/// What a feed carries.
#[derive(Drop)]
pub(crate) enum Message {
    /// An edge, with its sample.
    Pair((Edge, Sample)),
    /// The end mark: nothing follows.
    Ended,
}

// Whether a pass may send and receive, what it has sent and what it has received. It is for the
// proofs alone: no value of it is made.
pub(crate) struct Traffic {
    pub(crate) sends: bool,
    pub(crate) receives: bool,
    pub(crate) sent: LinkedList<Message>,
    pub(crate) received: LinkedList<Message>,
}

// The rule of a feed: what was sent is what was received, and then what the feed holds.
pub(crate) struct InOrder;

impl Protocol<Message, Traffic> for InOrder {
    ghost use Rattle.std.specs.Prelude.{true, []};
    ghost use Rattle.gl_shards.specs.Rule.{IsInOrder, traffic};

    ghost holds = { IsInOrder };

    ghost first = { traffic true true [] [] };
}

// One pass sends and another one receives.
pub(crate) struct Roles;

impl Split<Traffic> for Roles {
    ghost use Rattle.std.specs.Prelude.{true, false, []};
    ghost use Rattle.gl_shards.specs.Rule.{traffic};

    ghost left = { λ known. traffic true false known.sent [] };

    ghost right = { λ known. traffic false true [] known.received };
}

impl Join<Traffic> for Roles {
    ghost use Rattle.std.specs.Prelude.{true, false, []};
    ghost use Rattle.gl_shards.specs.Rule.{traffic};

    ghost both = { λ sender receiver. traffic true true sender.sent receiver.received };

    ghost spent = { traffic false false [] [] };
}

// A send: the message joins what was sent.
pub(crate) struct Sends;

impl Outcome<Message, Traffic> for Sends {
    ghost use Rattle.std.specs.Prelude.{◌≡◌};
    ghost use Rattle.gl_shards.specs.Rule.{and_sent};

    ghost then = { λ old message new. new ≡ and_sent old message };
}

impl Lesson<Message, Traffic> for Sends {
    ghost use Rattle.std.specs.Prelude.{⊤};

    ghost fact = { λ known messages. ⊤ };
}

// A receive: the message joins what was received.
pub(crate) struct Receives;

impl Outcome<Message, Traffic> for Receives {
    ghost use Rattle.std.specs.Prelude.{◌≡◌};
    ghost use Rattle.gl_shards.specs.Rule.{and_got};

    ghost then = { λ old message new. new ≡ and_got old message };
}

impl Lesson<Message, Traffic> for Receives {
    ghost use Rattle.std.specs.Prelude.{⊤};

    ghost fact = { λ known messages. ⊤ };
}

// Who has both passes knows that what was received is a beginning of what was sent, and all of it
// where the end mark was received.
pub(crate) struct Whole;

impl Lesson<Message, Traffic> for Whole {
    ghost use Rattle.gl_shards.specs.Rule.{IsReceived};

    ghost fact = { λ known messages. IsReceived known.sent known.received messages };
}

// SPDX-License-Identifier: MIT OR Apache-2.0
//! Laws: each contract states what holds of the definitions that it names. The functions have empty
//! bodies.

ghost use Rattle.std.specs.Prelude.{List};
ghost use Rattle.settings.specs.Parameters.{Parameters};
ghost use Rattle.world_model.specs.declared.event.Event.{Event};
ghost use Rattle.world.specs.WorldState.{WorldState};
ghost use Rattle.world.specs.World.{after_all, controlled_world};
ghost use Rattle.world.specs.Headline.{AreEventsFor, Begins, IsInOrder, QueuesKeepOrder};

/// Law: the order of messages, whatever events happen from a beginning on. The messages that the
/// switch accepts on a connection are a prefix of those of the flow that the upper layers of the
/// connection's mobile sent, each once and in order, and the switch never judges a gap. With a
/// controller, the messages that the switch took on a connection begin with the message with which
/// the connection's mobile connected. Each relay queue is first in, first out, and loses nothing
/// unless its link broke. Assumes: with a controller, events carry octets. The contract of
/// `World::run` cites the same definitions.
pub fn keeps_order()
    ensures { (begin : WorldState) (events : List Event)
        → Begins begin → AreEventsFor begin.scene events
        → IsInOrder begin.scene events (after_all begin events).scene }
{}

/// Law: in a world with a controller, whatever events happen, each relay queue is first in, first
/// out, and loses nothing unless its link broke. The messages of the switch's connections are those
/// that the entries taken out of the switch's outbox give.
pub fn queues_keep_order()
    ensures { (settings : Parameters) (events : List Event)
        → QueuesKeepOrder (controlled_world settings).scene events
        (after_all (controlled_world settings) events).scene }
{}

// SPDX-License-Identifier: MIT OR Apache-2.0
ghost use Rattle.std.specs.Prelude.{ℕ, List};
ghost use Rattle.settings.specs.Parameters.{Parameters};
ghost use Rattle.world_model.specs.declared.event.Event.{Event as WorldEvent};
ghost use Rattle.world_model.specs.Calls.{CompleteIsFirst, MobilesRepeatAtMostOne};
ghost use Rattle.world_model.specs.Honest.{AreHonest};
ghost use Rattle.world_model.specs.CallsMade.{MobilesLive};
ghost use Rattle.world_model.specs.Pipe.{ArePipes};
ghost use Rattle.world_model.specs.Queues.{KeepsQueues};
ghost use Rattle.world_model.specs.Reading.{AreRead};
ghost use Rattle.world_model.specs.declared.seat.Tenure.{Tenure as TenureValue};
ghost use Rattle.world_model.specs.Life.{actors_after_all};
ghost use Rattle.world_model.specs.Steps.{FollowsTable, RunsByTable};
ghost use Rattle.world_model.specs.Tickets.{AllAreBy, AllSitBy, OneMobileEach, senders};
ghost use Rattle.world_model.specs.World.{new_actors};

/// Law: whatever events happen, the inbox and the outboxes of the relay are first in, first out.
/// The inbox loses no item, and an outbox loses no entry while its link is up.
pub fn queues_keep_order()
    ensures { (settings : Parameters) (events : List WorldEvent)
        → KeepsQueues (new_actors settings) events }
{}

/// Law: whatever events happen, stations are honest. A station gives ESTABLISH INDICATIONs and DATA
/// INDICATIONs of a channel only after an activation acknowledgement of the channel and before the
/// next release acknowledgement of the channel.
pub fn stations_are_honest()
    ensures { (settings : Parameters) (events : List WorldEvent)
        → AreHonest (new_actors settings) events }
{}

/// Law: whatever events happen, the controller of a world has the state and the outputs that the
/// controller's own model gives for its steps: the items that it handled and the time that passed.
/// A law of the controller for any steps thus holds in the world.
pub fn controller_lives_by_its_table()
    ensures lives { (settings : Parameters) (events : List WorldEvent)
        → FollowsTable settings events }
    ensures runs { (settings : Parameters) (events : List WorldEvent)
        → RunsByTable settings events }
{}

/// Law: whatever events happen, the acknowledgements that a station gave for a channel are a prefix
/// of those due for the entries put into its outbox, in order. One acknowledgement is due for each
/// activation of a channel that isn't active, and one for each release. While the link of the
/// station is up, each acknowledgement that is due was given, or was made and waits at the station,
/// or belongs to an entry that waits in the outbox.
pub fn channels_are_pipes()
    ensures { (settings : Parameters) (events : List WorldEvent) → ArePipes settings events }
{}

/// Law: whatever events happen, the end of a mobile has the state that the calls of these events
/// give, in order. A law of a mobile's end after any calls thus holds for the mobiles of a world.
pub fn mobiles_live_by_their_ends()
    ensures { (settings : Parameters) (events : List WorldEvent) → MobilesLive settings events }
{}

/// Law: whatever events happen, each mobile keeps the one-repeat rule. On each channel, the
/// messages of the flow that stations take from the mobile on SAPI 0 are a slice of those that its
/// upper layers sent, each message with the number of its place. The first slice begins at the
/// first message sent. Each later slice begins after the last message of the slice before it, or
/// with that last message. Only the last message of a slice can thus arrive again.
pub fn mobiles_repeat_at_most_one()
    ensures { (settings : Parameters) (events : List WorldEvent)
        → MobilesRepeatAtMostOne settings events }
{}

/// Law: whatever events happen, the first message that stations take from a mobile on SAPI 0, on a
/// channel to which it was commanded, is its COMPLETE. On a channel to which a mobile returned, the
/// first message taken from it on SAPI 0 is its FAILURE.
pub fn complete_is_first()
    ensures { (settings : Parameters) (events : List WorldEvent)
        → CompleteIsFirst settings events }
{}

/// Law: whatever events happen, each frame that a station gives to the inbox is the text of a
/// message, and the controller's reader reads the frame as that message.
pub fn stations_are_read()
    ensures { (settings : Parameters) (events : List WorldEvent) → AreRead settings events }
{}

/// Law: no mobile is on a tenure that another mobile owns, and in each tenure at most one mobile
/// sends. Assumes: `owner` gives each tenure one mobile as its owner, and all messages that
/// stations take agree with `owner`. An IMMEDIATE ASSIGNMENT agrees if it names the owner of its
/// channel's present tenure; a command agrees if the tenure to which it leads and the tenure on
/// which it is sent have the same owner; any other message agrees. A law of `world_laws` shows that
/// all messages agree.
pub fn mobiles_keep_to_their_tenures()
    ensures seats { (settings : Parameters) (events : List WorldEvent) (owner : TenureValue → ℕ)
        → AllAreBy owner (new_actors settings) events
        → AllSitBy owner (actors_after_all (new_actors settings) events) }
    ensures senders { (settings : Parameters) (events : List WorldEvent) (owner : TenureValue → ℕ)
        → AllAreBy owner (new_actors settings) events
        → OneMobileEach (senders (new_actors settings) events) }
{}

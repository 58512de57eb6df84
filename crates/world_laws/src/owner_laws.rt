// SPDX-License-Identifier: MIT OR Apache-2.0
//! Laws: each contract states what holds of the definitions that it names. The functions have empty
//! bodies.

ghost use Rattle.std.specs.Prelude.{List};
ghost use Rattle.settings.specs.Parameters.{Parameters};
ghost use Rattle.world_model.specs.declared.event.Event.{Event as WorldEvent};
ghost use Rattle.world_laws.specs.Owners.Alone.{ChannelsAreMobiles, ConnectionsAreAlone};
ghost use Rattle.world_laws.specs.Owners.LinkEnds.{LinksEndOnce, LinksOfChannelsAreUp};
ghost use Rattle.world_laws.specs.Owners.OneEach.{ConnectionsAnswerMobiles, ConnectionsAreOneEach};
ghost use Rattle.world_laws.specs.Owners.OneEach.{NoneIsAnsweredAgain, NoneWasAnswered};
ghost use Rattle.world_laws.specs.Owners.OneEach.{RequestsArriveOnce};
ghost use Rattle.world_laws.specs.Runs.{OfRuns};

/// Law: whatever events happened, each channel that an open connection uses, old channels included,
/// is that of the connection's mobile alone. While the link of the channel's station is up, the
/// mobile that asked for the connection owns the last tenure of the channel. No other mobile is
/// thus on the channel in its present tenure. Assumes: allowed settings; the controller took only
/// octets.
pub fn connections_are_alone()
    ensures channels { OfRuns ChannelsAreMobiles }
    ensures mobiles { OfRuns ConnectionsAreAlone }
{}

/// Law: whatever events happened, a mobile requests a channel once and has at most one connection.
/// If a connection answers a mobile's request, the mobile exists and no request of the mobile is on
/// its way. If a request of a mobile is on its way, the mobile exists, has no second request on its
/// way, and never had a connection. If a mobile had a connection, each later connection of the
/// mobile is the same one.
pub fn connections_are_one_each()
    ensures answers { OfRuns ConnectionsAnswerMobiles }
    ensures one_each { OfRuns ConnectionsAreOneEach }
    ensures once { OfRuns RequestsArriveOnce }
    ensures before { (settings : Parameters) (before after : List WorldEvent)
        → NoneWasAnswered settings before after }
    ensures again { (settings : Parameters) (before after : List WorldEvent)
        → NoneIsAnsweredAgain settings before after }
{}

/// Law: whatever events happened, if a connection is open, the controller has the link of the
/// switch as up, and also the links of the stations whose channels the connection uses. Assumes:
/// allowed settings.
pub fn links_of_channels_are_up()
    ensures { OfRuns LinksOfChannelsAreUp }
{}

/// Law: whatever events happened, no item of a source follows the end of the source's link in the
/// inbox. While a link is down, no message that its source made waits to be given to the inbox.
/// Once the controller learned that a link is down, the inbox has no item of its source.
pub fn frames_arrive_before_their_down()
    ensures { OfRuns LinksEndOnce }
{}

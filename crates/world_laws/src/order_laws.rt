// SPDX-License-Identifier: MIT OR Apache-2.0
//! Laws: each contract states what holds of the definitions that it names. The functions have empty
//! bodies.

ghost use Rattle.settings.specs.Parameters.{Parameters};
ghost use Rattle.world_laws.specs.Order.Beginning.{ConnectionsBegin, ConnectionsBeginComing};
ghost use Rattle.world_laws.specs.Order.LineUps.{AllNumbersAreSomewhere, AllPlacesRise};
ghost use Rattle.world_laws.specs.Order.OctetEvents.{ArriveInOctets, PutsFairly};
ghost use Rattle.world_laws.specs.Order.OctetEvents.{StationsGiveOctets};
ghost use Rattle.world_laws.specs.Order.Order.{AllRunsAreInOrder, CutNumbersRemainCut};
ghost use Rattle.world_laws.specs.Order.QuietDown.{ChannelsBeginQuiet, ChannelsRemainQuiet};
ghost use Rattle.world_laws.specs.Order.QuietDown.{QuietLetsNoneGo};
ghost use Rattle.world_laws.specs.Order.Whereabouts.{SwitchIsOfModulus};
ghost use Rattle.world_laws.specs.Order.Targets.{TargetsAreFresh};
ghost use Rattle.world_laws.specs.Order.Unanswered.{UnansweredMobilesAsk};
ghost use Rattle.world_laws.specs.Runs.{AtEvents, OfRuns};

/// Law: whatever events happened, a mobile that never had a connection is as it was when it
/// connected: it still requests a channel and has sent nothing. No IMMEDIATE ASSIGNMENT that waits
/// for a station names the mobile. Assumes: allowed settings; the controller took only octets.
pub fn unanswered_mobiles_ask()
    ensures { OfRuns UnansweredMobilesAsk }
{}

/// Law: whatever events happened before, a connection that begins at an event is in its first state
/// after the event. The mobile that requested the connection is as it was when it connected,
/// nothing is on its way on the connection's channel, and no IMMEDIATE ASSIGNMENT that waits for a
/// station names the mobile. Assumes: allowed settings; the controller took only octets.
pub fn connections_begin()
    ensures { AtEvents ConnectionsBegin }
{}

/// Law: whatever events happened before, a connection that begins at an event is coming
/// (`IsComing`) for the mobile that requested it, whatever the mobile's initial message is.
/// Assumes: allowed settings; the controller took only octets.
pub fn connections_begin_coming()
    ensures { AtEvents ConnectionsBeginComing }
{}

/// Law: whatever events happened, the serving channel of a connection that begins at an event is
/// quiet, and remains quiet at each event while the connection hasn't asked the switch. A channel
/// is quiet if it isn't active and its activation waits, or if nothing is in its air and no DATA
/// REQUEST for it waits. No CHANNEL RELEASE is thus in the air of the serving channel. Assumes:
/// allowed settings; the controller took only octets.
pub fn channel_of_a_coming_one_is_quiet_down()
    ensures begins { AtEvents ChannelsBeginQuiet }
    ensures quiet { AtEvents ChannelsRemainQuiet }
    ensures none_go { OfRuns QuietLetsNoneGo }
{}

/// Law: once the link of the switch is down, each connection number keeps its stage, whatever
/// happens. In one stage the switch has no connection for the number, and nothing of the number
/// waits for the switch. In the other, what the switch took of the connection is in order and is of
/// the mobile that the connection first served, and nothing more waits.
pub fn cut_numbers_remain_cut()
    ensures { AtEvents CutNumbersRemainCut }
{}

/// Law: whatever events happened, the switch and each of its connections have the modulus that the
/// settings give for the network.
pub fn switch_is_of_modulus()
    ensures { OfRuns SwitchIsOfModulus }
{}

/// Law: whatever events happened, all that stations give to the controller is octets. Assumes:
/// events carry octets.
pub fn stations_give_octets()
    ensures { OfRuns StationsGiveOctets }
{}

/// Law: all that the controller puts for the switch is fair: each CR has a reference of three
/// octets, and each CLEAR REQUEST has a cause of one octet. Assumes: allowed settings; the
/// controller took only octets.
pub fn fair_frames_are_put()
    ensures { (settings : Parameters) → PutsFairly settings }
{}

/// Law: all that the controller takes is octets. Assumes: allowed settings; events carry octets.
pub fn octets_arrive()
    ensures { OfRuns ArriveInOctets }
{}

/// Law: the line-up. Whatever events happened, each connection number has a stage. While the link
/// of the switch is up, the stage is one of five: the number is still to be given; the connection
/// is coming; the connection lives, lined up with the mobile that it first served; the connection
/// ended in order; or the switch never hears of the connection. Once the link of the switch is
/// down, nothing of the connection waits for the switch, and what the switch took of the connection
/// is in order. While a connection lives and the link of the switch is up, the numbered messages of
/// its mobile form a line. The line begins with the messages that wait for the switch. Then come,
/// channel by channel in the order in which the channels serve, the messages that the controller
/// holds and those on their way up, in the inbox and at the station. The messages of the mobile's
/// link come last, the one in the air first. The place of the first message in the line is that of
/// the last message that the switch accepted, or the next place. From message to message the place
/// rises by 1 or 0. The line ends at the first channel of which something is lost, and leaves out
/// the link of a mobile that was released. If nothing is lost, the places reach to the last message
/// sent. Assumes: allowed settings; events carry octets.
pub fn each_number_is_somewhere()
    ensures numbers { OfRuns AllNumbersAreSomewhere }
    ensures rise { OfRuns AllPlacesRise }
{}

/// Law: the order of a run. Whatever events happened, the messages that the switch accepts on a
/// connection are a prefix of those that the upper layers of the connection's mobile sent, each
/// once and in order, and the switch never judges a gap. Assumes: allowed settings; events carry
/// octets.
pub fn runs_are_in_order()
    ensures { OfRuns AllRunsAreInOrder }
{}

/// Law: the target of a change of channel is fresh for each connection that the switch confirmed,
/// whatever events happened, while the link of the switch is up. A target is fresh if it brings no
/// layer 3 message of SAPI 0 before the mobile is commanded to it, and COMPLETE as the first such
/// message from then on. Assumes: allowed settings; events carry octets.
pub fn targets_are_fresh()
    ensures { OfRuns TargetsAreFresh }
{}

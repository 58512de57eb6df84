// SPDX-License-Identifier: MIT OR Apache-2.0
//! Laws: each contract states what holds of the definitions that it names. The functions have empty
//! bodies.

ghost use Rattle.world_laws.specs.Channels.Begun.{BegunIsTaken, EstablishedAreActive};
ghost use Rattle.world_laws.specs.Channels.Begun.{ServedAreActive};
ghost use Rattle.world_laws.specs.Channels.Roles.{AcknowledgementsAgree, FreeAreSilent};
ghost use Rattle.world_laws.specs.Channels.Roles.{OldChannelsEnd};
ghost use Rattle.world_laws.specs.Runs.{OfRuns};

/// Law: whatever events happened, the acknowledgements on their way from the channels of an open
/// connection agree with the roles of the channels. An RF CHANNEL RELEASE ACK is the last
/// acknowledgement of an old channel, and no RF CHANNEL RELEASE ACK of the serving channel or of a
/// target is on its way. Assumes: allowed settings; the controller took only octets.
pub fn acknowledgements_agree()
    ensures { OfRuns AcknowledgementsAgree }
{}

/// Law: whatever events happened, nothing is on its way up from a channel that the controller has
/// as free, neither an acknowledgement nor a layer 3 message of SAPI 0. Assumes: allowed settings;
/// the controller took only octets, and hasn't learned that the link of the channel's station
/// broke.
pub fn free_channels_are_silent()
    ensures { OfRuns FreeAreSilent }
{}

/// Law: whatever events happened, nothing on its way up from an old channel of an open connection
/// follows the RF CHANNEL RELEASE ACK of the channel. No RF CHANNEL RELEASE ACK is on its way up
/// from the serving channel or from a target. Assumes: allowed settings; the controller took only
/// octets.
pub fn old_channels_end()
    ensures { OfRuns OldChannelsEnd }
{}

/// Law: whatever events happened, the controller took all acknowledgements of the channels on which
/// an open connection has begun: no acknowledgement of such a channel is on its way, or due for an
/// entry that waits for its station. The channels are the serving channel, unless the connection
/// still waits for its activation, and the target to which the mobile was commanded. Assumes:
/// allowed settings; the controller took only octets.
pub fn begun_channels_are_taken()
    ensures { OfRuns BegunIsTaken }
{}

/// Law: if an open connection asked the switch for its connection, its serving channel and the
/// target to which its mobile was commanded are active, each if the link of its station is up.
/// Assumes: allowed settings; the controller took only octets.
pub fn served_channels_are_active()
    ensures { OfRuns ServedAreActive }
{}

/// Law: if a connection waits for its initial message and the link of its serving channel's station
/// is up, the serving channel is active. Assumes: allowed settings; the controller took only
/// octets.
pub fn established_channels_are_active()
    ensures { OfRuns EstablishedAreActive }
{}

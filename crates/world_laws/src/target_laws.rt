// SPDX-License-Identifier: MIT OR Apache-2.0
//! Laws: each contract states what holds of the definitions that it names. The functions have empty
//! bodies.

ghost use Rattle.conn_rules.specs.Connection.{Connection};
ghost use Rattle.world_model.specs.World.{Actors, Mobile as MobileValue};
ghost use Rattle.world_laws.specs.Targets.Fresh.{FreshMeans, TargetsRemainFresh};
ghost use Rattle.world_laws.specs.Targets.Quiet.{ChannelsAreSettled, FreeChannelsAreQuiet};
ghost use Rattle.world_laws.specs.Runs.{AtEvents, OfRuns};

/// Law: whatever events happened, a channel that the controller has as free is quiet, as long as
/// the controller hears the channel's station: no message is on its way up from the channel, and no
/// command is on its way down. The channel is quiet since each channel is settled: a command that
/// waits for the channel's station is to be taken while the channel is active, and nothing is in
/// the channel's air while it isn't active. Assumes: allowed settings; the controller took only
/// octets.
pub fn free_channels_are_quiet()
    ensures settled { OfRuns ChannelsAreSettled }
    ensures quiet { OfRuns FreeChannelsAreQuiet }
{}

/// Law: whatever events happened, a fresh target of a change of channel remains fresh at the next
/// event. While the target is prepared, it brings no layer 3 message of SAPI 0, and no command is
/// on its way there. Once the mobile was commanded to the target, COMPLETE is the first message
/// that the target brings. As long as the target brought none, COMPLETE is the first message that
/// the mobile gives there. Assumes: allowed settings; the controller took only octets; the
/// connection lives, and no other mobile is on its channels.
pub fn targets_remain_fresh()
    ensures fresh { AtEvents TargetsRemainFresh }
    ensures tells { (w : Actors) (p : MobileValue) (s : Connection) → FreshMeans w p s }
{}

// SPDX-License-Identifier: MIT OR Apache-2.0
//! Laws: each contract states what holds of the definitions that it names. The functions have empty
//! bodies.

ghost use Rattle.world_laws.specs.Handling.OpenOrEnded.{LiveConnectionsContinue};
ghost use Rattle.world_laws.specs.Runs.{AtEvents};

/// Law: whatever events happened, after the controller handled the first item of its inbox, or time
/// passed for it, a connection that lived is still open and lined up with its mobile, or it ended
/// in order. Assumes: allowed settings; the controller took only octets; the link of the switch is
/// up; acknowledgements agree with the roles of the connection's channels.
pub fn live_connections_continue()
    ensures { AtEvents LiveConnectionsContinue }
{}

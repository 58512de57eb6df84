// SPDX-License-Identifier: MIT OR Apache-2.0
//! Laws: each contract states what holds of the definitions that it names. The functions have empty
//! bodies.

ghost use Rattle.world_laws.specs.Runs.{AtEvents, OfRuns};
ghost use Rattle.world_openers.specs.Openers.{MobilesConnectOnce, OpenersMessagesAreFirst};

/// Law: whatever events happened, a mobile that connected connects at no later event, so that it
/// connected with just one message.
pub fn mobiles_connect_once()
    ensures { AtEvents MobilesConnectOnce }
{}

/// Law: whatever events happened, the messages that the switch took on a connection begin with the
/// message with which the connection's opener connected, whether this message is of the flow or a
/// PAGING RESPONSE. Assumes: allowed settings; events carry octets.
pub fn openers_message_is_first()
    ensures { OfRuns OpenersMessagesAreFirst }
{}

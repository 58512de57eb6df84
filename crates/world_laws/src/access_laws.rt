// SPDX-License-Identifier: MIT OR Apache-2.0
//! Laws: each contract states what holds of the definitions that it names. The functions have empty
//! bodies.

ghost use Rattle.world_laws.specs.Access.Arriving.{OthersKeepComing};
ghost use Rattle.world_laws.specs.Access.Begun.{ConnectionsBeginForTheirMobile};
ghost use Rattle.world_laws.specs.Access.Opened.{OpenedRemainOpened};
ghost use Rattle.world_laws.specs.Access.Requested.{ControllerBringsComing};
ghost use Rattle.world_laws.specs.Runs.{AtEvents, OfRuns};

/// Law: a connection that is coming is still coming after each event at which the controller
/// neither handles an item nor has time pass. A connection is coming if it hasn't asked the switch
/// for its connection yet, and its mobile requests a channel or is on the serving channel and lined
/// up there. Assumes: allowed settings, and what `IsKnown` says of the connection, such as that no
/// other mobile is on its channel.
pub fn others_keep_coming()
    ensures { AtEvents OthersKeepComing }
{}

/// Law: after any event, no initial message of a connection that lives is on its way: its mobile
/// sent its initial message before and sends it no second time. Assumes: no other mobile is on the
/// connection's channels; after the event the connection is still open and lined up, and its target
/// is fresh (`TargetIsFresh`).
pub fn opened_connections_remain_opened()
    ensures { AtEvents OpenedRemainOpened }
{}

/// Law: after the controller handled an item, or time passed for it, a connection that was coming
/// is in one of three cases. It is still coming; or it asked the switch for its connection and
/// lives, with the mobile that requested it on its serving channel; or it is closed or removed.
/// Assumes: allowed settings; the controller took only octets; the link of the switch is up; what
/// `IsKnown` says of the connection; acknowledgements agree with the roles of the channels; no
/// mobile has two connections.
pub fn coming_connections_come()
    ensures { AtEvents ControllerBringsComing }
{}

/// Law: a connection that begins when the controller handles an item is coming. Assumes: allowed
/// settings; the controller took only octets. Assumes further: the mobile whose request the
/// connection answers requests a channel, has sent nothing and has no other connection; no
/// IMMEDIATE ASSIGNMENT for this mobile waits for a station; nothing is on its way on the
/// connection's channel.
pub fn connections_begin_for_their_mobile()
    ensures { OfRuns ConnectionsBeginForTheirMobile }
{}

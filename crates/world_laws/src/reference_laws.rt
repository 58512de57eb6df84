// SPDX-License-Identifier: MIT OR Apache-2.0
//! Laws: each contract states what holds of the definitions that it names. The functions have empty
//! bodies.

ghost use Rattle.world_laws.specs.References.Over.{OverPutsNoMore};
ghost use Rattle.world_laws.specs.References.Taken.{DroppedAreUnknown, NamesAlwaysAgree};
ghost use Rattle.world_laws.specs.References.Taken.{PeersDiffer, SwitchDeliversOrRefuses};
ghost use Rattle.world_laws.specs.References.Taken.{UnaskedAreUnknown, UnknownRemainUnknown};
ghost use Rattle.world_laws.specs.Runs.{AtEvents, OfRuns};

/// Law: whatever events happened, the controller's connections, the messages on their way to the
/// switch and back, and the switch's connections agree by references. Each connection asked the
/// switch at most once. A CC on its way to a connection carries the reference of the switch's
/// connection that has this connection as its peer. The messages that a connection puts after CC
/// carry the same reference, and no message follows the connection's CLEAR COMPLETE. Assumes:
/// allowed settings; the controller took only octets.
pub fn names_agree()
    ensures { OfRuns NamesAlwaysAgree }
{}

/// Law: the peer of each connection of the switch is one of the controller's connection numbers,
/// and no other connection of the switch has the same peer. Assumes: allowed settings; the
/// controller took only octets.
pub fn peers_differ()
    ensures { OfRuns PeersDiffer }
{}

/// Law: while the link of the switch is up, the switch takes the first entry of its outbox as it
/// was put, or never hears of the connection of the entry. The latter is the case if the entry asks
/// for the connection and the switch refuses it, having no more connections to give. Assumes:
/// allowed settings; the controller took only octets.
pub fn switch_delivers_or_refuses()
    ensures { OfRuns SwitchDeliversOrRefuses }
{}

/// Law: if the switch never hears of a connection (`IsUnknownForGood`), the same is true after each
/// event. Assumes: allowed settings; the controller took only octets.
pub fn unknown_remain_unknown()
    ensures { AtEvents UnknownRemainUnknown }
{}

/// Law: if a connection doesn't exist yet, or hasn't asked the switch, the switch has no connection
/// for it, and no message of it waits for the switch. Assumes: allowed settings; the controller
/// took only octets.
pub fn unasked_are_unheard_of()
    ensures { OfRuns UnaskedAreUnknown }
{}

/// Law: if a connection existed and is closed or removed, it remains closed or removed at each
/// event, and the controller puts no message of its mobile for the switch. Assumes: allowed
/// settings; the controller took only octets.
pub fn over_puts_no_more()
    ensures { AtEvents OverPutsNoMore }
{}

/// Law: if a connection that hasn't asked the switch is closed or removed by an event, the switch
/// never hears of the connection. Assumes: allowed settings; the controller took only octets.
pub fn dropped_are_unheard()
    ensures { AtEvents DroppedAreUnknown }
{}

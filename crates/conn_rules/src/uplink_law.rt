// SPDX-License-Identifier: MIT OR Apache-2.0
//! Laws: the contract of each function states what holds of the definitions that the contract
//! names. The functions have empty bodies.

ghost use Rattle.std.specs.Prelude.{Option};
ghost use Rattle.conn_messages.specs.declared.channel.Channel.{Channel};
ghost use Rattle.conn_rules.specs.declared.input.Input.{Input};
ghost use Rattle.conn_rules.specs.Connection.{Connection};
ghost use Rattle.conn_rules.specs.Validity.{IsValid};
ghost use Rattle.conn_rules.specs.Streams.{AreApart, Ends, Future, KeepsUplink, OfRow};
ghost use Rattle.conn_rules.specs.Streams.{used_channels};
ghost use Rattle.conn_rules.specs.Table.{row_of};
ghost use Rattle.dtap_codec.specs.declared.sapi.Sapi.{Sapi};

/// The uplink of each SAPI is kept in order and loses no message if the connection is open after
/// the row. The messages that the row relays, followed by the messages still to be relayed after
/// the row, are the messages still to be relayed before the row. Before the row, the input's
/// message counts as the first that may still arrive on its channel. Still to be relayed are, for
/// each tenure in the order in which the channels served, the messages held in the tenure, then the
/// messages that may still arrive on the tenure's channel. The target's messages count from the
/// COMMAND on. `future` gives the messages that may still arrive on each channel. Assumes: the
/// connection is valid (`IsValid`) and its channels differ. `future` has no message for a channel
/// whose release the input acknowledges, and none for the target if the input is an ACTIVATION ACK
/// or a FAILURE of the mobile. This is a law on the definitions that the calls' contracts cite.
pub fn uplink_is_kept()
    ensures { (s : Connection) (input : Input) (offer : Option Channel) (sapi : Sapi)
        (future : Future) → IsValid s
        → AreApart (used_channels s) → Ends future s.state input
        → OfRow (KeepsUplink sapi future s input) (row_of s input offer) }
{}

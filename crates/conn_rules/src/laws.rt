// SPDX-License-Identifier: MIT OR Apache-2.0
//! Laws: the contract of each function states what holds of the definitions that the contract
//! names. The functions have empty bodies.

ghost use Rattle.std.specs.Prelude.{ℕ, Option};
ghost use Rattle.conn_messages.specs.declared.channel.Channel.{Channel};
ghost use Rattle.rsl_codec.specs.declared.values.RequestReference.{RequestReference};
ghost use Rattle.dtap_codec.specs.declared.sapi.Sapi.{Sapi};
ghost use Rattle.conn_rules.specs.declared.input.Input.{Input};
ghost use Rattle.conn_rules.specs.Connection.{Connection, new_connection};
ghost use Rattle.conn_rules.specs.Putting.{PutsOnOwn};
ghost use Rattle.conn_rules.specs.Roles.{ChangesRolesBy, IsNew, KeepsAccount, KeepsChannels};
ghost use Rattle.conn_rules.specs.Roles.{IsApartAfter};
ghost use Rattle.conn_rules.specs.Validity.{IsCarried, IsValid};
ghost use Rattle.conn_rules.specs.Streams.{AreApart, IsFinal, IsOpen, IsSilent, KeepsDownlink};
ghost use Rattle.conn_rules.specs.Streams.{OfRow, used_channels};
ghost use Rattle.conn_rules.specs.Table.{row_of};

/// A new connection is valid (`IsValid`), and a row leads from a valid connection to a valid
/// connection. Assumes: the message in the row's input, if there is one, has 1 to 251 octets. This
/// is a law on the table.
pub fn invariant_is_kept()
    ensures at_first { (number : ℕ) (channel : Channel) (request : RequestReference) (delay : ℕ)
        → IsValid (new_connection number channel request delay) }
    ensures by_rows { (s : Connection) (input : Input) (offer : Option Channel) → IsValid s
        → IsCarried input → OfRow (λ r. IsValid r.next) (row_of s input offer) }
{}

/// The downlink of each SAPI is kept in order while the connection is open: the DTAP that a row
/// hands to the mobile, followed by the DTAP held after the row, is the DTAP held before the row,
/// followed by the DTAP received. If the row puts a SAPI N REJECT, all these messages of SAPI 3 are
/// rejected: no message of SAPI 3 is handed by the row or held after it. A row hands DTAP only on
/// the channel that serves after the row. Assumes: the connection before the row is valid
/// (`IsValid`).
pub fn downlink_is_kept()
    ensures { (sapi : Sapi) (s : Connection) (input : Input) (offer : Option Channel) → IsValid s
        → OfRow (KeepsDownlink sapi s input) (row_of s input offer) }
{}

/// A row hands no DTAP to the mobile if, after the row, the mobile is commanded to another channel
/// and hasn't answered. The row that puts the command hands none either.
pub fn changing_is_silent()
    ensures { (s : Connection) (input : Input) (offer : Option Channel)
        → OfRow IsSilent (row_of s input offer) }
{}

/// If the connection is closed or removed after a row, the row relays and hands no message. A
/// connection that is closed or removed doesn't open again. Once CLEAR COMPLETE was put, rows put
/// only RLC.
pub fn closing_is_final()
    ensures { (s : Connection) (input : Input) (offer : Option Channel)
        → OfRow (IsFinal s) (row_of s input offer) }
{}

/// A row of an open connection either changes the roles of channels by the step that its input
/// brings, after which a change may begin, or ends the connection. A row of a connection that had
/// ended puts no message to stations. A step changes nothing, commands the mobile to the target,
/// completes the change, gives the target up, or lets old channels leave. The law states which
/// channels the stations are ordered to activate and to release. While the connection remains open,
/// the mobile gets only the command and messages of the switch. If no row fits, the input brings no
/// step. A channel leaves use only if its RF CHANNEL RELEASE is put, its station's link broke, or
/// its activation was refused. A channel comes into use only if it is the offer and its CHANNEL
/// ACTIVATION is put. While the connection is open, only the serving channel can begin to drain,
/// and its RF CHANNEL RELEASE is put then. A channel drains until its release is acknowledged. If
/// the connection is open after a row, no two of its channels are the same. For this last claim, no
/// two channels may be the same before the row, and the offer must differ from all of them.
/// Assumes: the connection before the row is valid (`IsValid`).
pub fn roles_change()
    ensures steps { (s : Connection) (input : Input) (offer : Option Channel) → IsValid s
        → ChangesRolesBy s input offer (row_of s input offer) }
    ensures account { (s : Connection) (input : Input) (offer : Option Channel) → IsValid s
        → OfRow (KeepsAccount s input offer) (row_of s input offer) }
    ensures apart { (s : Connection) (input : Input) (offer : Option Channel) → IsValid s
        → AreApart (used_channels s) → IsNew offer (used_channels s)
        → OfRow IsApartAfter (row_of s input offer) }
{}

/// A row keeps the number of its connection. The channel that serves after a row was the serving
/// channel or the target before. The target after a row, if there is one, was the target before or
/// is the offer.
pub fn channels_are_kept()
    ensures { (s : Connection) (input : Input) (offer : Option Channel)
        → OfRow (KeepsChannels s offer) (row_of s input offer) }
{}

/// If a row puts a DATA REQUEST, an ESTABLISH REQUEST or an RF CHANNEL RELEASE, the message is for
/// a channel that the connection uses at that moment. The channels in use are the serving channel,
/// the target, and the offer once its CHANNEL ACTIVATION was put. A channel isn't in use once its
/// RF CHANNEL RELEASE was put, so these messages are never put for an old channel. Assumes: the
/// connection is valid (`IsValid`), and its channels differ while it is open.
pub fn messages_go_to_own_channels()
    ensures { (s : Connection) (input : Input) (offer : Option Channel) → IsValid s
        → (IsOpen s.state → AreApart (used_channels s))
        → OfRow (λ r. PutsOnOwn s r.outs) (row_of s input offer) }
{}

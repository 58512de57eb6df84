// SPDX-License-Identifier: MIT OR Apache-2.0
//! Laws of the life of a controller. Each contract claims something about the definitions that are
//! named in the contract. The bodies are empty.

ghost use Rattle.std.specs.Prelude.{ℕ, ◌≤◌, ◌<◌, List};
ghost use Rattle.controller_model.specs.LifeLaws.Acts.{ActsOn};
ghost use Rattle.controller_model.specs.LifeLaws.Concern.{FrameLeaves};
ghost use Rattle.controller_model.specs.LifeLaws.Downlink.{DownlinkIsConserved};
ghost use Rattle.controller_model.specs.LifeLaws.End.{IsThere, SilenceIsKept, IsSilentThrough};
ghost use Rattle.controller_model.specs.LifeLaws.Handing.{HandsInPlace};
ghost use Rattle.controller_model.specs.LifeLaws.History.{connection_of};
ghost use Rattle.controller_model.specs.LifeLaws.Naming.{NamesItsMobile};
ghost use Rattle.controller_model.specs.LifeLaws.Owning.{LinkedOf, OwnsOpen};
ghost use Rattle.controller_model.specs.LifeLaws.Uplink.{UplinkIsConserved};
ghost use Rattle.controller_model.specs.LifeLaws.Placing.{KeepsToChannels};
ghost use Rattle.controller_model.specs.LifeLaws.Reach.{PutsOnUpLinks};
ghost use Rattle.controller_model.specs.LifeLaws.Sending.{IsOctetStep, SendsMessages};
ghost use Rattle.controller_model.specs.LifeLaws.Using.{AreUsed};
ghost use Rattle.std.specs.List.{AllByRecursion};
ghost use Rattle.controller_model.specs.Controller.{is_up};
ghost use Rattle.conn_messages.specs.declared.parameters.TheConstants.{SWITCH_LINK};
ghost use Rattle.controller_model.specs.LifeLaws.Numbers.{IsNumbered};
ghost use Rattle.controller_model.specs.declared.step.Step.{Step};
ghost use Rattle.controller_model.specs.Life.{life};
ghost use Rattle.ipa_framing.specs.declared.frame.Frame.{Frame as FrameValue};
ghost use Rattle.settings.specs.Parameters.{AreAllowed, Parameters};

/// The numbers of the connections are at least 1, rise, and are below the number of the next
/// connection.
pub fn numbers_rise()
    ensures { (p : Parameters) (steps : List Step) → IsNumbered (life p steps).next }
{}

/// A step applies at most one row of the table to a connection. The row's input is the input that a
/// frame brings, the break of a link, the move upon a report, or the expiry of a timer. Without a
/// row, the step opens the connection or leaves the connection unchanged, apart from its timers.
pub fn steps_are_rows()
    ensures { (p : Parameters) (steps : List Step) (s : Step) (number : ℕ) → 1 ≤ number
        → ActsOn number (life p steps).next s }
{}

/// While the mobile of a connection changes its channel, nothing is handed to the mobile; the step
/// that commands the change hands nothing either. Messages that a step hands go to the channel that
/// serves after the step. From the step that closes a connection on, nothing is handed or relayed
/// for the connection. After CLEAR COMPLETE only RLC is put for the connection, and nothing once
/// the connection is gone. The messages that a step relays and hands are those read from the step's
/// frames, if settings are allowed and frames that arrived carry octets.
pub fn silence_is_kept()
    ensures steps { (p : Parameters) (steps : List Step) (number : ℕ) → 1 ≤ number
        → SilenceIsKept number p steps (life p steps) }
    ensures end { (p : Parameters) (steps rest : List Step) (number : ℕ) → 1 ≤ number
        → number < (life p steps).next.next_number
        → (IsThere (connection_of (life p steps).next number) → ⊥)
        → IsSilentThrough number (life p steps).next rest }
{}

/// When and where messages are handed, told from the steps and the messages put alone. From the
/// step that puts ASSIGNMENT COMMAND or HANDOVER COMMAND on, nothing is handed to the mobile until
/// a step takes the mobile's COMPLETE or FAILURE or clears the connection. A step takes COMPLETE if
/// the step reports the change to the switch, and FAILURE if the step puts RF CHANNEL RELEASE. A
/// step clears the connection if the step puts CLEAR REQUEST, CLEAR COMPLETE or RLC, or if the link
/// of the switch breaks.
///
/// Messages that a step hands go to the channel that serves after the step, the first of the
/// service list. While the service list is empty, nothing is handed. Once CLEAR COMPLETE was put,
/// only RLC is put. The messages that a step relays and hands are those read from the step's
/// frames, if settings are allowed and frames that arrived carry octets.
pub fn messages_are_handed_in_place()
    ensures { (p : Parameters) (steps : List Step) (number : ℕ) → 1 ≤ number
        → HandsInPlace number p steps (life p steps) }
{}

/// The downlink of a connection is conserved in order, per SAPI, while the connection is open. The
/// messages handed to the mobile, followed by the messages held for the mobile, are the messages
/// that arrived from the switch after CC, without rejected messages and without messages of radio
/// resource management. Whether or not the connection is open, the messages handed to the mobile
/// are some of those that arrived for it, each at most once and in the order in which they arrived.
/// The messages handed are those read from the frames to stations, if settings are allowed and
/// frames that arrived carry octets.
pub fn downlink_is_conserved()
    ensures { (p : Parameters) (steps : List Step) (number : ℕ) → 1 ≤ number
        → DownlinkIsConserved number p steps (life p steps) }
{}

/// The uplink of a connection is conserved in order, per SAPI, while the connection is open. The
/// messages relayed to the switch, the initial message first, followed by the messages held, are
/// the messages that arrived on the connection's channels, channel after channel in the order in
/// which the channels began to serve. Messages count on the first channel from the initial message
/// on, on each later channel from its COMPLETE on, and on every channel until its release is
/// acknowledged. The messages relayed are those read from the frames to the switch, if frames that
/// arrived carry octets. Assumes: allowed settings.
pub fn uplink_is_conserved()
    ensures { (p : Parameters) (steps : List Step) (number : ℕ) → AreAllowed p → 1 ≤ number
        → UplinkIsConserved number p steps (life p steps) }
{}

/// A connection exists only while the link of the switch is up. All further claims assume allowed
/// settings. The serving channel and the target of an open connection are in use by that
/// connection, and its old channels are releasing. All these channels are different, and the links
/// of their stations are up. A channel therefore belongs to at most one connection.
pub fn channels_are_owned()
    ensures channels { (p : Parameters) (steps : List Step) (number : ℕ) → AreAllowed p
        → OwnsOpen (life p steps).next.channels (life p steps).next.links number
        (connection_of (life p steps).next number) }
    ensures switch { (p : Parameters) (steps : List Step) (number : ℕ) → 1 ≤ number
        → LinkedOf (is_up (life p steps).next SWITCH_LINK)
        (connection_of (life p steps).next number) }
{}

/// A channel is in use by a connection exactly if the connection is open and the channel is the
/// connection's serving channel or target. At most one connection uses a channel. A releasing
/// channel belonged to a connection, which may be gone. All channels are free on a link that is
/// down or doesn't exist, and on the link of the switch. Assumes: allowed settings.
pub fn channels_are_used()
    ensures { (p : Parameters) (steps : List Step) → AreAllowed p
        → AreUsed (life p steps).next }
{}

/// Each frame that a step puts goes to a link that exists and is up after the step. No frame goes
/// to a link that breaks in the step. Assumes: allowed settings.
pub fn frames_go_to_links_that_are_up()
    ensures { (p : Parameters) (steps : List Step) (s : Step) → AreAllowed p
        → PutsOnUpLinks (life p steps).next s }
{}

/// Each frame that a step puts has a body of at most 2,048 octets, so no frame is refused as too
/// long. The receiver of a frame reads the message that was put, or the frame is PONG. Assumes:
/// allowed settings, and octets below 256 in the frames that arrived.
pub fn frames_are_read_as_put()
    ensures { (p : Parameters) (steps : List Step) (s : Step) → AreAllowed p
        → AllByRecursion IsOctetStep steps → IsOctetStep s
        → SendsMessages (life p steps).next s }
{}

/// A frame concerns at most one connection: the connection that has the frame's channel, the
/// connection with the frame's reference, or the next connection. For any other connection, the
/// frame leaves the connection and its averages unchanged, no frame is put, and the connection's
/// channels stay in use or releasing as before. Assumes: allowed settings.
pub fn others_are_left_alone()
    ensures { (p : Parameters) (steps : List Step) (number source : ℕ) (frame : FrameValue)
        → AreAllowed p → 1 ≤ number
        → FrameLeaves number (life p steps).next source frame }
{}

/// A message that a step puts for a connection on a dedicated channel goes to a channel that is in
/// use by the connection at that moment. The connection used this channel before the step, or
/// activated it in the step, and hasn't released the channel since. The channel therefore isn't
/// another connection's. Assumes: allowed settings.
pub fn messages_keep_to_channels()
    ensures { (p : Parameters) (steps : List Step) (s : Step) (number : ℕ) → AreAllowed p
        → 1 ≤ number → KeepsToChannels number (life p steps).next s }
{}

/// An IMMEDIATE ASSIGNMENT that a step puts for a connection assigns the connection's serving
/// channel to the mobile that sent the connection's request. A step doesn't change the request of a
/// connection.
pub fn assignments_name_their_mobile()
    ensures { (p : Parameters) (steps : List Step) (s : Step) (number : ℕ) → 1 ≤ number
        → NamesItsMobile number (life p steps).next s }
{}

// SPDX-License-Identifier: MIT OR Apache-2.0
//! Laws: each contract states what holds of the definitions that it names. The functions have empty
//! bodies.

ghost use Rattle.std.specs.Prelude.{ℕ, List, Option};
ghost use Rattle.conn_messages.specs.declared.channel.Channel.{Channel};
ghost use Rattle.conn_rules.specs.declared.input.Input.{Input};
ghost use Rattle.conn_rules.specs.Connection.{Connection};
ghost use Rattle.conn_rules.specs.Steps.{Row};
ghost use Rattle.settings.specs.Parameters.{Parameters};
ghost use Rattle.world_model.specs.World.{Actors};
ghost use Rattle.world_laws.specs.Acknowledged.{AcksFlow, AllAcksShowEnd};
ghost use Rattle.world_laws.specs.Ended.{EndedAreInOrder, EndedRemainInOrder, LineUpsMayEnd};
ghost use Rattle.world_laws.specs.FromTheBeginning.{ConnectionsAreValid, MessagesAreWhole};
ghost use Rattle.world_laws.specs.Handled.{FramesKeepLineUps};
ghost use Rattle.world_laws.specs.InOrder.{LineUpsAreInOrder};
ghost use Rattle.ruled_relay.specs.declared.item.Item.{Item as ItemValue};
ghost use Rattle.world_laws.specs.OwnFrame.{FrameIsHandled};
ghost use Rattle.world_laws.specs.OwnHandle.{HandleKeepsLineUps, TimeAgesLineUps};
ghost use Rattle.world_laws.specs.OwnItem.{InputKeepsLineUp};
ghost use Rattle.world_laws.specs.OthersFrame.{FramesAreForOthers};
ghost use Rattle.world_laws.specs.Owned.{MobilesSitOnTheirs, OneSendsEach, TenuresAreOwned};
ghost use Rattle.world_laws.specs.OwnRow.{OpeningLinesUp, RowKeepsLineUp};
ghost use Rattle.world_laws.specs.KeptLineUps.{MobilesKeepLineUps, RelayLeavesOthers};
ghost use Rattle.world_laws.specs.KeptLineUps.{StationBreaksKeepLineUps, StationsKeepLineUps};
ghost use Rattle.world_laws.specs.KeptLineUps.{SwitchKeepsLineUps, TimeLeavesOthers};
ghost use Rattle.world_laws.specs.SapiThree.{FlowIsOnSapiZero};
ghost use Rattle.world_laws.specs.PutAsRead.{FramesArePutAsRead};
ghost use Rattle.world_laws.specs.PutAsRead.{AllowedFramesKeepLineUps};
ghost use Rattle.world_laws.specs.AcksBegin.{AcksBegin};
ghost use Rattle.world_laws.specs.Refusals.{NoneRefuse};
ghost use Rattle.world_laws.specs.TakingTurns.{OrdersTakeTurns};
ghost use Rattle.controller_model.specs.declared.step.Step.{Step as ControllerStep};
ghost use Rattle.world_laws.specs.Remaining.{KeepsDue};
ghost use Rattle.conn_messages.specs.declared.channel.Place.{Place as ChannelPlace};
ghost use Rattle.world_laws.specs.Runs.{AtEvents, OfNumbers, OfRuns};

/// Law: whatever events happened, a connection remains lined up with its mobile at each event in
/// which neither the controller nor an outbox takes part and no link breaks. At such an event a
/// mobile acts, a station takes a frame from a mobile or gives a message to the inbox, or the
/// switch performs an action of its own. Assumes: no other mobile is on a channel that the
/// connection uses.
pub fn mobiles_keep_line_ups()
    ensures { AtEvents MobilesKeepLineUps }
{}

/// Law: a connection that is lined up remains lined up when a station takes the first entry of its
/// outbox. By the entry, the station puts a message into the air or discards it, activates or
/// releases a channel, or assigns a channel to a mobile. Assumes: the connection's serving channel,
/// and the target to which its mobile was commanded, are active if they are channels of this
/// station.
pub fn stations_keep_line_ups()
    ensures { OfNumbers StationsKeepLineUps }
{}

/// Law: a connection that is lined up remains lined up when the switch takes the first entry of its
/// outbox. Assumes: the switch takes the messages of the connection in the entry as they were put.
pub fn switch_keeps_line_ups()
    ensures { OfRuns SwitchKeepsLineUps }
{}

/// Law: a connection that is lined up remains lined up when the link of a station breaks. The
/// connection's line then ends at the first channel of which something is missing. Assumes: on each
/// old channel of the connection, nothing follows the RF CHANNEL RELEASE ACK.
pub fn station_breaks_keep_line_ups()
    ensures { OfNumbers StationBreaksKeepLineUps }
{}

/// Law: a connection that is lined up remains lined up when the controller handles an item of
/// others, or when time passes for the controller. Assumes: the item brings nothing on the
/// connection's channels, and no output that the controller then puts is the connection's.
pub fn relay_leaves_others()
    ensures handled { OfRuns RelayLeavesOthers }
    ensures passed { OfNumbers TimeLeavesOthers }
{}

/// Law: whatever events happened, the outputs that the controller puts when it handles a frame for
/// one connection aren't those of another open connection. None of the outputs carries messages of
/// the other connection to the switch, and none is a command on its serving channel or on the
/// target of its mobile. Assumes: allowed settings; the controller took only octets; the body of
/// the frame is octets.
pub fn frames_are_for_others()
    ensures { OfRuns FramesAreForOthers }
{}

/// Law: a connection that is lined up remains lined up when the controller handles an item for the
/// connection by the row that fits the item's input, if the row leaves the connection open. A
/// connection with its timers advanced also remains lined up when time passes, if nothing is put
/// for the connection. Assumes of the item: the row doesn't put CR, and the outputs of the row are
/// read as they were put; what is on its way on the connection's channels is in order; the link of
/// the switch is up.
pub fn handle_keeps_line_ups()
    ensures handled { OfRuns HandleKeepsLineUps }
    ensures passed { OfNumbers TimeAgesLineUps }
{}

/// Law: if a frame of a link that is up says an input to an open connection that asked the switch
/// for its connection, and the row that fits leaves the connection open, the controller puts the
/// outputs of this row and nothing else. The frame then brings from each channel what the input
/// says.
pub fn frames_are_handled()
    ensures { (w : Actors) (item : ItemValue) (s : Connection) (input : Input)
        (offer : Option Channel) (r : Row) → FrameIsHandled w item s input offer r }
{}

/// Law: a connection that is lined up remains lined up when the controller handles a frame that
/// says an input to the connection, if the connection remains open. Assumes: the link of the switch
/// is up, and the outputs of the row are read as they were put. Assumes of the connection's
/// channels: an RF CHANNEL RELEASE ACK is the last acknowledgement on its way from an old channel,
/// and isn't on its way from any other channel; a target is silent before its COMMAND. Callers need
/// not prove that connections are valid, that messages are whole, or what acknowledgements show:
/// other laws prove these.
pub fn frames_keep_line_ups()
    ensures { OfRuns FramesKeepLineUps }
{}

/// Law: a row of the table keeps its connection lined up if the row leaves the connection open and
/// doesn't put CR. The messages that the row relays join those that wait for the switch, and the
/// connection's channels change their roles. The law is about plain lists of what is on its way up
/// from each channel before the row and after it. Assumes: the row takes a step that these lists
/// allow (`OwnStep`).
pub fn rows_keep_line_ups()
    ensures { (m : ℕ) (s : Connection) (input : Input) (offer : Option Channel) (r : Row)
        → RowKeepsLineUp m s input offer r }
{}

/// Law: the row that fits an input keeps its connection lined up, if the row doesn't put CR and
/// leaves the connection open. The law covers COMPLETE, FAILURE, releases and DTAP: the input
/// decides by which step the channels change their roles. Assumes: what the input brings was first
/// on its channel; an RF CHANNEL RELEASE ACK is last on an old channel, and no other channel brings
/// one. Assumes further: no message is on its way from a target before the COMMAND, or after the
/// mobile returned; no COMMAND joins those on their way but the row's own. Assumes also: messages
/// are whole; the connection is valid, and its channels differ.
pub fn inputs_keep_line_ups()
    ensures { (m : ℕ) (s : Connection) (input : Input) (offer : Option Channel) (r : Row)
        → InputKeepsLineUp m s input offer r }
{}

/// Law: whatever events happened, each connection of the controller is valid: it has a form in
/// which the table leaves connections (`IsValid`).
pub fn connections_are_valid()
    ensures { OfRuns ConnectionsAreValid }
{}

/// Law: whatever events happened, the messages on their way up from a channel are whole: each has 1
/// to 251 octets.
pub fn messages_are_whole()
    ensures { OfRuns MessagesAreWhole }
{}

/// Law: whatever events happened, the acknowledgements on their way up from a channel show whether
/// what it brings ends. If no acknowledgement follows an RF CHANNEL RELEASE ACK among them, no
/// layer 3 message follows it either; if no RF CHANNEL RELEASE ACK is among them, no release ends
/// what the channel brings. While the link of the station is up, the acknowledgements due for all
/// that the controller put are, in order: those that the controller took, those on their way up,
/// and those due for the entries that wait in the outbox.
pub fn acknowledgements_show_the_end()
    ensures ends { OfRuns AllAcksShowEnd }
    ensures flow { OfRuns AcksFlow }
{}

/// Law: the row that puts CR with the initial message lines the connection up with its mobile.
/// Assumes: no channel drains and nothing is held; the mobile's link continues after the messages
/// on their way up; no COMPLETE or FAILURE is on its way up or in the link.
pub fn opening_lines_up()
    ensures { (m : ℕ) → OpeningLinesUp m }
{}

/// Law: if a connection is lined up with its mobile, the switch accepted the first messages that
/// the mobile's upper layers sent, once and in order, and judged no gap. Assumes: a modulus of 2 or
/// more.
pub fn line_ups_are_in_order()
    ensures { (m : ℕ) (w : Actors) (mobile : ℕ) (s : Connection) → LineUpsAreInOrder m w mobile s }
{}

/// Law: if a connection that is lined up closes or is removed, it ended in order: the messages of
/// the connection that the switch took, followed by those that wait for the switch, are in order. A
/// connection that ended in order remains so at each event, if the switch takes entries as they
/// were put and the controller puts no more messages of the connection. For a connection that ended
/// in order, the switch accepted the first messages that the mobile's upper layers sent, once and
/// in order, and judged no gap, if the modulus is 2 or more.
pub fn ended_connections_remain_in_order()
    ensures ends { (m : ℕ) (w : Actors) (mobile : ℕ) (s : Connection) → LineUpsMayEnd m w mobile s }
    ensures in_order { AtEvents EndedRemainInOrder }
    ensures accepted { (m : ℕ) (w : Actors) (mobile : ℕ) (number : ℕ)
        → EndedAreInOrder m w mobile number }
{}

/// Law: whatever events happened, SAPI 0 alone carries the flow: no message of the flow arrived at
/// the controller on SAPI 3 or waits in the inbox on SAPI 3. If the settings are allowed, the
/// controller holds no message of the flow on SAPI 3 for an open connection.
pub fn flow_arrives_on_sapi_zero()
    ensures { OfRuns FlowIsOnSapiZero }
{}

/// Law: whatever events happened, if a frame says an input to a connection that asked the switch
/// for its connection and remains open, the outputs of the row that fits are read as they were put.
/// The messages that the row relays on SAPI 0 are whole, and their flow is the flow that is put for
/// the switch. After the row, the connection's channels differ from one another and are channels of
/// stations. Assumes: allowed settings; the controller took only octets, and the frame is octets.
pub fn frames_are_put_as_read()
    ensures { OfRuns FramesArePutAsRead }
{}

/// Law: whatever events happened, a connection that is lined up remains lined up when the
/// controller handles a frame that says an input to the connection, if the connection remains open.
/// Assumes: allowed settings; the controller took only octets, and the frame is octets; the link of
/// the switch is up. Assumes of the connection's channels: an RF CHANNEL RELEASE ACK is the last
/// acknowledgement on its way from an old channel, and isn't on its way from any other channel; a
/// target is silent before its COMMAND. Callers need not prove that the outputs of the row are read
/// as they were put.
pub fn allowed_frames_keep_line_ups()
    ensures { OfRuns AllowedFramesKeepLineUps }
{}

/// Law: whatever events happened, the acknowledgements of a channel that the controller took,
/// followed by those on their way up, are a prefix of those due for all that the controller put for
/// the station. This prefix is given whether the link of the station is up or broke.
pub fn acknowledgements_begin()
    ensures { OfRuns AcksBegin }
{}

/// Law: whatever events happened, no CHANNEL ACTIVATION NEGATIVE ACKNOWLEDGE arrived at the
/// controller, and none waits in the inbox.
pub fn stations_refuse_nothing()
    ensures { OfRuns NoneRefuse }
{}

/// Law: while the link of a channel's station is up, the controller activates and releases the
/// channel by turns: it activates the channel only if the channel is free, and releases the channel
/// only if the channel is in use. If the step takes the RF CHANNEL RELEASE ACK of a releasing
/// channel, the channel counts as free before the step's orders. Assumes: allowed settings; the
/// controller took only octets; stations refuse nothing.
pub fn orders_take_turns()
    ensures { (settings : Parameters) (steps : List ControllerStep) (step : ControllerStep)
        → OrdersTakeTurns settings steps step }
{}

/// Law: whatever events happen, each tenure of a channel has one mobile as its owner: the mobile of
/// the connection for which the channel was activated. The entries that stations take agree with
/// this ownership. A mobile is on a tenure, or was commanded to a tenure, only if the mobile owns
/// the tenure. In each tenure at most one mobile sends. Assumes: allowed settings; the controller
/// took only octets.
pub fn tenures_are_mobiles()
    ensures takes { OfRuns TenuresAreOwned }
    ensures seats { OfRuns MobilesSitOnTheirs }
    ensures senders { OfRuns OneSendsEach }
{}

/// Law: the acknowledgements due for a channel follow the state that the controller has for the
/// channel. If the channel is releasing, the last acknowledgement due is an RF CHANNEL RELEASE ACK,
/// and no other one is; in any other state no RF CHANNEL RELEASE ACK is due. Orders that take turns
/// keep this relation, and so does the taking of the first acknowledgement due. No RF CHANNEL
/// RELEASE ACK of a channel in use is thus on its way, and that of a releasing channel is the last
/// acknowledgement on its way.
pub fn due_follows_orders()
    ensures { (at : ChannelPlace) → KeepsDue at }
{}

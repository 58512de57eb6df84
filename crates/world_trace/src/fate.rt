// SPDX-License-Identifier: MIT OR Apache-2.0
ghost use Rattle.std.specs.Prelude.{◌≡◌, ◌-◌, IfOk, option_map};
ghost use Rattle.bssmap_codec.specs.SccpReading.{sccp_reading};
ghost use Rattle.world_model.specs.Lists.{first_in};
ghost use Rattle.world_model.specs.World.{outbox_of};
ghost use Rattle.world_trace.specs.Fates.{connection_at, connection_by, connection_in, counts_of};
ghost use Rattle.world_trace.specs.Fates.{connection_waiting, fate_by};
ghost use Rattle.world_trace.specs.Fates.{how_many as many, is_found, next_connection, number_of};

use bssmap_codec::{InterfaceFault, Reference, Sccp, read_sccp};
use conn_messages::SWITCH_LINK;
use ipa_framing::{Frame, SCCP_STREAM};
use msc_end::{CONNECTION_LIMIT, REFERENCE_BASE};
use octets::{Memory, Octets};
use std::alloc::Global;
use world_actors::Network;
use world_model::Event;

/// The switch's judgement of a layer 3 message that it took on a connection (TS 24.007 clause
/// 11.2.3.2.3).
#[derive(Clone, Copy)]
pub enum Fate {
    /// The message was the next of the flow, and was accepted.
    Accepted,
    /// The message was the last accepted message once more, and was discarded.
    Duplicate,
    /// A message before this message is missing. The switch accepts no message of the flow any
    /// more.
    Gap,
    /// The message carries no number N(SD).
    Unnumbered,
}

/// How many messages the switch took on a connection, how many of them it accepted, and how many
/// have no number; and whether the switch found a gap.
#[derive(Clone, Copy)]
pub(crate) struct Counts {
    pub(crate) taken: usize,
    pub(crate) accepted: usize,
    pub(crate) unnumbered: usize,
    pub(crate) has_gap: bool,
}

/// The counts of a connection. If the switch has no such connection, all counts are 0.
pub(crate) fn counts_of(network: &Network, connection: u32) -> Counts
    ensures { result ≡ counts_of network.now connection }
{
    Counts {
        taken: how_many(network.taken(connection)),
        accepted: how_many(network.accepted(connection)),
        unnumbered: how_many(network.unnumbered(connection)),
        has_gap: is_found(network.has_gap(connection)),
    }
}

fn how_many(messages: Option<&[Octets]>) -> usize
    ensures { result ≡ many (option_map (λ list. list.now) messages.entry) }
{
    match messages {
        Some(list) => list.len(),
        None => 0,
    }
}

fn is_found(gap: Option<bool>) -> bool
    ensures { result ≡ is_found gap }
{
    match gap {
        Some(is_found) => is_found,
        None => false,
    }
}

/// The fate of the message that the switch took between the two counts; `None` if the switch took
/// no message.
pub(crate) fn fate_by(before: Counts, behind: Counts) -> Option<Fate>
    ensures { result ≡ fate_by before behind }
{
    if before.taken == behind.taken {
        None
    } else if before.accepted < behind.accepted {
        Some(Fate::Accepted)
    } else if before.unnumbered < behind.unnumbered {
        Some(Fate::Unnumbered)
    } else if behind.has_gap {
        Some(Fate::Gap)
    } else {
        Some(Fate::Duplicate)
    }
}

/// The number of the connection on which an event lets the switch take a message; 0 if there is no
/// such message or connection.
pub(crate) fn connection_at(alloc: Global, network: &Network, event: &Event) -> Result<u32, Memory>
    ensures { IfOk result (λ number. number ≡ connection_at network.now event.now) }
{
    match event {
        Event::SwitchTakes => connection_waiting(alloc, network),
        _ => Ok(0),
    }
}

/// The number of the connection of the first message in the switch's outbox; 0 if there is no such
/// message or connection.
fn connection_waiting(alloc: Global, network: &Network) -> Result<u32, Memory>
    ensures { IfOk result (λ number.
        number ≡ connection_waiting network.now (first_in (outbox_of network.now SWITCH_LINK))) }
{
    match network.outbox_entry(usize::from(SWITCH_LINK), 0) {
        Some(entry) => connection_in(alloc, network, &entry.out.frame),
        None => Ok(0),
    }
}

fn connection_in(alloc: Global, network: &Network, frame: &Frame) -> Result<u32, Memory>
    ensures { IfOk result (λ number. number ≡ connection_in network.now frame.now) }
{
    match frame.stream {
        SCCP_STREAM => connection_of(alloc, network, frame.body.as_slice()),
        _ => Ok(0),
    }
}

fn connection_of(alloc: Global, network: &Network, body: &[u8]) -> Result<u32, Memory>
    ensures { IfOk result (λ number.
        number ≡ connection_by network.now (sccp_reading body.now)) }
{
    match read_sccp(alloc, body) {
        Ok(message) => {
            let number = number_of(network, &message);
            drop(message);
            Ok(number)
        }
        Err(InterfaceFault::Memory) => Err(Memory),
        Err(_) => Ok(0),
    }
}

fn number_of(network: &Network, message: &Sccp) -> u32
    ensures { result ≡ number_of network.now message.now }
{
    match message {
        Sccp::ConnectionRequest { .. } => next_connection(network),
        Sccp::DataForm1 { destination, .. } => number_behind(*destination),
        _ => 0,
    }
}

/// The number of the switch's connection that has this reference.
fn number_behind(reference: Reference) -> u32
    ensures { result ≡ reference - REFERENCE_BASE }
{
    reference.number().saturating_sub(REFERENCE_BASE)
}

/// The number that the next connection of the switch gets; 0 if no number is left.
fn next_connection(network: &Network) -> u32
    ensures { result ≡ next_connection network.now }
{
    let count = network.switch_connections();
    if count >= CONNECTION_LIMIT {
        0
    } else {
        count as u32 + 1
    }
}

// SPDX-License-Identifier: MIT OR Apache-2.0
use bssmap_codec::{InterfaceFault, Sccp, read_bssap, read_sccp};
use conn_messages::SWITCH_LINK;
use ipa_framing::{CCM_STREAM, Frame, PONG, RSL_STREAM, SCCP_STREAM};
use rsl_codec::{Rsl, RslFault};
use std::alloc::Global;

/// The kind of a frame that the controller ignored.
#[derive(Clone, Copy)]
pub(crate) enum Ignored {
    /// The frame can be read, or memory ran out while the frame was being read.
    Known,
    /// The frame's type isn't known, or the frame can't be read.
    Unread,
    /// The frame is a CHANNEL REQUIRED: a mobile asked for a channel and got no channel.
    Asks,
}

/// The kind of an ignored frame that arrived on the link with the number `source`.
pub(crate) fn ignored_as(alloc: Global, source: u16, frame: &Frame) -> Ignored {
    let body = frame.body.as_slice();
    match frame.stream {
        CCM_STREAM if body.first() == Some(&PONG) => Ignored::Known,
        SCCP_STREAM if source == SWITCH_LINK => of_switch(alloc, body),
        RSL_STREAM if source != SWITCH_LINK => of_station(alloc, body),
        _ => Ignored::Unread,
    }
}

fn of_switch(alloc: Global, body: &[u8]) -> Ignored {
    match read_sccp(alloc, body) {
        Ok(Sccp::DataForm1 { data, .. }) => of_fault(read_bssap(alloc, data.as_slice()).err()),
        Ok(_) => Ignored::Known,
        Err(fault) => of_fault(Some(fault)),
    }
}

fn of_fault(fault: Option<InterfaceFault>) -> Ignored {
    match fault {
        None | Some(InterfaceFault::Memory) => Ignored::Known,
        Some(_) => Ignored::Unread,
    }
}

fn of_station(alloc: Global, body: &[u8]) -> Ignored {
    match Rsl::read(alloc, body) {
        Ok(Rsl::ChannelRequired(_)) => Ignored::Asks,
        Ok(_) | Err(RslFault::Memory) => Ignored::Known,
        Err(_) => Ignored::Unread,
    }
}

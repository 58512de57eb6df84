// SPDX-License-Identifier: MIT OR Apache-2.0
use dtap_codec::CellDescription;
use rsl_codec::{ChanNo, HandoverReference};

/// The length of the value of a cell identifier in octets.
pub const CELL_IDENTIFIER_LENGTH: usize = 8;

/// A dedicated channel of a cell: a channel that a connection uses, or a channel that is offered
/// for a change.
#[derive(Clone, Copy)]
pub struct Channel {
    /// The number of the base station, from 1.
    pub station: u16,
    pub number: ChanNo,
    /// The value of the cell's identifier (TS 48.008 clause 3.2.2.17): an octet 00, three octets of
    /// mobile country and network code, two of location area code, two of cell identity.
    pub cell: [u8; CELL_IDENTIFIER_LENGTH],
    /// The cell's ARFCN and BSIC. The BCC of the BSIC is the training sequence code of the cell's
    /// channels.
    pub description: CellDescription,
    /// The handover reference if the channel is offered for a handover, else 0.
    pub reference: HandoverReference,
}

/// The place of a channel: the number of its base station, from 1, and the channel number.
#[derive(Clone, Copy)]
pub struct Place {
    pub station: u16,
    pub number: ChanNo,
}

/// A kind of channel change (TS 44.018 clauses 3.4.3 and 3.4.4).
#[derive(Clone, Copy)]
pub enum Change {
    /// To another channel of the same cell, at the request of the switch.
    Assignment,
    /// To a channel of another cell, by decision of the controller.
    Handover,
}

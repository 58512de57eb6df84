// SPDX-License-Identifier: MIT OR Apache-2.0
//! Reads and writes parts of layer 3 messages:
//!
//! - the protocol discriminator, and the send sequence number N(SD) of messages of MM, CC and SS
//!   (TS 24.007 clause 11.2.3);
//! - messages of radio resource management (TS 44.018 clause 9.1);
//! - measurement reports (TS 44.018 clause 10.5.2.20).
#![tactic(auto)]

pub use message::{
    CALL_CONTROL, MOBILITY_MANAGEMENT, RADIO_RESOURCE, SHORT_MESSAGES, SUPPLEMENTARY_SERVICES,
    is_flow, pd_of,
};
pub use number::{Modulus, number_of, with_number, without_number};
pub use report::{Neighbour, REPORT_LENGTH, Report};
pub use rr::{
    CellDescription, ChannelDescription, ChannelOctet, RrCause, RrMessage, rr_text_is_read,
};
pub use rr_fault::RrFault;
pub use rr_type::RrType;
pub use sapi::Sapi;
pub use values::{Arfcn, ColourCode, TimingAdvance};

mod bits;
mod message;
mod number;
mod report;
mod rr;
mod rr_fault;
mod rr_type;
mod sapi;
mod values;

// SPDX-License-Identifier: MIT OR Apache-2.0
//! Reads and writes messages of the A interface: SCCP of class 2 (Q.713), BSSAP (TS 48.006) and
//! BSSMAP (TS 48.008).
#![tactic(auto)]

pub use bssap::{Bssap, bssap_text_is_read, read_bssap, write_bssap};
pub use bssmap::Bssmap;
pub use bssmap_type::BssmapType;
pub use data_form::{read_data_form, transfer_text};
pub use fault::InterfaceFault;
pub use reference::Reference;
pub use sccp::{Sccp, read_sccp, sccp_text_is_read, write_sccp};
pub use sccp_type::SccpType;
pub use values::{Cause, CellIdentifier, ChannelType, Dlci, RejectedDlci, RrCause};

mod bssap;
mod bssmap;
mod bssmap_type;
mod data_form;
mod fault;
mod identifiers;
mod layer3;
mod pointers;
mod reference;
mod sccp;
mod sccp_parameters;
mod sccp_type;
mod values;

// SPDX-License-Identifier: MIT OR Apache-2.0
//! The switch end, which stands for the mobile switching centre in tests. On each connection, the
//! switch end accepts the messages that pass the duplicate detection of TS 24.007.
#![tactic(auto)]

pub use connection::{Connection, Stage};
pub use fault::MscFault;
pub use msc::MscEnd;
pub use parameters::{CONNECTION_LIMIT, REFERENCE_BASE};

mod bssap_data;
mod connection;
mod fault;
mod msc;
mod parameters;

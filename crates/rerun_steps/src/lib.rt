// SPDX-License-Identifier: MIT OR Apache-2.0
//! The packets of a record's file, read from its octets in whatever pieces they arrive; and the
//! head of a part of a run.
#![tactic(auto)]

pub use entry_reader::EntryReader;
pub use head::{Head, is_part};
pub use packet_fault::PacketFault;

mod entry_reader;
mod head;
mod packet_fault;

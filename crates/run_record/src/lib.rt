// SPDX-License-Identifier: MIT OR Apache-2.0
//! A record of a run of the relay: the frames that each step of the controller took and put. The
//! record is a pcap file that can be read again. Frames are TCP segments in IPv4 packets, as in the
//! capture of a trace. Entries that no link carries, such as the head or the passing of time, are
//! UDP datagrams from the controller to itself.
#![tactic(auto)]

pub use entry::{Entry, MAX_HEAD, Stamp, Stamped};
pub use laws::{what_is_written_is_read, what_was_cut_is_read_so_far};
pub use next::{Fault, MAX_PACKET, Next, Opening};
pub use place::Place;
pub use record_reader::{RecordReader, opening};
pub use record_writer::RecordWriter;

mod entry;
mod laws;
mod next;
mod packet;
mod place;
mod record_reader;
mod record_writer;

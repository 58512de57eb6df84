// SPDX-License-Identifier: MIT OR Apache-2.0
//! Pictures of the frames on the controller's links. `capture` writes a pcap file for Wireshark:
//! each frame is a TCP segment in an IPv4 packet. `text_of` and `svg_of` draw message sequence
//! charts: a lifeline for each end, an arrow for each message, a mark for waiting messages.
#![tactic(auto)]

pub use capture_file::capture;
pub use chart::{Arrow, Chart, ChartEvent, Fate, Mark};
pub use laws::packets_are_those_of_the_link;
pub use link_frame::{End, LinkFrame};
pub use svg_chart::svg_of;
pub use text_chart::text_of;

mod capture_file;
mod chart;
mod laws;
mod layout;
mod link_frame;
mod next_numbers;
mod packet;
mod svg_chart;
mod svg_shapes;
mod text_chart;

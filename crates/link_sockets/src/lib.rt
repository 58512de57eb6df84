// SPDX-License-Identifier: MIT OR Apache-2.0
//! The relay over TCP: the links, the clock and the run of a relay. `relay` is the command `bsc
//! run`, which relays between the links that a settings file names.
#![tactic(auto)]

pub use fault::RunFault;
pub use gate::OpenGate;
pub use name::LinkName;
pub use open::{OpenedLinks, SocketLink, open_links};
pub use recording::RecordWish;
pub use relaying::{VERSION, relay};
pub use run::{relay_links, run_links};
pub use socket::{ReadingEnd, WritingEnd};
pub use stopwatch::Stopwatch;

mod arrivals;
mod dead_peer;
mod endings;
mod fault;
mod gate;
mod ignored;
mod lengths;
mod line;
mod line_parts;
mod name;
mod often;
mod open;
mod other_links;
mod readiness;
mod recording;
mod refusing;
mod relaying;
mod releasing;
mod run;
mod runtime;
mod settings_or_status;
mod socket;
mod stopwatch;
mod style;
mod watch;
mod watching;

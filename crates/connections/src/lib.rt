// SPDX-License-Identifier: MIT OR Apache-2.0
//! The connections of a controller, by rising number, in a slab with an index. Each connection has
//! the averages of its serving channel.
#![tactic(auto)]

pub use conn_fsm::{Channel, Conn, Input, Outputs, Plan};
pub use connections::Connections;
pub use entry::Entry;
pub use ho_decision::{Averages, Decision};

mod cells;
mod connections;
mod entry;
mod index;
mod slots;
mod table;

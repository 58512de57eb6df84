// SPDX-License-Identifier: MIT OR Apache-2.0
//! A connection of the base station controller, from a mobile's access until the connection is
//! cleared. Each step is a row of the state table in `conn_rules`.
#![tactic(auto)]

pub use conn::Conn;
pub use conn_messages::{Change, Channel, Out, Outputs, Place};
pub use conn_rules::{Input, State};
pub use places::is_at;
pub use plan::Plan;

mod activation;
mod conn;
mod downlink;
mod drains;
mod ends;
mod links;
mod machine;
mod outcome;
mod places;
mod plan;
mod planned;
mod release;
mod requests;
mod resumption;
mod stepping;
mod switch;
mod uplink;
mod views;

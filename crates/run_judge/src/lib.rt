// SPDX-License-Identifier: MIT OR Apache-2.0
//! Judges the order of messages by the frames on the links of any base station controller. Was
//! each message of a mobile passed on to the switch, and each message of the switch handed to the
//! mobile, once and in order?
#![tactic(auto)]

pub use apart::Pair;
pub use connection::{Awaited, Connection, Counts, Flows, Reason, Tenure, Unjudged};
pub use fault::Fault;
pub use flow::{Due, Flow, Order, Passed};
pub use judge::Judge;
pub use reading::read_said;
pub use said::{Said, StationChannel, Way};
pub use stream::Stream;

mod activation;
mod apart;
mod cells;
mod channels;
mod connection;
mod fault;
mod flow;
mod judge;
mod reading;
mod said;
mod station_reading;
mod stream;
mod switch_reading;

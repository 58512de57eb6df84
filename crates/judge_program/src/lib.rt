// SPDX-License-Identifier: MIT OR Apache-2.0
//! `bsc judge`: judges the order of messages, connection by connection, by the frames on the links
//! of a controller.
#![tactic(auto)]

pub use command::judge;
pub use judge_report::{Form, Strictness, Style};
pub use stop::Stop;

mod command;
mod run;
mod stop;
mod verdicts;

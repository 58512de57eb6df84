// SPDX-License-Identifier: MIT OR Apache-2.0
//! Inputs of the benchmark's jobs: settings, scripts, captured links, and a network beside the
//! relay's call worker. The inputs are drawn from a seed; the same seed gives the same inputs. A
//! digest shows whether two programs gave the same output.
#![tactic(auto)]

pub use digest::Digest;
pub use draw::Draw;
pub use frames::capture;
pub use network::Plan;
pub use reading::Pieces;
pub use relaying::play;
pub use scripts::{Shape, fixed_script, script};
pub use settings_toml::settings_text;
pub use stop::Stop;

mod calls;
mod digest;
mod draw;
mod frames;
mod lines;
mod network;
mod reading;
mod relaying;
mod report;
mod scripts;
mod settings_toml;
mod stop;

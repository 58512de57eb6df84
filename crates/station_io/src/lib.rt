// SPDX-License-Identifier: MIT OR Apache-2.0
//! The running relay: the controller with its links, a thread for each reader and each writer, and
//! the call worker. All threads are started before the first thread begins its work. Each worker
//! fulfils its contract.
//!
//! The workers have crates of their own, and are exported here too.
#![tactic(auto)]

pub use controller_worker::{Clock, HasRelayed, Marks, call_worker};
pub use laws::octets_in_decide_octets_out;
pub use link::Link;
pub use link_workers::{
    Gate, HasAnswered, HasRead, HasWritten, IoFault, LinkReader, serve_link_reader, serve_reader,
    serve_writer, switch_worker,
};
pub use serve::serve_links;

mod crews;
mod giving;
mod laws;
mod link;
mod queues;
mod serve;
mod work;
mod works;

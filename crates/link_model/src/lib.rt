// SPDX-License-Identifier: MIT OR Apache-2.0
//! A model of the radio side: the acknowledged link between a mobile and its base station (TS
//! 44.006), and the station's end of the link to its controller (TS 48.058).
#![tactic(auto)]

pub use air_link::AirLink;
pub use base_end::BaseEnd;
pub use fault::LinkFault;
pub use laws::{gives_in_order, keeps_tenures};

mod air_link;
mod base_end;
mod fault;
mod laws;

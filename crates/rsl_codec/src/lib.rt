// SPDX-License-Identifier: MIT OR Apache-2.0
//! RSL: the layer 3 messages between a base station and its controller (TS 48.058). `Rsl` holds any
//! of these messages: `Rsl::read` reads a message from octets, `Rsl::write` writes a message to
//! octets.
#![tactic(auto)]

pub use channel_number::{ChanNo, FIRST_SDCCH, FIRST_TCH, FIRST_TCH_H, LAST_SDCCH};
pub use common_channel::{ChannelRequired, ImmediateAssignment};
pub use dedicated_channel::{Activation, ActivationAck, Detection, Failure, MeasurementResult};
pub use fault::RslFault;
pub use link_identifier::LinkId;
pub use measured::read_measurement;
pub use radio_link::{Data, ErrorReport, Establishment, Link, Release};
pub use rsl::{Rsl, rsl_text_is_read};
pub use rsl_type::{CHANNEL_ACTIVATION, DEDICATED_CHANNEL, RF_CHANNEL_RELEASE, RslType};
pub use values::{
    ASYNCHRONOUS_HANDOVER, AccessDelay, ActivationType, BsPower, Cause, ChannelMode, FrameNumber,
    HandoverReference, IMMEDIATE_ASSIGNMENT, L1Information, MeasurementNumber, NORMAL_ASSIGNMENT,
    ReleaseMode, RequestReference, RlmCause, UplinkMeasurements,
};

mod channel_number;
mod common_channel;
mod dedicated_channel;
mod fault;
mod fields;
mod identifiers;
mod link_identifier;
mod measured;
mod radio_link;
mod reading_type;
mod rsl;
mod rsl_type;
mod values;

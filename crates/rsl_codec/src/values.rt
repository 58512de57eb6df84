// SPDX-License-Identifier: MIT OR Apache-2.0
use octets::Octets;

/// The reason for which a channel is activated (TS 48.058 clause 9.3.3). Every octet is allowed.
#[derive(Clone, Copy)]
pub struct ActivationType(pub u8);

/// Activation for an immediate assignment: the first access of a mobile.
pub const IMMEDIATE_ASSIGNMENT: ActivationType = ActivationType(0x00);

/// Activation for an assignment.
pub const NORMAL_ASSIGNMENT: ActivationType = ActivationType(0x01);

/// Activation for a handover to a cell whose timing the mobile doesn't know.
pub const ASYNCHRONOUS_HANDOVER: ActivationType = ActivationType(0x02);

/// The transmit power of a base station on a channel (TS 48.058 clause 9.3.4).
#[derive(Clone, Copy)]
pub struct BsPower(pub u8);

/// The use and the coding of a channel (TS 48.058 clause 9.3.6): at most 255 octets.
#[derive(Drop)]
pub struct ChannelMode(pub Octets);

/// The number of a TDMA frame modulo 42432, in the coding of TS 48.058 clause 9.3.8. The first
/// octet of the element is the high octet here.
#[derive(Clone, Copy)]
pub struct FrameNumber(pub u16);

/// The reference by which a station recognises the mobile of a handover (TS 48.058 clause 9.3.9).
#[derive(Clone, Copy)]
pub struct HandoverReference(pub u8);

/// The power level and the timing advance of the mobile, as sent on the SACCH (TS 48.058 clause
/// 9.3.10). The first octet of the element is the high octet here.
#[derive(Clone, Copy)]
pub struct L1Information(pub u16);

/// The delay of an access burst in symbol periods (TS 48.058 clause 9.3.17).
#[derive(Clone, Copy)]
pub struct AccessDelay(pub u8);

/// The random access information that a mobile sent on the RACH, and the number of the TDMA frame
/// that carried this information, in the coding of TS 48.058 clause 9.3.19.
#[derive(Clone, Copy)]
pub struct RequestReference {
    pub access: u8,
    pub frame: u16,
}

/// The way to release a link: 00 for a release with the peer, 01 for a release at the local end
/// only (TS 48.058 clause 9.3.20). Every octet is allowed.
#[derive(Clone, Copy)]
pub struct ReleaseMode(pub u8);

/// The cause of a link failure (TS 48.058 clause 9.3.22): at most 255 octets. Unknown causes are
/// kept.
#[derive(Drop)]
pub struct RlmCause(pub Octets);

/// The measurements that a station made of a mobile (TS 48.058 clause 9.3.25): at most 255 octets.
#[derive(Drop)]
pub struct UplinkMeasurements(pub Octets);

/// The cause of a failure (TS 48.058 clause 9.3.26): at most 255 octets. Unknown causes are kept.
#[derive(Drop)]
pub struct Cause(pub Octets);

/// The number of a measurement result on its channel, modulo 256 (TS 48.058 clause 9.3.27).
#[derive(Clone, Copy)]
pub struct MeasurementNumber(pub u8);

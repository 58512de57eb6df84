// SPDX-License-Identifier: MIT OR Apache-2.0
ghost use Rattle.std.specs.Prelude.{◌≡◌, ◌++◌, ◌≤◌, length, OnOk};
ghost use Rattle.std.specs.Option.{ForSome};
ghost use Rattle.octets.specs.Answer.{Gives};
ghost use Rattle.octets.specs.declared.limits.TheConstants.{LENGTH_LIMIT};
ghost use Rattle.rsl_codec.specs.Fields.{channel_fields, activation_fields, activation_ack_fields};
ghost use Rattle.rsl_codec.specs.Fields.{failure_fields, detection_fields, downlink_fields};
ghost use Rattle.rsl_codec.specs.Fields.{measurement_result_fields};
ghost use Rattle.rsl_codec.specs.RslReading.{channel_only_at, elements_of, activation_at};
ghost use Rattle.rsl_codec.specs.RslReading.{activation_ack_at, failure_at, detection_at};
ghost use Rattle.rsl_codec.specs.RslReading.{measurement_result_at};
ghost use Rattle.rsl_codec.specs.RslText.{rsl_fields_text};

use crate::fields::{
    channel_number, needed_value, number, octet, optional_l3, put, put_number, put_octet,
    put_octets, value,
};
use crate::identifiers::{
    ACCESS_DELAY, ACTIVATION_TYPE, BS_POWER, CAUSE, CHANNEL_MODE, CHANNEL_NUMBER, FRAME_NUMBER,
    HANDOVER_REFERENCE, L1_INFORMATION, L3_INFORMATION, MEASUREMENT_NUMBER, UPLINK_MEASUREMENTS,
};
use crate::{
    AccessDelay, ActivationType, BsPower, Cause, ChanNo, ChannelMode, FrameNumber,
    HandoverReference, L1Information, MeasurementNumber, RslFault, UplinkMeasurements,
};
use octets::{Memory, Octets};
use std::alloc::Global;

/// CHANNEL ACTIVATION (TS 48.058 clause 8.4.1).
///
/// `01 channel:1 03 activation:1 06 length:1 mode 09 reference:1`
#[derive(Drop)]
pub struct Activation {
    pub channel: ChanNo,
    pub activation: ActivationType,
    pub mode: ChannelMode,
    /// Present for a handover.
    pub reference: Option<HandoverReference>,
}

/// CHANNEL ACTIVATION ACKNOWLEDGE (TS 48.058 clause 8.4.2).
///
/// `01 channel:1 08 frame:2`
#[derive(Drop)]
pub struct ActivationAck {
    pub channel: ChanNo,
    pub frame: Option<FrameNumber>,
}

/// CHANNEL ACTIVATION NEGATIVE ACKNOWLEDGE and CONNECTION FAILURE INDICATION (TS 48.058 clauses
/// 8.4.3 and 8.4.4).
///
/// `01 channel:1 1a length:1 cause`
#[derive(Drop)]
pub struct Failure {
    pub channel: ChanNo,
    pub cause: Option<Cause>,
}

/// HANDOVER DETECTION (TS 48.058 clause 8.4.7): the mobile accessed the target channel of a
/// handover.
///
/// `01 channel:1 11 access_delay:1`
#[derive(Drop)]
pub struct Detection {
    pub channel: ChanNo,
    pub access_delay: Option<AccessDelay>,
}

/// MEASUREMENT RESULT (TS 48.058 clause 8.4.8): what the station and the mobile measured.
///
/// `01 channel:1 1b number:1 19 length:1 uplink 04 bs_power:1 0a l1:2 0b length:2 l3`
#[derive(Drop)]
pub struct MeasurementResult {
    pub channel: ChanNo,
    pub number: MeasurementNumber,
    pub uplink: Option<UplinkMeasurements>,
    pub bs_power: Option<BsPower>,
    pub l1: Option<L1Information>,
    /// The message that the mobile sent on the SACCH: 1 to 251 octets.
    pub l3: Option<Octets>,
}

/// Reads the channel number, the only element of RF CHANNEL RELEASE and RF CHANNEL RELEASE
/// ACKNOWLEDGE (TS 48.058 clauses 8.4.14 and 8.4.19).
#[tactic(auto, unfolding(crate::specs::RslReading::channel_only_at))]
pub(crate) fn read_channel(body: &[u8]) -> Result<ChanNo, RslFault>
    ensures { result ≡ channel_only_at (elements_of body.now) }
{
    let number = needed_value(body, CHANNEL_NUMBER)?;
    channel_number(number)
}

pub(crate) fn put_channel(text: &mut Vec<u8>, channel: ChanNo) -> Result<(), Memory>
    ensures { OnOk result
        (text.new.items ≡ text.old.items ++ rsl_fields_text (channel_fields channel)) }
{
    put(text, CHANNEL_NUMBER, &[channel.octet()])
}

impl Activation {
    #[tactic(auto, unfolding(crate::specs::RslReading::activation_at))]
    pub(crate) fn read(alloc: Global, body: &[u8]) -> Result<Activation, RslFault>
        ensures { Gives RslFault.Memory (λ m. m) result (activation_at (elements_of body.now)) }
    {
        let number = needed_value(body, CHANNEL_NUMBER)?;
        let activation = needed_value(body, ACTIVATION_TYPE)?;
        let mode = needed_value(body, CHANNEL_MODE)?;
        let channel = channel_number(number)?;
        let mode = ChannelMode(Octets::copy(alloc, mode)?);
        Ok(Activation {
            channel,
            activation: ActivationType(octet(activation)),
            mode,
            reference: value(body, HANDOVER_REFERENCE).map(|v| HandoverReference(octet(v))),
        })
    }

    pub(crate) fn put(&self, text: &mut Vec<u8>) -> Result<(), Memory>
        requires { length self.now.mode.0 ≤ LENGTH_LIMIT }
        ensures { OnOk result
            (text.new.items ≡ text.old.items ++ rsl_fields_text (activation_fields self.now)) }
    {
        put(text, CHANNEL_NUMBER, &[self.channel.octet()])?;
        put(text, ACTIVATION_TYPE, &[self.activation.0])?;
        put(text, CHANNEL_MODE, self.mode.0.as_slice())?;
        put_octet(
            text,
            HANDOVER_REFERENCE,
            self.reference.map(|reference| reference.0),
        )
    }
}

impl ActivationAck {
    #[tactic(auto, unfolding(crate::specs::RslReading::activation_ack_at))]
    pub(crate) fn read(body: &[u8]) -> Result<ActivationAck, RslFault>
        ensures { result ≡ activation_ack_at (elements_of body.now) }
    {
        let octet = needed_value(body, CHANNEL_NUMBER)?;
        let channel = channel_number(octet)?;
        let frame = value(body, FRAME_NUMBER).map(|v| FrameNumber(number(v)));
        Ok(ActivationAck { channel, frame })
    }

    pub(crate) fn put(&self, text: &mut Vec<u8>) -> Result<(), Memory>
        ensures { OnOk result
            (text.new.items ≡ text.old.items ++ rsl_fields_text (activation_ack_fields self.now)) }
    {
        put(text, CHANNEL_NUMBER, &[self.channel.octet()])?;
        put_number(text, FRAME_NUMBER, self.frame.map(|frame| frame.0))
    }
}

impl Failure {
    #[tactic(auto, unfolding(crate::specs::RslReading::failure_at))]
    pub(crate) fn read(alloc: Global, body: &[u8]) -> Result<Failure, RslFault>
        ensures { Gives RslFault.Memory (λ m. m) result (failure_at (elements_of body.now)) }
    {
        let number = needed_value(body, CHANNEL_NUMBER)?;
        let channel = channel_number(number)?;
        let cause = Octets::copy_optional(alloc, value(body, CAUSE))?.map(Cause);
        Ok(Failure { channel, cause })
    }

    pub(crate) fn put(&self, text: &mut Vec<u8>) -> Result<(), Memory>
        requires { ForSome self.now.cause (λ c. length c.0 ≤ LENGTH_LIMIT) }
        ensures { OnOk result
            (text.new.items ≡ text.old.items ++ rsl_fields_text (failure_fields self.now)) }
    {
        put(text, CHANNEL_NUMBER, &[self.channel.octet()])?;
        put_octets(text, CAUSE, self.cause.as_ref().map(|cause| &cause.0))
    }
}

impl Detection {
    #[tactic(auto, unfolding(crate::specs::RslReading::detection_at))]
    pub(crate) fn read(body: &[u8]) -> Result<Detection, RslFault>
        ensures { result ≡ detection_at (elements_of body.now) }
    {
        let number = needed_value(body, CHANNEL_NUMBER)?;
        let channel = channel_number(number)?;
        let access_delay = value(body, ACCESS_DELAY).map(|v| AccessDelay(octet(v)));
        Ok(Detection {
            channel,
            access_delay,
        })
    }

    pub(crate) fn put(&self, text: &mut Vec<u8>) -> Result<(), Memory>
        ensures { OnOk result
            (text.new.items ≡ text.old.items ++ rsl_fields_text (detection_fields self.now)) }
    {
        put(text, CHANNEL_NUMBER, &[self.channel.octet()])?;
        put_octet(text, ACCESS_DELAY, self.access_delay.map(|delay| delay.0))
    }
}

impl MeasurementResult {
    #[tactic(auto, unfolding(crate::specs::RslReading::measurement_result_at))]
    pub(crate) fn read(alloc: Global, body: &[u8]) -> Result<MeasurementResult, RslFault>
        ensures { Gives RslFault.Memory (λ m. m) result
            (measurement_result_at (elements_of body.now)) }
    {
        let channel_octet = needed_value(body, CHANNEL_NUMBER)?;
        let result_number = needed_value(body, MEASUREMENT_NUMBER)?;
        let channel = channel_number(channel_octet)?;
        let l3 = optional_l3(alloc, value(body, L3_INFORMATION))?;
        let uplink = Octets::copy_optional(alloc, value(body, UPLINK_MEASUREMENTS))?.map(
            UplinkMeasurements,
        );
        Ok(MeasurementResult {
            channel,
            number: MeasurementNumber(octet(result_number)),
            uplink,
            bs_power: value(body, BS_POWER).map(|v| BsPower(octet(v))),
            l1: value(body, L1_INFORMATION).map(|v| L1Information(number(v))),
            l3,
        })
    }

    pub(crate) fn put(&self, text: &mut Vec<u8>) -> Result<(), Memory>
        requires uplink { ForSome self.now.uplink (λ u. length u.0 ≤ LENGTH_LIMIT) }
        requires l3 { ForSome self.now.l3 (λ l. length l ≤ LENGTH_LIMIT) }
        ensures { OnOk result
            (text.new.items ≡ text.old.items ++
            rsl_fields_text (measurement_result_fields self.now)) }
    {
        put(text, CHANNEL_NUMBER, &[self.channel.octet()])?;
        put(text, MEASUREMENT_NUMBER, &[self.number.0])?;
        put_octets(
            text,
            UPLINK_MEASUREMENTS,
            self.uplink.as_ref().map(|uplink| &uplink.0),
        )?;
        self.put_downlink(text)
    }

    /// Appends the elements about the downlink that are present: the power of the base station, the
    /// layer 1 information and the L3 information.
    fn put_downlink(&self, text: &mut Vec<u8>) -> Result<(), Memory>
        requires { ForSome self.now.l3 (λ l. length l ≤ LENGTH_LIMIT) }
        ensures { OnOk result
            (text.new.items ≡ text.old.items ++ rsl_fields_text (downlink_fields self.now)) }
    {
        put_octet(text, BS_POWER, self.bs_power.map(|power| power.0))?;
        put_number(text, L1_INFORMATION, self.l1.map(|l1| l1.0))?;
        put_octets(text, L3_INFORMATION, self.l3.as_ref())
    }
}

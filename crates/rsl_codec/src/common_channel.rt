// SPDX-License-Identifier: MIT OR Apache-2.0
ghost use Rattle.std.specs.Prelude.{◌≡◌, ◌++◌, ◌≤◌, length, OnOk};
ghost use Rattle.octets.specs.Answer.{Gives};
ghost use Rattle.octets.specs.declared.limits.TheConstants.{LENGTH_LIMIT};
ghost use Rattle.rsl_codec.specs.Fields.{channel_required_fields, assignment_fields};
ghost use Rattle.rsl_codec.specs.RslReading.{elements_of, channel_required_at, assignment_at};
ghost use Rattle.rsl_codec.specs.RslText.{rsl_fields_text};

use crate::fields::{channel_number, needed_value, octet, put, put_reference, reference};
use crate::identifiers::{ACCESS_DELAY, CHANNEL_NUMBER, FULL_IMMEDIATE_ASSIGN, REQUEST_REFERENCE};
use crate::{AccessDelay, ChanNo, RequestReference, RslFault};
use octets::{Memory, Octets};
use std::alloc::Global;

/// CHANNEL REQUIRED (TS 48.058 clause 8.5.3): a mobile requested a channel on the RACH.
///
/// `01 channel:1 13 reference:3 11 access_delay:1`
#[derive(Drop)]
pub struct ChannelRequired {
    pub channel: ChanNo,
    pub reference: RequestReference,
    pub access_delay: AccessDelay,
}

/// IMMEDIATE ASSIGN COMMAND (TS 48.058 clause 8.5.6): an IMMEDIATE ASSIGNMENT to be sent on the
/// AGCH.
///
/// `01 channel:1 2b length:1 information`
#[derive(Drop)]
pub struct ImmediateAssignment {
    pub channel: ChanNo,
    /// The full immediate assign information (TS 48.058 clause 9.3.35): at most 255 octets.
    pub information: Octets,
}

impl ChannelRequired {
    #[tactic(auto, unfolding(crate::specs::RslReading::channel_required_at))]
    pub(crate) fn read(body: &[u8]) -> Result<ChannelRequired, RslFault>
        ensures { result ≡ channel_required_at (elements_of body.now) }
    {
        let number = needed_value(body, CHANNEL_NUMBER)?;
        let request = needed_value(body, REQUEST_REFERENCE)?;
        let delay = needed_value(body, ACCESS_DELAY)?;
        let channel = channel_number(number)?;
        Ok(ChannelRequired {
            channel,
            reference: reference(request),
            access_delay: AccessDelay(octet(delay)),
        })
    }

    pub(crate) fn put(&self, text: &mut Vec<u8>) -> Result<(), Memory>
        ensures { OnOk result
            (text.new.items ≡ text.old.items ++
            rsl_fields_text (channel_required_fields self.now)) }
    {
        put(text, CHANNEL_NUMBER, &[self.channel.octet()])?;
        put_reference(text, REQUEST_REFERENCE, self.reference)?;
        put(text, ACCESS_DELAY, &[self.access_delay.0])
    }
}

impl ImmediateAssignment {
    #[tactic(auto, unfolding(crate::specs::RslReading::assignment_at))]
    pub(crate) fn read(alloc: Global, body: &[u8]) -> Result<ImmediateAssignment, RslFault>
        ensures { Gives RslFault.Memory (λ m. m) result (assignment_at (elements_of body.now)) }
    {
        let number = needed_value(body, CHANNEL_NUMBER)?;
        let text = needed_value(body, FULL_IMMEDIATE_ASSIGN)?;
        let channel = channel_number(number)?;
        let information = Octets::copy(alloc, text)?;
        Ok(ImmediateAssignment {
            channel,
            information,
        })
    }

    pub(crate) fn put(&self, text: &mut Vec<u8>) -> Result<(), Memory>
        requires { length self.now.information ≤ LENGTH_LIMIT }
        ensures { OnOk result
            (text.new.items ≡ text.old.items ++ rsl_fields_text (assignment_fields self.now)) }
    {
        put(text, CHANNEL_NUMBER, &[self.channel.octet()])?;
        put(text, FULL_IMMEDIATE_ASSIGN, self.information.as_slice())
    }
}

// SPDX-License-Identifier: MIT OR Apache-2.0
ghost use Rattle.std.specs.Prelude.{◌≡◌, ◌++◌, ◌≤◌, length, IfOk, None, OnOk};
ghost use Rattle.std.specs.Option.{ForSome};
ghost use Rattle.octets.specs.Answer.{Gives};
ghost use Rattle.octets.specs.declared.limits.TheConstants.{LENGTH_LIMIT};
ghost use Rattle.rsl_codec.specs.declared.rsl.Rsl.TheVariants.{DataRequest};
ghost use Rattle.rsl_codec.specs.Fields.{data_fields, link_fields, error_fields};
ghost use Rattle.rsl_codec.specs.Fields.{establishment_fields, release_fields};
ghost use Rattle.rsl_codec.specs.RslReading.{elements_of, data_at, data_elements, link_at};
ghost use Rattle.rsl_codec.specs.RslReading.{error_at, establishment_at, release_at};
ghost use Rattle.rsl_codec.specs.RslText.{rsl_fields_text, rsl_text, rsl_write_fault};

use crate::fields::{
    channel_number, data_values, l3, needed_value, octet, optional_l3, put, put_octets, value,
};
use crate::identifiers::{
    CHANNEL_NUMBER, L3_INFORMATION, LINK_IDENTIFIER, RELEASE_MODE, RLM_CAUSE,
};
use crate::rsl_type::RADIO_LINK_TRANSPARENT;
use crate::{ChanNo, LinkId, ReleaseMode, RlmCause, RslFault, RslType};
use octets::{Memory, Octets};
use std::alloc::Global;

/// The number of octets in a DATA REQUEST before its L3 information. These are the discriminator,
/// the message type, the elements of channel number and link identifier, and the identifier and
/// length of the L3 information.
const REQUEST_HEADER: usize = 9;

/// DATA REQUEST and DATA INDICATION (TS 48.058 clauses 8.3.1 and 8.3.2): L3 information on a link.
///
/// `01 channel:1 02 link:1 0b length:2 l3`
#[derive(Drop)]
pub struct Data {
    pub channel: ChanNo,
    pub link: LinkId,
    /// 1 to 251 octets.
    pub l3: Octets,
}

/// A message with nothing but a channel and a link: ESTABLISH REQUEST, ESTABLISH CONFIRM, RELEASE
/// CONFIRM and RELEASE INDICATION (TS 48.058 clauses 8.3.4 to 8.3.9).
///
/// `01 channel:1 02 link:1`
#[derive(Drop)]
pub struct Link {
    pub channel: ChanNo,
    pub link: LinkId,
}

/// ERROR INDICATION (TS 48.058 clause 8.3.3): a protocol error of layer 2 on a link.
///
/// `01 channel:1 02 link:1 16 length:1 cause`
#[derive(Drop)]
pub struct ErrorReport {
    pub channel: ChanNo,
    pub link: LinkId,
    pub cause: Option<RlmCause>,
}

/// ESTABLISH INDICATION (TS 48.058 clause 8.3.6): the mobile established a link. The L3
/// information, if present, is the first message of the mobile.
///
/// `01 channel:1 02 link:1 0b length:2 l3`
#[derive(Drop)]
pub struct Establishment {
    pub channel: ChanNo,
    pub link: LinkId,
    /// 1 to 251 octets.
    pub l3: Option<Octets>,
}

/// RELEASE REQUEST (TS 48.058 clause 8.3.7).
///
/// `01 channel:1 02 link:1 14 mode:1`
#[derive(Drop)]
pub struct Release {
    pub channel: ChanNo,
    pub link: LinkId,
    pub mode: ReleaseMode,
}

impl Data {
    #[tactic(auto, unfolding(crate::specs::RslReading::elements_of))]
    pub(crate) fn read(alloc: Global, body: &[u8]) -> Result<Data, RslFault>
        ensures { Gives RslFault.Memory (λ m. m) result (data_at (elements_of body.now)) }
    {
        match data_values(body) {
            Some((channel, link, text)) => Data::of(alloc, channel, link, text),
            None => Data::read_any(alloc, body),
        }
    }

    // The data with these values. Returns `BadChannel` if no channel has the number `channel`, and
    // the faults of `l3` for `text`.
    #[tactic(auto, unfolding(crate::specs::RslReading::data_at))]
    fn of(alloc: Global, channel: u8, link: u8, text: &[u8]) -> Result<Data, RslFault>
        ensures { Gives RslFault.Memory (λ m. m) result
            (data_at (data_elements channel link text.now)) }
    {
        let channel = ChanNo::read(channel)?;
        let l3 = l3(alloc, text)?;
        let link = LinkId::read(link);
        Ok(Data { channel, link, l3 })
    }

    // Reads the data from the elements of `body`, which may come in any order.
    #[tactic(auto, unfolding(crate::specs::RslReading::data_at))]
    fn read_any(alloc: Global, body: &[u8]) -> Result<Data, RslFault>
        ensures { Gives RslFault.Memory (λ m. m) result (data_at (elements_of body.now)) }
    {
        let number = needed_value(body, CHANNEL_NUMBER)?;
        let link = needed_value(body, LINK_IDENTIFIER)?;
        let text = needed_value(body, L3_INFORMATION)?;
        let channel = channel_number(number)?;
        let l3 = l3(alloc, text)?;
        let link = LinkId::read(octet(link));
        Ok(Data { channel, link, l3 })
    }

    /// The octets of a DATA REQUEST with these data, the same octets as `Rsl::write` appends. The
    /// caller ensures that the L3 information has 1 to 251 octets. Allocates once, for exactly
    /// these octets. Returns `Err` only if memory runs out.
    #[tactic(auto, unfolding(crate::specs::RslText::rsl_element_text, crate::specs::RslText::rsl_write_fault))]
    pub fn request_text(&self, alloc: Global) -> Result<Vec<u8>, Memory>
        requires { rsl_write_fault (DataRequest self.now) ≡ None }
        ensures { IfOk result (λ text. text.items ≡ rsl_text (DataRequest self.now)) }
    {
        let l3 = self.l3.as_slice();
        let [high, low] = (l3.len() as u16).to_be_bytes();
        let mut text = Vec::with_capacity(alloc, REQUEST_HEADER + l3.len())?;
        text.extend_from_slice(&[
            RADIO_LINK_TRANSPARENT,
            RslType::DataRequest.octet(),
            CHANNEL_NUMBER,
            self.channel.octet(),
            LINK_IDENTIFIER,
            self.link.octet(),
            L3_INFORMATION,
            high,
            low,
        ])?;
        text.extend_from_slice(l3)?;
        Ok(text)
    }

    pub(crate) fn put(&self, text: &mut Vec<u8>) -> Result<(), Memory>
        requires { length self.now.l3 ≤ LENGTH_LIMIT }
        ensures { OnOk result
            (text.new.items ≡ text.old.items ++ rsl_fields_text (data_fields self.now)) }
    {
        put(text, CHANNEL_NUMBER, &[self.channel.octet()])?;
        put(text, LINK_IDENTIFIER, &[self.link.octet()])?;
        put(text, L3_INFORMATION, self.l3.as_slice())
    }
}

impl Link {
    #[tactic(auto, unfolding(crate::specs::RslReading::link_at))]
    pub(crate) fn read(body: &[u8]) -> Result<Link, RslFault>
        ensures { result ≡ link_at (elements_of body.now) }
    {
        let number = needed_value(body, CHANNEL_NUMBER)?;
        let link = needed_value(body, LINK_IDENTIFIER)?;
        let channel = channel_number(number)?;
        let link = LinkId::read(octet(link));
        Ok(Link { channel, link })
    }

    pub(crate) fn put(&self, text: &mut Vec<u8>) -> Result<(), Memory>
        ensures { OnOk result
            (text.new.items ≡ text.old.items ++ rsl_fields_text (link_fields self.now)) }
    {
        put(text, CHANNEL_NUMBER, &[self.channel.octet()])?;
        put(text, LINK_IDENTIFIER, &[self.link.octet()])
    }
}

impl ErrorReport {
    #[tactic(auto, unfolding(crate::specs::RslReading::error_at))]
    pub(crate) fn read(alloc: Global, body: &[u8]) -> Result<ErrorReport, RslFault>
        ensures { Gives RslFault.Memory (λ m. m) result (error_at (elements_of body.now)) }
    {
        let number = needed_value(body, CHANNEL_NUMBER)?;
        let link = needed_value(body, LINK_IDENTIFIER)?;
        let channel = channel_number(number)?;
        let link = LinkId::read(octet(link));
        let cause = Octets::copy_optional(alloc, value(body, RLM_CAUSE))?.map(RlmCause);
        Ok(ErrorReport {
            channel,
            link,
            cause,
        })
    }

    pub(crate) fn put(&self, text: &mut Vec<u8>) -> Result<(), Memory>
        requires { ForSome self.now.cause (λ c. length c.0 ≤ LENGTH_LIMIT) }
        ensures { OnOk result
            (text.new.items ≡ text.old.items ++ rsl_fields_text (error_fields self.now)) }
    {
        put(text, CHANNEL_NUMBER, &[self.channel.octet()])?;
        put(text, LINK_IDENTIFIER, &[self.link.octet()])?;
        put_octets(text, RLM_CAUSE, self.cause.as_ref().map(|cause| &cause.0))
    }
}

impl Establishment {
    #[tactic(auto, unfolding(crate::specs::RslReading::establishment_at))]
    pub(crate) fn read(alloc: Global, body: &[u8]) -> Result<Establishment, RslFault>
        ensures { Gives RslFault.Memory (λ m. m) result (establishment_at (elements_of body.now)) }
    {
        let number = needed_value(body, CHANNEL_NUMBER)?;
        let link = needed_value(body, LINK_IDENTIFIER)?;
        let channel = channel_number(number)?;
        let l3 = optional_l3(alloc, value(body, L3_INFORMATION))?;
        let link = LinkId::read(octet(link));
        Ok(Establishment { channel, link, l3 })
    }

    pub(crate) fn put(&self, text: &mut Vec<u8>) -> Result<(), Memory>
        requires { ForSome self.now.l3 (λ l. length l ≤ LENGTH_LIMIT) }
        ensures { OnOk result
            (text.new.items ≡ text.old.items ++ rsl_fields_text (establishment_fields self.now)) }
    {
        put(text, CHANNEL_NUMBER, &[self.channel.octet()])?;
        put(text, LINK_IDENTIFIER, &[self.link.octet()])?;
        put_octets(text, L3_INFORMATION, self.l3.as_ref())
    }
}

impl Release {
    #[tactic(auto, unfolding(crate::specs::RslReading::release_at))]
    pub(crate) fn read(body: &[u8]) -> Result<Release, RslFault>
        ensures { result ≡ release_at (elements_of body.now) }
    {
        let number = needed_value(body, CHANNEL_NUMBER)?;
        let link = needed_value(body, LINK_IDENTIFIER)?;
        let mode = needed_value(body, RELEASE_MODE)?;
        let channel = channel_number(number)?;
        let link = LinkId::read(octet(link));
        let mode = ReleaseMode(octet(mode));
        Ok(Release {
            channel,
            link,
            mode,
        })
    }

    pub(crate) fn put(&self, text: &mut Vec<u8>) -> Result<(), Memory>
        ensures { OnOk result
            (text.new.items ≡ text.old.items ++ rsl_fields_text (release_fields self.now)) }
    {
        put(text, CHANNEL_NUMBER, &[self.channel.octet()])?;
        put(text, LINK_IDENTIFIER, &[self.link.octet()])?;
        put(text, RELEASE_MODE, &[self.mode.0])
    }
}

// SPDX-License-Identifier: MIT OR Apache-2.0
ghost use Rattle.std.specs.Prelude.{◌≡◌, Some, option_map};
ghost use Rattle.std.specs.Option.{is_some};
ghost use Rattle.std.specs.Result.{result_ok};
ghost use Rattle.octets.specs.Walk.{first_of};
ghost use Rattle.rsl_codec.specs.declared.identifiers.TheConstants.{CHANNEL_NUMBER as NUMBER};
ghost use Rattle.rsl_codec.specs.declared.rsl_type.RslType.TheVariants.{ChannelActivation};
ghost use Rattle.rsl_codec.specs.RslReading.{breaks_off, elements_of, rsl_reading, rsl_reading_by};
ghost use Rattle.rsl_codec.specs.RslType.{rsl_type};
ghost use Rattle.world_model.specs.Stations.{rsl_in as message_in};
ghost use Rattle.world_ends.specs.Activations as activations;

use crate::elements::{ACTIVATION_TYPE, CHANNEL_MODE, CHANNEL_NUMBER, elements};
use ipa_framing::{Frame, RSL_STREAM};
use octets::element::{first_value, is_cut};
use rsl_codec::{ChanNo, RslType};

/// The channel that the CHANNEL ACTIVATION in an RSL frame activates. `None` if the frame is of
/// another stream, can't be read, or has another message. Allocates nothing.
pub fn activated_in(frame: &Frame) -> Option<ChanNo>
    ensures { result ≡ activations.activated_by (message_in frame.now) }
{
    if frame.stream != RSL_STREAM {
        return None;
    }
    activated_by(frame.body.as_slice())
}

#[tactic(auto, unfolding(rsl_codec::specs::RslReading::rsl_reading))]
fn activated_by(octets: &[u8]) -> Option<ChanNo>
    ensures { result ≡ activations.activated_by (result_ok (rsl_reading octets.now)) }
{
    let [discriminator, octet, body @ ..] = octets else {
        return None;
    };
    activated_by_type(*discriminator, *octet, body)
}

fn activated_by_type(discriminator: u8, octet: u8, body: &[u8]) -> Option<ChanNo>
    ensures { result ≡ activations.activated_by
        (result_ok (rsl_reading_by (rsl_type discriminator octet) body.now)) }
{
    if !is_activation(discriminator, octet) {
        return None;
    }
    activated_channel(body)
}

fn is_activation(discriminator: u8, octet: u8) -> bool
    ensures { result ≡ activations.is_activation (rsl_type discriminator octet) }
{
    match RslType::of_octets(discriminator, octet) {
        Some(RslType::ChannelActivation) => true,
        _ => false,
    }
}

// The channel that a CHANNEL ACTIVATION activates, from the octets after its message type. `None`
// if they can't be read.
fn activated_channel(body: &[u8]) -> Option<ChanNo>
    ensures { result ≡ activations.activated_by
        (result_ok (rsl_reading_by (Some ChannelActivation) body.now)) }
{
    if breaks_off(body) {
        return None;
    }
    channel_by_elements(body)
}

// Whether the octets end in the middle of an element.
#[tactic(auto, unfolding(rsl_codec::specs::RslReading::breaks_off))]
fn breaks_off(body: &[u8]) -> bool
    ensures { result ≡ breaks_off body.now }
{
    is_cut(&elements(), body)
}

fn channel_by_elements(body: &[u8]) -> Option<ChanNo>
    ensures { result ≡ activations.channel_by_elements (elements_of body.now) }
{
    if has_value(body, ACTIVATION_TYPE) && has_value(body, CHANNEL_MODE) {
        channel_in(body)
    } else {
        None
    }
}

fn channel_in(body: &[u8]) -> Option<ChanNo>
    ensures { result ≡ activations.channel_in (first_of NUMBER (elements_of body.now)) }
{
    match value(body, CHANNEL_NUMBER) {
        Some(number) => channel_number(number),
        None => None,
    }
}

fn channel_number(value: &[u8]) -> Option<ChanNo>
    ensures { result ≡ activations.channel_in (Some value.now) }
{
    match value {
        [octet, ..] => ChanNo::read(*octet).ok(),
        [] => None,
    }
}

fn has_value(body: &[u8], id: u8) -> bool
    ensures { result ≡ is_some (first_of id (elements_of body.now)) }
{
    value(body, id).is_some()
}

#[tactic(auto, unfolding(rsl_codec::specs::RslReading::elements_of))]
fn value(body: &[u8], id: u8) -> Option<&[u8]>
    ensures { option_map (λ v. v.now) result ≡ first_of id (elements_of body.now) }
{
    first_value(&elements(), body, id)
}

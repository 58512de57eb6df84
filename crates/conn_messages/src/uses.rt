// SPDX-License-Identifier: MIT OR Apache-2.0
ghost use Rattle.std.specs.Prelude.{◌≡◌, ℕ};
ghost use Rattle.conn_messages.specs.declared.message.Message.{Message};
ghost use Rattle.conn_messages.specs.ChannelUse.{use_by};
ghost use Rattle.conn_messages.specs.Out.{IsLawfulMessage, out_of};
ghost use Rattle.conn_messages.specs.UseOctets as words;

use crate::{Out, Place};
use ipa_framing::RSL_STREAM;
use rsl_codec::{
    ActivationType, CHANNEL_ACTIVATION, ChanNo, DEDICATED_CHANNEL, RF_CHANNEL_RELEASE,
};

/// How a message to a station changes the state of a channel of that station.
#[derive(Clone, Copy)]
pub enum ChannelUse {
    /// A CHANNEL ACTIVATION of this type takes the channel at this place into use.
    Activated(Place, ActivationType),
    /// An RF CHANNEL RELEASE starts the release of the channel at this place.
    Released(Place),
    /// The message changes no channel.
    Unchanged,
}

/// How the frame `out` changes the state of a channel. Reads only the discriminator, the message
/// type and the values of the first two elements. Allocates nothing. If the frame carries a lawful
/// message (`IsLawfulMessage`), the result is the change by that message (`use_by`).
pub fn channel_use(out: &Out) -> ChannelUse
    ensures octets { result ≡ words.use_of out.now }
    ensures message { (number : ℕ) (message : Message) →
        IsLawfulMessage message → out.now ≡ out_of number message → result ≡ use_by message }
{
    use_in(out.to, out.frame.stream, out.frame.body.as_slice())
}

fn use_in(station: u16, stream: u8, octets: &[u8]) -> ChannelUse
    ensures { result ≡ words.use_in station stream octets.now }
{
    if stream == RSL_STREAM && octet_at(octets, 0) == DEDICATED_CHANNEL {
        use_by_type(station, octet_at(octets, 1), octets)
    } else {
        ChannelUse::Unchanged
    }
}

// Octets are counted from 0. Octet 3, the value of the first element, is the channel number; octet
// 5, the value of the second element, is the activation type.
fn use_by_type(station: u16, message_type: u8, octets: &[u8]) -> ChannelUse
    ensures { result ≡ words.use_by_type station message_type octets.now }
{
    match (message_type, ChanNo::read(octet_at(octets, 3))) {
        (CHANNEL_ACTIVATION, Ok(number)) => ChannelUse::Activated(
            Place { station, number },
            ActivationType(octet_at(octets, 5)),
        ),
        (RF_CHANNEL_RELEASE, Ok(number)) => ChannelUse::Released(Place { station, number }),
        _ => ChannelUse::Unchanged,
    }
}

fn octet_at(octets: &[u8], place: usize) -> u8
    ensures { result ≡ words.octet_at octets.now place }
{
    match octets.get(place) {
        Some(octet) => *octet,
        None => 0,
    }
}

// SPDX-License-Identifier: MIT OR Apache-2.0
ghost use Rattle.std.specs.Prelude.{◌≡◌, IfErr, IfOk};
ghost use Rattle.controller_model.specs.Reading.{management_of_link, word_of};
ghost use Rattle.controller_parts.specs.Words.{IsCarriedWord, IsFromSource, IsReadableFrame};

use crate::station::station_word;
use crate::switch::switch_word;
use conn_messages::SWITCH_LINK;
use controller_model::Word;
use ipa_framing::{CCM_STREAM, Frame, PING, RSL_STREAM, SCCP_STREAM};
use octets::Memory;
use std::alloc::Global;

/// Reads the word of a frame that arrived on the link `source`. Link 0 is the switch's; link i is
/// that of the i-th cell's station.
///
/// Every link carries CCM; the switch's link also carries SCCP, a station's link also carries RSL.
/// The word is `Nothing` if the frame is of any other stream or if the codec refuses the body.
/// `Err(Memory)` if an allocation fails, which is possible only if the body has no fault of its
/// own.
#[tactic(auto, unfolding(controller_model::specs::Reading::word_of), using(crate::proofs::Readable::frame_readable))]
pub fn read_word(alloc: Global, source: u16, frame: &Frame) -> Result<Word, Memory>
    // Unless memory runs out, the result is the word of the frame.
    ensures word { IfOk result (λ word. word ≡ word_of source frame.now) }
    // A layer 3 message in the word has 1 to 251 octets, and a report in the word is valid.
    ensures carried { IfOk result IsCarriedWord }
    // Only a station's frame has a word about a channel, which is then a channel of that station,
    // or about a mobile's request. Only a frame of the switch has a word about a connection.
    ensures comes { IfOk result (IsFromSource source) }
    // Memory runs out only for a body that the codec doesn't refuse.
    ensures memory { IfErr result (λ _. IsReadableFrame source frame.now) }
{
    let body = frame.body.as_slice();
    if frame.stream == CCM_STREAM {
        Ok(link_word(body))
    } else if source == SWITCH_LINK && frame.stream == SCCP_STREAM {
        switch_word(alloc, body)
    } else if source != SWITCH_LINK && frame.stream == RSL_STREAM {
        station_word(alloc, source, body)
    } else {
        Ok(Word::Nothing)
    }
}

// The word of a message that manages the link itself (CCM).
fn link_word(body: &[u8]) -> Word
    ensures { result ≡ management_of_link body.now }
{
    match body.first() {
        Some(&PING) => Word::Ping,
        _ => Word::Nothing,
    }
}

// SPDX-License-Identifier: MIT OR Apache-2.0
ghost use Rattle.std.specs.Prelude.{◌≡◌, IfErr, IfOk, Ok};
ghost use Rattle.bssmap_codec.specs.declared.fault.InterfaceFault.TheVariants as interface;
ghost use Rattle.bssmap_codec.specs.BssapReading.{bssap_reading};
ghost use Rattle.bssmap_codec.specs.SccpReading.{sccp_reading};
ghost use Rattle.controller_model.specs.Reading as reading;
ghost use Rattle.controller_parts.specs.Words.{IsCarriedWord, IsReadable, IsReadableSccp};

use crate::dtap::dlci_sapi;
use bssmap_codec::{Bssap, Bssmap, InterfaceFault, Sccp, read_bssap, read_data_form, read_sccp};
use conn_rules::Input;
use controller_model::Word;
use octets::Memory;
use std::alloc::Global;

/// Reads the word of the body of a frame from the switch. The data of a DT1 are read in place.
/// `Err(Memory)` if an allocation fails.
#[tactic(auto, using(crate::proofs::Readable::switch_readable))]
pub(crate) fn switch_word(alloc: Global, body: &[u8]) -> Result<Word, Memory>
    ensures word { IfOk result (λ word. word ≡ reading.switch_word (sccp_reading body.now)) }
    ensures carried { IfOk result IsCarriedWord }
    ensures memory { IfErr result (λ _. IsReadableSccp (sccp_reading body.now)) }
{
    if let Some((number, user)) = read_data_form(body) {
        return bssap_word(alloc, number, user);
    }
    match read_sccp(alloc, body) {
        Ok(message) => sccp_word(alloc, message),
        Err(InterfaceFault::Memory) => Err(Memory),
        Err(_) => Ok(Word::Nothing),
    }
}

fn sccp_word(alloc: Global, message: Sccp) -> Result<Word, Memory>
    ensures word { IfOk result (λ word. word ≡ reading.switch_word (Ok message)) }
    ensures carried { IfOk result IsCarriedWord }
    ensures memory { IfErr result (λ _. IsReadableSccp (Ok message)) }
{
    Ok(match message {
        Sccp::ConnectionConfirm {
            destination,
            source,
        } => Word::OnConnection(destination.number(), Input::ConnectionConfirm { source }),
        Sccp::ConnectionRefused { destination } => {
            Word::OnConnection(destination.number(), Input::ConnectionRefused)
        }
        Sccp::Released {
            destination,
            source,
        } => Word::OnConnection(destination.number(), Input::Released { source }),
        Sccp::DataForm1 { destination, data } => {
            return bssap_word(alloc, destination.number(), data.as_slice());
        }
        _ => Word::Nothing,
    })
}

// Reads the word of user data for the connection with this number.
#[tactic(auto, using(crate::proofs::Readable::is_readable))]
fn bssap_word(alloc: Global, number: u32, user: &[u8]) -> Result<Word, Memory>
    ensures word { IfOk result
        (λ word. word ≡ reading.bssap_word number (bssap_reading user.now)) }
    ensures carried { IfOk result IsCarriedWord }
    ensures memory { IfErr result
        (λ _. IsReadable interface.Memory (bssap_reading user.now)) }
{
    match read_bssap(alloc, user) {
        Ok(message) => Ok(bssap_in(number, message)),
        Err(InterfaceFault::Memory) => Err(Memory),
        Err(_) => Ok(Word::Nothing),
    }
}

fn bssap_in(number: u32, message: Bssap) -> Word
    ensures { result ≡ reading.bssap_word number (Ok message) }
{
    match message {
        Bssap::Management(message) => management_word(number, &message),
        Bssap::Transfer { dlci, message } => {
            let sapi = dlci_sapi(dlci);
            Word::OnConnection(number, Input::Downlink { sapi, message })
        }
    }
}

fn management_word(number: u32, message: &Bssmap) -> Word
    ensures { result ≡ reading.management_word number message.now }
{
    let input = match message {
        Bssmap::AssignmentRequest { channel_type } => Input::AssignmentRequest {
            is_speech: channel_type.is_speech(),
        },
        Bssmap::ClearCommand { .. } => Input::ClearCommand,
        Bssmap::CipherModeCommand => Input::CipherModeCommand,
        _ => return Word::Nothing,
    };
    Word::OnConnection(number, input)
}

// SPDX-License-Identifier: MIT OR Apache-2.0
ghost use Rattle.std.specs.Prelude.{◌≡◌, ◌≢◌, option_map, IfErr, IfOk};
ghost use Rattle.conn_messages.specs.declared.parameters.TheConstants.{SWITCH_LINK};
ghost use Rattle.controller_model.specs.Controller.{place_at as channel_at};
ghost use Rattle.controller_parts.specs.Words.{IsFromSource, IsCarriedWord, CarriesNoLayer3};
ghost use Rattle.controller_parts.specs.Words.{HasReadableLayer3, IsReadable, IsReadableReport};
ghost use Rattle.controller_model.specs.Reading as reading;
ghost use Rattle.rsl_codec.specs.declared.fault.RslFault.TheVariants as radio;
ghost use Rattle.rsl_codec.specs.RslReading.{rsl_reading};
ghost use Rattle.rsl_codec.specs.declared.rsl.Rsl.TheVariants as rsl;

use crate::dtap::is_dtap;
use crate::reports::{change_word, report_word};
use conn_messages::Place;
use conn_rules::Input;
use controller_model::Word;
use dtap_codec::Sapi;
use octets::Memory;
use rsl_codec::{
    ChanNo, Data, ErrorReport, Establishment, Link, LinkId, MeasurementNumber, MeasurementResult,
    Rsl, RslFault, read_measurement,
};
use std::alloc::Global;

/// The SAPI of short messages in bits 3 to 1 of a link identifier (TS 48.058 clause 9.3.2).
const SHORT_MESSAGE_SAPI: u8 = 3;

/// Bits 8 and 7 of a link identifier on the main signalling channel.
const MAIN_CHANNEL: u8 = 0;

/// Bits 8 and 7 of a link identifier on the SACCH.
const SACCH: u8 = 1;

/// Reads the word of the body of a station's frame. If `read_measurement` reads the body, the
/// report is read in place; the content of any other message is copied. `Err(Memory)` if an
/// allocation fails.
#[tactic(auto, using(crate::proofs::Readable::measured_readable))]
pub(crate) fn station_word(alloc: Global, station: u16, body: &[u8]) -> Result<Word, Memory>
    requires { station ≢ SWITCH_LINK }
    ensures word { IfOk result
        (λ word. word ≡ reading.station_word station (rsl_reading body.now)) }
    ensures carried { IfOk result IsCarriedWord }
    ensures comes { IfOk result (IsFromSource station) }
    ensures memory { IfErr result (λ _. IsReadable radio.Memory (rsl_reading body.now)) }
{
    match read_measurement(body) {
        Some(measured) => measured_word(alloc, station, measured),
        None => any_word(alloc, station, body),
    }
}

// Reads the word of any message of a station, from a copy of the message's content.
#[tactic(auto, using(crate::proofs::Readable::station_readable))]
fn any_word(alloc: Global, station: u16, body: &[u8]) -> Result<Word, Memory>
    requires { station ≢ SWITCH_LINK }
    ensures word { IfOk result
        (λ word. word ≡ reading.station_word station (rsl_reading body.now)) }
    ensures carried { IfOk result IsCarriedWord }
    ensures comes { IfOk result (IsFromSource station) }
    ensures memory { IfErr result (λ _. IsReadable radio.Memory (rsl_reading body.now)) }
{
    match Rsl::read(alloc, body) {
        Ok(message) => rsl_word(alloc, station, message),
        Err(RslFault::Memory) => Err(Memory),
        Err(_) => Ok(Word::Nothing),
    }
}

// The word of a message. A layer 3 message that is to be relayed is moved into the word, not
// copied.
fn rsl_word(alloc: Global, station: u16, message: Rsl) -> Result<Word, Memory>
    ensures word { IfOk result (λ word. word ≡ reading.rsl_word station message) }
    ensures memory { IfErr result (λ _. HasReadableLayer3 message) }
{
    match message {
        Rsl::DataIndication(data) => data_word(alloc, station, data),
        Rsl::EstablishIndication(establishment) => {
            Ok(establishment_word(station, establishment))
        }
        message => word_of_station(alloc, station, &message),
    }
}

// The word of a message without a layer 3 message that is to be relayed.
fn word_of_station(alloc: Global, station: u16, message: &Rsl) -> Result<Word, Memory>
    requires { CarriesNoLayer3 message.now }
    ensures word { IfOk result (λ word. word ≡ reading.rsl_word station message.now) }
    ensures memory { IfErr result (λ _. HasReadableLayer3 message.now) }
{
    Ok(match message {
        Rsl::ChannelRequired(request) => Word::Asks(request.reference, request.access_delay.0),
        Rsl::ChannelActivationAck(ack) => {
            let at = &place_at(station, ack.channel);
            Word::OnChannel(*at, Input::ActivationAck { at: *at })
        }
        Rsl::ChannelActivationNack(failure) => {
            let at = &place_at(station, failure.channel);
            Word::OnChannel(*at, Input::ActivationNack { at: *at })
        }
        Rsl::EstablishConfirm(link) => confirmed_word(station, link),
        Rsl::ReleaseIndication(link) => released_word(station, link),
        Rsl::ErrorIndication(error) => error_word(station, error),
        Rsl::ConnectionFailure(failure) => {
            let at = &place_at(station, failure.channel);
            Word::OnChannel(*at, Input::ConnectionFailure { at: *at })
        }
        Rsl::MeasurementResult(measured) => return result_word(alloc, station, measured),
        Rsl::RfChannelReleaseAck(channel) => {
            let at = &place_at(station, *channel);
            Word::OnChannel(*at, Input::ReleaseAck { at: *at })
        }
        _ => Word::Nothing,
    })
}

fn confirmed_word(station: u16, link: &Link) -> Word
    ensures { result ≡ reading.rsl_word station (rsl.EstablishConfirm link.now) }
{
    let at = &place_at(station, link.channel);
    match sapi_of(link.link) {
        Some(sapi) => Word::OnChannel(*at, Input::EstablishConfirm { at: *at, sapi }),
        None => Word::Nothing,
    }
}

fn released_word(station: u16, link: &Link) -> Word
    ensures { result ≡ reading.rsl_word station (rsl.ReleaseIndication link.now) }
{
    let at = &place_at(station, link.channel);
    match sapi_of(link.link) {
        Some(sapi) => Word::OnChannel(*at, Input::ReleaseIndication { at: *at, sapi }),
        None => Word::Nothing,
    }
}

fn error_word(station: u16, error: &ErrorReport) -> Word
    ensures { result ≡ reading.rsl_word station (rsl.ErrorIndication error.now) }
{
    let at = &place_at(station, error.channel);
    match sapi_of(error.link) {
        Some(sapi) => Word::OnChannel(*at, Input::ErrorIndication { at: *at, sapi }),
        None => Word::Nothing,
    }
}

// The word of a DATA INDICATION, which carries DTAP or a message of radio resource management.
fn data_word(alloc: Global, station: u16, data: Data) -> Result<Word, Memory>
    ensures word { IfOk result
        (λ word. word ≡ reading.rsl_word station (rsl.DataIndication «data»)) }
    ensures memory { IfErr result (λ _. HasReadableLayer3 (rsl.DataIndication «data»)) }
{
    let at = &place_at(station, data.channel);
    match (is_dtap(data.l3.as_slice()), sapi_of(data.link)) {
        (true, Some(sapi)) => {
            let message = data.l3;
            Ok(Word::OnChannel(
                *at,
                Input::Dtap {
                    at: *at,
                    sapi,
                    message,
                },
            ))
        }
        (false, Some(Sapi::Zero)) => change_word(alloc, at, data.l3.as_slice()),
        _ => Ok(Word::Nothing),
    }
}

// The word of a MEASUREMENT RESULT, perhaps with a report of the mobile.
fn result_word(alloc: Global, station: u16, measured: &MeasurementResult) -> Result<Word, Memory>
    ensures word { IfOk result
        (λ word. word ≡ reading.rsl_word station (rsl.MeasurementResult measured.now)) }
    ensures memory { IfErr result (λ _. HasReadableLayer3 (rsl.MeasurementResult measured.now)) }
{
    let l3 = measured.l3.as_ref().map(|l3| l3.as_slice());
    measured_word(alloc, station, (measured.channel, measured.number, l3))
}

// The word of a MEASUREMENT RESULT with this channel, number and L3 information.
fn measured_word(
    alloc: Global,
    station: u16,
    measured: (ChanNo, MeasurementNumber, Option<&[u8]>),
) -> Result<Word, Memory>
    ensures word { IfOk result (λ word. word ≡ reading.result_word
        (channel_at station measured.entry.0) measured.entry.1.0
        (option_map (λ l. l.now) measured.entry.2)) }
    ensures memory { IfErr result
        (λ _. IsReadableReport (option_map (λ l. l.now) measured.entry.2)) }
{
    let (channel, number, l3) = measured;
    match l3 {
        Some(l3) => report_word(alloc, &place_at(station, channel), number.0, l3),
        None => Ok(Word::Nothing),
    }
}

fn establishment_word(station: u16, establishment: Establishment) -> Word
    ensures { result ≡ reading.rsl_word station (rsl.EstablishIndication establishment) }
{
    let at = &place_at(station, establishment.channel);
    match sapi_of(establishment.link) {
        Some(sapi) => {
            let message = establishment.l3;
            Word::OnChannel(
                *at,
                Input::EstablishIndication {
                    at: *at,
                    sapi,
                    message,
                },
            )
        }
        None => Word::Nothing,
    }
}

// The SAPI of a link identifier. SAPI 0 is only that of the main signalling link; SAPI 3 is on the
// main signalling channel or on the SACCH. `None` for any other link identifier.
fn sapi_of(link: LinkId) -> Option<Sapi>
    ensures { result ≡ reading.sapi_of link }
{
    let octet = link.octet();
    if octet == LinkId::signalling().octet() {
        return Some(Sapi::Zero);
    }
    let is_main_or_sacch = octet / 64 == MAIN_CHANNEL || octet / 64 == SACCH;
    if octet % 8 == SHORT_MESSAGE_SAPI && is_main_or_sacch {
        Some(Sapi::Three)
    } else {
        None
    }
}

fn place_at(station: u16, number: ChanNo) -> Place
    ensures { result ≡ channel_at station number }
{
    Place { station, number }
}

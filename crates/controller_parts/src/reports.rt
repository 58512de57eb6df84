// SPDX-License-Identifier: MIT OR Apache-2.0
ghost use Rattle.std.specs.Prelude.{◌≡◌, length, IfErr, IfOk, Ok};
ghost use Rattle.conn_rules.specs.declared.input.Input.TheVariants as inputs;
ghost use Rattle.controller_model.specs.declared.word.Word.TheVariants.{OnChannel};
ghost use Rattle.controller_model.specs.Reading as reading;
ghost use Rattle.controller_model.specs.Reports.{report_reading};
ghost use Rattle.controller_parts.specs.Words.{IsReadable};
ghost use Rattle.dtap_codec.specs.declared.report.TheConstants.{REPORT_LENGTH};
ghost use Rattle.dtap_codec.specs.declared.rr_fault.RrFault.TheVariants as layer3;
ghost use Rattle.dtap_codec.specs.RrReading.{rr_reading};

use conn_messages::{Change, Place};
use conn_rules::Input;
use controller_model::Word;
use dtap_codec::{Report, RrCause, RrFault, RrMessage};
use octets::Memory;
use std::alloc::Global;

/// Reads how a change of channel ended: by the COMPLETE or FAILURE of an assignment or a handover.
/// The word of any other message is `Nothing`. `Err(Memory)` if an allocation fails.
#[tactic(auto, using(crate::proofs::Readable::is_readable))]
pub(crate) fn change_word(alloc: Global, at: &Place, l3: &[u8]) -> Result<Word, Memory>
    ensures word { IfOk result
        (λ word. word ≡ reading.change_word at.now (rr_reading l3.now)) }
    ensures memory { IfErr result (λ _. IsReadable layer3.Memory (rr_reading l3.now)) }
{
    match RrMessage::read(alloc, l3) {
        Ok(message) => Ok(change_in(at, &message)),
        Err(RrFault::Memory) => Err(Memory),
        Err(_) => Ok(Word::Nothing),
    }
}

fn change_in(at: &Place, message: &RrMessage) -> Word
    ensures { result ≡ reading.change_word at.now (Ok message.now) }
{
    match message {
        RrMessage::AssignmentComplete { cause } => completed(at, Change::Assignment, *cause),
        RrMessage::HandoverComplete { cause } => completed(at, Change::Handover, *cause),
        RrMessage::AssignmentFailure { cause } => failed(at, Change::Assignment, *cause),
        RrMessage::HandoverFailure { cause } => failed(at, Change::Handover, *cause),
        _ => Word::Nothing,
    }
}

fn completed(at: &Place, change: Change, cause: RrCause) -> Word
    ensures { result ≡ OnChannel at.now (inputs.Complete at.now change cause) }
{
    Word::OnChannel(
        *at,
        Input::Complete {
            at: *at,
            change,
            cause,
        },
    )
}

fn failed(at: &Place, change: Change, cause: RrCause) -> Word
    ensures { result ≡ OnChannel at.now (inputs.Failure at.now change cause) }
{
    Word::OnChannel(
        *at,
        Input::Failure {
            at: *at,
            change,
            cause,
        },
    )
}

/// Reads the measurement report in the message `l3`; `number` is the number of the MEASUREMENT
/// RESULT. The word of a message without a valid report is `Nothing`. `Err(Memory)` if an
/// allocation fails.
#[tactic(auto, using(crate::proofs::Readable::is_readable))]
pub(crate) fn report_word(alloc: Global, at: &Place, number: u8, l3: &[u8]) -> Result<Word, Memory>
    ensures word { IfOk result
        (λ word. word ≡ reading.report_word at.now number (rr_reading l3.now)) }
    ensures memory { IfErr result (λ _. IsReadable layer3.Memory (rr_reading l3.now)) }
{
    match RrMessage::read(alloc, l3) {
        Ok(RrMessage::MeasurementReport { value }) => Ok(valid_word(at, number, &value)),
        Ok(_) => Ok(Word::Nothing),
        Err(RrFault::Memory) => Err(Memory),
        Err(_) => Ok(Word::Nothing),
    }
}

// Reads a report of 16 octets. The word is `Nothing` if the report is invalid.
fn valid_word(at: &Place, number: u8, value: &[u8]) -> Word
    requires { length value.now ≡ REPORT_LENGTH }
    ensures { result ≡ reading.valid_word at.now number (report_reading value.now) }
{
    match Report::read(value) {
        Ok(report) if report.valid => Word::Reports(*at, number, report),
        _ => Word::Nothing,
    }
}

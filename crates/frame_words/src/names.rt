// SPDX-License-Identifier: MIT OR Apache-2.0
//! The names of the messages that frames carry.
ghost use Rattle.std.specs.Prelude.{◌≡◌};
ghost use Rattle.frame_words.specs.CarriedNames.{bssmap_name, dtap_name, interface_fault_name};
ghost use Rattle.frame_words.specs.CarriedNames.{rr_name};

use bssmap_codec::{BssmapType, InterfaceFault};
use dtap_codec::RrType;

/// The SAPI of short messages, which a DLCI has in bits 3 to 1 (TS 48.006 clause 9.3.2).
const SHORT_MESSAGE_SAPI: u8 = 3;

/// The name of a message of BSSMAP (TS 48.008 clause 3.2.1).
pub(crate) fn bssmap_name(kind: BssmapType) -> &'static str
    ensures { result.now ≡ bssmap_name kind }
{
    match kind {
        BssmapType::AssignmentRequest => "ASSIGNMENT REQUEST",
        BssmapType::AssignmentComplete => "ASSIGNMENT COMPLETE",
        BssmapType::AssignmentFailure => "ASSIGNMENT FAILURE",
        BssmapType::HandoverPerformed => "HANDOVER PERFORMED",
        BssmapType::ClearCommand => "CLEAR COMMAND",
        BssmapType::ClearComplete => "CLEAR COMPLETE",
        BssmapType::ClearRequest => "CLEAR REQUEST",
        BssmapType::SapiNReject => "SAPI N REJECT",
        BssmapType::CipherModeCommand => "CIPHER MODE COMMAND",
        BssmapType::CompleteLayer3Information => "COMPLETE LAYER 3 INFORMATION",
        BssmapType::CipherModeReject => "CIPHER MODE REJECT",
    }
}

/// `DTAP SAPI 3` if the DLCI has that SAPI, else `DTAP SAPI 0`.
pub(crate) fn dtap_name(dlci: u8) -> &'static str
    ensures { result.now ≡ dtap_name dlci }
{
    if dlci % 8 == SHORT_MESSAGE_SAPI {
        "DTAP SAPI 3"
    } else {
        "DTAP SAPI 0"
    }
}

/// The name of a fault in the octets of a message of the switch link.
pub(crate) fn interface_fault_name(fault: InterfaceFault) -> &'static str
    ensures { result.now ≡ interface_fault_name fault }
{
    match fault {
        InterfaceFault::Short => "fault A1",
        InterfaceFault::UnknownType => "fault A2",
        InterfaceFault::MissingElement(_) => "fault A3",
        InterfaceFault::BadPointer => "fault A4",
        InterfaceFault::TooLong => "fault A5",
        InterfaceFault::Memory => "fault A6",
    }
}

/// The name of a message of radio resource management (TS 44.018 clause 9.1).
pub(crate) fn rr_name(kind: RrType) -> &'static str
    ensures { result.now ≡ rr_name kind }
{
    match kind {
        RrType::HandoverCommand => "RR HANDOVER COMMAND",
        RrType::AssignmentCommand => "RR ASSIGNMENT COMMAND",
        RrType::HandoverComplete => "RR HANDOVER COMPLETE",
        RrType::HandoverFailure => "RR HANDOVER FAILURE",
        RrType::AssignmentComplete => "RR ASSIGNMENT COMPLETE",
        RrType::AssignmentFailure => "RR ASSIGNMENT FAILURE",
        RrType::ChannelRelease => "RR CHANNEL RELEASE",
        RrType::ImmediateAssignment => "RR IMMEDIATE ASSIGNMENT",
        RrType::MeasurementReport => "RR MEASUREMENT REPORT",
        RrType::PagingResponse => "RR PAGING RESPONSE",
    }
}

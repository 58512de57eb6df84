// SPDX-License-Identifier: MIT OR Apache-2.0
//! The names that `bsc decode` prints for the contents of frames.
ghost use Rattle.std.specs.Prelude.{◌≡◌, IfOk};
ghost use Rattle.rsl_codec.specs.declared.rsl.Rsl.{Rsl as Message};
ghost use Rattle.rsl_codec.specs.RslType.{type_of};
ghost use Rattle.program_base.specs.Names.{ccm_name as ccm_name_of, name_of};
ghost use Rattle.program_base.specs.Names.{rsl_fault_name as rsl_fault_name_of};
ghost use Rattle.program_base.specs.Names.{rsl_message_name as rsl_message_name_of};
ghost use Rattle.program_base.specs.Names.{rsl_name as rsl_name_of};
ghost use Rattle.program_base.specs.Names.{sccp_message_name as sccp_message_name_of};
ghost use Rattle.program_base.specs.Names.{sccp_name as sccp_name_of};

use bssmap_codec::{InterfaceFault, Sccp, read_sccp};
use ipa_framing::{CCM_STREAM, Frame, OML_STREAM, PING, PONG, RSL_STREAM, SCCP_STREAM};
use octets::Memory;
use rsl_codec::{Rsl, RslFault, RslType};
use std::alloc::Global;

/// The name of an RSL message (TS 48.058 clause 8).
pub fn rsl_message_name(message: &Rsl) -> &'static str
    ensures { result.now ≡ rsl_message_name_of message.now }
{
    rsl_type_name(message.kind())
}

/// The name of the messages of a type.
fn rsl_type_name(kind: RslType) -> &'static str
    ensures { (message : Message) → type_of message ≡ kind →
        result.now ≡ rsl_message_name_of message }
{
    match kind {
        RslType::DataRequest => "DATA REQUEST",
        RslType::DataIndication => "DATA INDICATION",
        RslType::ErrorIndication => "ERROR INDICATION",
        RslType::EstablishRequest => "ESTABLISH REQUEST",
        RslType::EstablishConfirm => "ESTABLISH CONFIRM",
        RslType::EstablishIndication => "ESTABLISH INDICATION",
        RslType::ReleaseRequest => "RELEASE REQUEST",
        RslType::ReleaseConfirm => "RELEASE CONFIRM",
        RslType::ReleaseIndication => "RELEASE INDICATION",
        RslType::ChannelRequired => "CHANNEL REQUIRED",
        RslType::ImmediateAssignCommand => "IMMEDIATE ASSIGN COMMAND",
        RslType::ChannelActivation => "CHANNEL ACTIVATION",
        RslType::ChannelActivationAck => "CHANNEL ACTIVATION ACK",
        RslType::ChannelActivationNack => "CHANNEL ACTIVATION NACK",
        RslType::ConnectionFailure => "CONNECTION FAILURE",
        RslType::HandoverDetection => "HANDOVER DETECTION",
        RslType::MeasurementResult => "MEASUREMENT RESULT",
        RslType::RfChannelRelease => "RF CHANNEL RELEASE",
        RslType::RfChannelReleaseAck => "RF CHANNEL RELEASE ACK",
    }
}

/// The name of a fault in the octets of an RSL message: `fault S1` to `fault S6`. `fault S5`, the
/// name of `Memory`, is never printed.
pub fn rsl_fault_name(fault: RslFault) -> &'static str
    ensures { result.now ≡ rsl_fault_name_of fault }
{
    match fault {
        RslFault::Short => "fault S1",
        RslFault::UnknownType => "fault S2",
        RslFault::MissingElement(_) => "fault S3",
        RslFault::BadChannel => "fault S4",
        RslFault::Memory => "fault S5",
        RslFault::TooLong => "fault S6",
    }
}

/// The name of the RSL message in a frame's body, or of the fault in it.
fn rsl_name(alloc: Global, body: &[u8]) -> Result<&'static str, Memory>
    ensures { IfOk result (λ name. name.now ≡ rsl_name_of body.now) }
{
    match Rsl::read_type(alloc, body) {
        Ok(kind) => Ok(rsl_type_name(kind)),
        Err(RslFault::Memory) => Err(Memory),
        Err(fault) => Ok(rsl_fault_name(fault)),
    }
}

/// The name of a CCM message, by its first octet.
fn ccm_name(body: &[u8]) -> &'static str
    ensures { result.now ≡ ccm_name_of body.now }
{
    match body {
        [PING, ..] => "PING",
        [PONG, ..] => "PONG",
        _ => "CCM",
    }
}

/// The name of an SCCP message (Q.713 clause 4).
pub fn sccp_message_name(message: &Sccp) -> &'static str
    ensures { result.now ≡ sccp_message_name_of message.now }
{
    match message {
        Sccp::ConnectionRequest { .. } => "CR",
        Sccp::ConnectionConfirm { .. } => "CC",
        Sccp::ConnectionRefused { .. } => "CREF",
        Sccp::Released { .. } => "RLSD",
        Sccp::ReleaseComplete { .. } => "RLC",
        Sccp::DataForm1 { .. } => "DT1",
    }
}

/// The name of the SCCP message in a frame's body, or of the fault in it. The message's data isn't
/// read.
fn sccp_name(alloc: Global, body: &[u8]) -> Result<&'static str, Memory>
    ensures { IfOk result (λ name. name.now ≡ sccp_name_of body.now) }
{
    match read_sccp(alloc, body) {
        Ok(message) => Ok(sccp_message_name(&message)),
        Err(InterfaceFault::Short) => Ok("fault A1"),
        Err(InterfaceFault::UnknownType) => Ok("fault A2"),
        Err(InterfaceFault::MissingElement(_)) => Ok("fault A3"),
        Err(InterfaceFault::BadPointer) => Ok("fault A4"),
        Err(InterfaceFault::TooLong) => Ok("fault A5"),
        Err(InterfaceFault::Memory) => Err(Memory),
    }
}

/// The name of a frame's contents, by its stream: the name of an RSL, SCCP or CCM message, or of
/// the fault in it; `OML`; or `unknown`. Fails only on allocation failure.
pub fn frame_name(alloc: Global, frame: &Frame) -> Result<&'static str, Memory>
    ensures { IfOk result (λ name. name.now ≡ name_of frame.now) }
{
    match frame.stream {
        RSL_STREAM => rsl_name(alloc, frame.body.as_slice()),
        SCCP_STREAM => sccp_name(alloc, frame.body.as_slice()),
        CCM_STREAM => Ok(ccm_name(frame.body.as_slice())),
        OML_STREAM => Ok("OML"),
        _ => Ok("unknown"),
    }
}

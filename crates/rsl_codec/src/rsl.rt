// SPDX-License-Identifier: MIT OR Apache-2.0
ghost use Rattle.std.specs.Prelude.{◌≡◌, ◌++◌, ◌⊎◌, ℕ, List, None, Some, IfOk, OnErr};
ghost use Rattle.std.specs.Prelude.{OnOk, option_map};
ghost use Rattle.std.specs.Result.{result_err};
ghost use Rattle.octets.specs.Answer.{Gives};
ghost use Rattle.octets.specs.Element.{Stops};
ghost use Rattle.octets.specs.Refusal.{RefusesBy};
ghost use Rattle.rsl_codec.specs.declared.rsl.Rsl.{Rsl as RslValue};
ghost use Rattle.rsl_codec.specs.declared.identifiers.TheConstants.{ELEMENTS};
ghost use Rattle.rsl_codec.specs.Rsl.{IsLawful, IsRsl, fields, l3_of};
ghost use Rattle.rsl_codec.specs.RslFaults.{RefusesRsl};
ghost use Rattle.rsl_codec.specs.RslReading.{elements_of, message_at, rsl_reading, rsl_reading_by};
ghost use Rattle.rsl_codec.specs.RslText.{rsl_fields_text, rsl_text, rsl_write_fault, value_of};
ghost use Rattle.rsl_codec.specs.RslType.{type_of};

use crate::dedicated_channel::{put_channel, read_channel};
use crate::fields::is_cut;
use crate::measured::measured_values;
use crate::{
    Activation, ActivationAck, ChanNo, ChannelRequired, Data, Detection, ErrorReport,
    Establishment, Failure, ImmediateAssignment, Link, MeasurementResult, Release, RslFault,
    RslType,
};
use octets::text::{TEXT_ROOM, hand_over};
use octets::{LENGTH_LIMIT, MESSAGE_LIMIT, Memory, Octets};
use std::alloc::Global;

/// A message between a base station and its controller (TS 48.058 clause 8).
///
/// It consists of the message discriminator octet, the message type octet, and elements in any
/// order. An element consists of an identifier, in some formats a length, and a value. The layout
/// in which a message is written is documented at the type that its variant holds, or at the
/// variant.
///
/// In a layout, identifiers are hexadecimal, `name:n` is a field of n octets, and `name` is a field
/// of as many octets as the `length` before it says. An element whose field is an `Option` may be
/// absent.
#[derive(Drop)]
pub enum Rsl {
    DataRequest(Data),
    DataIndication(Data),
    ErrorIndication(ErrorReport),
    EstablishRequest(Link),
    EstablishConfirm(Link),
    EstablishIndication(Establishment),
    ReleaseRequest(Release),
    ReleaseConfirm(Link),
    ReleaseIndication(Link),
    ChannelRequired(ChannelRequired),
    ImmediateAssignCommand(ImmediateAssignment),
    ChannelActivation(Activation),
    ChannelActivationAck(ActivationAck),
    ChannelActivationNack(Failure),
    ConnectionFailure(Failure),
    HandoverDetection(Detection),
    MeasurementResult(MeasurementResult),
    /// `01 channel:1`: the channel that is to be released.
    RfChannelRelease(ChanNo),
    /// `01 channel:1`: the channel that was released.
    RfChannelReleaseAck(ChanNo),
}

/// Reads a message of type `kind` from the elements of `body`, which may come in any order.
#[tactic(auto, unfolding(crate::specs::RslReading::message_at))]
fn message(alloc: Global, kind: RslType, body: &[u8]) -> Result<Rsl, RslFault>
    ensures { Gives RslFault.Memory (λ v. v) result (message_at kind (elements_of body.now)) }
{
    Ok(match kind {
        RslType::DataRequest => Rsl::DataRequest(Data::read(alloc, body)?),
        RslType::DataIndication => Rsl::DataIndication(Data::read(alloc, body)?),
        RslType::ErrorIndication => Rsl::ErrorIndication(ErrorReport::read(alloc, body)?),
        RslType::EstablishRequest => Rsl::EstablishRequest(Link::read(body)?),
        RslType::EstablishConfirm => Rsl::EstablishConfirm(Link::read(body)?),
        RslType::EstablishIndication => Rsl::EstablishIndication(Establishment::read(alloc, body)?),
        RslType::ReleaseRequest => Rsl::ReleaseRequest(Release::read(body)?),
        RslType::ReleaseConfirm => Rsl::ReleaseConfirm(Link::read(body)?),
        RslType::ReleaseIndication => Rsl::ReleaseIndication(Link::read(body)?),
        RslType::ChannelRequired => Rsl::ChannelRequired(ChannelRequired::read(body)?),
        RslType::ImmediateAssignCommand => {
            Rsl::ImmediateAssignCommand(ImmediateAssignment::read(alloc, body)?)
        }
        RslType::ChannelActivation => Rsl::ChannelActivation(Activation::read(alloc, body)?),
        RslType::ChannelActivationAck => Rsl::ChannelActivationAck(ActivationAck::read(body)?),
        RslType::ChannelActivationNack => Rsl::ChannelActivationNack(Failure::read(alloc, body)?),
        RslType::ConnectionFailure => Rsl::ConnectionFailure(Failure::read(alloc, body)?),
        RslType::HandoverDetection => Rsl::HandoverDetection(Detection::read(body)?),
        RslType::MeasurementResult => Rsl::MeasurementResult(MeasurementResult::read(alloc, body)?),
        RslType::RfChannelRelease => Rsl::RfChannelRelease(read_channel(body)?),
        RslType::RfChannelReleaseAck => Rsl::RfChannelReleaseAck(read_channel(body)?),
    })
}

/// Reads a message. The faults are listed at `Rsl::read`.
#[tactic(auto, unfolding(crate::specs::RslReading::rsl_reading))]
fn read_all(alloc: Global, octets: &[u8]) -> Result<Rsl, RslFault>
    ensures { Gives RslFault.Memory (λ v. v) result (rsl_reading octets.now) }
{
    let [discriminator, octet, body @ ..] = octets else {
        return Err(RslFault::Short);
    };
    let Some(kind) = RslType::of_octets(*discriminator, *octet) else {
        return Err(RslFault::UnknownType);
    };
    read_body(alloc, kind, body)
}

/// Reads a message of type `kind` from `body`, the octets after the type. A MEASUREMENT RESULT is
/// read without a walk over its elements if they are in written order and all present; only the L3
/// information may be absent.
#[tactic(auto, unfolding(crate::specs::RslReading::breaks_off, crate::specs::RslReading::elements_of, crate::specs::RslReading::message_at))]
fn read_body(alloc: Global, kind: RslType, body: &[u8]) -> Result<Rsl, RslFault>
    ensures { Gives RslFault.Memory (λ v. v) result (rsl_reading_by (Some kind) body.now) }
{
    if let RslType::MeasurementResult = kind {
        if let Some(values) = measured_values(body) {
            return Ok(Rsl::MeasurementResult(MeasurementResult::of(alloc, values)?));
        }
    }
    if is_cut(body) {
        return Err(RslFault::Short);
    }
    message(alloc, kind, body)
}

impl Rsl {
    /// Reads a message from its octets.
    ///
    /// Elements may come in any order. If an element is repeated, the first counts. Reading stops
    /// at the first identifier that no known element has; the octets from there on are ignored. If
    /// several of these faults occur, the first in this list is returned:
    ///
    /// - `Short`: there are fewer than two octets.
    /// - `UnknownType`: no known message has this discriminator and type.
    /// - `Short`: the octets end within an element.
    /// - `MissingElement`: a mandatory element is missing. The fault holds the identifier of the
    ///   first missing element in written order.
    /// - `BadChannel`: no channel has the channel number.
    /// - `Short`: the L3 information is empty.
    /// - `TooLong`: the L3 information has more than 251 octets.
    /// - `Memory`: memory ran out.
    pub fn read(alloc: Global, octets: &[u8]) -> Result<Rsl, RslFault>
        // The result is `rsl_reading` of the octets, or `Memory`.
        ensures reads { Gives RslFault.Memory (λ v. v) result (rsl_reading octets.now) }
        // If a message is read, the octets are a text of it.
        ensures found { IfOk result (λ v. IsRsl octets.now v) }
        // If the octets are a text of a message, that message is read, unless memory runs out.
        ensures only { (v : RslValue) → IsRsl octets.now v →
            ((result ≡ Ok v) ⊎ (result ≡ Err RslFault.Memory)) }
        // A refusal returns the first fault of the octets. `Memory` is returned only if the octets
        // have no fault.
        ensures refused { RefusesBy RslFault.Memory result (result_err (rsl_reading octets.now)) }
        // `FirstFault` says what the first fault is: too few octets, an unknown type, or the first
        // cause that holds for the elements.
        ensures fault { RefusesRsl octets.now result }
    {
        read_all(alloc, octets)
    }

    /// The type of the message.
    pub fn kind(&self) -> RslType
        ensures { result ≡ type_of self.now }
    {
        match self {
            Rsl::DataRequest(_) => RslType::DataRequest,
            Rsl::DataIndication(_) => RslType::DataIndication,
            Rsl::ErrorIndication(_) => RslType::ErrorIndication,
            Rsl::EstablishRequest(_) => RslType::EstablishRequest,
            Rsl::EstablishConfirm(_) => RslType::EstablishConfirm,
            Rsl::EstablishIndication(_) => RslType::EstablishIndication,
            Rsl::ReleaseRequest(_) => RslType::ReleaseRequest,
            Rsl::ReleaseConfirm(_) => RslType::ReleaseConfirm,
            Rsl::ReleaseIndication(_) => RslType::ReleaseIndication,
            Rsl::ChannelRequired(_) => RslType::ChannelRequired,
            Rsl::ImmediateAssignCommand(_) => RslType::ImmediateAssignCommand,
            Rsl::ChannelActivation(_) => RslType::ChannelActivation,
            Rsl::ChannelActivationAck(_) => RslType::ChannelActivationAck,
            Rsl::ChannelActivationNack(_) => RslType::ChannelActivationNack,
            Rsl::ConnectionFailure(_) => RslType::ConnectionFailure,
            Rsl::HandoverDetection(_) => RslType::HandoverDetection,
            Rsl::MeasurementResult(_) => RslType::MeasurementResult,
            Rsl::RfChannelRelease(_) => RslType::RfChannelRelease,
            Rsl::RfChannelReleaseAck(_) => RslType::RfChannelReleaseAck,
        }
    }

    /// The L3 information, if the message has any.
    fn l3(&self) -> Option<&Octets>
        ensures { option_map (λ o. o.now) result ≡ l3_of self.now }
    {
        match self {
            Rsl::DataRequest(data) => Some(&data.l3),
            Rsl::DataIndication(data) => Some(&data.l3),
            Rsl::EstablishIndication(establishment) => establishment.l3.as_ref(),
            Rsl::MeasurementResult(report) => report.l3.as_ref(),
            _ => None,
        }
    }

    /// The value whose length is written in one octet; `None` if the message has no such value. No
    /// message has two such values.
    fn value(&self) -> Option<&Octets>
        ensures { option_map (λ o. o.now) result ≡ value_of self.now }
    {
        match self {
            Rsl::ErrorIndication(error) => error.cause.as_ref().map(|cause| &cause.0),
            Rsl::ImmediateAssignCommand(assignment) => Some(&assignment.information),
            Rsl::ChannelActivation(activation) => Some(&activation.mode.0),
            Rsl::ChannelActivationNack(failure) => failure.cause.as_ref().map(|cause| &cause.0),
            Rsl::ConnectionFailure(failure) => failure.cause.as_ref().map(|cause| &cause.0),
            Rsl::MeasurementResult(report) => report.uplink.as_ref().map(|uplink| &uplink.0),
            _ => None,
        }
    }

    /// The fault with which `write` refuses the message, apart from `Memory`; `None` if the message
    /// can be written.
    #[tactic(auto, unfolding(crate::specs::RslText::rsl_write_fault))]
    fn refusal(&self) -> Option<RslFault>
        ensures { result ≡ rsl_write_fault self.now }
    {
        if self.l3().is_some_and(|l3| l3.len() == 0) {
            return Some(RslFault::Short);
        }
        if self.l3().is_some_and(|l3| l3.len() > MESSAGE_LIMIT)
            || self.value().is_some_and(|value| value.len() > LENGTH_LIMIT)
        {
            return Some(RslFault::TooLong);
        }
        None
    }

    /// Appends the elements that are present, in written order.
    #[tactic(auto, unfolding(crate::specs::RslText::rsl_write_fault))]
    fn put(&self, text: &mut Vec<u8>) -> Result<(), Memory>
        requires { rsl_write_fault self.now ≡ None }
        ensures { OnOk result
            (text.new.items ≡ text.old.items ++ rsl_fields_text (fields self.now)) }
    {
        match self {
            Rsl::DataRequest(data) => data.put(text),
            Rsl::DataIndication(data) => data.put(text),
            Rsl::ErrorIndication(error) => error.put(text),
            Rsl::EstablishRequest(link) => link.put(text),
            Rsl::EstablishConfirm(link) => link.put(text),
            Rsl::EstablishIndication(establishment) => establishment.put(text),
            Rsl::ReleaseRequest(release) => release.put(text),
            Rsl::ReleaseConfirm(link) => link.put(text),
            Rsl::ReleaseIndication(link) => link.put(text),
            Rsl::ChannelRequired(required) => required.put(text),
            Rsl::ImmediateAssignCommand(assignment) => assignment.put(text),
            Rsl::ChannelActivation(activation) => activation.put(text),
            Rsl::ChannelActivationAck(ack) => ack.put(text),
            Rsl::ChannelActivationNack(failure) => failure.put(text),
            Rsl::ConnectionFailure(failure) => failure.put(text),
            Rsl::HandoverDetection(detection) => detection.put(text),
            Rsl::MeasurementResult(report) => report.put(text),
            Rsl::RfChannelRelease(channel) => put_channel(text, *channel),
            Rsl::RfChannelReleaseAck(channel) => put_channel(text, *channel),
        }
    }

    /// The octets that are written for the message.
    fn text(&self, alloc: Global) -> Result<Vec<u8>, Memory>
        requires { rsl_write_fault self.now ≡ None }
        ensures { IfOk result (λ text. text.items ≡ rsl_text self.now) }
    {
        let kind = self.kind();
        let mut text = Vec::with_capacity(alloc, TEXT_ROOM)?;
        text.extend_from_slice(&[kind.discriminator(), kind.octet()])?;
        self.put(&mut text)?;
        Ok(text)
    }

    /// Appends the octets of the message to `out`. On `Err`, `out` is unchanged. If several of
    /// these faults occur, the first in this list is returned:
    ///
    /// - `Short`: the L3 information is empty.
    /// - `TooLong`: the L3 information has more than 251 octets, or another value more than 255.
    /// - `Memory`: memory ran out.
    pub fn write(&self, alloc: Global, out: &mut Vec<u8>) -> Result<(), RslFault>
        ensures ok { OnOk result (out.new.items ≡ out.old.items ++ rsl_text self.now) }
        ensures err { OnErr result (out.new.items ≡ out.old.items) }
        ensures refused { RefusesBy RslFault.Memory result (rsl_write_fault self.now) }
    {
        if let Some(fault) = self.refusal() {
            return Err(fault);
        }
        hand_over(self.text(alloc)?, out)?;
        Ok(())
    }
}

/// Law: octets that are a text of a message are read as that message. The octets written for a
/// message are a text of that message, alone or before octets that don't begin with the identifier
/// of a known element. Assumes for the second sentence: the channel number is allowed, the L3
/// information has 1 to 251 octets if present, and a value whose length is written in one octet has
/// at most 255 octets.
pub fn rsl_text_is_read()
    ensures text { (v : RslValue) (more : List ℕ) → IsLawful v → rsl_write_fault v ≡ None →
        Stops ELEMENTS more →
        IsRsl (rsl_text v ++ more) v }
    ensures read { (v : RslValue) (octets : List ℕ) → IsRsl octets v → rsl_reading octets ≡ Ok v }
{}

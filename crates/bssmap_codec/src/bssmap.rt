// SPDX-License-Identifier: MIT OR Apache-2.0
ghost use Rattle.std.specs.Prelude.{◌≡◌, ◌≤◌, ◌<◌, ◌-◌, ◌^◌, ◌∷◌, []};
ghost use Rattle.std.specs.Prelude.{◌++◌, length, min};
ghost use Rattle.std.specs.Prelude.{option_map, IfOk, OnOk};
ghost use Rattle.octets.specs.Answer.{Gives, result_map};
ghost use Rattle.octets.specs.Field.{field_text, fields_text};
ghost use Rattle.octets.specs.Front.{counted_text};
ghost use Rattle.octets.specs.Refusal.{first_refusal};
ghost use Rattle.octets.specs.Walk.{first_of};
ghost use Rattle.octets.specs.declared.limits.TheConstants.{LENGTH_LIMIT};
ghost use Rattle.bssmap_codec.specs.declared.fault.InterfaceFault.TheVariants.{Memory as OutOfMemory};
ghost use Rattle.bssmap_codec.specs.declared.identifiers.TheConstants.{ELEMENTS};
ghost use Rattle.bssmap_codec.specs.Bssap.{fields, rr_cause_field};
ghost use Rattle.bssmap_codec.specs.BssapReading as reading;
ghost use Rattle.bssmap_codec.specs.BssapText.{bssmap_size, bssmap_text, content_fault};
ghost use Rattle.bssmap_codec.specs.BssapText.{rr_cause_size};
ghost use Rattle.bssmap_codec.specs.BssmapType.{type_of};
ghost use Rattle.bssmap_codec.specs.SccpText.{size_fault};

use crate::identifiers::{
    CAUSE, CELL_IDENTIFIER, CHANNEL_TYPE, DLCI, ELEMENTS, LAYER_3_INFORMATION, RR_CAUSE,
};
use crate::{
    BssmapType, Cause, CellIdentifier, ChannelType, InterfaceFault, RejectedDlci, RrCause, layer3,
};
use octets::element::{Format, append, first_value, is_cut};
use octets::front::octet;
use octets::text::TEXT_ROOM;
use octets::{LENGTH_LIMIT, Memory, Octets};
use std::alloc::Global;

/// A message of BSSMAP, between the base station system and the switch (TS 48.008 clause 3.2.1).
/// The comment on each variant shows its octets as they are written: fixed octets in hexadecimal,
/// and each other part by name. The number after a colon is the part's number of octets; a part
/// without a number has as many octets as the length before it says. `15 rr_cause:1` is left out if
/// there is no RR cause.
#[derive(Drop)]
pub enum Bssmap {
    /// `01 0b length:1 channel_type`
    AssignmentRequest {
        channel_type: ChannelType,
    },
    /// `02 15 rr_cause:1`
    AssignmentComplete {
        rr_cause: Option<RrCause>,
    },
    /// `03 04 length:1 cause 15 rr_cause:1`
    AssignmentFailure {
        cause: Cause,
        rr_cause: Option<RrCause>,
    },
    /// `17 04 length:1 cause 05 length:1 cell`
    HandoverPerformed {
        cause: Cause,
        cell: CellIdentifier,
    },
    /// `20 04 length:1 cause`
    ClearCommand {
        cause: Cause,
    },
    /// `21`
    ClearComplete,
    /// `22 04 length:1 cause`
    ClearRequest {
        cause: Cause,
    },
    /// `25 18 dlci:1 04 length:1 cause`
    SapiNReject {
        dlci: RejectedDlci,
        cause: Cause,
    },
    /// `53`
    CipherModeCommand,
    /// `57 05 length:1 cell 17 length:1 layer3`
    CompleteLayer3Information {
        cell: CellIdentifier,
        /// The initial message of the mobile: 1 to 251 octets.
        layer3: Octets,
    },
    /// `59 04 length:1 cause`
    CipherModeReject {
        cause: Cause,
    },
}

impl Bssmap {
    /// The type of the message.
    pub fn kind(&self) -> BssmapType
        ensures { result ≡ type_of self.now }
    {
        match self {
            Bssmap::AssignmentRequest { .. } => BssmapType::AssignmentRequest,
            Bssmap::AssignmentComplete { .. } => BssmapType::AssignmentComplete,
            Bssmap::AssignmentFailure { .. } => BssmapType::AssignmentFailure,
            Bssmap::HandoverPerformed { .. } => BssmapType::HandoverPerformed,
            Bssmap::ClearCommand { .. } => BssmapType::ClearCommand,
            Bssmap::ClearComplete => BssmapType::ClearComplete,
            Bssmap::ClearRequest { .. } => BssmapType::ClearRequest,
            Bssmap::SapiNReject { .. } => BssmapType::SapiNReject,
            Bssmap::CipherModeCommand => BssmapType::CipherModeCommand,
            Bssmap::CompleteLayer3Information { .. } => BssmapType::CompleteLayer3Information,
            Bssmap::CipherModeReject { .. } => BssmapType::CipherModeReject,
        }
    }
}

#[tactic(auto, unfolding(crate::specs::BssapReading::breaks_off))]
fn ends_cut(elements: &[u8]) -> bool
    ensures { result ≡ reading.breaks_off elements.now }
{
    is_cut(&ELEMENTS, elements)
}

// Reads the message of type `kind` from the octets of its elements. Returns `Short` if an element
// is cut, then the first fault that `content_at` finds; `Memory` if an allocation fails.
#[tactic(auto, unfolding(crate::specs::BssapReading::message_at))]
pub(crate) fn read_message(
    alloc: Global,
    kind: BssmapType,
    elements: &[u8],
) -> Result<Bssmap, InterfaceFault>
    ensures { Gives OutOfMemory (λ v. v) result (reading.message_at kind elements.now) }
{
    if ends_cut(elements) {
        return Err(InterfaceFault::Short);
    }
    read_content(alloc, kind, elements)
}

fn read_content(alloc: Global, kind: BssmapType, elements: &[u8]) -> Result<Bssmap, InterfaceFault>
    ensures { Gives OutOfMemory (λ v. v) result
        (reading.content_at kind (reading.elements_of elements.now)) }
{
    match kind {
        BssmapType::AssignmentRequest => read_assignment_request(alloc, elements),
        BssmapType::AssignmentComplete => read_assignment_complete(elements),
        BssmapType::AssignmentFailure => read_assignment_failure(alloc, elements),
        BssmapType::HandoverPerformed => read_handover_performed(alloc, elements),
        BssmapType::ClearCommand => Ok(Bssmap::ClearCommand {
            cause: read_cause(alloc, elements)?,
        }),
        BssmapType::ClearComplete => Ok(Bssmap::ClearComplete),
        BssmapType::ClearRequest => Ok(Bssmap::ClearRequest {
            cause: read_cause(alloc, elements)?,
        }),
        BssmapType::SapiNReject => read_reject(alloc, elements),
        BssmapType::CipherModeCommand => Ok(Bssmap::CipherModeCommand),
        BssmapType::CompleteLayer3Information => read_complete_layer3(alloc, elements),
        BssmapType::CipherModeReject => Ok(Bssmap::CipherModeReject {
            cause: read_cause(alloc, elements)?,
        }),
    }
}

// The value of the first element with identifier `id`; `None` if there is no such element.
#[tactic(auto, unfolding(crate::specs::BssapReading::elements_of))]
fn found(elements: &[u8], id: u8) -> Option<&[u8]>
    ensures { option_map (λ v. v.now) result ≡ first_of id (reading.elements_of elements.now) }
{
    first_value(&ELEMENTS, elements, id)
}

// The value of the first element with identifier `id`; `MissingElement` if there is no such
// element.
#[tactic(auto, unfolding(crate::specs::BssapReading::needed_value))]
fn value(elements: &[u8], id: u8) -> Result<&[u8], InterfaceFault>
    ensures { result_map (λ v. v.now) result ≡
        reading.needed_value id (reading.elements_of elements.now) }
{
    match found(elements, id) {
        Some(value) => Ok(value),
        None => Err(InterfaceFault::MissingElement(id)),
    }
}

// The first octet in the value of the first element with identifier `id`. Returns `MissingElement`
// if there is no such element, and `Short` if its value is empty.
#[tactic(auto, unfolding(crate::specs::BssapReading::needed_octet))]
fn octet_value(elements: &[u8], id: u8) -> Result<u8, InterfaceFault>
    ensures { result ≡ reading.needed_octet id (reading.elements_of elements.now) }
{
    let (first, _rest) = octet(value(elements, id)?, InterfaceFault::Short)?;
    Ok(first)
}

#[tactic(auto, unfolding(crate::specs::BssapReading::rr_cause_in))]
fn rr_cause(elements: &[u8]) -> Result<Option<RrCause>, InterfaceFault>
    ensures { result ≡ reading.rr_cause_in (reading.elements_of elements.now) }
{
    match found(elements, RR_CAUSE) {
        Some(value) => {
            let (first, _rest) = octet(value, InterfaceFault::Short)?;
            Ok(Some(RrCause(first)))
        }
        None => Ok(None),
    }
}

// Reads the cause of a message that needs only a cause. Returns `MissingElement` if there is no
// cause, and `Memory` if the allocation fails.
#[tactic(auto, unfolding(crate::specs::BssapReading::cause_at))]
fn read_cause(alloc: Global, elements: &[u8]) -> Result<Cause, InterfaceFault>
    ensures { Gives OutOfMemory (λ v. v) result
        (reading.cause_at (reading.elements_of elements.now)) }
{
    let cause = value(elements, CAUSE)?;
    Ok(Cause(Octets::copy(alloc, cause)?))
}

#[tactic(auto, unfolding(crate::specs::BssapReading::assignment_request_at))]
fn read_assignment_request(alloc: Global, elements: &[u8]) -> Result<Bssmap, InterfaceFault>
    ensures { Gives OutOfMemory (λ v. v) result
        (reading.assignment_request_at (reading.elements_of elements.now)) }
{
    let channel = value(elements, CHANNEL_TYPE)?;
    Ok(Bssmap::AssignmentRequest {
        channel_type: ChannelType(Octets::copy(alloc, channel)?),
    })
}

#[tactic(auto, unfolding(crate::specs::BssapReading::assignment_complete_at))]
fn read_assignment_complete(elements: &[u8]) -> Result<Bssmap, InterfaceFault>
    ensures { result ≡ reading.assignment_complete_at (reading.elements_of elements.now) }
{
    Ok(Bssmap::AssignmentComplete {
        rr_cause: rr_cause(elements)?,
    })
}

#[tactic(auto, unfolding(crate::specs::BssapReading::assignment_failure_at))]
fn read_assignment_failure(alloc: Global, elements: &[u8]) -> Result<Bssmap, InterfaceFault>
    ensures { Gives OutOfMemory (λ v. v) result
        (reading.assignment_failure_at (reading.elements_of elements.now)) }
{
    let cause = value(elements, CAUSE)?;
    let rr_cause = rr_cause(elements)?;
    Ok(Bssmap::AssignmentFailure {
        cause: Cause(Octets::copy(alloc, cause)?),
        rr_cause,
    })
}

#[tactic(auto, unfolding(crate::specs::BssapReading::handover_performed_at))]
fn read_handover_performed(alloc: Global, elements: &[u8]) -> Result<Bssmap, InterfaceFault>
    ensures { Gives OutOfMemory (λ v. v) result
        (reading.handover_performed_at (reading.elements_of elements.now)) }
{
    let cause = value(elements, CAUSE)?;
    let cell = value(elements, CELL_IDENTIFIER)?;
    let cause = Cause(Octets::copy(alloc, cause)?);
    let cell = CellIdentifier(Octets::copy(alloc, cell)?);
    Ok(Bssmap::HandoverPerformed { cause, cell })
}

#[tactic(auto, unfolding(crate::specs::BssapReading::reject_at))]
fn read_reject(alloc: Global, elements: &[u8]) -> Result<Bssmap, InterfaceFault>
    ensures { Gives OutOfMemory (λ v. v) result
        (reading.reject_at (reading.elements_of elements.now)) }
{
    let dlci = octet_value(elements, DLCI)?;
    let cause = value(elements, CAUSE)?;
    Ok(Bssmap::SapiNReject {
        dlci: RejectedDlci(dlci),
        cause: Cause(Octets::copy(alloc, cause)?),
    })
}

#[tactic(auto, unfolding(crate::specs::BssapReading::complete_layer3_at))]
fn read_complete_layer3(alloc: Global, elements: &[u8]) -> Result<Bssmap, InterfaceFault>
    ensures { Gives OutOfMemory (λ v. v) result
        (reading.complete_layer3_at (reading.elements_of elements.now)) }
{
    let cell = value(elements, CELL_IDENTIFIER)?;
    let message = value(elements, LAYER_3_INFORMATION)?;
    let message = layer3::message(message)?;
    let cell = CellIdentifier(Octets::copy(alloc, cell)?);
    let layer3 = Octets::copy(alloc, message)?;
    Ok(Bssmap::CompleteLayer3Information { cell, layer3 })
}

// The fault for which the message isn't written; `None` if the message can be written.
pub(crate) fn management_refusal(message: &Bssmap) -> Option<InterfaceFault>
    ensures { result ≡
        first_refusal (content_fault message.now) (size_fault (bssmap_size message.now)) }
{
    match content_refusal(message) {
        Some(fault) => Some(fault),
        None if size(message) > LENGTH_LIMIT => Some(InterfaceFault::TooLong),
        None => None,
    }
}

fn content_refusal(message: &Bssmap) -> Option<InterfaceFault>
    ensures { result ≡ content_fault message.now }
{
    match message {
        Bssmap::CompleteLayer3Information { layer3, .. } => layer3::refusal(layer3.as_slice()),
        _ => None,
    }
}

// The number of octets of the message's text; saturates.
fn size(message: &Bssmap) -> usize
    ensures { result ≡ min (bssmap_size message.now) (2 ^ 64 - 1) }
{
    match message {
        Bssmap::AssignmentRequest { channel_type } => channel_type.0.len().saturating_add(3),
        Bssmap::AssignmentComplete { rr_cause } => optional_size(*rr_cause) + 1,
        Bssmap::AssignmentFailure { cause, rr_cause } => {
            cause.0.len().saturating_add(3 + optional_size(*rr_cause))
        }
        Bssmap::HandoverPerformed { cause, cell } => {
            let sizes = cause.0.len().saturating_add(cell.0.len());
            sizes.saturating_add(5)
        }
        Bssmap::ClearCommand { cause }
        | Bssmap::ClearRequest { cause }
        | Bssmap::CipherModeReject { cause } => cause.0.len().saturating_add(3),
        Bssmap::SapiNReject { cause, .. } => cause.0.len().saturating_add(5),
        Bssmap::CompleteLayer3Information { cell, layer3 } => {
            let sizes = cell.0.len().saturating_add(layer3.len());
            sizes.saturating_add(5)
        }
        Bssmap::ClearComplete | Bssmap::CipherModeCommand => 1,
    }
}

// The number of octets of the RR cause element; 0 if there is no RR cause.
fn optional_size(rr_cause: Option<RrCause>) -> usize
    ensures { result ≡ rr_cause_size rr_cause }
{
    match rr_cause {
        Some(_) => 2,
        None => 0,
    }
}

// The text of a message of BSSMAP. Assumes: the text has at most 255 octets, as a length octet can
// count.
pub(crate) fn management_text(alloc: Global, message: &Bssmap) -> Result<Vec<u8>, Memory>
    requires { bssmap_size message.now ≤ LENGTH_LIMIT }
    ensures { IfOk result (λ text. text.items ≡ bssmap_text message.now) }
{
    let mut text = Vec::with_capacity(alloc, TEXT_ROOM)?;
    text.push(message.kind().octet())?;
    put_fields(&mut text, message)?;
    Ok(text)
}

// Appends the elements of a message.
fn put_fields(text: &mut Vec<u8>, message: &Bssmap) -> Result<(), Memory>
    requires { bssmap_size message.now ≤ LENGTH_LIMIT }
    ensures { OnOk result
        (text.new.items ≡ text.old.items ++ fields_text ELEMENTS (fields message.now)) }
{
    match message {
        Bssmap::AssignmentRequest { channel_type } => {
            put_value(text, CHANNEL_TYPE, &channel_type.0)?;
        }
        Bssmap::AssignmentComplete { rr_cause } => put_rr_cause(text, *rr_cause)?,
        Bssmap::AssignmentFailure { cause, rr_cause } => {
            put_value(text, CAUSE, &cause.0)?;
            put_rr_cause(text, *rr_cause)?;
        }
        Bssmap::HandoverPerformed { cause, cell } => {
            put_value(text, CAUSE, &cause.0)?;
            put_value(text, CELL_IDENTIFIER, &cell.0)?;
        }
        Bssmap::ClearCommand { cause }
        | Bssmap::ClearRequest { cause }
        | Bssmap::CipherModeReject { cause } => put_value(text, CAUSE, &cause.0)?,
        Bssmap::SapiNReject { dlci, cause } => {
            append(text, Format::Tv(1), DLCI, &[dlci.0])?;
            put_value(text, CAUSE, &cause.0)?;
        }
        Bssmap::CompleteLayer3Information { cell, layer3 } => {
            put_value(text, CELL_IDENTIFIER, &cell.0)?;
            put_value(text, LAYER_3_INFORMATION, layer3)?;
        }
        Bssmap::ClearComplete | Bssmap::CipherModeCommand => {}
    }
    Ok(())
}

// Appends an element: its identifier, a length octet and its value.
fn put_value(text: &mut Vec<u8>, id: u8, value: &Octets) -> Result<(), Memory>
    requires { length value.now ≤ LENGTH_LIMIT }
    ensures { OnOk result (text.new.items ≡ text.old.items ++ id ∷ counted_text value.now) }
{
    append(text, Format::Tlv, id, value.as_slice())
}

// Appends the element of an RR cause, if there is one.
fn put_rr_cause(text: &mut Vec<u8>, rr_cause: Option<RrCause>) -> Result<(), Memory>
    ensures { OnOk result
        (text.new.items ≡ text.old.items ++
        field_text ELEMENTS RR_CAUSE (rr_cause_field rr_cause).value) }
{
    match rr_cause {
        Some(RrCause(octet)) => append(text, Format::Tv(1), RR_CAUSE, &[octet]),
        None => Ok(()),
    }
}

// SPDX-License-Identifier: MIT OR Apache-2.0
ghost use Rattle.std.specs.Prelude.{◌≡◌, ◌⊎◌, ◌<◌, ◌≤◌, ◌^◌, ◌++◌};
ghost use Rattle.std.specs.Prelude.{ℕ, List, length, IfOk, OnErr};
ghost use Rattle.std.specs.Prelude.{OnOk, None, Ok, Err};
ghost use Rattle.std.specs.Option.{ForSome};
ghost use Rattle.std.specs.Result.{result_err};
ghost use Rattle.octets.specs.Answer.{Gives, result_map};
ghost use Rattle.octets.specs.Refusal.{RefusesBy};
ghost use Rattle.octets.specs.declared.limits.TheConstants.{LENGTH_LIMIT};
ghost use Rattle.bssmap_codec.specs.declared.fault.InterfaceFault.TheVariants.{Memory as OutOfMemory};
ghost use Rattle.bssmap_codec.specs.declared.sccp.Sccp.{Sccp as SccpValue};
ghost use Rattle.bssmap_codec.specs.declared.sccp.Sccp.TheVariants.{DataForm1};
ghost use Rattle.bssmap_codec.specs.Reference.{references_at, references_text};
ghost use Rattle.bssmap_codec.specs.Sccp.{IsSccp};
ghost use Rattle.bssmap_codec.specs.SccpFaults.{RefusesSccp};
ghost use Rattle.bssmap_codec.specs.SccpReading as reading;
ghost use Rattle.bssmap_codec.specs.SccpText.{HasReferences, content_text, options_text, sccp_text};
ghost use Rattle.bssmap_codec.specs.SccpText.{sccp_write_fault};
ghost use Rattle.bssmap_codec.specs.SccpType.{type_of};

use crate::identifiers::{END_OF_OPTIONS, USER_DATA};
use crate::pointers::{part, user_data};
use crate::sccp_parameters::{
    ADDRESS_POINTER, CALLED_ADDRESS, DATA_POINTER, END_USER_ORIGINATED, NO_PART, OPTIONS_POINTER,
    PROTOCOL_CLASS, UNSEGMENTED,
};
use crate::{InterfaceFault, Reference, SccpType, reference};
use octets::front::{counted, octet, put_counted};
use octets::text::{TEXT_ROOM, hand_over};
use octets::{LENGTH_LIMIT, Memory, Octets};
use std::alloc::Global;

/// A message of SCCP for a connection of class 2 (Q.713 clause 4). The comment on each variant
/// shows its octets as they are written: fixed octets in hexadecimal, and other parts by name with
/// their number of octets. `data` has as many octets as the `length` before it says.
#[derive(Drop)]
pub enum Sccp {
    /// CR, connection request: asks for a connection, for which the sender chose the reference
    /// `source`.
    ///
    /// With data: `01 source:3 02 02 04 02 42 fe 0f length:1 data 00`
    /// Without data: `01 source:3 02 02 00 02 42 fe`
    ConnectionRequest {
        source: Reference,
        /// User data, 255 octets at most.
        data: Option<Octets>,
    },
    /// CC, connection confirm.
    ///
    /// `02 destination:3 source:3 02 00`
    ConnectionConfirm {
        destination: Reference,
        source: Reference,
    },
    /// CREF, connection refused.
    ///
    /// `03 destination:3 00 00`
    ConnectionRefused {
        destination: Reference,
    },
    /// RLSD, released: asks to release the connection.
    ///
    /// `04 destination:3 source:3 00 00`
    Released {
        destination: Reference,
        source: Reference,
    },
    /// RLC, release complete.
    ///
    /// `05 destination:3 source:3`
    ReleaseComplete {
        destination: Reference,
        source: Reference,
    },
    /// DT1, data form 1.
    ///
    /// `06 destination:3 00 01 length:1 data`
    DataForm1 {
        destination: Reference,
        /// User data, 255 octets at most.
        data: Octets,
    },
}

impl Sccp {
    /// The type of the message.
    pub fn kind(&self) -> SccpType
        ensures { result ≡ type_of self.now }
    {
        match self {
            Sccp::ConnectionRequest { .. } => SccpType::ConnectionRequest,
            Sccp::ConnectionConfirm { .. } => SccpType::ConnectionConfirm,
            Sccp::ConnectionRefused { .. } => SccpType::ConnectionRefused,
            Sccp::Released { .. } => SccpType::Released,
            Sccp::ReleaseComplete { .. } => SccpType::ReleaseComplete,
            Sccp::DataForm1 { .. } => SccpType::DataForm1,
        }
    }
}

/// Reads a message of SCCP. Ignores octets after the message's parts, the class of CR and CC, the
/// cause of CREF and RLSD, the pointer of CC, CREF and RLSD, the content of the called address, and
/// all options but the first with user data.
///
/// The faults, in the order in which they are looked for:
/// - `Short` if there is no octet.
/// - `UnknownType` if the type is unknown.
/// - `Short` if the octets that every message of the type has, pointers included, are cut.
/// - `UnknownType` if a DT1 is segmented.
/// - For each pointer of CR and DT1 in turn: `BadPointer` if the pointer leads out of the octets or
///   is 0 (the pointer to the options may be 0), then `Short` if the part to which the pointer
///   leads is cut.
/// - `Memory` if an allocation fails.
pub fn read_sccp(alloc: Global, octets: &[u8]) -> Result<Sccp, InterfaceFault>
    // The result is the reading of the octets, unless memory runs out.
    ensures reads { Gives OutOfMemory (λ v. v) result (reading.sccp_reading octets.now) }
    // If a message is read, the octets are a text of that message.
    ensures found { IfOk result (λ message. IsSccp octets.now message) }
    // If the octets are a text of a message, that message is read, unless memory runs out.
    ensures only { (message : SccpValue) → IsSccp octets.now message →
        (result ≡ Ok message) ⊎ (result ≡ Err OutOfMemory) }
    // An error is the first fault of the octets; it is `Memory` only if the octets have no fault.
    ensures refused { RefusesBy OutOfMemory result (result_err (reading.sccp_reading octets.now)) }
    // The first fault of the octets is that of the first condition that holds in the list of
    // `FirstFault`.
    ensures fault { RefusesSccp octets.now result }
{
    read(alloc, octets)
}

#[tactic(auto, unfolding(crate::specs::SccpReading::sccp_reading))]
fn read(alloc: Global, octets: &[u8]) -> Result<Sccp, InterfaceFault>
    ensures { Gives OutOfMemory (λ v. v) result (reading.sccp_reading octets.now) }
{
    let (first, rest) = octet(octets, InterfaceFault::Short)?;
    let kind = SccpType::of_octet(first).ok_or(InterfaceFault::UnknownType)?;
    read_content(alloc, kind, rest)
}

// Reads the message of type `kind` from the octets after the type.
fn read_content(alloc: Global, kind: SccpType, octets: &[u8]) -> Result<Sccp, InterfaceFault>
    ensures { Gives OutOfMemory (λ v. v) result (reading.content_at kind octets.now) }
{
    match kind {
        SccpType::ConnectionRequest => read_request(alloc, octets),
        SccpType::ConnectionConfirm => {
            let (destination, source) = fixed_references(octets)?;
            Ok(Sccp::ConnectionConfirm {
                destination,
                source,
            })
        }
        SccpType::ConnectionRefused => read_refused(octets),
        SccpType::Released => {
            let (destination, source) = fixed_references(octets)?;
            Ok(Sccp::Released {
                destination,
                source,
            })
        }
        SccpType::ReleaseComplete => {
            let (destination, source) = references(octets)?;
            Ok(Sccp::ReleaseComplete {
                destination,
                source,
            })
        }
        SccpType::DataForm1 => read_data(alloc, octets),
    }
}

#[tactic(auto, unfolding(crate::specs::SccpReading::request_at))]
fn read_request(alloc: Global, octets: &[u8]) -> Result<Sccp, InterfaceFault>
    ensures { Gives OutOfMemory (λ v. v) result (reading.request_at octets.now) }
{
    let (source, rest) = reference::number(octets)?;
    let (_class, pointers) = octet(rest, InterfaceFault::Short)?;
    let (address, options) = octet(pointers, InterfaceFault::Short)?;
    let (first_option, _parts) = octet(options, InterfaceFault::Short)?;
    let called = part(pointers, address)?;
    let _address = counted(called, InterfaceFault::Short)?;
    let data = user_data(options, first_option)?;
    let data = Octets::copy_optional(alloc, data)?;
    Ok(Sccp::ConnectionRequest {
        source: Reference::new(source),
        data,
    })
}

// The numbers of the destination and the source reference, and the octets after the references.
// Returns `Short` if there are fewer than six octets.
#[tactic(auto, unfolding(crate::specs::Reference::references_at))]
fn reference_numbers(octets: &[u8]) -> Result<(u32, u32, &[u8]), InterfaceFault>
    ensures read { result_map (λ p. (p.0, p.1, p.2.now)) result ≡ references_at octets.now }
    ensures three_octets { IfOk result (λ p. (p.0 < 2 ^ 24) × (p.1 < 2 ^ 24)) }
{
    let (destination, rest) = reference::number(octets)?;
    let (source, rest) = reference::number(rest)?;
    Ok((destination, source, rest))
}

// The destination and the source reference. Returns `Short` if there are fewer than six octets.
fn references(octets: &[u8]) -> Result<(Reference, Reference), InterfaceFault>
    ensures { result ≡ result_map (λ p. (p.0, p.1)) (references_at octets.now) }
{
    let (destination, source, _rest) = reference_numbers(octets)?;
    Ok((Reference::new(destination), Reference::new(source)))
}

// The destination and the source reference. Two octets, the class or cause and a pointer, must
// follow the references; their values aren't looked at. Returns `Short` if an octet is missing.
#[tactic(auto, unfolding(crate::specs::SccpReading::fixed_references_at))]
fn fixed_references(octets: &[u8]) -> Result<(Reference, Reference), InterfaceFault>
    ensures { result ≡ reading.fixed_references_at octets.now }
{
    let (destination, source, rest) = reference_numbers(octets)?;
    let (_class, rest) = octet(rest, InterfaceFault::Short)?;
    let _pointer = octet(rest, InterfaceFault::Short)?;
    Ok((Reference::new(destination), Reference::new(source)))
}

#[tactic(auto, unfolding(crate::specs::SccpReading::refused_at))]
fn read_refused(octets: &[u8]) -> Result<Sccp, InterfaceFault>
    ensures { result ≡ reading.refused_at octets.now }
{
    let (destination, rest) = reference::number(octets)?;
    let (_cause, rest) = octet(rest, InterfaceFault::Short)?;
    let _pointer = octet(rest, InterfaceFault::Short)?;
    Ok(Sccp::ConnectionRefused {
        destination: Reference::new(destination),
    })
}

fn read_data(alloc: Global, octets: &[u8]) -> Result<Sccp, InterfaceFault>
    ensures { Gives OutOfMemory (λ v. v) result (reading.data_form_at octets.now) }
{
    let (destination, data) = data_parts(octets)?;
    Ok(Sccp::DataForm1 {
        destination: Reference::new(destination),
        data: Octets::copy(alloc, data)?,
    })
}

/// The number of the destination reference and the data of a DT1, read from the octets after its
/// type.
#[tactic(auto, unfolding(crate::specs::SccpReading::data_form_at))]
pub(crate) fn data_parts(octets: &[u8]) -> Result<(u32, &[u8]), InterfaceFault>
    ensures read { result_map (λ p. DataForm1 p.0 p.1.now) result ≡
        reading.data_form_at octets.now }
    ensures three_octets { IfOk result (λ p. p.0 < 2 ^ 24) }
{
    let (destination, rest) = reference::number(octets)?;
    let (segmenting, pointers) = octet(rest, InterfaceFault::Short)?;
    let (pointer, _parts) = octet(pointers, InterfaceFault::Short)?;
    let (data, _rest) = data_behind(segmenting, pointers, pointer)?;
    Ok((destination, data))
}

// The data of a DT1, and the octets after the data. Returns `UnknownType` if the DT1 is segmented,
// then `BadPointer` if the pointer is 0 or leads out of the octets, then `Short` if the data are
// cut.
#[tactic(auto, unfolding(crate::specs::SccpReading::data_behind_at))]
fn data_behind(
    segmenting: u8,
    pointers: &[u8],
    pointer: u8,
) -> Result<(&[u8], &[u8]), InterfaceFault>
    ensures { result_map (λ p. (p.0.now, p.1.now)) result ≡
        reading.data_behind_at segmenting pointers.now pointer }
{
    if segmenting != UNSEGMENTED {
        return Err(InterfaceFault::UnknownType);
    }
    counted(part(pointers, pointer)?, InterfaceFault::Short)
}

/// Appends the text of a message of SCCP to `text`. Returns `TooLong` if the data have more than
/// 255 octets, which a length octet can't count, else `Memory` if an allocation fails. An `Err`
/// leaves `text` as it was.
pub fn write_sccp(alloc: Global, message: &Sccp, text: &mut Vec<u8>) -> Result<(), InterfaceFault>
    ensures ok { OnOk result (text.new.items ≡ text.old.items ++ sccp_text message.now) }
    ensures err { OnErr result (text.new.items ≡ text.old.items) }
    ensures refused { RefusesBy OutOfMemory result (sccp_write_fault message.now) }
{
    if let Some(fault) = refusal(message) {
        return Err(fault);
    }
    hand_over(text_of(alloc, message)?, text)?;
    Ok(())
}

// The fault for which the message isn't written; `None` if the message can be written.
fn refusal(message: &Sccp) -> Option<InterfaceFault>
    ensures { result ≡ sccp_write_fault message.now }
{
    match message {
        Sccp::ConnectionRequest {
            data: Some(data),
            ..
        } if data.len() > LENGTH_LIMIT => Some(InterfaceFault::TooLong),
        Sccp::DataForm1 { data, .. } if data.len() > LENGTH_LIMIT => Some(InterfaceFault::TooLong),
        _ => None,
    }
}

// The text of a message that can be written.
fn text_of(alloc: Global, message: &Sccp) -> Result<Vec<u8>, Memory>
    requires { sccp_write_fault message.now ≡ None }
    ensures { IfOk result (λ text. text.items ≡ sccp_text message.now) }
{
    let mut text = Vec::with_capacity(alloc, TEXT_ROOM)?;
    text.push(message.kind().octet())?;
    put_content(&mut text, message)?;
    Ok(text)
}

// Appends the octets of a message after its type.
fn put_content(text: &mut Vec<u8>, message: &Sccp) -> Result<(), Memory>
    requires { sccp_write_fault message.now ≡ None }
    ensures { OnOk result (text.new.items ≡ text.old.items ++ content_text message.now) }
{
    match message {
        Sccp::ConnectionRequest { source, data } => {
            source.put(text)?;
            text.extend_from_slice(&[PROTOCOL_CLASS, ADDRESS_POINTER])?;
            put_options(text, data)?;
        }
        Sccp::ConnectionConfirm {
            destination,
            source,
        } => {
            put_references(text, *destination, *source)?;
            text.extend_from_slice(&[PROTOCOL_CLASS, NO_PART])?;
        }
        Sccp::ConnectionRefused { destination } => {
            destination.put(text)?;
            text.extend_from_slice(&[END_USER_ORIGINATED, NO_PART])?;
        }
        Sccp::Released {
            destination,
            source,
        } => {
            put_references(text, *destination, *source)?;
            text.extend_from_slice(&[END_USER_ORIGINATED, NO_PART])?;
        }
        Sccp::ReleaseComplete {
            destination,
            source,
        } => put_references(text, *destination, *source)?,
        Sccp::DataForm1 { destination, data } => {
            destination.put(text)?;
            text.extend_from_slice(&[UNSEGMENTED, DATA_POINTER])?;
            put_counted(text, data.as_slice())?;
        }
    }
    Ok(())
}

// Appends the destination reference, then the source reference.
fn put_references(
    text: &mut Vec<u8>,
    destination: Reference,
    source: Reference,
) -> Result<(), Memory>
    ensures { OnOk result (text.new.items ≡ text.old.items ++ references_text destination source) }
{
    destination.put(text)?;
    source.put(text)
}

// Appends the pointer to the options, the called address, the option with the user data, and the
// end-of-options octet. Without user data, appends the pointer 0 and the called address only.
fn put_options(text: &mut Vec<u8>, user: &Option<Octets>) -> Result<(), Memory>
    requires { ForSome user.now (λ u. length u ≤ LENGTH_LIMIT) }
    ensures { OnOk result (text.new.items ≡ text.old.items ++ options_text user.now) }
{
    match user {
        Some(data) => {
            text.push(OPTIONS_POINTER)?;
            text.extend_from_slice(&CALLED_ADDRESS)?;
            text.push(USER_DATA)?;
            put_counted(text, data.as_slice())?;
            text.push(END_OF_OPTIONS)?;
        }
        None => {
            text.push(NO_PART)?;
            text.extend_from_slice(&CALLED_ADDRESS)?;
        }
    }
    Ok(())
}

/// Law: the text that is written for a message, with any octets after the text, is a text of that
/// message and is read as that message. Assumes: the message's references have three octets, and a
/// length octet can count its data.
pub fn sccp_text_is_read()
    ensures text { (message : SccpValue) (more : List ℕ) → HasReferences message →
        sccp_write_fault message ≡ None → IsSccp (sccp_text message ++ more) message }
    ensures read { (message : SccpValue) (more : List ℕ) → HasReferences message →
        sccp_write_fault message ≡ None →
        reading.sccp_reading (sccp_text message ++ more) ≡ Ok message }
{}

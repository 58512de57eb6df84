// SPDX-License-Identifier: MIT OR Apache-2.0
ghost use Rattle.std.specs.Prelude.{◌≡◌, ◌⊎◌, ◌++◌, ℕ, List, length, take, IfOk};
ghost use Rattle.std.specs.Prelude.{OnErr, OnOk, None};
ghost use Rattle.std.specs.Prelude.{Ok, Err};
ghost use Rattle.std.specs.Result.{result_err};
ghost use Rattle.octets.specs.Answer.{Gives};
ghost use Rattle.octets.specs.Refusal.{RefusesBy};
ghost use Rattle.bssmap_codec.specs.declared.bssap.Bssap.{Bssap as BssapValue};
ghost use Rattle.bssmap_codec.specs.declared.bssmap.Bssmap.{Bssmap as BssmapValue};
ghost use Rattle.bssmap_codec.specs.declared.fault.InterfaceFault.TheVariants.{Memory as OutOfMemory};
ghost use Rattle.bssmap_codec.specs.Bssap.{IsBssap};
ghost use Rattle.bssmap_codec.specs.BssapFaults.{RefusesBssap};
ghost use Rattle.bssmap_codec.specs.BssapReading as reading;
ghost use Rattle.bssmap_codec.specs.BssapText.{HasDlci, bssap_text, bssap_write_fault, bssmap_size};
ghost use Rattle.bssmap_codec.specs.BssapText.{bssmap_text};

use crate::bssmap::{management_refusal, management_text, read_message};
use crate::{Bssmap, BssmapType, Dlci, InterfaceFault, layer3};
use octets::front::{octet, put_counted, split};
use octets::text::{TEXT_ROOM, hand_over};
use octets::{Memory, Octets};
use std::alloc::Global;

/// The first octet of a message of BSSMAP (TS 48.006 clause 9.3.1).
pub const MANAGEMENT: u8 = 0x00;

/// The first octet of a message of DTAP (TS 48.006 clause 9.3.1).
pub const TRANSFER: u8 = 0x01;

/// A message of BSSAP (TS 48.006 clause 9.3): either for the base station system itself, or passed
/// on between the switch and a mobile. The comment on each variant shows its octets: fixed octets
/// in hexadecimal, and other parts by name with their number of octets. `message` has as many
/// octets as the `length` before it says.
#[derive(Drop)]
pub enum Bssap {
    /// `00 length:1 message`: a message of BSSMAP.
    Management(Bssmap),
    /// `01 dlci:1 length:1 message`: DTAP, a layer 3 message of 1 to 251 octets on the mobile's
    /// data link `dlci`.
    Transfer { dlci: Dlci, message: Octets },
}

/// Reads a message of BSSAP. Ignores octets after those that the length counts, elements that the
/// message's type doesn't have, and repetitions of an element. If the identifier of an element
/// isn't known, ignores that element and all octets after it.
///
/// The faults, in the order in which they are looked for:
/// - `Short` if there is no octet, the header is cut, or the length of BSSMAP is 0. The header of
///   BSSMAP is `00`, a length and a type; the header of DTAP is `01`, a DLCI and a length.
/// - `UnknownType` if the first octet is neither `00` nor `01`, the type of BSSMAP is unknown, or
///   the SAPI of DTAP is neither 0 nor 3.
/// - `Short` if fewer octets follow than the length says, then `Short` if an element is cut.
/// - `MissingElement` for the first element, in written order, that the message's type needs and
///   the message lacks.
/// - `Short` if the layer 3 message is empty, and `TooLong` if it has more than 251 octets.
/// - `Memory` if an allocation fails.
pub fn read_bssap(alloc: Global, octets: &[u8]) -> Result<Bssap, InterfaceFault>
    // The result is the reading of the octets, unless memory runs out.
    ensures reads { Gives OutOfMemory (λ v. v) result (reading.bssap_reading octets.now) }
    // If a message is read, the octets are a text of that message.
    ensures found { IfOk result (λ message. IsBssap octets.now message) }
    // If the octets are a text of a message, that message is read, unless memory runs out.
    ensures only { (message : BssapValue) → IsBssap octets.now message →
        (result ≡ Ok message) ⊎ (result ≡ Err OutOfMemory) }
    // An error is the first fault of the octets; it is `Memory` only if the octets have no fault.
    ensures refused { RefusesBy OutOfMemory result (result_err (reading.bssap_reading octets.now)) }
    // The first fault of the octets is that of the first condition that holds in the list of
    // `FirstFault`.
    ensures fault { RefusesBssap octets.now result }
{
    read(alloc, octets)
}

#[tactic(auto, unfolding(crate::specs::BssapReading::bssap_reading))]
fn read(alloc: Global, octets: &[u8]) -> Result<Bssap, InterfaceFault>
    ensures { Gives OutOfMemory (λ v. v) result (reading.bssap_reading octets.now) }
{
    let (first, rest) = octet(octets, InterfaceFault::Short)?;
    match first {
        MANAGEMENT => read_management(alloc, rest),
        TRANSFER => read_transfer(alloc, rest),
        _ => Err(InterfaceFault::UnknownType),
    }
}

#[tactic(auto, unfolding(crate::specs::BssapReading::transfer_at))]
fn read_transfer(alloc: Global, octets: &[u8]) -> Result<Bssap, InterfaceFault>
    ensures { Gives OutOfMemory (λ v. v) result (reading.transfer_at octets.now) }
{
    let (link, rest) = octet(octets, InterfaceFault::Short)?;
    let (size, rest) = octet(rest, InterfaceFault::Short)?;
    let dlci = Dlci::read(link).ok_or(InterfaceFault::UnknownType)?;
    let (message, _behind) = split(rest, usize::from(size), InterfaceFault::Short)?;
    let message = layer3::message(message)?;
    Ok(Bssap::Transfer {
        dlci,
        message: Octets::copy(alloc, message)?,
    })
}

#[tactic(auto, unfolding(crate::specs::BssapReading::management_at))]
fn read_management(alloc: Global, octets: &[u8]) -> Result<Bssap, InterfaceFault>
    ensures { Gives OutOfMemory (λ v. v) result (reading.management_at octets.now) }
{
    let (size, rest) = octet(octets, InterfaceFault::Short)?;
    let (kind, elements) = octet(at_most(rest, usize::from(size)), InterfaceFault::Short)?;
    let kind = BssmapType::of_octet(kind).ok_or(InterfaceFault::UnknownType)?;
    let _body = split(rest, usize::from(size), InterfaceFault::Short)?;
    Ok(Bssap::Management(read_message(alloc, kind, elements)?))
}

// The first `size` octets, or all octets if there are fewer than `size`.
fn at_most(octets: &[u8], size: usize) -> &[u8]
    ensures { result.now ≡ take size octets.now }
{
    if octets.len() < size {
        octets
    } else {
        &octets[..size]
    }
}

/// Appends the text of a message of BSSAP to `text`. Returns `Short` if a layer 3 message is empty,
/// then `TooLong` if a layer 3 message has more than 251 octets or the text of a BSSMAP message
/// more than 255, else `Memory` if an allocation fails. An `Err` leaves `text` as it was.
pub fn write_bssap(alloc: Global, message: &Bssap, text: &mut Vec<u8>) -> Result<(), InterfaceFault>
    ensures ok { OnOk result (text.new.items ≡ text.old.items ++ bssap_text message.now) }
    ensures err { OnErr result (text.new.items ≡ text.old.items) }
    ensures refused { RefusesBy OutOfMemory result (bssap_write_fault message.now) }
{
    if let Some(fault) = refusal(message) {
        return Err(fault);
    }
    hand_over(text_of(alloc, message)?, text)?;
    Ok(())
}

// The fault for which the message isn't written; `None` if the message can be written.
fn refusal(message: &Bssap) -> Option<InterfaceFault>
    ensures { result ≡ bssap_write_fault message.now }
{
    match message {
        Bssap::Management(message) => management_refusal(message),
        Bssap::Transfer { message, .. } => layer3::refusal(message.as_slice()),
    }
}

// The text of a message that can be written.
fn text_of(alloc: Global, message: &Bssap) -> Result<Vec<u8>, Memory>
    requires { bssap_write_fault message.now ≡ None }
    ensures { IfOk result (λ text. text.items ≡ bssap_text message.now) }
{
    let mut text = Vec::with_capacity(alloc, TEXT_ROOM)?;
    match message {
        Bssap::Management(message) => {
            let body = management_text(alloc, message)?;
            text.push(MANAGEMENT)?;
            put_counted(&mut text, body.as_slice())?;
        }
        Bssap::Transfer { dlci, message } => {
            text.push(TRANSFER)?;
            text.push(dlci.octet())?;
            put_counted(&mut text, message.as_slice())?;
        }
    }
    Ok(text)
}

/// Law: the text that is written for a message, with any octets after the text, is a text of that
/// message and is read as that message. Assumes: the message has no fault of writing, and the SAPI
/// of DTAP is 0 or 3. For every message of BSSMAP, the size that is compared with the limit is the
/// length of the text.
pub fn bssap_text_is_read()
    ensures text { (message : BssapValue) (more : List ℕ) → HasDlci message →
        bssap_write_fault message ≡ None → IsBssap (bssap_text message ++ more) message }
    ensures read { (message : BssapValue) (more : List ℕ) → HasDlci message →
        bssap_write_fault message ≡ None →
        reading.bssap_reading (bssap_text message ++ more) ≡ Ok message }
    ensures size { (message : BssmapValue) → length (bssmap_text message) ≡ bssmap_size message }
{}

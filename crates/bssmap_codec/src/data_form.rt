// SPDX-License-Identifier: MIT OR Apache-2.0
//! DT1 without intermediate copies: `transfer_text` writes a DT1 with DTAP in one pass, and
//! `read_data_form` lends the data of a DT1. DT1 carries nearly all relayed messages.
ghost use Rattle.std.specs.Prelude.{◌≡◌, ◌↔◌, ℕ, List, IfNone, IfOk, IfSome, IsTrue};
ghost use Rattle.std.specs.Prelude.{Some, None, Ok};
ghost use Rattle.bssmap_codec.specs.declared.bssap.Bssap.TheVariants.{Transfer};
ghost use Rattle.bssmap_codec.specs.declared.sccp.Sccp.TheVariants.{DataForm1};
ghost use Rattle.bssmap_codec.specs.declared.sccp_type.SccpType.TheVariants as types;
ghost use Rattle.bssmap_codec.specs.BssapText.{bssap_text};
ghost use Rattle.bssmap_codec.specs.Layer3.{layer3_fault};
ghost use Rattle.bssmap_codec.specs.SccpReading.{sccp_reading};
ghost use Rattle.bssmap_codec.specs.SccpText.{sccp_text};
ghost use Rattle.bssmap_codec.specs.SccpType.{sccp_type};

use crate::bssap::TRANSFER;
use crate::sccp::data_parts;
use crate::sccp_parameters::{DATA_POINTER, UNSEGMENTED};
use crate::{Dlci, InterfaceFault, Reference, SccpType};
use octets::Memory;
use octets::front::octet;
use std::alloc::Global;

/// The number of octets before the layer 3 message of DTAP: the discriminator, the DLCI and the
/// length.
const TRANSFER_HEADER: usize = 3;

/// The number of octets before the user data of a DT1: one each for the type, the segmenting, the
/// pointer and the length, and three for the reference.
const DATA_HEADER: usize = 7;

/// Returns the octets of a DT1 that carries `message`, a layer 3 message of 1 to 251 octets, as
/// DTAP. `write_sccp` writes the same octets for a DT1 whose data `write_bssap` wrote. Allocates
/// once, exactly the octets that are returned; returns `Memory` only if this allocation fails.
pub fn transfer_text(
    alloc: Global,
    destination: Reference,
    dlci: Dlci,
    message: &[u8],
) -> Result<Vec<u8>, Memory>
    requires { layer3_fault message.now ≡ None }
    ensures { IfOk result (λ text. text.items
        ≡ sccp_text (DataForm1 destination (bssap_text (Transfer dlci message.now)))) }
{
    let size = message.len();
    let [_, high, middle, low] = destination.number().to_be_bytes();
    let mut text = Vec::with_capacity(alloc, DATA_HEADER + TRANSFER_HEADER + size)?;
    text.extend_from_slice(&[
        SccpType::DataForm1.octet(),
        high,
        middle,
        low,
        UNSEGMENTED,
        DATA_POINTER,
        (TRANSFER_HEADER + size) as u8,
        TRANSFER,
        dlci.octet(),
        size as u8,
    ])?;
    text.extend_from_slice(message)?;
    Ok(text)
}

/// The number of the destination reference and the data of a DT1; copies nothing. Returns `None`
/// exactly if the octets aren't a DT1: `read_sccp` reads a message of another type, or refuses the
/// octets with another fault than `Memory`.
#[tactic(auto, unfolding(crate::specs::SccpReading::sccp_reading))]
pub fn read_data_form(octets: &[u8]) -> Option<(u32, &[u8])>
    ensures reads { IfSome result (λ d. sccp_reading octets.now ≡ Ok (DataForm1 d.0 d.1.now)) }
    ensures none { IfNone result ((destination : ℕ) (user : List ℕ) →
        sccp_reading octets.now ≡ Ok (DataForm1 destination user) → ⊥) }
{
    let Ok((first, content)) = octet(octets, InterfaceFault::Short) else {
        return None;
    };
    if !is_data_form(first) {
        return None;
    }
    match data_parts(content) {
        Ok((destination, data)) => Some((destination, data)),
        Err(_) => None,
    }
}

// Whether the octet is the type of DT1.
fn is_data_form(octet: u8) -> bool
    ensures { IsTrue result ↔ (sccp_type octet ≡ Some types.DataForm1) }
{
    octet == SccpType::DataForm1.octet()
}

// SPDX-License-Identifier: MIT OR Apache-2.0
//! Builds the messages to the switch on a connection (TS 48.006 clause 9.3, TS 48.008 clause
//! 3.2.1). `reference` and `destination` are the switch's reference of the connection.
//!
//! Each function returns `Err` only if an allocation fails.
ghost use Rattle.std.specs.Prelude.{◌≡◌, ◌≤◌, length, IfOk};
ghost use Rattle.bssmap_codec.specs.Layer3.{IsLayer3};
ghost use Rattle.conn_messages.specs.Out.{IsLawfulMessage, IsWritable};
ghost use Rattle.conn_messages.specs.SwitchMessage as words;
ghost use Rattle.octets.specs.declared.limits.TheConstants.{INITIAL_LIMIT};

use crate::causes::{BETTER_CELL, BSS_NOT_EQUIPPED, CIPHERING_NOT_SUPPORTED};
use crate::parameters::{SACCH_SAPI_3_DLCI, SAPI_0_DLCI, SDCCH_SAPI_3_DLCI};
use crate::{Change, Channel, Message};
use bssmap_codec::{Bssap, Bssmap, Cause, CellIdentifier, Dlci, Reference, RejectedDlci, RrCause};
use dtap_codec::Sapi;
use octets::{Memory, Octets};
use rsl_codec::{ChanNo, FIRST_SDCCH};
use std::alloc::Global;

/// DTAP: relays `message`, a layer 3 message of the mobile that arrived on `channel` and `sapi`.
/// Assumes: `message` has 1 to 251 octets.
pub fn relaying(reference: Reference, channel: &Channel, sapi: Sapi, message: Octets) -> Message
    requires { IsLayer3 message }
    ensures word { result ≡ words.relaying reference channel.now sapi message }
    ensures writable { IsWritable result }
    ensures lawful { IsLawfulMessage result }
{
    let dlci = Dlci::new(dlci_on(channel.number, sapi));
    Message::Data {
        destination: reference,
        message: Bssap::Transfer { dlci, message },
    }
}

/// COMPLETE LAYER 3 INFORMATION in a connection request: opens a connection with the cell of
/// `channel` and the mobile's initial message `initial`. Assumes: `initial` has 1 to 113 octets.
pub fn complete_layer3(alloc: Global, channel: &Channel, initial: &[u8]) -> Result<Message, Memory>
    requires some { 1 ≤ length initial.now }
    requires short { length initial.now ≤ INITIAL_LIMIT }
    ensures word { IfOk result (λ m. m ≡ words.complete_layer3 channel.now initial.now) }
    ensures writable { IfOk result (λ m. IsWritable m) }
    ensures lawful { IfOk result (λ m. IsLawfulMessage m) }
{
    Ok(Message::Request {
        message: Bssap::Management(Bssmap::CompleteLayer3Information {
            cell: cell_of(alloc, channel)?,
            layer3: Octets::copy(alloc, initial)?,
        }),
    })
}

/// CLEAR REQUEST with a cause of one octet.
pub fn clear_request(alloc: Global, reference: Reference, cause: u8) -> Result<Message, Memory>
    ensures word { IfOk result (λ m. m ≡ words.clear_request reference cause) }
    ensures writable { IfOk result (λ m. IsWritable m) }
    ensures lawful { IfOk result (λ m. IsLawfulMessage m) }
{
    let cause = Cause::one(alloc, cause)?;
    Ok(management(reference, Bssmap::ClearRequest { cause }))
}

/// CLEAR COMPLETE.
pub fn clear_complete(reference: Reference) -> Message
    ensures word { result ≡ words.clear_complete reference }
    ensures writable { IsWritable result }
    ensures lawful { IsLawfulMessage result }
{
    management(reference, Bssmap::ClearComplete)
}

/// RLC: confirms to the switch its release of the connection.
pub fn release_complete(destination: Reference) -> Message
    ensures word { result ≡ words.release_complete destination }
    ensures writable { IsWritable result }
    ensures lawful { IsLawfulMessage result }
{
    Message::ReleaseComplete { destination }
}

/// ASSIGNMENT FAILURE with `cause`, a BSSMAP cause of one octet, and `rr_cause`, the cause that the
/// mobile gave, if there is one.
pub fn assignment_failure(
    alloc: Global,
    reference: Reference,
    cause: u8,
    rr_cause: Option<RrCause>,
) -> Result<Message, Memory>
    ensures word { IfOk result (λ m. m ≡ words.assignment_failure reference cause rr_cause) }
    ensures writable { IfOk result (λ m. IsWritable m) }
    ensures lawful { IfOk result (λ m. IsLawfulMessage m) }
{
    let cause = Cause::one(alloc, cause)?;
    Ok(management(reference, Bssmap::AssignmentFailure { cause, rr_cause }))
}

/// Reports that the change to `target` is complete: ASSIGNMENT COMPLETE with `cause`, the mobile's
/// cause, or HANDOVER PERFORMED with the cause better cell and the target's cell.
pub fn change_complete(
    alloc: Global,
    reference: Reference,
    change: Change,
    target: &Channel,
    cause: RrCause,
) -> Result<Message, Memory>
    ensures word { IfOk result
        (λ m. m ≡ words.change_complete reference change target.now cause.0) }
    ensures writable { IfOk result (λ m. IsWritable m) }
    ensures lawful { IfOk result (λ m. IsLawfulMessage m) }
{
    let message = match change {
        Change::Assignment => Bssmap::AssignmentComplete {
            rr_cause: Some(cause),
        },
        Change::Handover => Bssmap::HandoverPerformed {
            cause: Cause::one(alloc, BETTER_CELL)?,
            cell: cell_of(alloc, target)?,
        },
    };
    Ok(management(reference, message))
}

/// SAPI N REJECT: SAPI 3 isn't available on `channel`. The cause is base station system not
/// equipped.
pub fn sapi_3_reject(
    alloc: Global,
    reference: Reference,
    channel: &Channel,
) -> Result<Message, Memory>
    ensures word { IfOk result (λ m. m ≡ words.sapi_3_reject reference channel.now) }
    ensures writable { IfOk result (λ m. IsWritable m) }
    ensures lawful { IfOk result (λ m. IsLawfulMessage m) }
{
    let dlci = RejectedDlci(dlci_on(channel.number, Sapi::Three));
    let cause = Cause::one(alloc, BSS_NOT_EQUIPPED)?;
    Ok(management(reference, Bssmap::SapiNReject { dlci, cause }))
}

/// CIPHER MODE REJECT with the cause ciphering algorithm not supported.
pub fn cipher_mode_reject(alloc: Global, reference: Reference) -> Result<Message, Memory>
    ensures word { IfOk result (λ m. m ≡ words.cipher_mode_reject reference) }
    ensures writable { IfOk result (λ m. IsWritable m) }
    ensures lawful { IfOk result (λ m. IsLawfulMessage m) }
{
    let cause = Cause::one(alloc, CIPHERING_NOT_SUPPORTED)?;
    Ok(management(reference, Bssmap::CipherModeReject { cause }))
}

// A BSSMAP message on a connection.
fn management(destination: Reference, message: Bssmap) -> Message
    ensures { result ≡ words.management destination message }
{
    Message::Data {
        destination,
        message: Bssap::Management(message),
    }
}

// The DLCI octet of a message on `sapi` of the channel with this number.
fn dlci_on(number: ChanNo, sapi: Sapi) -> u8
    ensures { result ≡ words.dlci_on number sapi }
{
    match sapi {
        Sapi::Zero => SAPI_0_DLCI,
        Sapi::Three if number.octet() >= FIRST_SDCCH => SDCCH_SAPI_3_DLCI,
        Sapi::Three => SACCH_SAPI_3_DLCI,
    }
}

// The identifier of a channel's cell.
fn cell_of(alloc: Global, channel: &Channel) -> Result<CellIdentifier, Memory>
    ensures { IfOk result (λ cell. cell.0 ≡ channel.now.cell) }
{
    Ok(CellIdentifier(Octets::copy(alloc, &channel.cell)?))
}

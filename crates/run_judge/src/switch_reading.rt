// SPDX-License-Identifier: MIT OR Apache-2.0
ghost use Rattle.std.specs.Prelude.{◌≡◌, IfErr, IfOk, Ok};
ghost use Rattle.bssmap_codec.specs.declared.bssap.Bssap.TheVariants.{Management};
ghost use Rattle.bssmap_codec.specs.declared.fault.InterfaceFault.TheVariants as interface;
ghost use Rattle.bssmap_codec.specs.BssapReading.{bssap_reading};
ghost use Rattle.bssmap_codec.specs.SccpReading.{sccp_reading};
ghost use Rattle.run_judge.specs.Reading as reading;
ghost use Rattle.run_judge.specs.Reading.{IsReadable};

use crate::{Said, Way};
use bssmap_codec::{Bssap, Bssmap, Dlci, InterfaceFault, Sccp, read_bssap, read_sccp};
use dtap_codec::Sapi;
use octets::Memory;
use std::alloc::Global;

/// What a frame with this body says on the link of the switch.
#[tactic(auto, using(crate::proofs::Readable::switch_readable))]
pub(crate) fn read_on_switch_link(alloc: Global, way: Way, body: &[u8]) -> Result<Said, Memory>
    ensures said { IfOk result (λ said. said ≡ reading.said_on_switch_link way body.now) }
    ensures memory { IfErr result (λ _. IsReadable interface.Memory (sccp_reading body.now)) }
{
    match read_sccp(alloc, body) {
        Ok(message) => match way {
            Way::ToController => said_by_switch(alloc, message),
            Way::FromController => said_to_switch(alloc, message),
        },
        Err(InterfaceFault::Memory) => Err(Memory),
        Err(_) => Ok(Said::Nothing),
    }
}

fn said_to_switch(alloc: Global, message: Sccp) -> Result<Said, Memory>
    ensures { IfOk result (λ said. said ≡ reading.said_to_switch (Ok message)) }
{
    match message {
        Sccp::ConnectionRequest { source, data } => match data {
            Some(user) => requested(alloc, source.number(), user.as_slice()),
            None => Ok(Said::Nothing),
        },
        Sccp::DataForm1 { destination, data } => {
            passed(alloc, destination.number(), data.as_slice())
        }
        Sccp::ReleaseComplete {
            destination: _,
            source,
        } => Ok(Said::Ends {
            source: source.number(),
        }),
        _ => Ok(Said::Nothing),
    }
}

// What the user data of a CR says.
fn requested(alloc: Global, source: u32, user: &[u8]) -> Result<Said, Memory>
    ensures { IfOk result (λ said. said ≡ reading.requested source (bssap_reading user.now)) }
{
    match read_bssap(alloc, user) {
        Ok(message) => Ok(requested_by(source, message)),
        Err(InterfaceFault::Memory) => Err(Memory),
        Err(_) => Ok(Said::Nothing),
    }
}

fn requested_by(source: u32, message: Bssap) -> Said
    ensures { result ≡ reading.requested source (Ok message) }
{
    match message {
        Bssap::Management(Bssmap::CompleteLayer3Information { layer3, .. }) => Said::Requests {
            source,
            message: layer3,
        },
        _ => Said::Nothing,
    }
}

// What the data of a DT1 from the controller says.
fn passed(alloc: Global, destination: u32, user: &[u8]) -> Result<Said, Memory>
    ensures { IfOk result (λ said. said ≡ reading.passed destination (bssap_reading user.now)) }
{
    match read_bssap(alloc, user) {
        Ok(message) => Ok(passed_in(destination, message)),
        Err(InterfaceFault::Memory) => Err(Memory),
        Err(_) => Ok(Said::Manages { destination }),
    }
}

fn passed_in(destination: u32, message: Bssap) -> Said
    ensures { result ≡ reading.passed destination (Ok message) }
{
    match message {
        Bssap::Transfer { dlci, message } => Said::Passes {
            destination,
            sapi: dlci_sapi(dlci),
            message,
        },
        Bssap::Management(message) => managed(destination, &message),
    }
}

fn managed(destination: u32, message: &Bssmap) -> Said
    ensures { result ≡ reading.passed destination (Ok (Management message.now)) }
{
    match message {
        Bssmap::ClearComplete => Said::Clears { destination },
        Bssmap::SapiNReject { .. } => Said::Rejects { destination },
        _ => Said::Manages { destination },
    }
}

fn said_by_switch(alloc: Global, message: Sccp) -> Result<Said, Memory>
    ensures { IfOk result (λ said. said ≡ reading.said_by_switch (Ok message)) }
{
    match message {
        Sccp::ConnectionConfirm {
            destination,
            source,
        } => Ok(Said::Confirms {
            destination: destination.number(),
            source: source.number(),
        }),
        Sccp::ConnectionRefused { destination } => Ok(Said::Refuses {
            destination: destination.number(),
        }),
        Sccp::DataForm1 { destination, data } => {
            transferred(alloc, destination.number(), data.as_slice())
        }
        _ => Ok(Said::Nothing),
    }
}

// What the data of a DT1 from the switch says.
fn transferred(alloc: Global, destination: u32, user: &[u8]) -> Result<Said, Memory>
    ensures { IfOk result
        (λ said. said ≡ reading.transferred destination (bssap_reading user.now)) }
{
    match read_bssap(alloc, user) {
        Ok(message) => Ok(transferred_in(destination, message)),
        Err(InterfaceFault::Memory) => Err(Memory),
        Err(_) => Ok(Said::Nothing),
    }
}

fn transferred_in(destination: u32, message: Bssap) -> Said
    ensures { result ≡ reading.transferred destination (Ok message) }
{
    match message {
        Bssap::Transfer { dlci, message } => Said::Transfers {
            destination,
            sapi: dlci_sapi(dlci),
            message,
        },
        Bssap::Management(_) => Said::Nothing,
    }
}

// The SAPI in bits 3 to 1 of a DLCI, which is 0 or 3.
fn dlci_sapi(dlci: Dlci) -> Sapi
    ensures { result ≡ reading.dlci_sapi dlci }
{
    if dlci.octet() % 8 == 0 {
        Sapi::Zero
    } else {
        Sapi::Three
    }
}

// SPDX-License-Identifier: MIT OR Apache-2.0
ghost use Rattle.std.specs.Prelude.{◌≡◌, ◌++◌, true, IfOk, OnErr, OnOk, Ok};
ghost use Rattle.std.specs.Option.{option_to_list};
ghost use Rattle.bssmap_codec.specs.declared.bssap.Bssap.TheVariants.{Management};
ghost use Rattle.bssmap_codec.specs.BssapReading.{bssap_reading};
ghost use Rattle.bssmap_codec.specs.SccpReading.{sccp_reading};
ghost use Rattle.conn_rules.specs.Streams.{is_of as of_sapi};
ghost use Rattle.controller_model.specs.Views as views;
ghost use Rattle.controller_model.specs.Views.{to_station, to_switch};
ghost use Rattle.controller_parts.specs.Views.{forwarded_of, handed_of};
ghost use Rattle.controller_parts.specs.Views.{PutsToStations, PutsToSwitch};
ghost use Rattle.rsl_codec.specs.declared.rsl.Rsl.TheVariants.{DataRequest};
ghost use Rattle.rsl_codec.specs.RslReading.{rsl_reading};

use crate::dtap::{dlci_sapi, is_dtap};
use bssmap_codec::{Bssap, Bssmap, InterfaceFault, Sccp, read_bssap, read_sccp};
use conn_messages::{Out, Outputs, SWITCH_LINK};
use controller_model::Forwarded;
use dtap_codec::Sapi;
use octets::{Memory, Octets};
use rsl_codec::{Data, LinkId, Rsl, RslFault};
use std::alloc::Global;

/// The messages of the mobile that the connection `conn` relays to the switch in `outputs`, in
/// order, the initial message among them. `Err(Memory)` if an allocation fails, which is possible
/// only if an output of the connection is for the switch.
pub fn forwarded(alloc: Global, outputs: &Outputs, conn: u32) -> Result<Vec<Forwarded>, Memory>
    ensures reads { IfOk result (λ list. list.items ≡ views.forwarded outputs.now.outs conn) }
    ensures memory { OnErr result (PutsToSwitch conn outputs.now.outs) }
{
    let mut list = Vec::new(alloc);
    for out in outputs.as_slice() {
        put_forwarded(alloc, out, conn, &mut list)?;
    }
    Ok(list)
}

/// The messages of the switch that the connection `conn` hands to the mobile on `sapi` in
/// `outputs`, in order, without messages of radio resource management. `Err(Memory)` if an
/// allocation fails, which is possible only if an output of the connection is for a station.
pub fn handed(
    alloc: Global,
    outputs: &Outputs,
    conn: u32,
    sapi: Sapi,
) -> Result<Vec<Octets>, Memory>
    ensures reads { IfOk result (λ list. list.items ≡ views.handed outputs.now.outs conn sapi) }
    ensures memory { OnErr result (PutsToStations conn outputs.now.outs) }
{
    let mut list = Vec::new(alloc);
    for out in outputs.as_slice() {
        put_handed(alloc, out, conn, &sapi, &mut list)?;
    }
    Ok(list)
}

// Appends the message that `out` relays for the connection `conn`, if there is such a message.
fn put_forwarded(
    alloc: Global,
    out: &Out,
    conn: u32,
    list: &mut Vec<Forwarded>,
) -> Result<(), Memory>
    ensures puts { OnOk result (list.new.items ≡ list.old.items ++ forwarded_of conn out.now) }
    ensures memory { OnErr result (to_switch conn out.now ≡ true) }
{
    if out.conn == conn && out.to == SWITCH_LINK {
        if let Some(message) = forwarded_in(alloc, out.frame.body.as_slice())? {
            list.push(message)?;
        }
    }
    Ok(())
}

fn forwarded_in(alloc: Global, body: &[u8]) -> Result<Option<Forwarded>, Memory>
    ensures { IfOk result
        (λ found. option_to_list found ≡ views.forwarded_by (sccp_reading body.now)) }
{
    match read_sccp(alloc, body) {
        Ok(message) => forwarded_by(alloc, &message),
        Err(InterfaceFault::Memory) => Err(Memory),
        Err(_) => Ok(None),
    }
}

fn forwarded_by(alloc: Global, message: &Sccp) -> Result<Option<Forwarded>, Memory>
    ensures { IfOk result (λ found. option_to_list found ≡ views.forwarded_by (Ok message.now)) }
{
    match message {
        Sccp::ConnectionRequest {
            data: Some(data),
            ..
        } => forwarded_user(alloc, data.as_slice()),
        Sccp::DataForm1 { data, .. } => forwarded_user(alloc, data.as_slice()),
        _ => Ok(None),
    }
}

fn forwarded_user(alloc: Global, user: &[u8]) -> Result<Option<Forwarded>, Memory>
    ensures { IfOk result
        (λ found. option_to_list found ≡ views.forwarded_in (bssap_reading user.now)) }
{
    match read_bssap(alloc, user) {
        Ok(message) => Ok(forwarded_message(message)),
        Err(InterfaceFault::Memory) => Err(Memory),
        Err(_) => Ok(None),
    }
}

fn forwarded_message(message: Bssap) -> Option<Forwarded>
    ensures { option_to_list result ≡ views.forwarded_in (Ok message) }
{
    match message {
        Bssap::Management(message) => initial_message(message),
        Bssap::Transfer { dlci, message } => {
            let sapi = dlci_sapi(dlci);
            Some(Forwarded { sapi, message })
        }
    }
}

fn initial_message(message: Bssmap) -> Option<Forwarded>
    ensures { option_to_list result ≡ views.forwarded_in (Ok (Management message)) }
{
    match message {
        Bssmap::CompleteLayer3Information { layer3, .. } => Some(Forwarded {
            sapi: Sapi::Zero,
            message: layer3,
        }),
        _ => None,
    }
}

// Appends the message that `out` hands on `sapi` for the connection `conn`, if there is such a
// message.
fn put_handed(
    alloc: Global,
    out: &Out,
    conn: u32,
    sapi: &Sapi,
    list: &mut Vec<Octets>,
) -> Result<(), Memory>
    ensures puts { OnOk result
        (list.new.items ≡ list.old.items ++ handed_of conn sapi.now out.now) }
    ensures memory { OnErr result (to_station conn out.now ≡ true) }
{
    if out.conn == conn && out.to != SWITCH_LINK {
        if let Some(message) = handed_in(alloc, sapi, out.frame.body.as_slice())? {
            list.push(message)?;
        }
    }
    Ok(())
}

fn handed_in(alloc: Global, sapi: &Sapi, body: &[u8]) -> Result<Option<Octets>, Memory>
    ensures { IfOk result
        (λ found. option_to_list found ≡ views.handed_by sapi.now (rsl_reading body.now)) }
{
    match Rsl::read(alloc, body) {
        Ok(Rsl::DataRequest(data)) => Ok(handed_message(sapi, data)),
        Ok(_) => Ok(None),
        Err(RslFault::Memory) => Err(Memory),
        Err(_) => Ok(None),
    }
}

fn handed_message(sapi: &Sapi, data: Data) -> Option<Octets>
    ensures { option_to_list result ≡ views.handed_by sapi.now (Ok (DataRequest «data»)) }
{
    if is_of(sapi, data.link) && is_dtap(data.l3.as_slice()) {
        Some(data.l3)
    } else {
        None
    }
}

// Whether a link identifier has this SAPI.
fn is_of(sapi: &Sapi, link: LinkId) -> bool
    ensures { result ≡ of_sapi sapi.now link }
{
    match sapi {
        Sapi::Zero => link.sapi() == 0,
        Sapi::Three => link.sapi() == 3,
    }
}

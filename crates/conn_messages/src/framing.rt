// SPDX-License-Identifier: MIT OR Apache-2.0
ghost use Rattle.std.specs.Prelude.{◌≡◌, ◌<◌, ◌^◌, None, IfOk};
ghost use Rattle.bssmap_codec.specs.declared.sccp.Sccp.TheVariants.{DataForm1};
ghost use Rattle.bssmap_codec.specs.BssapText.{bssap_text};
ghost use Rattle.bssmap_codec.specs.SccpText.{sccp_write_fault};
ghost use Rattle.conn_messages.specs.Out.{IsCarried, IsWritable, out_of};
ghost use Rattle.conn_messages.specs.Out.{station_out as station_frame, switch_out as switch_frame};
ghost use Rattle.rsl_codec.specs.RslText.{rsl_text, rsl_write_fault};

use crate::parameters::SWITCH_LINK;
use crate::{Message, Out};
use bssmap_codec::{Bssap, Reference, Sccp, transfer_text, write_bssap, write_sccp};
use ipa_framing::{Frame, RSL_STREAM, SCCP_STREAM};
use octets::{Memory, Octets};
use rsl_codec::Rsl;
use std::alloc::Global;

/// The frame that carries `message` of the connection with the number `number`. `Err` only if an
/// allocation fails. Assumes: `number` is below 2^24, and the message can be written.
#[tactic(auto, unfolding(crate::specs::Out::out_of))]
pub(crate) fn frame_of(alloc: Global, number: u32, message: &Message) -> Result<Out, Memory>
    requires number { number < 2 ^ 24 }
    requires writable { IsWritable message.now }
    ensures { IfOk result (λ out. out ≡ out_of number message.now) }
{
    let source = Reference::new(number);
    match message {
        Message::Station { station, message } => station_out(alloc, number, *station, message),
        Message::Request { message } => {
            let data = Some(user_data(alloc, message)?);
            switch_out(alloc, number, &Sccp::ConnectionRequest { source, data })
        }
        Message::Data {
            destination,
            message,
        } => data_out(alloc, number, *destination, message),
        Message::ReleaseComplete { destination } => {
            let destination = *destination;
            switch_out(
                alloc,
                number,
                &Sccp::ReleaseComplete {
                    destination,
                    source,
                },
            )
        }
    }
}

// The frame of an RSL message on the link of a station.
fn station_out(alloc: Global, number: u32, station: u16, message: &Rsl) -> Result<Out, Memory>
    requires { rsl_write_fault message.now ≡ None }
    ensures { IfOk result (λ out. out ≡ station_frame number station message.now) }
{
    let body = station_text(alloc, message)?;
    Ok(Out {
        to: station,
        conn: number,
        frame: Frame {
            stream: RSL_STREAM,
            body: Octets::new(body),
        },
    })
}

// The octets of an RSL message. A DATA REQUEST is written into one buffer of the right size.
fn station_text(alloc: Global, message: &Rsl) -> Result<Vec<u8>, Memory>
    requires { rsl_write_fault message.now ≡ None }
    ensures { IfOk result (λ text. text.items ≡ rsl_text message.now) }
{
    if let Rsl::DataRequest(data) = message {
        return data.request_text(alloc);
    }
    let mut text = Vec::new(alloc);
    message.write(alloc, &mut text).map_err(|_| Memory)?;
    Ok(text)
}

// The frame of a DT1 that carries a BSSAP message, on the link of the switch. A DTAP message is
// written straight into the DT1.
fn data_out(
    alloc: Global,
    number: u32,
    destination: Reference,
    message: &Bssap,
) -> Result<Out, Memory>
    requires { IsCarried message.now }
    ensures { IfOk result (λ out. out
        ≡ switch_frame number (DataForm1 destination (bssap_text message.now))) }
{
    match message {
        Bssap::Transfer { dlci, message } => {
            let body = transfer_text(alloc, destination, *dlci, message.as_slice())?;
            Ok(on_switch_link(number, body))
        }
        Bssap::Management(_) => {
            let data = user_data(alloc, message)?;
            switch_out(alloc, number, &Sccp::DataForm1 { destination, data })
        }
    }
}

// The frame of an SCCP message on the link of the switch.
fn switch_out(alloc: Global, number: u32, message: &Sccp) -> Result<Out, Memory>
    requires { sccp_write_fault message.now ≡ None }
    ensures { IfOk result (λ out. out ≡ switch_frame number message.now) }
{
    let mut body = Vec::new(alloc);
    write_sccp(alloc, message, &mut body).map_err(|_| Memory)?;
    Ok(on_switch_link(number, body))
}

fn on_switch_link(number: u32, body: Vec<u8>) -> Out
    ensures { result ≡ record {
      to = SWITCH_LINK;
      conn = number;
      frame = record { stream = SCCP_STREAM; body = body.items };
    } }
{
    Out {
        to: SWITCH_LINK,
        conn: number,
        frame: Frame {
            stream: SCCP_STREAM,
            body: Octets::new(body),
        },
    }
}

// The octets of a BSSAP message, as SCCP user data.
fn user_data(alloc: Global, message: &Bssap) -> Result<Octets, Memory>
    requires { IsCarried message.now }
    ensures { IfOk result (λ user. user ≡ bssap_text message.now) }
{
    let mut text = Vec::new(alloc);
    write_bssap(alloc, message, &mut text).map_err(|_| Memory)?;
    Ok(Octets::new(text))
}

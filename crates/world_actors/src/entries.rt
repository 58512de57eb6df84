// SPDX-License-Identifier: MIT OR Apache-2.0
ghost use Rattle.std.specs.Prelude.{◌≡◌, IfOk, Ok, Some};
ghost use Rattle.dtap_codec.specs.RrReading.{rr_reading};
ghost use Rattle.rsl_codec.specs.declared.rsl.Rsl.TheVariants.{DataRequest};
ghost use Rattle.world_model.specs.Relay.{commands as commands_by, entry_of as entry_by};
ghost use Rattle.world_model.specs.Relay.{is_change_command as is_change_command_by};
ghost use Rattle.world_model.specs.Stations.{rsl_in as message_in};

use conn_messages::Out;
use dtap_codec::{RrFault, RrMessage};
use ipa_framing::Frame;
use octets::Memory;
use rsl_codec::Rsl;
use std::alloc::Global;
use world_ends::rsl_in;
use world_model::{OutboxEntry, Tenure};

/// The outbox entry of an output. If the output is an ASSIGNMENT COMMAND or a HANDOVER COMMAND, the
/// entry leads to `target`, the tenure whose activation was acknowledged. An entry of any other
/// frame leads nowhere.
pub(crate) fn entry_of(
    alloc: Global,
    target: &Option<Tenure>,
    out: Out,
) -> Result<OutboxEntry, Memory>
    ensures { IfOk result (λ entry. entry ≡ entry_by target.now out) }
{
    let Some(target) = target else {
        return Ok(OutboxEntry { out, target: None });
    };
    let target = if commands(alloc, &out.frame)? {
        Some(*target)
    } else {
        None
    };
    Ok(OutboxEntry { out, target })
}

// Whether a frame carries an ASSIGNMENT COMMAND or a HANDOVER COMMAND for a mobile.
fn commands(alloc: Global, frame: &Frame) -> Result<bool, Memory>
    ensures { IfOk result (λ is. is ≡ commands_by (message_in frame.now)) }
{
    let message = rsl_in(alloc, frame)?;
    let answer = commands_in(alloc, &message);
    drop(message);
    answer
}

fn commands_in(alloc: Global, message: &Option<Rsl>) -> Result<bool, Memory>
    ensures { IfOk result (λ is. is ≡ commands_by message.now) }
{
    match message {
        Some(Rsl::DataRequest(data)) => is_change_command(alloc, data.l3.as_slice()),
        _ => Ok(false),
    }
}

fn is_change_command(alloc: Global, message: &[u8]) -> Result<bool, Memory>
    ensures { IfOk result (λ is. is ≡ is_change_command_by (rr_reading message.now)) }
{
    match RrMessage::read(alloc, message) {
        Ok(RrMessage::AssignmentCommand { .. }) => Ok(true),
        Ok(RrMessage::HandoverCommand { .. }) => Ok(true),
        Ok(_) => Ok(false),
        Err(RrFault::Memory) => Err(Memory),
        Err(_) => Ok(false),
    }
}
